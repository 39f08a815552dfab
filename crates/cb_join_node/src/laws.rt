//! Laws of join nodes: each is the contract of a function that does nothing.
ghost use Rattle.std.specs.Prelude.{◌≡◌, ◌≤◌, ◌+◌, ℕ, List, Option, Some};
ghost use Rattle.cb_alpha.specs.AlphaMemories.{AlphaMemoryValue};
ghost use Rattle.cb_alpha.specs.Turning.{AlphaTurns};
ghost use Rattle.cb_beta.specs.BetaMemories.{BetaMemoryValue, live};
ghost use Rattle.cb_beta.specs.Tokens.{TokenValue};
ghost use Rattle.cb_constraints.specs.PatternValues.{PatternValue};
ghost use Rattle.cb_facts.specs.FactLists.{IndexedFacts};
ghost use Rattle.cb_facts.specs.Facts.{FactValue};
ghost use Rattle.cb_join_node.specs.Bounds.{IsAdded, join_probes, shape_probes};
ghost use Rattle.cb_join_node.specs.Nodes.{IsReady, added_fact};
ghost use Rattle.cb_join_node.specs.declared.node.JoinNode.{JoinNode as Node};
ghost use Rattle.cb_matches.specs.Matches.{Partial};
ghost use Rattle.cb_nodes.specs.Patterns.{pattern_probes};
ghost use Rattle.cb_token_lists.specs.Keeping.{AreAlike, HasSameTokens};
ghost use Rattle.cb_token_lists.specs.Turns.{IsThere, WasThere};

/// A node that is ready stays so where the same numbers stand for the same partial matches, facts and tokens: from nothing and from
/// what is there between changes to what was there when a change began, and to what is there after another change.
pub fn what_is_ready_stays<T>()
    ensures fills { (node : Node T) (at at' : ℕ → Partial) (before : BetaMemoryValue)
        (facts facts' : ℕ → Option (ℕ × FactValue)) (own own' : BetaMemoryValue)
        → IsReady node at (λ number. ⊥) facts own → ((i : ℕ) → WasThere before i → ⊥)
        → ((n : ℕ) → facts n ≡ facts' n) → HasSameTokens own own'
        → IsReady node at' (WasThere before) facts' own' }
    ensures begins { (node : Node T) (at at' : ℕ → Partial) (before before' : BetaMemoryValue)
        (facts facts' : ℕ → Option (ℕ × FactValue)) (own own' : BetaMemoryValue)
        → IsReady node at (IsThere before) facts own → AreAlike at at' (IsThere before) (WasThere before')
        → ((n : ℕ) → facts n ≡ facts' n) → HasSameTokens own own'
        → IsReady node at' (WasThere before') facts' own' }
    ensures ends { (node : Node T) (at at' : ℕ → Partial) (before before' : BetaMemoryValue)
        (facts facts' : ℕ → Option (ℕ × FactValue)) (own own' : BetaMemoryValue)
        → IsReady node at (IsThere before) facts own → AreAlike at at' (IsThere before) (IsThere before')
        → ((n : ℕ) → facts n ≡ facts' n) → HasSameTokens own own'
        → IsReady node at' (IsThere before') facts' own' }
{}

/// A node that is ready stays so where it gets the number of its join.
pub fn the_number_of_a_join_leaves_a_node_ready<T>()
    ensures { (node : Node T) (join : ℕ) (at : ℕ → Partial) (facts : ℕ → Option (ℕ × FactValue)) (own : BetaMemoryValue)
        → IsReady node at (λ number. ⊥) facts own → IsReady (record node { join = join }) at (λ number. ⊥) facts own }
{}

/// A token behind a node that is ready goes on from a partial match that is there.
pub fn a_token_goes_on_from_what_is_there<T>()
    ensures { (node : Node T) (at : ℕ → Partial) (before : BetaMemoryValue)
        (facts : ℕ → Option (ℕ × FactValue)) (own : BetaMemoryValue) (i : ℕ) (t : TokenValue)
        → IsReady node at (IsThere before) facts own → live own i ≡ Some t → IsThere before t.parent }
{}

/// The fact that came to an alpha memory is the one that a change adds, so no more tests are made than for that one. With one for its
/// shape, if one is added, they are all that the pattern may be tested.
pub fn a_join_node_tests_no_more_than_the_pattern_may_be_tested()
    ensures added { (p : PatternValue) (alpha : AlphaMemoryValue) (added : Option FactValue)
        (fs fs' : IndexedFacts) (old new : List Partial) → AlphaTurns p alpha fs fs' → IsAdded added fs fs'
        → join_probes p (added_fact alpha) fs' old new ≤ join_probes p added fs' old new }
    ensures whole { (p : PatternValue) (added : Option FactValue) (fs' : IndexedFacts) (old new : List Partial)
        → join_probes p added fs' old new + shape_probes added ≡ pattern_probes p added fs' old new }
{}
