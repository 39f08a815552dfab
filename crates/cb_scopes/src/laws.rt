//! Laws of scopes: each is the contract of a function that does nothing.
ghost use Rattle.std.specs.Prelude.{◌≡◌, ◌≢◌, ◌↔◌, ◌≤◌, ℕ, List, [], None, false, length, not, true};
ghost use Rattle.cb_constraints.specs.PatternValues.{PatternValue};
ghost use Rattle.cb_fit.specs.Comparisons.{is_decided};
ghost use Rattle.cb_fit.specs.Decided.{AgreeWith};
ghost use Rattle.cb_exprs.specs.Bindings.{Bindings, value_at};
ghost use Rattle.cb_facts.specs.FactLists.{IndexedFacts};
ghost use Rattle.cb_facts.specs.Facts.{FactContent};
ghost use Rattle.cb_fit.specs.declared.join_fields.JoinField.{JoinField};
ghost use Rattle.cb_matches.specs.Chains.{In};
ghost use Rattle.cb_matches.specs.Matches.{Partial};
ghost use Rattle.cb_nodes.specs.Flat.{AreLists, AreWidths, FlatNode, Lists, holds_alone};
ghost use Rattle.cb_nodes.specs.Lists.{branch_lists};
ghost use Rattle.cb_scopes.specs.Decided.{Sees, field_values, known_fields, variable_values};
ghost use Rattle.cb_scopes.specs.Scopes.{HasValuesOf, scope_of};

use cb_fit::laws::{a_pattern_is_decided_by_values, a_way_gives_values_to_the_bound_names};

/// In each partial match of a list of a branch just the variables of the list's scope have values, whatever facts there are.
pub fn a_partial_match_has_the_values_of_its_scope()
    ensures { (ns : List FlatNode) (fs : IndexedFacts) (k : ℕ) (m : Partial)
        → In m (branch_lists ns fs k) → (x : List ℕ)
        → (value_at x m.env.variables ≢ None) ↔ In x (scope_of ns k) }
{
    a_way_gives_values_to_the_bound_names();
}

/// In each partial match of the lists that nodes make just the variables of the list's scope have values, where none has before the
/// first node.
pub fn the_lists_of_nodes_have_the_values_of_their_scopes()
    ensures { (ns : List FlatNode) (ws : ℕ → ℕ) (fs : IndexedFacts) (first : List Partial) (ls : Lists)
        → AreWidths ns ws → AreLists ns fs first ls
        → ((m : Partial) → In m first → HasValuesOf [] m)
        → (k : ℕ) → k ≤ length ns → (m : Partial) → In m (ls k) → HasValuesOf (scope_of ns k) m }
{
    a_way_gives_values_to_the_bound_names();
}

/// Where just these variables have values, fields agree with their variables just where those with such a variable have the values
/// of their variables: so facts can be looked up by them.
pub fn facts_agree_by_the_values_of_known_fields()
    ensures { (env : Bindings) (names : List (List ℕ))
        → ((x : List ℕ) → (value_at x env.variables ≢ None) ↔ In x names)
        → (js : List JoinField) (content : FactContent) → AgreeWith js env content
        ↔ (variable_values (known_fields js names) env
        ≡ field_values (known_fields js names) content) }
{}

/// A group of one pattern that is decided by values holds for a partial match by whether there is a fact with the pattern's shape and
/// values that decide; one that is negated holds where the other doesn't.
pub fn a_group_of_a_decided_pattern_holds_by_values()
    ensures holds { (p : PatternValue) (fs : IndexedFacts) (m : Partial) → is_decided p ≡ true
        → (holds_alone true p fs m ≡ true) ↔ Sees p fs m }
    ensures negated { (p : PatternValue) (fs : IndexedFacts) (m : Partial)
        → holds_alone false p fs m ≡ not (holds_alone true p fs m) }
{
    a_pattern_is_decided_by_values();
}
