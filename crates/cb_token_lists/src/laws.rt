//! Laws of lists of tokens: each is the contract of a function that does nothing.
ghost use Rattle.std.specs.Prelude.{◌≡◌, ℕ, List, Some, map, slice_get, suc};
ghost use Rattle.cb_beta.specs.BetaMemories.{BetaMemoryValue};
ghost use Rattle.cb_beta.specs.Tokens.{TokenValue, partial_after, token_at};
ghost use Rattle.cb_matches.specs.Matches.{Partial};
ghost use Rattle.cb_matches.specs.Order.{IsOnce};
ghost use Rattle.cb_nodes.specs.Changes.{Holds, PartialMoves};
ghost use Rattle.cb_token_lists.specs.Partials.{AreBelow, AreClosed, Extends, GoesOnFrom, Meets, SourceValue, partial_at, tokens_in};
ghost use Rattle.cb_token_lists.specs.Turns.{Turns, numbers};

/// What a token stands for is what its parent stands for, in the list that its own goes on from, and what it took.
pub fn a_token_goes_on_from_its_parent()
    ensures { (sources : List SourceValue) (lists : List BetaMemoryValue) → AreBelow sources
        → (k i : ℕ) (s : SourceValue) → slice_get sources k ≡ Some s
        → partial_at sources lists (suc k) i
        ≡ partial_after s.address (tokens_in lists (suc k)) (partial_at sources lists s.from) i }
{}

/// A token that can still be read stands for the partial match that it stood for.
pub fn what_can_be_read_stays()
    ensures { (sources : List SourceValue) (lists lists' : List BetaMemoryValue)
        → AreClosed sources lists → Extends lists lists' → (k i : ℕ) (t : TokenValue)
        → token_at (tokens_in lists k) i ≡ Some t
        → partial_at sources lists k i ≡ partial_at sources lists' k i }
{}

/// A token stands for what goes on from each partial match that is met by going down from it.
pub fn a_token_goes_on_from_all_that_are_met()
    ensures { (sources : List SourceValue) (lists : List BetaMemoryValue) → AreBelow sources
        → (j a k i : ℕ) → Meets sources lists j a k i
        → GoesOnFrom (partial_at sources lists j a) (partial_at sources lists k i) }
{}

/// A beta memory in a change holds the partial matches of the list that it turned to, and what went and came in it is what leads
/// there from the list before, each once.
pub fn a_list_that_turned_tells_what_it_holds()
    ensures holds { (at : ℕ → Partial) (m : BetaMemoryValue) (old new : List Partial)
        → Turns at m old new → Holds (map at (numbers m)) new }
    ensures moves { (at : ℕ → Partial) (m : BetaMemoryValue) (old new : List Partial)
        → Turns at m old new → PartialMoves old new (map at m.gone) (map at m.come) }
    ensures gone_once { (at : ℕ → Partial) (m : BetaMemoryValue) (old new : List Partial)
        → Turns at m old new → IsOnce (map at m.gone) }
    ensures come_once { (at : ℕ → Partial) (m : BetaMemoryValue) (old new : List Partial)
        → Turns at m old new → IsOnce (map at m.come) }
{}
