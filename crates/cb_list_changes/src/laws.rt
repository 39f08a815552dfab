//! Laws of a change of all lists of a branch: each is the contract of a function that does nothing.
ghost use Rattle.std.specs.Prelude.{◌≡◌, ◌↔◌, ◌≤◌, ℕ, [], ◌∷◌, List, Some, length, slice_get, suc};
ghost use Rattle.cb_beta.specs.BetaMemories.{BetaMemoryValue, Gains, IsEnded};
ghost use Rattle.cb_beta.specs.Tokens.{TokenValue};
ghost use Rattle.cb_list_changes.specs.Halfway.{AreHalfway, IsStepped};
ghost use Rattle.cb_list_changes.specs.Resting.{AgreeTo, AreEnded, AreResting, AreRooted, IsPut};
ghost use Rattle.cb_matches.specs.Matches.{Partial, no_parts};
ghost use Rattle.cb_nodes.specs.Flat.{Lists};
ghost use Rattle.cb_token_lists.specs.Keeping.{AreAlike, HasSameTokens};
ghost use Rattle.cb_token_lists.specs.Partials.{AreBelow, LeadsTo, Meets, SourceValue, partial_at};
ghost use Rattle.cb_token_lists.specs.Turns.{IsReadable, IsThere, WasThere};

/// Lists without tokens are the lists of no partial matches.
pub fn empty_lists_rest()
    ensures { (sources : List SourceValue) (lists : List BetaMemoryValue) (ls : Lists) → AreBelow sources
        → ((j : ℕ) (m : BetaMemoryValue) → slice_get lists j ≡ Some m → m ≡ record { tokens = []; gone = []; come = [] })
        → ((j : ℕ) → ls j ≡ []) → AreResting sources lists ls }
{}

/// A change of facts begins with the list before the first element, which stays as it is.
pub fn a_change_of_facts_begins()
    ensures { (sources : List SourceValue) (lists : List BetaMemoryValue) (old new : Lists)
        → AreResting sources lists old → old 0 ≡ new 0 → AreHalfway sources lists lists old new 0 }
{}

/// A filling begins with the one partial match of no parts, which comes to the list before the first element.
pub fn a_filling_begins()
    ensures { (sources : List SourceValue) (before lists : List BetaMemoryValue) (old new : Lists)
        (m first : BetaMemoryValue) (number : ℕ) (t : TokenValue)
        → AreResting sources before old → old 0 ≡ [] → new 0 ≡ no_parts ∷ []
        → slice_get before 0 ≡ Some m → Gains m first number t → IsPut before lists 0 first
        → AreHalfway sources before lists old new 0 }
{}

/// When a node has changed the list behind it, one list more has turned. The node may have read other lists than these, as long as
/// they are the same up to its own.
pub fn a_step_leads_on()
    ensures { (sources : List SourceValue) (before lists read lists' : List BetaMemoryValue) (old new : Lists)
        (k : ℕ) (s : SourceValue) (from own own' : BetaMemoryValue)
        → AreHalfway sources before lists old new k → slice_get sources k ≡ Some s
        → slice_get lists s.from ≡ Some from → slice_get lists (suc k) ≡ Some own → AgreeTo k lists read
        → IsStepped sources read s from own own' (old (suc k)) (new (suc k)) → IsPut lists lists' (suc k) own'
        → AreHalfway sources before lists' old new (suc k) }
{}

/// In a change, what was there when it began stands for what it stood for then.
pub fn what_was_there_stands_for_the_same()
    ensures { (sources : List SourceValue) (before lists : List BetaMemoryValue) (old new : Lists) (k : ℕ)
        → AreResting sources before old → AreHalfway sources before lists old new k
        → (j : ℕ) (m m' : BetaMemoryValue) → slice_get before j ≡ Some m → slice_get lists j ≡ Some m'
        → AreAlike (partial_at sources before j) (partial_at sources lists j) (IsThere m) (WasThere m') }
{}

/// And the same is met by going down from it.
pub fn what_is_met_from_what_was_there_stays()
    ensures { (sources : List SourceValue) (before lists : List BetaMemoryValue) (old new : Lists) (k : ℕ)
        → AreResting sources before old → AreHalfway sources before lists old new k
        → (from inner g i : ℕ) (m : BetaMemoryValue) → LeadsTo sources from inner
        → slice_get before inner ≡ Some m → IsThere m i
        → Meets sources before from g inner i ↔ Meets sources lists from g inner i }
{}

/// What a number stands for in a list, and what is met by going down from it, is the same wherever the lists up to that one are.
pub fn what_stands_behind_says_nothing()
    ensures partial { (sources : List SourceValue) (lists lists' : List BetaMemoryValue) (k : ℕ)
        → AreBelow sources → AgreeTo k lists lists' → (j i : ℕ) → j ≤ k
        → partial_at sources lists j i ≡ partial_at sources lists' j i }
    ensures met { (sources : List SourceValue) (lists lists' : List BetaMemoryValue) (k : ℕ)
        → AreBelow sources → AgreeTo k lists lists' → (from g j i : ℕ) → j ≤ k
        → Meets sources lists from g j i ↔ Meets sources lists' from g j i }
{}

/// When all lists have turned and the change ends in each, they rest again.
pub fn a_change_ends()
    ensures { (sources : List SourceValue) (before lists ended : List BetaMemoryValue) (old new : Lists) (k : ℕ)
        → AreHalfway sources before lists old new k → length lists ≤ suc k → AreEnded lists ended
        → AreResting sources ended new }
{}

/// What is there when all lists have turned stands for the same when the change has ended, and the same is met by going down from
/// it.
pub fn the_end_of_a_change_moves_nothing()
    ensures same { (m m' : BetaMemoryValue) → IsEnded m m' → HasSameTokens m m' }
    ensures alike { (sources : List SourceValue) (before lists ended : List BetaMemoryValue) (old new : Lists) (k : ℕ)
        → AreHalfway sources before lists old new k → length lists ≤ suc k → AreEnded lists ended
        → (j : ℕ) (m m' : BetaMemoryValue) → slice_get lists j ≡ Some m → slice_get ended j ≡ Some m'
        → AreAlike (partial_at sources lists j) (partial_at sources ended j) (IsThere m) (IsThere m') }
    ensures met { (sources : List SourceValue) (before lists ended : List BetaMemoryValue) (old new : Lists) (k : ℕ)
        → AreHalfway sources before lists old new k → length lists ≤ suc k → AreEnded lists ended
        → (from inner g i : ℕ) (m : BetaMemoryValue) → LeadsTo sources from inner
        → slice_get lists inner ≡ Some m → IsThere m i
        → Meets sources lists from g inner i ↔ Meets sources ended from g inner i }
{}

/// From each token that can be read, one that can be read is met in each list that is come to by going down.
pub fn what_can_be_read_goes_on_from_what_can_be_read()
    ensures { (sources : List SourceValue) (lists : List BetaMemoryValue) (from inner i : ℕ) (before within : BetaMemoryValue)
        → AreRooted sources lists → LeadsTo sources from inner
        → slice_get lists from ≡ Some before → slice_get lists inner ≡ Some within → IsReadable within i
        → (g : ℕ) × IsReadable before g × Meets sources lists from g inner i }
{}
