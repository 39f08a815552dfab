//! Laws of what a change does to an alpha memory, as its pattern sees it: each is the contract of a function that does nothing.
//!
//! They lead from what an alpha memory is between changes, by what a call says of it, to what it is in a change, and back.
ghost use Rattle.std.specs.Prelude.{◌≡◌, ◌≢◌, ℕ, List, [], None, Some, false, true};
ghost use Rattle.cb_alpha.specs.AlphaMemories.{AlphaMemoryValue, GainsFact, GainsJoin, IsEnded, LosesFact, index_of, live};
ghost use Rattle.cb_alpha.specs.Turning.{AlphaTurns, HasJoin, IsAlphaOver};
ghost use Rattle.cb_constraints.specs.PatternValues.{PatternValue};
ghost use Rattle.cb_facts.specs.FactLists.{IndexedFacts, fact_at, with_fact, without_fact};
ghost use Rattle.cb_facts.specs.Facts.{FactValue};
ghost use Rattle.cb_fit.specs.Shapes.{is_selected};
ghost use Rattle.cb_fit.specs.declared.join_fields.JoinField.{JoinField};
ghost use Rattle.cb_matches.specs.Order.{IsRising};

/// A memory without facts has the candidates of no facts.
pub fn an_alpha_memory_begins_over_no_facts()
    ensures { (p : PatternValue) (joins : List (List JoinField))
        → IsAlphaOver p [] (record { candidates = []; gone = None; come = None; joins = joins }) }
{}

/// A memory to which a fact that the pattern selects comes turns to the facts with that one.
pub fn a_fact_that_comes_turns_an_alpha_memory()
    ensures { (p : PatternValue) (m m' : AlphaMemoryValue) (number ix : ℕ) (f : FactValue) (fs : IndexedFacts)
        → IsAlphaOver p fs m → GainsFact m m' number (ix, f) → fact_at fs ix ≡ None → is_selected p f ≡ true
        → AlphaTurns p m' fs (with_fact fs ix f) }
{}

/// A fact that is not selected for the pattern comes to working memory and leaves the memory as it is.
pub fn a_fact_that_is_not_selected_comes()
    ensures { (p : PatternValue) (m : AlphaMemoryValue) (ix : ℕ) (f : FactValue) (fs : IndexedFacts)
        → IsAlphaOver p fs m → fact_at fs ix ≡ None → is_selected p f ≡ false
        → AlphaTurns p m fs (with_fact fs ix f) }
{}

/// A memory from which a fact goes turns to the facts without that one.
pub fn a_fact_that_goes_turns_an_alpha_memory()
    ensures { (p : PatternValue) (m m' : AlphaMemoryValue) (number ix : ℕ) (fs : IndexedFacts)
        → IsAlphaOver p fs m → LosesFact m m' number ix → IsRising fs
        → AlphaTurns p m' fs (without_fact fs ix) }
{}

/// A fact that the memory hasn't goes from working memory and leaves the memory as it is.
pub fn a_fact_that_is_absent_goes()
    ensures { (p : PatternValue) (m : AlphaMemoryValue) (ix : ℕ) (fs : IndexedFacts)
        → IsAlphaOver p fs m → ((n : ℕ) → index_of (live m n) ≢ Some ix)
        → AlphaTurns p m fs (without_fact fs ix) }
{}

/// So does one that is not selected for the pattern.
pub fn a_fact_that_is_not_selected_goes()
    ensures { (p : PatternValue) (m : AlphaMemoryValue) (ix : ℕ) (f : FactValue) (fs : IndexedFacts)
        → IsAlphaOver p fs m → IsRising fs → fact_at fs ix ≡ Some f → is_selected p f ≡ false
        → AlphaTurns p m fs (without_fact fs ix) }
{}

/// Where no fact comes and none goes, a change leads from the facts to the same facts.
pub fn an_alpha_memory_that_stays_turns_to_itself()
    ensures { (p : PatternValue) (m : AlphaMemoryValue) (fs : IndexedFacts)
        → IsAlphaOver p fs m → AlphaTurns p m fs fs }
{}

/// After the end of a change, the memory has the candidates of the facts to which the change led.
pub fn a_change_of_an_alpha_memory_ends()
    ensures { (p : PatternValue) (m m' : AlphaMemoryValue) (fs fs' : IndexedFacts)
        → AlphaTurns p m fs fs' → IsEnded m m' → IsAlphaOver p fs' m' }
{}

/// A join more leaves the facts as they are, and the joins that were there, and finds the facts by its fields.
pub fn a_join_more_leaves_the_facts()
    ensures facts { (p : PatternValue) (m m' : AlphaMemoryValue) (fs : IndexedFacts) (join : ℕ) (fields : List JoinField)
        → IsAlphaOver p fs m → GainsJoin m m' join fields → IsAlphaOver p fs m' }
    ensures others { (m m' : AlphaMemoryValue) (join other : ℕ) (fields others : List JoinField)
        → GainsJoin m m' join fields → HasJoin m other others → HasJoin m' other others }
    ensures here { (m m' : AlphaMemoryValue) (join : ℕ) (fields : List JoinField)
        → GainsJoin m m' join fields → HasJoin m' join fields }
{}
