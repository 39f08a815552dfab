//! What a `modify` does to the facts once its arguments have values.
ghost use Rattle.std.specs.Prelude.{◌≡◌, ◌≢◌, ◌∷◌, ℕ, List, Some, None, Ok, Err};
ghost use Rattle.cb_actions.specs.Acts.{give, stop};
ghost use Rattle.cb_actions.specs.Effects.{index_said, modified, modified_at, shared_out};
ghost use Rattle.cb_actions.specs.Worlds.{World};
ghost use Rattle.cb_actions.specs.declared.act.EarlyEnd.TheVariants as ended;
ghost use Rattle.cb_eval.specs.Constants.{false_symbol};
ghost use Rattle.cb_exprs.specs.Shapes.{SlotCounts};
ghost use Rattle.cb_facts.specs.FactLists.{IsAbsent, fact_at};
ghost use Rattle.cb_facts.specs.Facts.{FactValue};
ghost use Rattle.cb_facts.specs.declared.value.Value.{Value};
ghost use Rattle.cb_facts.specs.declared.value.Value.TheVariants as value;
ghost use Rattle.cb_forms.specs.declared.fault.Fault.{Fault};
ghost use Rattle.cb_forms.specs.declared.fault.Fault.TheVariants.{NoSuchFact, WrongType};
ghost use Rattle.cb_laws.specs.Memories.{IsSound};
ghost use Rattle.cb_laws.specs.Modified.{IsReplaced};
ghost use Rattle.cb_templates.specs.Building.{Given, changed};

/// A `modify` gives slots of one fact new values. If the fact that it makes is there under no index, that comes in the place of the old
/// one, under its index, and the value is its address. If it is the old one itself, nothing changes, and the value is its
/// address all the same; if another fact is equal to it, nothing changes, and the value is FALSE.
pub fn what_is_modified_keeps_its_index()
    ensures comes { (ix : ℕ) (given : Given) (s : World) (old fact : FactValue) → IsSound s.memory
        → fact_at s.memory.network.facts ix ≡ Some old
        → changed s.templates old given ≡ Ok fact → IsAbsent s.memory.network.facts fact
        → IsReplaced ix fact s (modified_at given ix s) }
    ensures same { (ix : ℕ) (given : Given) (s : World) (old : FactValue) → IsSound s.memory
        → fact_at s.memory.network.facts ix ≡ Some old
        → changed s.templates old given ≡ Ok old
        → modified_at given ix s ≡ give (Some (value.Fact ix)) s }
    ensures equal { (ix other : ℕ) (given : Given) (s : World) (old fact : FactValue)
        → IsSound s.memory → fact_at s.memory.network.facts ix ≡ Some old
        → changed s.templates old given ≡ Ok fact
        → fact_at s.memory.network.facts other ≡ Some fact → ix ≢ other
        → modified_at given ix s ≡ give (Some false_symbol) s }
{}

/// The faults of a `modify` whose arguments have values, the first that fits: a first value that is neither an address nor an
/// integer is CB17; where no fact has the index, an address among them, that is CB20; then come the faults of the new slots.
/// Nothing changes with any of them.
pub fn a_modify_that_does_not_fit_changes_nothing()
    ensures fact { (slots : SlotCounts) (v : Value) (vs : List Value) (ix : ℕ) (s : World)
        → index_said v ≡ Ok ix
        → modified slots (v ∷ vs) s ≡ modified_at (shared_out slots vs) ix s }
    ensures no_index { (slots : SlotCounts) (v : Value) (vs : List Value) (fault : Fault) (s : World)
        → index_said v ≡ Err fault
        → modified slots (v ∷ vs) s ≡ stop (ended.Fault fault) s }
    ensures symbol { (name : List ℕ) → index_said (value.Symbol name) ≡ Err WrongType }
    ensures address { (ix : ℕ) → index_said (value.Fact ix) ≡ Ok ix }
    ensures missing { (ix : ℕ) (given : Given) (s : World)
        → fact_at s.memory.network.facts ix ≡ None
        → modified_at given ix s ≡ stop (ended.Fault NoSuchFact) s }
    ensures slots { (ix : ℕ) (given : Given) (s : World) (old : FactValue) (fault : Fault)
        → fact_at s.memory.network.facts ix ≡ Some old
        → changed s.templates old given ≡ Err fault
        → modified_at given ix s ≡ stop (ended.Fault fault) s }
{}
