//! What is retracted is gone, and nothing else.
ghost use Rattle.std.specs.Prelude.{◌≡◌, ◌++◌, ◌∷◌, ℕ, List, [], Some, Ok, Err, codes, true};
ghost use Rattle.std.specs.List.{list_all};
ghost use Rattle.cb_actions.specs.Acts.{each};
ghost use Rattle.cb_actions.specs.Effects.{is_retractable, retracted_one};
ghost use Rattle.cb_actions.specs.Worlds.{World};
ghost use Rattle.cb_actions.specs.declared.act.EarlyEnd.TheVariants as ended;
ghost use Rattle.cb_facts.specs.FactLists.{fact_at};
ghost use Rattle.cb_facts.specs.Facts.{FactValue};
ghost use Rattle.cb_facts.specs.declared.value.Value.{Value};
ghost use Rattle.cb_facts.specs.declared.value.Value.TheVariants as value;
ghost use Rattle.cb_forms.specs.declared.fault.Fault.TheVariants.{NoSuchFact};
ghost use Rattle.cb_laws.specs.Memories.{IsSound};
ghost use Rattle.cb_laws.specs.Naming.{IsMissing, LeavesUnnamed, LeavesUpToMissing};

/// Where every index had a fact, exactly those facts are left that no argument names; after `*` there is none. At the first
/// index that no fact has the retraction ends: those are left that no argument before it names. However it ends, no fact
/// comes, and each that is left has its index.
pub fn what_is_retracted_is_gone()
    ensures fine { (vs : List Value) (s : World) → IsSound s.memory
        → list_all is_retractable vs ≡ true
        → (each retracted_one vs s).answer ≡ Ok tt
        → LeavesUnnamed s.memory vs (each retracted_one vs s).state.memory }
    ensures fault { (vs : List Value) (s : World) → IsSound s.memory
        → list_all is_retractable vs ≡ true
        → (each retracted_one vs s).answer ≡ Err (ended.Fault NoSuchFact)
        → LeavesUpToMissing s vs (each retracted_one vs s).state }
    ensures missing { (before after : List Value) (wrong : Value) (s : World)
        → (each retracted_one before s).answer ≡ Ok tt
        → IsMissing (each retracted_one before s).state.memory wrong
        → (each retracted_one (before ++ wrong ∷ after) s).answer ≡ Err (ended.Fault NoSuchFact) }
    ensures all { (s : World) → IsSound s.memory
        → (retracted_one (value.Symbol (codes "*")) s).answer ≡ Ok tt
        → (retracted_one (value.Symbol (codes "*")) s).state.memory.network.facts ≡ [] }
    ensures none_comes { (vs : List Value) (s : World) (fact : FactValue) (ix : ℕ)
        → IsSound s.memory
        → fact_at (each retracted_one vs s).state.memory.network.facts ix ≡ Some fact
        → fact_at s.memory.network.facts ix ≡ Some fact }
    ensures sound { (vs : List Value) (s : World) → IsSound s.memory
        → IsSound (each retracted_one vs s).state.memory }
{}
