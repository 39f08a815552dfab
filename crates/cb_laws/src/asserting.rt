//! What is asserted is there.
ghost use Rattle.std.specs.Prelude.{◌≡◌, ◌↔◌, ◌⊎◌, ◌+◌, ◌<◌, ◌≤◌, ℕ, List, Option, Some, Ok, Err, false, true};
ghost use Rattle.std.specs.List.{Contains};
ghost use Rattle.cb_actions.specs.Acts.{give, stop};
ghost use Rattle.cb_actions.specs.Effects.{fact_added};
ghost use Rattle.cb_actions.specs.Worlds.{World};
ghost use Rattle.cb_actions.specs.declared.act.EarlyEnd.TheVariants as ended;
ghost use Rattle.cb_actions.specs.declared.act.Limit.TheVariants.{Numbers};
ghost use Rattle.cb_facts.specs.FactLists.{IsAbsent, fact_at, with_fact};
ghost use Rattle.cb_facts.specs.Facts.{FactValue};
ghost use Rattle.cb_facts.specs.declared.value.Value.{Value};
ghost use Rattle.cb_facts.specs.declared.value.Value.TheVariants as value;
ghost use Rattle.cb_knowledge_base.specs.KnowledgeBase.{greatest_index};
ghost use Rattle.cb_laws.specs.Memories.{AreAsserted, IsSound, IsThere, has_stamps_for};

/// Where a fact is asserted and its address is the answer, it is there under that index. If it was there, that is the index
/// that it had, and nothing changes; else it is the next, which is then the one given last. An index is left as long as the
/// greatest was not given; where none is, the assertion ends at the limit of numbers, and nothing changes. It ends there too
/// where no stamps are left for the activations that come with the fact, and then the fact is there all the same.
pub fn what_is_asserted_has_the_index_returned()
    ensures there { (fact : FactValue) (s : World) (answer : Option Value) → IsSound s.memory
        → (fact_added fact s).answer ≡ Ok answer
        → (ix : ℕ) × (answer ≡ Some (value.Fact ix))
        × (fact_at (fact_added fact s).state.memory.network.facts ix ≡ Some fact) }
    ensures known { (fact : FactValue) (s : World) (ix : ℕ) → IsSound s.memory
        → fact_at s.memory.network.facts ix ≡ Some fact
        → fact_added fact s ≡ give (Some (value.Fact ix)) s }
    ensures next { (fact : FactValue) (s : World) → IsSound s.memory
        → IsAbsent s.memory.network.facts fact → s.memory.last < greatest_index
        → (fact_added fact s).state.memory.network.facts
        ≡ with_fact s.memory.network.facts (s.memory.last + 1) fact }
    ensures last { (fact : FactValue) (s : World) → IsSound s.memory
        → IsAbsent s.memory.network.facts fact → s.memory.last < greatest_index
        → (fact_added fact s).state.memory.last ≡ s.memory.last + 1 }
    ensures address { (fact : FactValue) (s : World) → IsSound s.memory
        → IsAbsent s.memory.network.facts fact → s.memory.last < greatest_index
        → has_stamps_for fact s ≡ true
        → (fact_added fact s).answer ≡ Ok (Some (value.Fact (s.memory.last + 1))) }
    ensures no_stamps { (fact : FactValue) (s : World) → IsSound s.memory
        → IsAbsent s.memory.network.facts fact → s.memory.last < greatest_index
        → has_stamps_for fact s ≡ false
        → (fact_added fact s).answer ≡ Err (ended.Limit Numbers) }
    ensures none { (fact : FactValue) (s : World) → IsSound s.memory
        → IsAbsent s.memory.network.facts fact → greatest_index ≤ s.memory.last
        → fact_added fact s ≡ stop (ended.Limit Numbers) s }
{}

/// After facts were asserted, one after another, each with its address as the answer, a fact is there exactly where it was
/// before or is one of them; those that were there have their indices. However an assertion ends, no fact is lost, and each
/// has the index that it had.
pub fn what_is_asserted_is_there()
    ensures there { (s t : World) (facts : List FactValue) (fact : FactValue) → IsSound s.memory
        → AreAsserted s facts t
        → IsThere t.memory fact ↔ (IsThere s.memory fact ⊎ Contains facts fact) }
    ensures stays { (s t : World) (facts : List FactValue) (fact : FactValue) (ix : ℕ)
        → IsSound s.memory → AreAsserted s facts t
        → fact_at s.memory.network.facts ix ≡ Some fact
        → fact_at t.memory.network.facts ix ≡ Some fact }
    ensures sound { (s t : World) (facts : List FactValue) → IsSound s.memory
        → AreAsserted s facts t → IsSound t.memory }
    ensures none_lost { (asserted fact : FactValue) (s : World) (ix : ℕ) → IsSound s.memory
        → fact_at s.memory.network.facts ix ≡ Some fact
        → fact_at (fact_added asserted s).state.memory.network.facts ix ≡ Some fact }
    ensures still_sound { (asserted : FactValue) (s : World) → IsSound s.memory
        → IsSound (fact_added asserted s).state.memory }
{}
