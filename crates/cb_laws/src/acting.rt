//! What `assert` and `retract` do to the facts once their arguments have values.
ghost use Rattle.std.specs.List.{list_all};
ghost use Rattle.std.specs.Prelude.{◌≡◌, ◌⊎◌, ◌∷◌, ℕ, ℤ, List, [], Option, Some, None, Ok, Err, false, true, map};
ghost use Rattle.cb_actions.specs.Actions.{carried, carried_values};
ghost use Rattle.cb_actions.specs.Acts.{after_writing, stop};
ghost use Rattle.cb_actions.specs.Effects.{asserted, fact_added, is_retractable, modified, parts_of, retracted};
ghost use Rattle.cb_actions.specs.Laws.{with_answer};
ghost use Rattle.cb_actions.specs.Worlds.{World};
ghost use Rattle.cb_actions.specs.declared.act.EarlyEnd.{EarlyEnd};
ghost use Rattle.cb_actions.specs.declared.act.EarlyEnd.TheVariants as ended;
ghost use Rattle.cb_actions.specs.declared.act.Limit.TheVariants.{Numbers};
ghost use Rattle.cb_exprs.specs.Shapes.{Shape, SlotCounts};
ghost use Rattle.cb_exprs.specs.Terms.{Terms, effect};
ghost use Rattle.cb_exprs.specs.declared.effect.Effect.TheVariants as kind;
ghost use Rattle.cb_facts.specs.FactLists.{fact_at};
ghost use Rattle.cb_facts.specs.Facts.{FactValue};
ghost use Rattle.cb_facts.specs.declared.value.Value.{Value};
ghost use Rattle.cb_facts.specs.declared.value.Value.TheVariants as value;
ghost use Rattle.cb_forms.specs.declared.fault.Fault.{Fault};
ghost use Rattle.cb_forms.specs.declared.fault.Fault.TheVariants.{NoSuchFact, WrongType};
ghost use Rattle.cb_laws.specs.Memories.{AreAsserted, ChangesFactsOnly, IsSound, IsUnwatched};
ghost use Rattle.cb_laws.specs.Naming.{LeavesUnnamed, LeavesUpToMissing, names_fact};
ghost use Rattle.cb_templates.specs.Building.{built, field_values, slot_values};

/// An `assert` asserts its one fact, and its value is the address under which that fact is there. Only where the fact has a
/// fault, or no number is left for it or for the activations that come with it, does it end without one: with the fault, and
/// nothing changes, or at the limit of numbers. However it ends, it changes the facts and the agenda alone, and where neither
/// facts nor activations are watched it writes nothing.
pub fn an_assertion_returns_its_address()
    ensures asserts { (shape : Shape) (vs : List Value) (s : World) (fact : FactValue)
        → built s.templates shape.relation (parts_of shape.slots vs) ≡ Ok fact
        → asserted shape vs s ≡ fact_added fact s }
    ensures asserted { (shape : Shape) (vs : List Value) (s : World) (fact : FactValue)
        (answer : Option Value)
        → IsSound s.memory
        → built s.templates shape.relation (parts_of shape.slots vs) ≡ Ok fact
        → (asserted shape vs s).answer ≡ Ok answer
        → (ix : ℕ) × (answer ≡ Some (value.Fact ix))
        × (fact_at (asserted shape vs s).state.memory.network.facts ix ≡ Some fact) }
    ensures one { (shape : Shape) (vs : List Value) (s : World) (fact : FactValue)
        (answer : Option Value)
        → built s.templates shape.relation (parts_of shape.slots vs) ≡ Ok fact
        → (asserted shape vs s).answer ≡ Ok answer
        → AreAsserted s (fact ∷ []) (asserted shape vs s).state }
    ensures limit { (shape : Shape) (vs : List Value) (s : World) (fact : FactValue) (e : EarlyEnd)
        → built s.templates shape.relation (parts_of shape.slots vs) ≡ Ok fact
        → (asserted shape vs s).answer ≡ Err e → e ≡ ended.Limit Numbers }
    ensures fault { (shape : Shape) (vs : List Value) (s : World) (fault : Fault)
        → built s.templates shape.relation (parts_of shape.slots vs) ≡ Err fault
        → asserted shape vs s ≡ stop (ended.Fault fault) s }
    ensures only { (shape : Shape) (vs : List Value) (s : World)
        → ChangesFactsOnly s (asserted shape vs s).state }
    ensures quiet { (shape : Shape) (vs : List Value) (s : World) → IsUnwatched s
        → (asserted shape vs s).written ≡ [] }
{}

/// A `retract` without a fault leaves exactly the facts that no argument names. With the fault that there is no such fact
/// (CB20) it leaves those that no argument before that one names. Where a value is neither an address, nor an
/// index, nor `*`, it ends with CB17, and nothing is retracted. The only other way to end is at the limit of numbers, where a
/// fact that goes makes matches come and no stamps are left for them. However it ends, it changes the facts and the agenda
/// alone, and where neither facts nor activations are watched it writes nothing.
pub fn a_retraction_takes_what_is_named()
    ensures fine { (vs : List Value) (s : World) (answer : Option Value) → IsSound s.memory
        → (retracted vs s).answer ≡ Ok answer
        → LeavesUnnamed s.memory vs (retracted vs s).state.memory }
    ensures missing { (vs : List Value) (s : World) → IsSound s.memory
        → (retracted vs s).answer ≡ Err (ended.Fault NoSuchFact)
        → LeavesUpToMissing s vs (retracted vs s).state }
    ensures wrong_type { (vs : List Value) (s : World)
        → (retracted vs s).answer ≡ Err (ended.Fault WrongType)
        → (retracted vs s).state ≡ s }
    ensures first { (vs : List Value) (s : World) → list_all is_retractable vs ≡ false
        → (retracted vs s).answer ≡ Err (ended.Fault WrongType) }
    ensures named { (ix : ℕ) (v : Value) → names_fact ix v ≡ true → is_retractable v ≡ true }
    ensures index { (n : ℤ) → is_retractable (value.Int n) ≡ true }
    ensures ends { (vs : List Value) (s : World) → list_all is_retractable vs ≡ true
        → ((retracted vs s).answer ≡ Ok None)
        ⊎ (((retracted vs s).answer ≡ Err (ended.Fault NoSuchFact))
        ⊎ ((retracted vs s).answer ≡ Err (ended.Limit Numbers))) }
    ensures only { (vs : List Value) (s : World) → ChangesFactsOnly s (retracted vs s).state }
    ensures quiet { (vs : List Value) (s : World) → IsUnwatched s
        → (retracted vs s).written ≡ [] }
{}

/// `assert`, `retract` and `modify` carry their arguments out first, and do with the values what the laws above, and those of
/// `modifying`, say. Where an argument ends with a fault or at a limit, the command does so too, and no fact changes.
pub fn a_command_acts_on_the_values_of_its_arguments()
    ensures assert { (shape : Shape) (ts : Terms) (s : World) (vs : List Value)
        → (carried_values None [] ts s).answer ≡ Ok vs
        → carried (effect (kind.Assert shape) ts) s ≡ after_writing (carried_values None [] ts s).written
        (asserted shape vs (carried_values None [] ts s).state) }
    ensures assert_ended { (shape : Shape) (ts : Terms) (s : World) (e : EarlyEnd)
        → (carried_values None [] ts s).answer ≡ Err e
        → carried (effect (kind.Assert shape) ts) s ≡ with_answer (carried_values None [] ts s) (Err e) }
    ensures retract { (ts : Terms) (s : World) (vs : List Value)
        → (carried_values None [] ts s).answer ≡ Ok vs
        → carried (effect kind.Retract ts) s ≡ after_writing (carried_values None [] ts s).written
        (retracted vs (carried_values None [] ts s).state) }
    ensures retract_ended { (ts : Terms) (s : World) (e : EarlyEnd)
        → (carried_values None [] ts s).answer ≡ Err e
        → carried (effect kind.Retract ts) s ≡ with_answer (carried_values None [] ts s) (Err e) }
    ensures modify { (slots : SlotCounts) (ts : Terms) (s : World) (vs : List Value)
        → (carried_values None [] ts s).answer ≡ Ok vs
        → carried (effect (kind.Modify slots) ts) s ≡ after_writing (carried_values None [] ts s).written
        (modified slots vs (carried_values None [] ts s).state) }
    ensures modify_ended { (slots : SlotCounts) (ts : Terms) (s : World) (e : EarlyEnd)
        → (carried_values None [] ts s).answer ≡ Err e
        → carried (effect (kind.Modify slots) ts) s ≡ with_answer (carried_values None [] ts s) (Err e) }
{}

/// The values of a fact's expressions go to its fields, or to its slots, in the order in which they are written.
pub fn each_value_goes_where_it_is_written()
    ensures fields { (vs : List Value) → parts_of None vs ≡ field_values vs }
    ensures slots { (given : List (List ℕ × Value))
        → parts_of (Some (map (λ g. g.0) given)) (map (λ g. g.1) given)
        ≡ slot_values (map (λ g. (g.0, g.1 ∷ [])) given) }
{}
