//! Laws of templates and their facts: each is the contract of a function that does nothing.
ghost use Rattle.std.specs.Prelude.{◌≡◌, ℕ, List, [], Some, Ok, ◌∷◌, ◌++◌, None, Err, true, false, is_some, map};
ghost use Rattle.std.specs.List.{IsDistinct, All};
ghost use Rattle.std.specs.Str.{bytes_eq};
ghost use Rattle.cb_facts.specs.Facts.{FactValue, ordered_fact};
ghost use Rattle.cb_facts.specs.Values.{is_multifield, spliced, value_of_field};
ghost use Rattle.cb_facts.specs.declared.single.Single.{Single};
ghost use Rattle.cb_facts.specs.declared.value.Value.TheVariants as value;
ghost use Rattle.cb_facts.specs.declared.value.Value.{Value};
ghost use Rattle.cb_forms.specs.Trees.{Trees};
ghost use Rattle.cb_forms.specs.declared.fault.Fault.TheVariants.{FactDoesNotFit};
ghost use Rattle.cb_templates.specs.Building.{PartValues, built, Given, field_values, slot_values};
ghost use Rattle.cb_templates.specs.Laws.{content_names};
ghost use Rattle.cb_templates.specs.SlotValues.{FitsSlots, IsGiven, IsLeftOut, slot_value};
ghost use Rattle.cb_templates.specs.Slots.{SlotShape, names, slot_named};
ghost use Rattle.cb_templates.specs.TemplateFaults.{slots_form_faults};
ghost use Rattle.cb_templates.specs.TemplateShapes.{slots_said};
ghost use Rattle.cb_templates.specs.Templates.{Templates, slots_of};

/// No two slots of a template without a fault have the same name.
pub fn the_slots_of_a_template_differ()
    ensures { (forms : Trees) → slots_form_faults [] forms ≡ []
        → IsDistinct bytes_eq (names (slots_said forms)) }
{}

/// A fact of a template has the slots of the template and no others, in the template's order, whatever it is given.
pub fn a_fact_has_the_slots_of_its_template()
    ensures { (templates : Templates) (relation : List ℕ) (parts : PartValues)
        (slots : List SlotShape) (fact : FactValue)
        → slots_of templates relation ≡ Some slots → built templates relation parts ≡ Ok fact
        → content_names fact.content ≡ names slots }
{}

/// In a fact of a template a multislot has the fields of the values that it is given, in order, another slot the one value,
/// which is no multifield, and a slot that is not given its default. The fact is of the relation that was written.
pub fn a_slot_has_what_it_is_given()
    ensures multislot { (templates : Templates) (relation : List ℕ) (slots : List SlotShape)
        (given : Given) (fact : FactValue) (name : List ℕ) (slot : SlotShape) (vs : List Value)
        → slots_of templates relation ≡ Some slots → slot_named slots name ≡ Some slot
        → built templates relation (slot_values given) ≡ Ok fact
        → slot.is_multi ≡ true → IsGiven given name vs
        → slot_value fact name ≡ Some (value.Multi (spliced vs)) }
    ensures slot { (templates : Templates) (relation : List ℕ) (slots : List SlotShape)
        (given : Given) (fact : FactValue) (name : List ℕ) (slot : SlotShape) (vs : List Value)
        → slots_of templates relation ≡ Some slots → slot_named slots name ≡ Some slot
        → built templates relation (slot_values given) ≡ Ok fact
        → slot.is_multi ≡ false → IsGiven given name vs
        → (v : Value) × (vs ≡ v ∷ []) × (is_multifield v ≡ false)
        × (slot_value fact name ≡ Some v) }
    ensures default { (templates : Templates) (relation : List ℕ) (slots : List SlotShape)
        (given : Given) (fact : FactValue) (name : List ℕ) (slot : SlotShape)
        → slots_of templates relation ≡ Some slots → slot_named slots name ≡ Some slot
        → built templates relation (slot_values given) ≡ Ok fact
        → IsLeftOut given name
        → (v : Value) × (slot.default ≡ Some v) × (slot_value fact name ≡ Some v) }
    ensures relation { (templates : Templates) (relation : List ℕ) (slots : List SlotShape)
        (given : Given) (fact : FactValue)
        → slots_of templates relation ≡ Some slots
        → built templates relation (slot_values given) ≡ Ok fact
        → fact.relation ≡ relation }
{}

/// What is given makes a fact of a relation with a template exactly where it fits the template's slots.
pub fn what_fits_is_a_fact()
    ensures fits { (templates : Templates) (relation : List ℕ) (slots : List SlotShape)
        (given : Given)
        → slots_of templates relation ≡ Some slots → FitsSlots slots given
        → (fact : FactValue) × (built templates relation (slot_values given) ≡ Ok fact) }
    ensures only { (templates : Templates) (relation : List ℕ) (slots : List SlotShape)
        (given : Given) (fact : FactValue)
        → slots_of templates relation ≡ Some slots
        → built templates relation (slot_values given) ≡ Ok fact → FitsSlots slots given }
{}

/// A fact of a relation without a template has the fields of the values that it is given, in order: a value that is no
/// multifield is one field, and the fields of a multifield stand in its place. Slots don't fit such a relation, and fields
/// alone don't fit a template.
pub fn an_ordered_fact_has_what_it_is_given()
    ensures fields { (templates : Templates) (relation : List ℕ) (vs : List Value)
        → slots_of templates relation ≡ None
        → built templates relation (field_values vs) ≡ Ok (ordered_fact relation (spliced vs)) }
    ensures each { (vs : List Value) → All (λ v. is_multifield v ≡ false) vs
        → map value_of_field (spliced vs) ≡ vs }
    ensures multifield { (before after : List Value) (singles : List Single)
        → spliced (before ++ value.Multi singles ∷ after)
        ≡ spliced before ++ (singles ++ spliced after) }
    ensures no_slots { (templates : Templates) (relation : List ℕ) (given : Given)
        → slots_of templates relation ≡ None
        → built templates relation (slot_values given) ≡ Err FactDoesNotFit }
    ensures no_fields { (templates : Templates) (relation : List ℕ) (slots : List SlotShape)
        (vs : List Value)
        → slots_of templates relation ≡ Some slots
        → built templates relation (field_values vs) ≡ Err FactDoesNotFit }
{}
