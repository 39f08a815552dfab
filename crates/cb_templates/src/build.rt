//! Facts from the values that they are given.
ghost use Rattle.std.specs.Prelude.{◌≡◌, None, Ok, Err, IfOk, IfErr, OnOk, is_some, option_map};
ghost use Rattle.std.specs.List.{list_all};
ghost use Rattle.cb_facts.specs.Facts.{ordered_fact};
ghost use Rattle.cb_facts.specs.Values.{spliced};
ghost use Rattle.cb_templates.specs.Building.{built, changed, filled, fits, given_for, is_one_value, one_value, part_values, value_or_default, slots_built, can_take, with_kept_slot, with_kept_slots};
ghost use Rattle.cb_facts.specs.Results.{Returns, Settles};
ghost use Rattle.cb_templates.specs.Slots.{slot_named};

use crate::parts::{GivenSlot, GivenSlots, Parts};
use crate::relations::Relations;
use crate::slot::Slot;
use crate::template::Template;
use cb_facts::{Content, Fact, Multifield, Name, Refused, Value, is_multifield, splice};
use cb_forms::{Fault, NoMemory};
use std::alloc::Global;

/// The fact of a relation with these parts.
///
/// An ordered fact has the values as its fields, multifields spliced. A template's fact has all slots of the template in its
/// order: a multislot the values that it is given, multifields spliced, another slot its one value, and a slot that isn't
/// given its default.
///
/// It refuses with CB09 where the relation has a template and fields are given, or none and slots are given; where a slot
/// is given that the template doesn't have, or twice, or without exactly one value though it is no multislot; and where a
/// slot without a default isn't given. Else it refuses with CB22 where a slot that is no multislot is given a multifield.
pub fn build_fact(
    alloc: Global,
    relations: &Relations,
    relation: Name,
    parts: Parts,
) -> Result<Fact, Refused>
    ensures { Returns result (built relations.now relation (part_values parts)) }
{
    match relations.template(&relation) {
        None => match parts {
            Parts::Fields(values) => Ok(build_ordered(alloc, relation, values.as_slice())?),
            Parts::Slots(_) => Err(Refused::Fault(Fault::FactDoesNotFit)),
        },
        Some(template) => match parts {
            Parts::Fields(_) => Err(Refused::Fault(Fault::FactDoesNotFit)),
            Parts::Slots(given) => build_listed(alloc, relation, template, given),
        },
    }
}

/// The fact that a template's fact becomes where these slots are given new values, and its other slots keep theirs.
///
/// It refuses with CB09 an ordered fact, a slot that the template doesn't have, one that is given twice, and one that is given
/// other than one value though it is no multislot; else with CB22 a multifield for a slot that is no multislot.
pub fn change_fact(
    alloc: Global,
    relations: &Relations,
    fact: &Fact,
    given: Vec<GivenSlot>,
) -> Result<Fact, Refused>
    ensures { Returns result (changed relations.now fact.now given.items) }
{
    let Content::Slots(slots) = fact.content() else {
        return Err(Refused::Fault(Fault::FactDoesNotFit));
    };
    let Some(template) = relations.template(fact.relation_name()) else {
        return Err(Refused::Fault(Fault::FactDoesNotFit));
    };
    let given = keep_slots(alloc, slots.as_slice(), given)?;
    build_slots(alloc, fact.relation_name().clone()?, template, &given)
}

/// What is given, and each other slot of a fact with the value that it has.
fn keep_slots(
    alloc: Global,
    slots: &[(Name, Value)],
    given: Vec<GivenSlot>,
) -> Result<GivenSlots, NoMemory>
    ensures { IfOk result (λ all. all ≡ with_kept_slots given.items slots.now) }
{
    let mut all = GivenSlots::from_vec(alloc, given)?;
    for slot in slots {
        keep_slot(alloc, &mut all, &slot.0, &slot.1)?;
    }
    Ok(all)
}

/// Gives a slot the value that it has, unless it is given already.
fn keep_slot(
    alloc: Global,
    given: &mut GivenSlots,
    name: &Name,
    value: &Value,
) -> Result<(), NoMemory>
    ensures { OnOk result (given.new ≡ with_kept_slot given.old (name.now, value.now)) }
{
    if given.find(name).is_some() {
        return Ok(());
    }
    let mut values = Vec::new(alloc);
    values.push(value.clone()?)?;
    given.push(GivenSlot::new(name.clone()?, values))
}

fn build_ordered(alloc: Global, relation: Name, values: &[Value]) -> Result<Fact, NoMemory>
    ensures { IfOk result (λ fact. fact ≡ ordered_fact relation (spliced values.now)) }
{
    let fields = splice(alloc, values)?;
    Fact::ordered(alloc, relation, Multifield::from_vec(fields)?)
}

fn build_listed(
    alloc: Global,
    relation: Name,
    template: &Template,
    given: Vec<GivenSlot>,
) -> Result<Fact, Refused>
    ensures { Returns result (slots_built relation template.now given.items) }
{
    let given = GivenSlots::from_vec(alloc, given)?;
    build_slots(alloc, relation, template, &given)
}

/// The fact of a relation that has this template, with these slots, as [`build_fact`] makes it and with its faults.
pub fn build_slots(
    alloc: Global,
    relation: Name,
    template: &Template,
    given: &GivenSlots,
) -> Result<Fact, Refused>
    ensures { Returns result (slots_built relation template.now given.now) }
{
    if !fits(template, given) {
        return Err(Refused::Fault(Fault::FactDoesNotFit));
    }
    let content = fill(alloc, template.slots(), given)?;
    Ok(Fact::with_slots(alloc, relation, content)?)
}

/// Whether what is given fits the template.
fn fits(template: &Template, given: &GivenSlots) -> bool
    ensures { result ≡ fits template.now given.now }
{
    are_known(template, given.as_slice())
        && given.are_distinct()
        && can_take(template.slots(), given)
}

/// Whether only slots are given that are there.
fn are_known(template: &Template, given: &[GivenSlot]) -> bool
    ensures { result ≡ list_all (λ g. is_some (slot_named template.now g.0)) given.now }
{
    given.iter().all(|g| is_known(template, g.name()))
}

fn is_known(template: &Template, name: &Name) -> bool
    ensures { result ≡ is_some (slot_named template.now name.now) }
{
    template.find(name).is_some()
}

/// Whether each slot can take what it is given.
fn can_take(slots: &[Slot], given: &GivenSlots) -> bool
    ensures { result ≡ list_all (λ s. can_take s (given_for given.now s.name)) slots.now }
{
    slots.iter().all(|slot| takes(slot, given))
}

fn takes(slot: &Slot, given: &GivenSlots) -> bool
    ensures { result ≡ can_take slot.now (given_for given.now slot.now.name) }
{
    match given.find(slot.name()) {
        None => slot.default().is_some(),
        Some(values) => slot.multi() || is_one_value(values),
    }
}

fn is_one_value(values: &[Value]) -> bool
    ensures { result ≡ is_one_value values.now }
{
    let Some((_, rest)) = values.split_first() else {
        return false;
    };
    match rest.split_first() {
        None => true,
        Some(_) => false,
    }
}

/// The slots of a template, each with its value.
fn fill(alloc: Global, slots: &[Slot], given: &GivenSlots) -> Result<Vec<(Name, Value)>, Refused>
    ensures { Settles (λ content. content.items) result (filled slots.now given.now) }
{
    let mut content = Vec::with_capacity(alloc, slots.len())?;
    for slot in slots {
        let value = value_or_default(alloc, slot, given)?;
        content.push((slot.name().clone()?, value))?;
    }
    Ok(content)
}

/// The value of a slot.
fn value_or_default(alloc: Global, slot: &Slot, given: &GivenSlots) -> Result<Value, Refused>
    ensures { Returns result (value_or_default slot.now (given_for given.now slot.now.name)) }
{
    match given.find(slot.name()) {
        None => default_value(slot),
        Some(values) => {
            if slot.multi() {
                let fields = splice(alloc, values)?;
                return Ok(Value::Multi(Multifield::from_vec(fields)?));
            }
            one_value(values)
        }
    }
}

fn default_value(slot: &Slot) -> Result<Value, Refused>
    ensures { Returns result (value_or_default slot.now None) }
{
    match slot.default() {
        Some(value) => Ok(value.clone()?),
        None => Err(Refused::Fault(Fault::FactDoesNotFit)),
    }
}

fn one_value(values: &[Value]) -> Result<Value, Refused>
    ensures { Returns result (one_value values.now) }
{
    let Some((value, rest)) = values.split_first() else {
        return Err(Refused::Fault(Fault::FactDoesNotFit));
    };
    if let Some(_) = rest.split_first() {
        return Err(Refused::Fault(Fault::FactDoesNotFit));
    }
    if is_multifield(value) {
        return Err(Refused::Fault(Fault::OneValueWanted));
    }
    Ok(value.clone()?)
}
