//! What a fact is given.
ghost use Rattle.std.specs.Prelude.{◌≡◌, ◌&&◌, ◌++◌, ◌∷◌, [], None, Some, IfOk, IfSome, MatchOption, OnOk, OnErr, is_some, not};
ghost use Rattle.cb_templates.specs.Building.{are_distinct, given_for, given_names};
ghost use Rattle.cb_templates.specs.GivenPlaces.{AreTheirPlaces};

use cb_facts::{Name, Places, Value};
use cb_forms::NoMemory;
use std::alloc::Global;
use std::marker::Model;

/// So many slots at most are looked for one by one, which is faster than a search among few.
pub(crate) const FEW: usize = 8;

/// A slot that a fact is given, by its name, and the values that it is given.
///
/// Contracts see the pair of its name and its values.
#[derive(Drop)]
pub struct GivenSlot {
    name: Name,
    values: Vec<Value>,
}

impl Model for GivenSlot {
    ghost use Rattle.cb_templates.specs.Slots.{GivenValues};

    ghost Value = { GivenValues };

    ghost view = { λ g. (g.name, g.values.items) };
}

impl GivenSlot {
    /// A slot with these values.
    pub fn new(name: Name, values: Vec<Value>) -> GivenSlot
        ensures { result ≡ (name, values.items) }
    {
        GivenSlot { name, values }
    }

    /// The slot's name.
    pub(crate) fn name(&self) -> &Name
        ensures { result.now ≡ self.now.0 }
    {
        &self.name
    }
}

/// The slots that a fact is given, in the order in which it is given them, each found by its name in logarithmic time,
/// whatever the names are.
///
/// Contracts see the list of the slots.
#[derive(Drop)]
pub struct GivenSlots {
    alloc: Global,
    slots: Vec<GivenSlot>,
    /// Their places by their names, where they are more than a few.
    places: Option<Places>,
    distinct: bool,
}

impl Model for GivenSlots {
    ghost use Rattle.std.specs.Prelude.{◌≡◌};
    ghost use Rattle.cb_templates.specs.Building.{Given, are_distinct};
    ghost use Rattle.cb_templates.specs.GivenPlaces.{AreTheirPlaces};

    ghost Value = { Given };

    ghost view = { λ g. g.slots.items };

    ghost invariant = { λ g. AreTheirPlaces g.places g.slots.items × (g.distinct ≡ are_distinct g.slots.items) };
}

impl GivenSlots {
    /// No slots. It takes no memory yet.
    pub fn new(alloc: Global) -> GivenSlots
        ensures { result ≡ [] }
    {
        GivenSlots {
            alloc,
            slots: Vec::new(alloc),
            places: None,
            distinct: true,
        }
    }

    /// These slots. Growth is refused as `NoMemory`.
    pub fn from_vec(alloc: Global, slots: Vec<GivenSlot>) -> Result<GivenSlots, NoMemory>
        ensures { IfOk result (λ given. given ≡ slots.items) }
    {
        let mut given = GivenSlots::new(alloc);
        given.slots.reserve_exact(slots.len())?;
        for slot in slots {
            given.push(slot)?;
        }
        Ok(given)
    }

    /// The slots, in the order in which they are given.
    pub fn as_slice(&self) -> &[GivenSlot]
        ensures { result.now ≡ self.now }
    {
        self.slots.as_slice()
    }

    /// The values that are given for the slot with a name: where it is given twice, those that were given first.
    pub fn find(&self, name: &Name) -> Option<&[Value]>
        ensures { MatchOption result (given_for self.now name.now ≡ None)
            (λ values. given_for self.now name.now ≡ Some values.now) }
    {
        match &self.places {
            Some(places) => given_at(places, self.slots.as_slice(), name),
            None => first_given(self.slots.as_slice(), name),
        }
    }

    /// Whether no slot is given twice. It takes constant time.
    pub fn are_distinct(&self) -> bool
        ensures { result ≡ are_distinct self.now }
    {
        self.distinct
    }

    /// Adds a slot after the others. Growth is refused as `NoMemory`, and then nothing has changed.
    pub fn push(&mut self, slot: GivenSlot) -> Result<(), NoMemory>
        ensures ok { OnOk result (self.new ≡ self.old ++ slot ∷ []) }
        ensures err { OnErr result (self.new ≡ self.old) }
    {
        self.slots.reserve(1)?;
        list_if_many(self.alloc, &mut self.places, self.slots.as_slice())?;
        let is_new = note(&mut self.places, self.slots.as_slice(), &slot.name)?;
        self.distinct = both(self.distinct, is_new);
        self.slots.push(slot)?;
        Ok(())
    }
}

/// The values that are given for the slot with a name, by the place of the name.
#[tactic(auto, using(crate::proofs::PlaceLaws::given_by_place))]
fn given_at<'a>(places: &Places, slots: &'a [GivenSlot], name: &Name) -> Option<&'a [Value]>
    requires { places.now ≡ given_names slots.now }
    ensures { MatchOption result (given_for slots.now name.now ≡ None)
        (λ values. given_for slots.now name.now ≡ Some values.now) }
{
    let place = places.find(name)?;
    let slot = slots.get(place)?;
    Some(slot.values.as_slice())
}

/// The values that are given for the slot with a name, looked for one by one.
fn first_given<'a>(slots: &'a [GivenSlot], name: &Name) -> Option<&'a [Value]>
    ensures { MatchOption result (given_for slots.now name.now ≡ None)
        (λ values. given_for slots.now name.now ≡ Some values.now) }
{
    for slot in slots {
        if slot.name == *name {
            return Some(slot.values.as_slice());
        }
    }
    None
}

/// Lists the places of slots where none are listed and one more makes them many. Growth is refused as `NoMemory`, and then nothing has
/// changed.
fn list_if_many(
    alloc: Global,
    places: &mut Option<Places>,
    slots: &[GivenSlot],
) -> Result<(), NoMemory>
    requires { AreTheirPlaces places.old slots.now }
    ensures ok { AreTheirPlaces places.new slots.now }
    ensures err { OnErr result (places.new ≡ places.old) }
{
    if places.is_none() && slots.len() >= FEW {
        *places = Some(places_of(alloc, slots)?);
    }
    Ok(())
}

/// The places of slots. Growth is refused as `NoMemory`.
fn places_of(alloc: Global, slots: &[GivenSlot]) -> Result<Places, NoMemory>
    ensures { IfOk result (λ places. places ≡ given_names slots.now) }
{
    let mut places = Places::new(alloc);
    let mut at = 0;
    for slot in slots {
        places.push(&slot.name, at)?;
        at += 1;
    }
    Ok(places)
}

/// Notes the place of one slot more, if places are listed, and returns whether its name is new. Growth is refused as `NoMemory`, and
/// then nothing has changed.
fn note(places: &mut Option<Places>, slots: &[GivenSlot], name: &Name) -> Result<bool, NoMemory>
    requires { AreTheirPlaces places.old slots.now }
    ensures new { IfOk result
        (λ is_new. is_new ≡ not (is_some (given_for slots.now name.now))) }
    ensures ok { OnOk result (IfSome places.new (λ p. p ≡ given_names slots.now ++ name.now ∷ [])) }
    ensures err { OnErr result (places.new ≡ places.old) }
{
    match places {
        Some(places) => places.push(name, slots.len()),
        None => Ok(first_given(slots, name).is_none()),
    }
}

fn both(first: bool, second: bool) -> bool
    ensures { result ≡ (first && second) }
{
    first && second
}

/// What a fact is given.
#[derive(Drop)]
pub enum Parts {
    /// The values of its fields, for an ordered fact.
    Fields(Vec<Value>),
    /// Slots, for a fact of a template.
    Slots(Vec<GivenSlot>),
}

/// The values that are given for the slot with a name.
pub fn find_given<'a>(given: &'a [GivenSlot], name: &[u8]) -> Option<&'a [Value]>
    ensures { MatchOption result (given_for given.now name.now ≡ None)
        (λ values. given_for given.now name.now ≡ Some values.now) }
{
    for slot in given {
        if slot.name.as_slice() == name {
            return Some(slot.values.as_slice());
        }
    }
    None
}
