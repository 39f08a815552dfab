//! A template: its slots.
ghost use Rattle.std.specs.Prelude.{◌≡◌, ◌++◌, ◌∷◌, [], None, Some, MatchOption, OnOk, OnErr};
ghost use Rattle.cb_facts.specs.Places.{place_in};
ghost use Rattle.cb_templates.specs.Slots.{names, slot_named};

use crate::parts::FEW;
use crate::slot::Slot;
use cb_facts::{Name, Places};
use cb_forms::NoMemory;
use std::alloc::Global;
use std::marker::Model;

/// A template: its slots in their order, each found by its name in logarithmic time, whatever the names are
/// (`docs/LANGUAGE.md`, "Templates").
///
/// Contracts see the list of its slots.
#[derive(Drop)]
pub struct Template {
    slots: Vec<Slot>,
    places: Places,
}

impl Model for Template {
    ghost use Rattle.std.specs.Prelude.{◌≡◌, List};
    ghost use Rattle.cb_templates.specs.Slots.{SlotShape, names};

    ghost Value = { List SlotShape };

    ghost view = { λ t. t.slots.items };

    ghost invariant = { λ t. t.places ≡ names t.slots.items };
}

impl Template {
    /// Without slots. It takes no memory yet.
    pub(crate) fn new(alloc: Global) -> Template
        ensures { result ≡ [] }
    {
        Template {
            slots: Vec::new(alloc),
            places: Places::new(alloc),
        }
    }

    /// Its slots, in their order.
    pub fn slots(&self) -> &[Slot]
        ensures { result.now ≡ self.now }
    {
        self.slots.as_slice()
    }

    /// The place of the slot with a name among the slots, if there is one. It is found in logarithmic time.
    pub fn place(&self, name: &Name) -> Option<usize>
        ensures { result ≡ place_in (names self.now) name.now }
    {
        self.places.find(name)
    }

    /// The slot with a name, if there is one.
    #[tactic(auto, using(crate::proofs::PlaceLaws::slot_by_place))]
    pub fn find(&self, name: &Name) -> Option<&Slot>
        ensures { MatchOption result (slot_named self.now name.now ≡ None)
            (λ s. slot_named self.now name.now ≡ Some s.now) }
    {
        if self.slots.len() <= FEW {
            return first_named(self.slots.as_slice(), name);
        }
        let place = self.place(name)?;
        self.slots.get(place)
    }

    /// Adds a slot after the others. Growth is refused as `NoMemory`, and then nothing has changed.
    pub(crate) fn push(&mut self, slot: Slot) -> Result<(), NoMemory>
        ensures ok { OnOk result (self.new ≡ self.old ++ slot ∷ []) }
        ensures err { OnErr result (self.new ≡ self.old) }
    {
        self.slots.reserve(1)?;
        self.places.push(slot.name(), self.slots.len())?;
        self.slots.push(slot)?;
        Ok(())
    }
}

/// The slot with a name, looked for one by one.
fn first_named<'a>(slots: &'a [Slot], name: &Name) -> Option<&'a Slot>
    ensures { MatchOption result (slot_named slots.now name.now ≡ None)
        (λ s. slot_named slots.now name.now ≡ Some s.now) }
{
    for slot in slots {
        if *slot.name() == *name {
            return Some(slot);
        }
    }
    None
}
