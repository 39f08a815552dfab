//! The places of the nodes that the last change concerned.
ghost use Rattle.std.specs.Prelude.{◌≡◌, List, OnOk};
ghost use Rattle.std.specs.List.Sorted.{IsStrictlySortedBy};
ghost use Rattle.cb_alpha_network.specs.LastPlaces.{AreLast, HasPlaces};
ghost use Rattle.cb_alpha_network.specs.Places.{place_cmp};
ghost use Rattle.cb_alpha_network.specs.declared.user.User.{User as UserValue};

use crate::changing::add_places;
use crate::node_place::{NodePlace, order};
use crate::user::User;
use cb_forms::NoMemory;
use std::alloc::Global;
use std::collections::BTreeSet;

/// The places of the nodes that use the shapes with some numbers. They are kept from change to change, since facts of one kind concern
/// the same nodes.
#[derive(Drop)]
pub(crate) struct LastPlaces {
    numbers: Vec<u32>,
    places: Vec<NodePlace>,
}

impl LastPlaces {
    /// Of no shapes. It takes no memory yet.
    pub(crate) fn new(alloc: Global) -> LastPlaces
        ensures { (users : List UserValue) → AreLast users result }
    {
        LastPlaces {
            numbers: Vec::new(alloc),
            places: Vec::new(alloc),
        }
    }

    /// The places, in their order.
    pub(crate) fn as_slice(&self) -> &[NodePlace]
        ensures { result.now ≡ self.now.places.items }
    {
        self.places.as_slice()
    }

    /// Those of no shapes, in place of the last.
    pub(crate) fn forget(&mut self)
        ensures { (users : List UserValue) → AreLast users self.new }
    {
        self.numbers.clear();
        self.places.clear();
    }

    /// Finds those of the shapes with these numbers, in place of the last. Growth is refused as `NoMemory`.
    pub(crate) fn find(&mut self, users: &BTreeSet<User>, numbers: &[u32]) -> Result<(), NoMemory>
        requires { AreLast users.now.keys self.old }
        ensures last { AreLast users.now.keys self.new }
        ensures those { OnOk result (self.new.numbers.items ≡ numbers.now) }
    {
        if self.numbers.as_slice() == numbers {
            return Ok(());
        }
        self.numbers.clear();
        find_places(users, numbers, &mut self.places)?;
        self.numbers.extend_from_slice(numbers)?;
        Ok(())
    }
}

/// Finds the places of the nodes that use the shapes with these numbers, in their order, in place of what was found before. Growth is
/// refused as `NoMemory`; then some may be missing.
fn find_places(
    users: &BTreeSet<User>,
    numbers: &[u32],
    places: &mut Vec<NodePlace>,
) -> Result<(), NoMemory>
    ensures ordered { IsStrictlySortedBy place_cmp places.new.items }
    ensures found { OnOk result (HasPlaces users.now.keys numbers.now places.new.items) }
{
    places.clear();
    let added = add_places(users, numbers, places);
    order(places);
    added
}
