//! Where patterns for one relation ask for values.
ghost use Rattle.std.specs.Prelude.{◌≡◌, ◌++◌, ◌∷◌, [], IfSome, OnErr, OnOk, nat_eq, not, true};
ghost use Rattle.std.specs.List.{filter};
ghost use Rattle.cb_matches.specs.Chains.{In};

use crate::field_places::FieldPlaces;
use cb_forms::NoMemory;
use std::alloc::Global;
use std::marker::Model;

/// Places at which patterns for a relation ask for values, and their number.
#[derive(Drop)]
pub(crate) struct Spot {
    pub(crate) places: FieldPlaces,
    pub(crate) number: u32,
}

/// Where the patterns for one relation ask for values. Contracts see the list.
#[derive(Drop)]
pub(crate) struct Spots {
    all: Vec<Spot>,
}

impl Model for Spots {
    ghost use Rattle.std.specs.Prelude.{List};
    ghost use Rattle.cb_alpha_network.specs.declared.spots.Spot.{Spot as SpotValue};

    ghost Value = { List SpotValue };

    ghost view = { λ s. s.all.items };
}

impl Spots {
    /// None. It takes no memory yet.
    pub(crate) fn new(alloc: Global) -> Spots
        ensures { result ≡ [] }
    {
        Spots {
            all: Vec::new(alloc),
        }
    }

    /// Adds one. Growth is refused as `NoMemory`, and then nothing has changed.
    pub(crate) fn push(&mut self, spot: Spot) -> Result<(), NoMemory>
        ensures ok { OnOk result (self.new ≡ self.old ++ spot ∷ []) }
        ensures err { OnErr result (self.new ≡ self.old) }
    {
        self.all.push(spot)?;
        Ok(())
    }

    /// Takes the one with a number out. The others stay.
    pub(crate) fn remove(&mut self, number: u32)
        ensures { self.new ≡ filter (λ spot. not (nat_eq spot.number number)) self.old }
    {
        self.all.retain(|spot| spot.number != number);
    }

    /// Whether there is none.
    pub(crate) fn is_empty(&self) -> bool
        ensures { result ≡ true → self.now ≡ [] }
    {
        self.all.is_empty()
    }

    /// All of them.
    pub(crate) fn as_slice(&self) -> &[Spot]
        ensures { result.now ≡ self.now }
    {
        self.all.as_slice()
    }

    /// The number of these places, if they stand there.
    pub(crate) fn number_of(&self, places: &FieldPlaces) -> Option<u32>
        ensures { IfSome result (λ n. In (record { places = places.now; number = n }) self.now) }
    {
        for spot in self.as_slice() {
            if spot.places == *places {
                return Some(spot.number);
            }
        }
        None
    }
}
