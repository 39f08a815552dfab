//! What a pattern asks for.
ghost use Rattle.std.specs.Prelude.{◌≡◌, [], IfOk};
ghost use Rattle.cb_alpha_network.specs.Wanted.{sought_in, wanted_of};

use crate::field_places::FieldPlaces;
use cb_alpha::JoinValues;
use cb_facts::Name;
use cb_fit::Pattern;
use cb_forms::NoMemory;
use std::alloc::Global;

/// The facts of a relation with these values at these places; without any places, each fact of the relation.
#[derive(Drop)]
pub(crate) struct Wanted {
    pub(crate) relation: Name,
    pub(crate) places: FieldPlaces,
    pub(crate) values: JoinValues,
}

/// Where patterns ask for values, by its number, and the values. Their mix stands in front of them, so that mostly numbers are compared.
#[derive(PartialEq, Eq, PartialOrd, Ord, Drop)]
pub(crate) struct Sought {
    pub(crate) spot: u32,
    mix: u32,
    values: JoinValues,
}

impl Sought {
    /// These values there.
    pub(crate) fn new(spot: u32, values: JoinValues) -> Sought
        ensures { result ≡ sought_in spot values }
    {
        Sought {
            spot,
            mix: values.mix(),
            values,
        }
    }

    /// What stands before all that is sought there.
    pub(crate) fn first(alloc: Global, spot: u32) -> Sought
        ensures { result ≡ record { spot = spot; mix = 0; values = [] } }
    {
        Sought {
            spot,
            mix: 0,
            values: JoinValues::many(Vec::new(alloc)),
        }
    }
}

/// What the pattern with a number asks for.
#[derive(PartialEq, Eq, PartialOrd, Ord, Drop)]
pub(crate) struct Entry {
    pub(crate) sought: Sought,
    pub(crate) number: u32,
}

/// What a pattern asks for: the facts that have all of its constants.
pub(crate) fn wanted_of<T>(alloc: Global, pattern: &Pattern<T>) -> Result<Wanted, NoMemory>
    ensures { IfOk result (λ wanted. wanted ≡ wanted_of pattern.now) }
{
    let relation = pattern.relation().clone()?;
    let fields = pattern.constant_fields(alloc)?;
    let mut places = Vec::with_capacity(alloc, fields.len())?;
    let mut values = Vec::with_capacity(alloc, fields.len())?;
    for field in fields {
        places.push(field.place)?;
        values.push(field.value)?;
    }
    Ok(Wanted {
        relation,
        places: FieldPlaces::from_vec(places)?,
        values: JoinValues::many(values),
    })
}
