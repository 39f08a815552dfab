//! The variables to which a way gives values.
ghost use Rattle.std.specs.Prelude.{◌≡◌, ◌<◌, ◌≤◌, ◌++◌, IfOk, OnOk, length, slice_get};
ghost use Rattle.cb_constraints.specs.Binders.{constraints_in};
ghost use Rattle.cb_constraints.specs.Bound.{given_if, newly_bound};
ghost use Rattle.cb_constraints.specs.Internal.Known.{bindings_after};
ghost use Rattle.cb_constraints.specs.Internal.Values.{values};
ghost use Rattle.cb_exprs.specs.Bindings.{value_at};

use crate::body::Body;
use crate::place::Place;
use crate::taken::Taken;
use cb_exprs::Lookup;
use cb_facts::{Name, Value};
use cb_forms::NoMemory;
use std::alloc::Global;

/// The variables that had no value before a pattern and take one by it, each once, in the order in which the pattern first names
/// them, with the values that its constraints took.
///
/// Growth is refused as `NoMemory`, and so is a count of sharers that is full.
pub fn newly_bound<L: Lookup>(
    alloc: Global,
    body: &Body,
    before: &L,
    took: Taken<'_>,
) -> Result<Vec<(Name, Value)>, NoMemory>
    requires { length (constraints_in body.now) ≤ length (values took) }
    ensures { IfOk result (λ bound. bound.items ≡ newly_bound body.now (L.bindings before.now)
        (bindings_after (constraints_in body.now) (values took.entry) (L.bindings before.now))) }
{
    let variables = body.variables();
    let mut bound = Vec::new(alloc);
    for (name, place) in variables {
        give(&mut bound, name, *place, before, took)?;
    }
    Ok(bound)
}

/// Adds a variable with the value that was taken at its place, if it had none before.
fn give<L: Lookup>(
    bound: &mut Vec<(Name, Value)>,
    name: &Name,
    place: Place,
    before: &L,
    took: Taken<'_>,
) -> Result<(), NoMemory>
    requires { place.constraint < length (values took) }
    ensures { OnOk result (bound.new.items ≡ bound.old.items
        ++ given_if name.now (value_at name.now (L.bindings before.now).variables)
        (slice_get (values took.entry) place.constraint)) }
{
    if before.variable(name)?.is_some() {
        return Ok(());
    }
    let value = took.value(place.constraint)?;
    bound.push((name.clone()?, value))?;
    Ok(())
}
