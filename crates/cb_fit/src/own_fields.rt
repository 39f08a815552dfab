//! Which fields of one fact a pattern compares with constants and with one another.
ghost use Rattle.std.specs.Prelude.{◌≡◌, ◌++◌, [], IfOk, OnOk, map};
ghost use Rattle.cb_constraints.specs.Constraints.{demand_of};
ghost use Rattle.cb_constraints.specs.PartValues.{asked_parts};
ghost use Rattle.cb_fit.specs.Comparisons.{own_at, own_compared_at, own_fields, own_fields_at, own_fields_from, own_limits_at, repeated_at};
ghost use Rattle.cb_fit.specs.FieldPlaces.{placed_demands};
ghost use Rattle.cb_fit.specs.Internal.Reading.{compared_of, limit_of};

use crate::checks::{Compared, Limit};
use crate::comparison::Comparison;
use crate::decision::are_decided_parts;
use crate::demands::{comparisons_of, limits_of, names_of};
use crate::field_place::FieldPlace;
use crate::own_field::{Operand, OwnField};
use crate::placed::placed_demands;
use crate::variable_fields::VariableFields;
use cb_constraints::{Demand, PatternParts};
use cb_facts::Name;
use cb_forms::NoMemory;
use std::alloc::Global;

/// The fields of one fact that a pattern with these parts compares with constants and with one another; none where it isn't decided by
/// values. Growth is refused as `NoMemory`, and so is a count of sharers that is full.
pub(crate) fn own_of_parts(alloc: Global, parts: &PatternParts) -> Result<Vec<OwnField>, NoMemory>
    ensures { IfOk result (λ all. all.items ≡ own_fields (asked_parts parts.now)) }
{
    if !are_decided_parts(alloc, parts)? {
        return Ok(Vec::new(alloc));
    }
    own_in(alloc, parts)
}

/// The same of parts that are decided.
fn own_in(alloc: Global, parts: &PatternParts) -> Result<Vec<OwnField>, NoMemory>
    ensures { IfOk result (λ all. all.items
        ≡ own_fields_from [] (placed_demands (asked_parts parts.now))) }
{
    let mut all = Vec::new(alloc);
    let mut before = VariableFields::new(alloc);
    for placed in placed_demands(alloc, parts)? {
        add_own(alloc, &before, placed.place, placed.demand, &mut all)?;
        before = before.with_demand(alloc, placed.place, placed.demand)?;
    }
    all.shrink_to_fit();
    Ok(all)
}

/// Adds what a field of which this is asked is compared with, after these fields with variables.
fn add_own(
    alloc: Global,
    before: &VariableFields,
    place: FieldPlace,
    demand: &Demand,
    all: &mut Vec<OwnField>,
) -> Result<(), NoMemory>
    ensures { OnOk result (all.new.items
        ≡ all.old.items ++ own_fields_at before.now place (demand_of demand.now)) }
{
    let limits = limits_of(alloc, demand)?;
    add_own_limits(place, limits.as_slice(), all)?;
    let names = names_of(alloc, demand)?;
    add_repeated(before, place, names.as_slice(), all)?;
    let comparisons = comparisons_of(alloc, demand)?;
    add_own_compared(before, place, comparisons.as_slice(), all)
}

/// Adds the constants with which the field at this place is compared.
fn add_own_limits(
    place: FieldPlace,
    limits: &[Limit<'_>],
    all: &mut Vec<OwnField>,
) -> Result<(), NoMemory>
    ensures { OnOk result (all.new.items
        ≡ all.old.items ++ own_limits_at place (map limit_of limits.now)) }
{
    for limit in limits {
        let constant = limit.constant.clone()?;
        all.push(OwnField {
            place,
            comparison: limit.comparison,
            other: Operand::Constant(constant),
        })?;
    }
    Ok(())
}

/// Adds the first field with each of these variables that stands before: the field at this place is to be equal to it.
fn add_repeated(
    before: &VariableFields,
    place: FieldPlace,
    names: &[Name],
    all: &mut Vec<OwnField>,
) -> Result<(), NoMemory>
    ensures { OnOk result (all.new.items
        ≡ all.old.items ++ repeated_at before.now place names.now) }
{
    for name in names {
        add_own_field(place, Comparison::Same, before.field_of(name), all)?;
    }
    Ok(())
}

/// Adds the first field with each variable that stands before and with which the field at this place is compared.
fn add_own_compared(
    before: &VariableFields,
    place: FieldPlace,
    comparisons: &[Compared<'_>],
    all: &mut Vec<OwnField>,
) -> Result<(), NoMemory>
    ensures { OnOk result (all.new.items ≡ all.old.items
        ++ own_compared_at before.now place (map compared_of comparisons.now)) }
{
    for compared in comparisons {
        let other = before.field_of(compared.variable);
        add_own_field(place, compared.comparison, other, all)?;
    }
    Ok(())
}

/// Adds a field, if there is another with which it is compared.
fn add_own_field(
    place: FieldPlace,
    comparison: Comparison,
    other: Option<FieldPlace>,
    all: &mut Vec<OwnField>,
) -> Result<(), NoMemory>
    ensures { OnOk result (all.new.items ≡ all.old.items ++ own_at place comparison other) }
{
    if let Some(other) = other {
        all.push(OwnField {
            place,
            comparison,
            other: Operand::Field(other),
        })?;
    }
    Ok(())
}
