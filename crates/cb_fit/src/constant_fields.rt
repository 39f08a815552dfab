//! The fields of a fact that have to be equal to constants, whatever else a pattern asks.
ghost use Rattle.std.specs.Prelude.{◌≡◌, ◌++◌, IfOk, OnOk, map};
ghost use Rattle.cb_constraints.specs.Constraints.{check_of, demand_of};
ghost use Rattle.cb_constraints.specs.PartValues.{asked_parts};
ghost use Rattle.cb_fit.specs.ConstantFields.{constant_fields, constants, constants_at, plain_constant, plain_constants};

use crate::field_place::FieldPlace;
use crate::placed::placed_demands;
use cb_constraints::{Check, Demand, PatternParts, Test};
use cb_facts::Value;
use cb_forms::NoMemory;
use std::alloc::Global;

/// A field of a fact that has to be equal to a constant: else no pattern with this field fits the fact.
///
/// It is one of the fields that a pattern takes one by one before its first segment, with a constant that stands there without `~`
/// and not among alternatives.
#[derive(Drop)]
pub struct ConstantField {
    /// The place of the field.
    pub place: FieldPlace,
    /// The constant.
    pub value: Value,
}

/// The fields that have to be equal to constants, by what a pattern asks. Growth is refused as `NoMemory`, and so is a count of
/// sharers that is full.
pub(crate) fn constants_of_parts(
    alloc: Global,
    parts: &PatternParts,
) -> Result<Vec<ConstantField>, NoMemory>
    ensures { IfOk result (λ all. all.items ≡ constant_fields (asked_parts parts.now)) }
{
    let mut all = Vec::new(alloc);
    for placed in placed_demands(alloc, parts)? {
        add_demand(placed.place, placed.demand, &mut all)?;
    }
    Ok(all)
}

/// Adds a field, once for each constant that it has to be equal to.
fn add_demand(
    place: FieldPlace,
    demand: &Demand,
    all: &mut Vec<ConstantField>,
) -> Result<(), NoMemory>
    ensures { OnOk result (all.new.items
        ≡ all.old.items ++ constants_at place (constants (demand_of demand.now))) }
{
    match demand {
        Demand::Each(checks) => add_checks(place, checks.as_slice(), all),
        _ => Ok(()),
    }
}

/// The same of checks joined by `&`.
fn add_checks(
    place: FieldPlace,
    checks: &[Check],
    all: &mut Vec<ConstantField>,
) -> Result<(), NoMemory>
    ensures { OnOk result (all.new.items
        ≡ all.old.items ++ constants_at place (plain_constants (map check_of checks.now))) }
{
    for check in checks {
        add_check(place, check, all)?;
    }
    Ok(())
}

/// The same of one check.
fn add_check(place: FieldPlace, check: &Check, all: &mut Vec<ConstantField>) -> Result<(), NoMemory>
    ensures { OnOk result (all.new.items ≡ all.old.items ++ constants_at place
        (plain_constant (check_of check.now).negated (check_of check.now).test)) }
{
    match &check.test {
        Test::Constant(constant) if !check.is_negated => {
            let value = constant.clone()?;
            all.push(ConstantField { place, value })?;
            Ok(())
        }
        _ => Ok(()),
    }
}
