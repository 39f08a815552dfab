//! What a pattern asks without its variables and expressions.
ghost use Rattle.std.specs.Prelude.{◌≡◌, ◌++◌, ◌∷◌, [], IfOk, OnOk, map};
ghost use Rattle.cb_constraints.specs.Constraints.{check_of, constraint_of, demand_of};
ghost use Rattle.cb_constraints.specs.PartValues.{asked_parts, asked_slot};
ghost use Rattle.cb_fit.specs.Shapes.{constants_in, loose_constraint, loose_demand, loose_parts, loose_row, loose_slot};

use cb_constraints::{Check, Constraint, Demand, PatternParts, Row, SlotRow, Test};
use cb_forms::NoMemory;
use std::alloc::Global;

/// What a pattern asks by constants and lengths alone. The constants share their bytes and fields, and no expression is copied.
/// Growth is refused as `NoMemory`, and so is a count of sharers that is full.
pub(crate) fn loose_parts(alloc: Global, parts: &PatternParts) -> Result<PatternParts, NoMemory>
    ensures { IfOk result (λ loose. asked_parts loose ≡ loose_parts (asked_parts parts.now)) }
{
    match parts {
        PatternParts::Fields(row) => Ok(PatternParts::Fields(loose_row(alloc, row)?)),
        PatternParts::Slots(rows) => Ok(PatternParts::Slots(loose_slots(alloc, rows.as_slice())?)),
    }
}

/// The same of the slots of a template.
fn loose_slots(alloc: Global, rows: &[SlotRow]) -> Result<Vec<SlotRow>, NoMemory>
    ensures { IfOk result (λ loose. map asked_slot loose.items
        ≡ map loose_slot (map asked_slot rows.now)) }
{
    let mut loose = Vec::with_capacity(alloc, rows.len())?;
    for slot in rows {
        loose.push(loose_slot(alloc, slot)?)?;
    }
    Ok(loose)
}

/// The same of one slot.
fn loose_slot(alloc: Global, slot: &SlotRow) -> Result<SlotRow, NoMemory>
    ensures { IfOk result (λ loose. asked_slot loose ≡ loose_slot (asked_slot slot.now)) }
{
    let name = slot.name.clone()?;
    let row = loose_row(alloc, &slot.row)?;
    Ok(SlotRow {
        name,
        place: slot.place,
        row,
    })
}

/// The same of a row.
fn loose_row(alloc: Global, row: &Row) -> Result<Row, NoMemory>
    ensures { IfOk result (λ loose. loose ≡ loose_row row.now) }
{
    let mut loose = Vec::with_capacity(alloc, row.constraints().len())?;
    for constraint in row.constraints() {
        loose.push(loose_constraint(alloc, constraint)?)?;
    }
    Ok(Row::new(loose))
}

/// The same of a constraint.
fn loose_constraint(alloc: Global, constraint: &Constraint) -> Result<Constraint, NoMemory>
    ensures { IfOk result (λ loose. constraint_of loose
        ≡ loose_constraint (constraint_of constraint.now)) }
{
    let demand = loose_demand(alloc, &constraint.demand)?;
    Ok(Constraint {
        takes_segment: constraint.takes_segment,
        demand,
    })
}

/// The same of what a constraint asks.
fn loose_demand(alloc: Global, demand: &Demand) -> Result<Demand, NoMemory>
    ensures { IfOk result (λ loose. demand_of loose ≡ loose_demand (demand_of demand.now)) }
{
    match demand {
        Demand::Nothing => Ok(Demand::Nothing),
        Demand::Each(checks) => Ok(Demand::Each(constants_in(alloc, checks.as_slice())?)),
        Demand::Either(_, alternatives) => Ok(Demand::Either(
            None,
            constants_in_each(alloc, alternatives.as_slice())?,
        )),
    }
}

/// Of each alternative its checks for constants.
fn constants_in_each(
    alloc: Global,
    alternatives: &[Vec<Check>],
) -> Result<Vec<Vec<Check>>, NoMemory>
    ensures { IfOk result (λ loose. map (λ cs. map check_of cs.items) loose.items
        ≡ map constants_in (map (λ cs. map check_of cs.items) alternatives.now)) }
{
    let mut loose = Vec::with_capacity(alloc, alternatives.len())?;
    for checks in alternatives {
        loose.push(constants_in(alloc, checks.as_slice())?)?;
    }
    Ok(loose)
}

/// Of these checks those for constants.
fn constants_in(alloc: Global, checks: &[Check]) -> Result<Vec<Check>, NoMemory>
    ensures { IfOk result (λ constants. map check_of constants.items
        ≡ constants_in (map check_of checks.now)) }
{
    let mut constants = Vec::new(alloc);
    for check in checks {
        keep_constant(&mut constants, check)?;
    }
    constants.shrink_to_fit();
    Ok(constants)
}

/// Keeps a check if it is for a constant.
fn keep_constant(constants: &mut Vec<Check>, check: &Check) -> Result<(), NoMemory>
    ensures { OnOk result (map check_of constants.new.items
        ≡ map check_of constants.old.items ++ constants_in (check_of check.now ∷ [])) }
{
    if let Test::Constant(constant) = &check.test {
        let constant = constant.clone()?;
        constants.push(Check {
            is_negated: check.is_negated,
            test: Test::Constant(constant),
        })?;
    }
    Ok(())
}
