//! Whether a pattern asks by constants and lengths alone.
ghost use Rattle.std.specs.Prelude.{◌≡◌, map};
ghost use Rattle.std.specs.List.{list_all};
ghost use Rattle.cb_constraints.specs.Constraints.{check_of, constraint_of, demand_of};
ghost use Rattle.cb_constraints.specs.Holding.{is_constant};
ghost use Rattle.cb_constraints.specs.PartValues.{asked_parts, asked_slot};
ghost use Rattle.cb_fit.specs.StandsAlone.{are_constants, demand_alone, parts_alone, row_alone, slot_alone};

use cb_constraints::{Check, Constraint, Demand, PatternParts, SlotRow, Test};

/// Whether what a pattern asks has no variable and no expression.
pub(crate) fn parts_alone(parts: &PatternParts) -> bool
    ensures { result ≡ parts_alone (asked_parts parts.now) }
{
    match parts {
        PatternParts::Fields(row) => row_alone(row.constraints()),
        PatternParts::Slots(rows) => slots_alone(rows.as_slice()),
    }
}

/// The same of the slots of a template.
fn slots_alone(rows: &[SlotRow]) -> bool
    ensures { result ≡ list_all slot_alone (map asked_slot rows.now) }
{
    for slot in rows {
        if !row_alone(slot.row.constraints()) {
            return false;
        }
    }
    true
}

/// The same of the constraints of a row.
fn row_alone(constraints: &[Constraint]) -> bool
    ensures { result ≡ row_alone (map constraint_of constraints.now) }
{
    for constraint in constraints {
        if !demand_alone(&constraint.demand) {
            return false;
        }
    }
    true
}

/// The same of what a constraint asks.
fn demand_alone(demand: &Demand) -> bool
    ensures { result ≡ demand_alone (demand_of demand.now) }
{
    match demand {
        Demand::Nothing => true,
        Demand::Each(checks) => are_constants(checks.as_slice()),
        Demand::Either(None, alternatives) => all_are_constants(alternatives.as_slice()),
        Demand::Either(Some(_), _) => false,
    }
}

/// Whether each check of each alternative is for a constant.
fn all_are_constants(alternatives: &[Vec<Check>]) -> bool
    ensures { result ≡ list_all are_constants (map (λ cs. map check_of cs.items) alternatives.now) }
{
    for checks in alternatives {
        if !are_constants(checks.as_slice()) {
            return false;
        }
    }
    true
}

/// Whether each of these checks is for a constant.
fn are_constants(checks: &[Check]) -> bool
    ensures { result ≡ are_constants (map check_of checks.now) }
{
    for check in checks {
        if !is_constant(check) {
            return false;
        }
    }
    true
}

/// Whether a check is for a constant.
fn is_constant(check: &Check) -> bool
    ensures { result ≡ is_constant (check_of check.now).test }
{
    match &check.test {
        Test::Constant(_) => true,
        Test::Variable(_) | Test::Predicate(_) | Test::ReturnValue(_) => false,
    }
}
