//! Reading the conditions of a pattern: the expressions that are to hold beside its comparisons.
ghost use Rattle.std.specs.Prelude.{◌≡◌, ◌++◌, [], OnOk, map, option_map, option_to_list};
ghost use Rattle.cb_constraints.specs.Constraints.{check_of, demand_of};
ghost use Rattle.cb_fit.specs.Comparisons.{condition_checks, condition_test, demand_conditions};
ghost use Rattle.cb_fit.specs.Decisions.{terms_at};
ghost use Rattle.cb_fit.specs.Internal.Reading.{own_of};
ghost use Rattle.cb_exprs.specs.Terms.{term_of};

use crate::checks::compares;
use cb_constraints::{Check, Demand, Test};
use cb_exprs::Expr;
use cb_forms::NoMemory;

/// Adds the conditions that a constraint makes.
pub(crate) fn add_conditions<'a>(
    demand: &'a Demand,
    all: &mut Vec<&'a Expr>,
) -> Result<(), NoMemory>
    ensures { OnOk result (terms_at all.new.items
        ≡ terms_at all.old.items ++ demand_conditions (demand_of demand.now)) }
{
    match demand {
        Demand::Nothing | Demand::Either(_, _) => Ok(()),
        Demand::Each(checks) => add_all(checks.as_slice(), all),
    }
}

/// Adds those of checks.
fn add_all<'a>(checks: &'a [Check], all: &mut Vec<&'a Expr>) -> Result<(), NoMemory>
    ensures { OnOk result (terms_at all.new.items
        ≡ terms_at all.old.items ++ condition_checks [] (map check_of checks.now)) }
{
    for i in 0..checks.len() {
        add_one(&checks[..i], &checks[i], all)?;
    }
    Ok(())
}

/// Adds that of a check, if it makes one, after these of the same constraint.
fn add_one<'a>(before: &[Check], check: &'a Check, all: &mut Vec<&'a Expr>) -> Result<(), NoMemory>
    ensures { OnOk result (terms_at all.new.items ≡ terms_at all.old.items ++ option_to_list
        (condition_test (own_of before.now) (check_of check.now).negated (check_of check.now).test)) }
{
    if let Some(condition) = condition_of(before, check) {
        all.push(condition)?;
    }
    Ok(())
}

/// The condition that a check makes, after these of the same constraint, whose variables are the field's own.
pub(crate) fn condition_of<'a>(before: &[Check], check: &'a Check) -> Option<&'a Expr>
    ensures { option_map (λ e. term_of e.now) result ≡ condition_test (own_of before.now)
        (check_of check.now).negated (check_of check.now).test }
{
    if check.is_negated || compares(before, check) {
        return None;
    }
    match &check.test {
        Test::Predicate(expr) => Some(expr),
        Test::Constant(_) | Test::Variable(_) | Test::ReturnValue(_) => None,
    }
}
