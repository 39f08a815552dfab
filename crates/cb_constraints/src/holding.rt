//! Whether a constraint holds of a value.
ghost use Rattle.std.specs.Prelude.{◌≡◌, IfOk, IfSome, Some, is_some, length, map, true};
ghost use Rattle.std.specs.List.{list_all, list_any};
ghost use Rattle.cb_constraints.specs.Constraints.{asked_test, check_of, demand_of, either};
ghost use Rattle.cb_constraints.specs.Holding.{FollowFrom, Follows, Meets, MeetsIn, after_check, after_checks, after_demand, after_variable, check_holds, constant_holds, constants_hold, is_constant, may_hold, one_holds, test_holds, tested_value, value_if_any};
ghost use Rattle.cb_constraints.specs.Internal.{are_of_constants, is_of_constants};
ghost use Rattle.cb_constraints.specs.Internal.Known.{before_check};
ghost use Rattle.cb_eval.specs.Evaluation.{value_of};
ghost use Rattle.cb_exprs.specs.Terms.{term_of};

use crate::constraint::{Check, Demand, Test};
use crate::known::{AtCheck, Known};
use crate::tested::Tested;
use cb_eval::{Constants, eval, is_true};
use cb_exprs::{Expr, Lookup};
use cb_facts::{Name, Refused, Value};
use cb_forms::NoMemory;
use std::alloc::Global;

/// Whether a constraint holds of the value in its place, where variables have these values (`docs/LANGUAGE.md`, "Patterns").
///
/// An expression that faults doesn't hold. Growth is refused as `NoMemory`.
#[tactic(auto, using(crate::proofs::HoldingLaws::never_holds))]
pub fn meets<L: Lookup>(
    alloc: Global,
    constants: &Constants,
    demand: &Demand,
    tested: Tested<'_>,
    known: Known<'_, L>,
) -> Result<bool, NoMemory>
    requires { Follows (before_check L.bindings known) (demand_of demand.now)
        (tested_value tested) }
    ensures { IfOk result (λ holds. MeetsIn holds (before_check L.bindings known.entry)
        (demand_of demand.now)
        (tested_value tested.entry)) }
{
    if !may_hold(demand, tested) {
        return Ok(false);
    }
    meets_beyond_constants(alloc, constants, demand, tested, known)
}

/// What `meets` returns where `may_hold` has returned `true`: constants aren't compared again, except those of alternatives
/// that have a variable or an expression among them.
///
/// Growth is refused as `NoMemory`, and so is a count of sharers that is full.
pub fn meets_beyond_constants<L: Lookup>(
    alloc: Global,
    constants: &Constants,
    demand: &Demand,
    tested: Tested<'_>,
    known: Known<'_, L>,
) -> Result<bool, NoMemory>
    requires follows { Follows (before_check L.bindings known) (demand_of demand.now)
        (tested_value tested) }
    requires may { may_hold (demand_of demand.now) (tested_value tested) ≡ true }
    ensures { IfOk result (λ holds. MeetsIn holds (before_check L.bindings known.entry)
        (demand_of demand.now)
        (tested_value tested.entry)) }
{
    match demand {
        Demand::Nothing => Ok(true),
        Demand::Each(checks) => meets_each(alloc, constants, checks.as_slice(), tested, &known),
        Demand::Either(None, alternatives) => {
            one_holds(alloc, constants, alternatives.as_slice(), tested, &known, 0)
        }
        Demand::Either(Some(first), alternatives) => {
            meets_apart(
                alloc,
                constants,
                first,
                alternatives.as_slice(),
                tested,
                &known,
            )
        }
    }
}

/// Whether a variable that is set apart agrees, and then one of the alternatives holds, where the constants of one do.
#[tactic(auto, using(crate::proofs::HoldingLaws::set_apart_meets))]
fn meets_apart<L: Lookup>(
    alloc: Global,
    constants: &Constants,
    first: &Name,
    alternatives: &[Vec<Check>],
    tested: Tested<'_>,
    known: &Known<'_, L>,
) -> Result<bool, NoMemory>
    requires follows { IfSome (after_variable first.now (tested_value tested)
        (before_check L.bindings known.now 0)) (λ grown. before_check L.bindings known.now 1 ≡ grown) }
    requires may { list_any (constants_hold (tested_value tested))
        (map (λ cs. map check_of cs.items) alternatives.now) ≡ true }
    ensures { IfOk result (λ holds. Meets holds (before_check L.bindings known.now 1)
        (after_demand (either (Some first.now) (map (λ cs. map check_of cs.items) alternatives.now))
        (tested_value tested.entry) (before_check L.bindings known.now 0))) }
{
    Ok(
        agrees(first, tested, known, 0)?
            && one_holds(alloc, constants, alternatives, tested, known, 1)?,
    )
}

/// Whether checks joined by `&`, of which those for constants hold, all hold, from left to right.
#[tactic(auto, using(crate::proofs::HoldingLaws::first_holds, crate::proofs::HoldingLaws::others_hold))]
fn meets_each<L: Lookup>(
    alloc: Global,
    constants: &Constants,
    checks: &[Check],
    tested: Tested<'_>,
    known: &Known<'_, L>,
) -> Result<bool, NoMemory>
    requires follows { FollowFrom (before_check L.bindings known.now) 0 (map check_of checks.now)
        (tested_value tested) }
    requires may { constants_hold (tested_value tested) (map check_of checks.now) ≡ true }
    ensures { IfOk result (λ holds. Meets holds (before_check L.bindings known.now
        (length checks.now))
        (after_checks (map check_of checks.now) (tested_value tested.entry)
        (before_check L.bindings known.now 0))) }
{
    let mut at = 0;
    for check in checks {
        if !meets_one(alloc, constants, check, tested, known, at)? {
            return Ok(false);
        }
        at += 1;
    }
    Ok(true)
}

/// Whether the check with this number holds; one for a constant is known to hold.
#[tactic(auto, using(crate::proofs::HoldingLaws::held_if_some))]
fn meets_one<L: Lookup>(
    alloc: Global,
    constants: &Constants,
    check: &Check,
    tested: Tested<'_>,
    known: &Known<'_, L>,
    at: usize,
) -> Result<bool, NoMemory>
    requires { constant_holds (tested_value tested) (check_of check.now).negated
        (check_of check.now).test ≡ true }
    ensures { IfOk result (λ holds. holds ≡ is_some (after_check (check_of check.now)
        (tested_value tested.entry) (before_check L.bindings known.now at))) }
{
    match &check.test {
        Test::Constant(_) => return Ok(true),
        Test::Variable(name) => {
            if !check.is_negated {
                return agrees(name, tested, known, at);
            }
        }
        Test::Predicate(_) | Test::ReturnValue(_) => {}
    }
    check_holds(alloc, constants, check, tested, known, at)
}

/// Whether a variable has no value yet, and takes this one, or has this one.
fn agrees<L: Lookup>(
    name: &Name,
    tested: Tested<'_>,
    known: &Known<'_, L>,
    at: usize,
) -> Result<bool, NoMemory>
    ensures { IfOk result (λ holds. holds ≡ is_some (after_variable name.now
        (tested_value tested.entry) (before_check L.bindings known.now at))) }
{
    let held = if known.takes_first(name, at) {
        known.before.variable(name)?
    } else {
        known.variable(name, at)?
    };
    Ok(match held {
        Some(value) => tested.is(&value),
        None => true,
    })
}

/// Whether one of the alternatives holds, where the constants of one do.
fn one_holds<L: Lookup>(
    alloc: Global,
    constants: &Constants,
    alternatives: &[Vec<Check>],
    tested: Tested<'_>,
    known: &Known<'_, L>,
    at: usize,
) -> Result<bool, NoMemory>
    requires { list_any (constants_hold (tested_value tested))
        (map (λ cs. map check_of cs.items) alternatives.now) ≡ true }
    ensures { IfOk result (λ holds. holds ≡ one_holds
        (map (λ cs. map check_of cs.items) alternatives.now) (tested_value tested.entry)
        (before_check L.bindings known.now at)) }
{
    if are_of_constants(alternatives) {
        return Ok(true);
    }
    for alternative in alternatives {
        if all_hold(alloc, constants, alternative.as_slice(), tested, known, at)? {
            return Ok(true);
        }
    }
    Ok(false)
}

/// Whether all alternatives are of constants alone.
fn are_of_constants(alternatives: &[Vec<Check>]) -> bool
    ensures { result ≡ are_of_constants (map (λ cs. map check_of cs.items) alternatives.now) }
{
    for alternative in alternatives {
        if !is_of_constants(alternative) {
            return false;
        }
    }
    true
}

/// Whether all checks are for constants.
fn is_of_constants(checks: &[Check]) -> bool
    ensures { result ≡ is_of_constants (map check_of checks.now) }
{
    for check in checks {
        if !is_constant(&check.test) {
            return false;
        }
    }
    true
}

/// Whether a test is for a constant.
fn is_constant(test: &Test) -> bool
    ensures { result ≡ is_constant (asked_test test.now) }
{
    match test {
        Test::Constant(_) => true,
        Test::Variable(_) | Test::Predicate(_) | Test::ReturnValue(_) => false,
    }
}

/// Whether all checks of an alternative hold.
fn all_hold<L: Lookup>(
    alloc: Global,
    constants: &Constants,
    checks: &[Check],
    tested: Tested<'_>,
    known: &Known<'_, L>,
    at: usize,
) -> Result<bool, NoMemory>
    ensures { IfOk result (λ holds. holds
        ≡ list_all (check_holds (tested_value tested.entry)
        (before_check L.bindings known.now at))
        (map check_of checks.now)) }
{
    for check in checks {
        if !check_holds(alloc, constants, check, tested, known, at)? {
            return Ok(false);
        }
    }
    Ok(true)
}

/// Whether a check holds.
fn check_holds<L: Lookup>(
    alloc: Global,
    constants: &Constants,
    check: &Check,
    tested: Tested<'_>,
    known: &Known<'_, L>,
    at: usize,
) -> Result<bool, NoMemory>
    ensures { IfOk result (λ holds. holds ≡ check_holds (tested_value tested.entry)
        (before_check L.bindings known.now at) (check_of check.now)) }
{
    let holds = test_holds(alloc, constants, &check.test, tested, known, at)?;
    Ok(if check.is_negated { !holds } else { holds })
}

/// Whether a test holds.
fn test_holds<L: Lookup>(
    alloc: Global,
    constants: &Constants,
    test: &Test,
    tested: Tested<'_>,
    known: &Known<'_, L>,
    at: usize,
) -> Result<bool, NoMemory>
    ensures { IfOk result (λ holds. holds ≡ test_holds (asked_test test.now)
        (tested_value tested.entry) (before_check L.bindings known.now at)) }
{
    match test {
        Test::Constant(value) => Ok(tested.is(value)),
        Test::Variable(name) => agrees(name, tested, known, at),
        Test::Predicate(expr) => Ok(match value_if_any(alloc, constants, expr, known, at)? {
            Some(value) => is_true(&value),
            None => false,
        }),
        Test::ReturnValue(expr) => Ok(match value_if_any(alloc, constants, expr, known, at)? {
            Some(value) => tested.is(&value),
            None => false,
        }),
    }
}

/// The value of an expression, or `None` where it faults.
fn value_if_any<L: Lookup>(
    alloc: Global,
    constants: &Constants,
    expr: &Expr,
    known: &Known<'_, L>,
    at: usize,
) -> Result<Option<Value>, NoMemory>
    ensures { IfOk result (λ value. value
        ≡ value_if_any (value_of (term_of expr.now) (before_check L.bindings known.now at))) }
{
    match eval(alloc, constants, expr, &AtCheck { known, check: at }) {
        Ok(value) => Ok(Some(value)),
        Err(Refused::Fault(_)) => Ok(None),
        Err(Refused::NoMemory) => Err(NoMemory),
    }
}

/// Whether a constraint may hold of the value in its place: what it asks by constants alone, where each variable and each
/// expression counts as true. Where this is `false`, `meets` is too, whatever values variables have. It takes no memory.
pub fn may_hold(demand: &Demand, tested: Tested<'_>) -> bool
    ensures { result ≡ may_hold (demand_of demand.now) (tested_value tested.entry) }
{
    match demand {
        Demand::Nothing => true,
        Demand::Each(checks) => constants_hold(checks, tested),
        Demand::Either(_, alternatives) => one_may_hold(alternatives, tested),
    }
}

/// Whether the constants of one of the alternatives hold.
fn one_may_hold(alternatives: &[Vec<Check>], tested: Tested<'_>) -> bool
    ensures { result ≡ list_any (constants_hold (tested_value tested.entry))
        (map (λ cs. map check_of cs.items) alternatives.now) }
{
    for alternative in alternatives {
        if constants_hold(alternative, tested) {
            return true;
        }
    }
    false
}

/// Whether all checks for constants hold.
fn constants_hold(checks: &[Check], tested: Tested<'_>) -> bool
    ensures { result ≡ constants_hold (tested_value tested.entry) (map check_of checks.now) }
{
    for check in checks {
        if !constant_holds(check, tested) {
            return false;
        }
    }
    true
}

/// Whether a check holds, if it is for a constant.
fn constant_holds(check: &Check, tested: Tested<'_>) -> bool
    ensures { result ≡ constant_holds (tested_value tested.entry) (check_of check.now).negated
        (check_of check.now).test }
{
    match &check.test {
        Test::Constant(value) => tested.is(value) != check.is_negated,
        Test::Variable(_) | Test::Predicate(_) | Test::ReturnValue(_) => true,
    }
}
