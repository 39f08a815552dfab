//! What a constraint asks, found out without a value.
ghost use Rattle.std.specs.Prelude.{◌≡◌, IfOk, IfSome, None, false, map, true};
ghost use Rattle.std.specs.List.{list_any};
ghost use Rattle.cb_constraints.specs.Constraints.{asked_test, check_of, demand_of, variable};
ghost use Rattle.cb_constraints.specs.Holding.{is_constant, may_hold};
ghost use Rattle.cb_constraints.specs.Internal.Asking.{HoldsOfAll, lone};
ghost use Rattle.cb_exprs.specs.Bindings.{value_at};
ghost use Rattle.cb_facts.specs.declared.value.Value.{Value};

use crate::body::Body;
use crate::constraint::{Check, Demand, Test};
use cb_exprs::Lookup;
use cb_facts::Name;
use cb_forms::NoMemory;

/// Whether a constraint asks anything by constants; of alternatives the answer is always `true`. Where it is `false`, `may_hold` is `true`
/// of every value.
#[tactic(auto, using(crate::proofs::AskingLaws::without_constants))]
pub fn asks_constants(demand: &Demand) -> bool
    ensures { result ≡ false → (v : Value) → may_hold (demand_of demand.now) v ≡ true }
{
    match demand {
        Demand::Nothing => false,
        Demand::Each(checks) => has_constant(checks.as_slice()),
        Demand::Either(_, _) => true,
    }
}

/// Whether one of the checks is for a constant.
fn has_constant(checks: &[Check]) -> bool
    ensures { result ≡ list_any (λ c. is_constant c.test) (map check_of checks.now) }
{
    for check in checks {
        if let Test::Constant(_) = &check.test {
            return true;
        }
    }
    false
}

/// Whether the constraint that comes next, which has this number, is one variable alone that has no value yet, so that it holds of
/// every value. The answer may be `false` where it is one of many variables.
pub fn holds_of_all<L: Lookup>(
    demand: &Demand,
    body: &Body,
    constraint: usize,
    before: &L,
) -> Result<bool, NoMemory>
    ensures { IfOk result (λ all. all ≡ true → HoldsOfAll body.now constraint (L.bindings before.now)
        (demand_of demand.now)) }
{
    let Some(name) = lone_variable(demand) else {
        return Ok(false);
    };
    if !body.is_first(name, constraint, 0) {
        return Ok(false);
    }
    has_none(name, before)
}

/// Whether a variable has no value.
fn has_none<L: Lookup>(name: &Name, before: &L) -> Result<bool, NoMemory>
    ensures { IfOk result (λ none. none ≡ true
        → value_at name.now (L.bindings before.now).variables ≡ None) }
{
    Ok(before.variable(name)?.is_none())
}

/// The variable that a constraint is, if it is one alone.
fn lone_variable(demand: &Demand) -> Option<&Name>
    ensures { IfSome result (λ x. demand_of demand.now ≡ lone x.now) }
{
    let Demand::Each(checks) = demand else {
        return None;
    };
    match checks.as_slice() {
        [check] if !check.is_negated => variable_of(&check.test),
        _ => None,
    }
}

/// The variable of a test for one.
fn variable_of(test: &Test) -> Option<&Name>
    ensures { IfSome result (λ x. asked_test test.now ≡ variable x.now) }
{
    match test {
        Test::Variable(name) => Some(name),
        Test::Constant(_) | Test::Predicate(_) | Test::ReturnValue(_) => None,
    }
}
