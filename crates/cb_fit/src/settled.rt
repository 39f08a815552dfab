//! Whether the conditions of a pattern can be evaluated behind it.
ghost use Rattle.std.specs.Prelude.{◌≡◌, [], IfOk, map, option_to_list};
ghost use Rattle.std.specs.List.{list_all};
ghost use Rattle.cb_constraints.specs.Constraints.{check_of, demand_of};
ghost use Rattle.cb_constraints.specs.PartValues.{asked_parts};
ghost use Rattle.cb_fit.specs.Comparisons.{are_settled_checks, are_settled_from, condition_test, is_settled_demand};
ghost use Rattle.cb_fit.specs.FieldPlaces.{placed_demands};
ghost use Rattle.cb_fit.specs.Internal.Reading.{own_of};
ghost use Rattle.cb_fit.specs.Settled.{are_settled, is_settled};
ghost use Rattle.cb_exprs.specs.Terms.{term_of, terms_of};

use crate::apart::is_named;
use crate::checks::is_own;
use crate::conditions::condition_of;
use crate::demands::add_names;
use crate::placed::placed_demands;
use cb_constraints::{Check, Demand, PatternParts};
use cb_exprs::Expr;
use cb_facts::Name;
use cb_forms::NoMemory;
use std::alloc::Global;

/// Whether the conditions of parts that may give values to these names are settled: each variable of one has the same value behind the
/// pattern.
pub(crate) fn conditions_settle(
    alloc: Global,
    names: &[Name],
    parts: &PatternParts,
) -> Result<bool, NoMemory>
    ensures { IfOk result (λ yes. yes ≡ are_settled_from names.now []
        (map (λ d. d.demand) (placed_demands (asked_parts parts.now)))) }
{
    let mut before = Vec::new(alloc);
    for placed in placed_demands(alloc, parts)? {
        if !is_settled_demand(names, before.as_slice(), placed.demand) {
            return Ok(false);
        }
        add_names(placed.demand, &mut before)?;
    }
    Ok(true)
}

/// The same of what one constraint asks, behind fields with these variables.
fn is_settled_demand(names: &[Name], before: &[Name], demand: &Demand) -> bool
    ensures { result ≡ is_settled_demand names.now before.now (demand_of demand.now) }
{
    match demand {
        Demand::Nothing | Demand::Either(_, _) => true,
        Demand::Each(checks) => are_settled_checks(names, before, checks.as_slice()),
    }
}

/// The same of checks.
fn are_settled_checks(names: &[Name], before: &[Name], checks: &[Check]) -> bool
    ensures { result ≡ are_settled_checks names.now before.now [] (map check_of checks.now) }
{
    for i in 0..checks.len() {
        if !is_settled_check(names, before, &checks[..i], &checks[i]) {
            return false;
        }
    }
    true
}

/// The same of a check, after these of the same constraint.
fn is_settled_check(names: &[Name], before: &[Name], own: &[Check], check: &Check) -> bool
    ensures { result ≡ list_all (is_settled names.now before.now (own_of own.now)) (option_to_list
        (condition_test (own_of own.now) (check_of check.now).negated (check_of check.now).test)) }
{
    match condition_of(own, check) {
        Some(condition) => is_settled(names, before, own, condition),
        None => true,
    }
}

/// The same of an expression.
///
/// It calls itself as deep as the expression is nested.
#[cycle(settling)]
fn is_settled(names: &[Name], before: &[Name], own: &[Check], expr: &Expr) -> bool
    ensures { result ≡ is_settled names.now before.now (own_of own.now) (term_of expr.now) }
{
    match expr {
        Expr::Constant(_) | Expr::Global(_) => true,
        Expr::Variable(name) => {
            is_own(own, name) || is_named(name, before) || !is_named(name, names)
        }
        Expr::Call(_, args) => are_settled(names, before, own, args.as_slice()),
        Expr::Effect(_, _) | Expr::If(_, _, _) | Expr::While(_, _) | Expr::Actions(_) => false,
    }
}

/// The same of several expressions.
#[cycle(settling)]
fn are_settled(names: &[Name], before: &[Name], own: &[Check], exprs: &[Expr]) -> bool
    ensures { result ≡ are_settled names.now before.now (own_of own.now) (terms_of exprs.now) }
{
    for expr in exprs {
        if !is_settled(names, before, own, expr) {
            return false;
        }
    }
    true
}
