//! Reading what one constraint asks: whether it is decided by values, and which variables it has.
ghost use Rattle.std.specs.Prelude.{◌≡◌, ◌++◌, IfOk, OnOk, flat_map, map};
ghost use Rattle.std.specs.List.{list_all};
ghost use Rattle.cb_constraints.specs.Binders.{binder, binders, binders_of};
ghost use Rattle.cb_constraints.specs.Constraints.{check_of, demand_of};
ghost use Rattle.cb_constraints.specs.Holding.{is_constant};
ghost use Rattle.cb_fit.specs.Comparisons.{chosen_at, choices, choices_of, comparisons, is_decided_demand, is_one_variable, is_variable, limits};
ghost use Rattle.cb_fit.specs.Decisions.{choice_field_of};
ghost use Rattle.cb_fit.specs.Internal.Reading.{alternatives_of, compared_of, limit_of};
ghost use Rattle.cb_fit.specs.StandsAlone.{are_constants};

use crate::checks::{Compared, Limit, add_comparisons, add_limits, are_decided_checks};
use crate::choice_field::ChoiceField;
use crate::field_place::FieldPlace;
use cb_constraints::{Check, Demand, Test};
use cb_facts::Name;
use cb_forms::NoMemory;
use std::alloc::Global;

/// Whether what a constraint asks is plain, or compares, or is alternatives that are variables.
pub(crate) fn is_decided_demand(demand: &Demand) -> bool
    ensures { result ≡ is_decided_demand (demand_of demand.now) }
{
    match demand {
        Demand::Nothing => true,
        Demand::Each(checks) => are_decided_checks(checks.as_slice()),
        Demand::Either(_, alternatives) => {
            are_all_constants(alternatives.as_slice()) || are_all_variables(alternatives.as_slice())
        }
    }
}

/// Whether each check of each alternative is for a constant.
fn are_all_constants(alternatives: &[Vec<Check>]) -> bool
    ensures { result ≡ list_all are_constants (alternatives_of alternatives.now) }
{
    for checks in alternatives {
        if !are_constants(checks.as_slice()) {
            return false;
        }
    }
    true
}

/// Whether each of these checks is for a constant.
fn are_constants(checks: &[Check]) -> bool
    ensures { result ≡ are_constants (map check_of checks.now) }
{
    for check in checks {
        if !is_constant(check) {
            return false;
        }
    }
    true
}

/// Whether a check is for a constant.
fn is_constant(check: &Check) -> bool
    ensures { result ≡ is_constant (check_of check.now).test }
{
    match &check.test {
        Test::Constant(_) => true,
        Test::Variable(_) | Test::Predicate(_) | Test::ReturnValue(_) => false,
    }
}

/// Whether each alternative is a variable.
fn are_all_variables(alternatives: &[Vec<Check>]) -> bool
    ensures { result ≡ list_all is_one_variable (alternatives_of alternatives.now) }
{
    for checks in alternatives {
        if !is_one_variable(checks.as_slice()) {
            return false;
        }
    }
    true
}

/// Whether an alternative is a variable.
fn is_one_variable(checks: &[Check]) -> bool
    ensures { result ≡ is_one_variable (map check_of checks.now) }
{
    match checks.split_first() {
        Some((check, others)) => others.is_empty() && is_variable(check),
        None => false,
    }
}

/// Whether a check is for a variable, without `~`.
fn is_variable(check: &Check) -> bool
    ensures { result ≡ is_variable (check_of check.now).negated (check_of check.now).test }
{
    match &check.test {
        Test::Variable(_) => !check.is_negated,
        Test::Constant(_) | Test::Predicate(_) | Test::ReturnValue(_) => false,
    }
}

/// The comparisons that a constraint makes.
pub(crate) fn comparisons_of(alloc: Global, demand: &Demand) -> Result<Vec<Compared<'_>>, NoMemory>
    ensures { IfOk result (λ all. map compared_of all.items ≡ comparisons (demand_of demand.now)) }
{
    let mut all = Vec::new(alloc);
    if let Demand::Each(checks) = demand {
        add_comparisons(checks.as_slice(), &mut all)?;
    }
    Ok(all)
}

/// The comparisons with constants that a constraint makes.
pub(crate) fn limits_of(alloc: Global, demand: &Demand) -> Result<Vec<Limit<'_>>, NoMemory>
    ensures { IfOk result (λ all. map limit_of all.items ≡ limits (demand_of demand.now)) }
{
    let mut all = Vec::new(alloc);
    if let Demand::Each(checks) = demand {
        add_limits(checks.as_slice(), &mut all)?;
    }
    Ok(all)
}

/// The variables that a constraint may give values.
pub(crate) fn names_of(alloc: Global, demand: &Demand) -> Result<Vec<Name>, NoMemory>
    ensures { IfOk result (λ all. all.items ≡ binders (demand_of demand.now)) }
{
    let mut all = Vec::new(alloc);
    add_names(demand, &mut all)?;
    Ok(all)
}

/// Adds the field at this place with the variables that are alternatives, if a constraint has such.
pub(crate) fn add_chosen(
    alloc: Global,
    place: FieldPlace,
    demand: &Demand,
    all: &mut Vec<ChoiceField>,
) -> Result<(), NoMemory>
    ensures { OnOk result (map choice_field_of all.new.items
        ≡ map choice_field_of all.old.items ++ chosen_at place (choices (demand_of demand.now))) }
{
    match demand {
        Demand::Nothing | Demand::Each(_) => Ok(()),
        Demand::Either(_, alternatives) => {
            add_alternatives(alloc, place, alternatives.as_slice(), all)
        }
    }
}

/// The same of alternatives.
fn add_alternatives(
    alloc: Global,
    place: FieldPlace,
    alternatives: &[Vec<Check>],
    all: &mut Vec<ChoiceField>,
) -> Result<(), NoMemory>
    ensures { OnOk result (map choice_field_of all.new.items ≡ map choice_field_of all.old.items
        ++ chosen_at place (choices_of (list_all are_constants (alternatives_of alternatives.now))
        (alternatives_of alternatives.now))) }
{
    if are_all_constants(alternatives) {
        return Ok(());
    }
    let variables = variables_of(alloc, alternatives)?;
    all.push(ChoiceField { place, variables })?;
    Ok(())
}

/// The variables of alternatives.
fn variables_of(alloc: Global, alternatives: &[Vec<Check>]) -> Result<Vec<Name>, NoMemory>
    ensures { IfOk result (λ all. all.items
        ≡ flat_map binders_of (alternatives_of alternatives.now)) }
{
    let mut all = Vec::new(alloc);
    for checks in alternatives {
        add_variables(checks.as_slice(), &mut all)?;
    }
    Ok(all)
}

/// Adds the variables that a constraint may give values.
pub(crate) fn add_names(demand: &Demand, all: &mut Vec<Name>) -> Result<(), NoMemory>
    ensures { OnOk result (all.new.items ≡ all.old.items ++ binders (demand_of demand.now)) }
{
    match demand {
        Demand::Nothing | Demand::Either(None, _) => Ok(()),
        Demand::Each(checks) => add_variables(checks.as_slice(), all),
        Demand::Either(Some(name), _) => {
            all.push(name.clone()?)?;
            Ok(())
        }
    }
}

/// Adds the variables of checks without `~`.
fn add_variables(checks: &[Check], all: &mut Vec<Name>) -> Result<(), NoMemory>
    ensures { OnOk result (all.new.items ≡ all.old.items ++ binders_of (map check_of checks.now)) }
{
    for check in checks {
        add_variable(check, all)?;
    }
    Ok(())
}

/// Adds the variable of a check without `~`.
fn add_variable(check: &Check, all: &mut Vec<Name>) -> Result<(), NoMemory>
    ensures { OnOk result (all.new.items ≡ all.old.items
        ++ binder (check_of check.now).negated (check_of check.now).test) }
{
    match &check.test {
        Test::Variable(name) if !check.is_negated => {
            all.push(name.clone()?)?;
            Ok(())
        }
        _ => Ok(()),
    }
}
