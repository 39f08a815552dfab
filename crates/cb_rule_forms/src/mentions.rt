//! The variables of a left side: which have a value where.
ghost use Rattle.std.specs.Prelude.{◌≡◌, ◌∷◌, [], IfOk, List, MatchOption, OnOk, map, option_map};
ghost use Rattle.std.specs.List.{filter, flat_map, list_all};
ghost use Rattle.cb_constraints.specs.Constraints.{check_of, demand_of, either, asked_test};
ghost use Rattle.cb_constraints.specs.PartValues.{asked_parts};
ghost use Rattle.cb_facts.specs.FaultLists.{ReadsAs};
ghost use Rattle.cb_expr_forms.specs.Scopes.{is_known};
ghost use Rattle.cb_expr_forms.specs.Variables.{variables_of};
ghost use Rattle.cb_exprs.specs.Terms.{term_of};
ghost use Rattle.cb_rule_forms.specs.Internal.{Knows, KnowsElements, branches_read, form_value};
ghost use Rattle.cb_rules.specs.Elements as rules;
ghost use Rattle.cb_rule_forms.specs.Mentions.{Mention, address_mentions, apart_mentions, check_mentions, checks_variables, demand_mentions, known_after, known_by_all, known_in, known_past, needed, parts_mentions, pattern_mentions, place, row_mentions, test_variables, variable_faults, variables_faults, with_name};

use crate::element::{ElementForm, PatternForm};
use cb_constraints::{Check, Constraint, Demand, PatternParts, Row, SlotRow, Test};
use cb_expr_forms::{NameList, knows_all};
use cb_exprs::Expr;
use cb_facts::{Name, Refused};
use cb_forms::{Fault, NoMemory};
use std::alloc::Global;

/// A part of a left side, which mentions variables.
trait Mentions {
    // what it mentions, in the order in which it is written
    ghost mentions: { Self → List Mention };

    /// Adds the variables that it binds to those that have a value, or gives the first fault of a variable.
    fn bind(&self, known: &mut NameList) -> Result<(), Refused>
        ensures { Knows known.old (mentions self.now) known.new result };
}

/// The variables that each of these branches binds, or the first fault of a variable, branch by branch.
pub(crate) fn bind_branches(
    alloc: Global,
    branches: &[Vec<ElementForm>],
) -> Result<NameList, Refused>
    ensures { ReadsAs (λ names. names) result
        (flat_map (variables_faults []) (branches_read branches.now))
        (known_by_all (branches_read branches.now)) }
{
    let Some((first, others)) = branches.split_first() else {
        return Ok(NameList::new(alloc));
    };
    let mut common = bind_branch(alloc, first.as_slice())?;
    for branch in others {
        let known = bind_branch(alloc, branch.as_slice())?;
        common = keep_known(alloc, common, &known)?;
    }
    Ok(common)
}

/// The variables that a branch binds, or the first fault of a variable.
fn bind_branch(alloc: Global, elements: &[ElementForm]) -> Result<NameList, Refused>
    ensures { ReadsAs (λ names. names) result
        (variables_faults [] (rules.elements (map form_value elements.now)))
        (known_in [] (rules.elements (map form_value elements.now))) }
{
    let mut known = NameList::new(alloc);
    bind_elements(&mut known, elements)?;
    Ok(known)
}

/// Those of the names that are known.
fn keep_known(alloc: Global, names: NameList, known: &NameList) -> Result<NameList, NoMemory>
    ensures { IfOk result (λ kept. kept ≡ filter (is_known known.now) names) }
{
    let mut kept = NameList::new(alloc);
    for name in names.into_vec() {
        if known.has(&name) {
            kept.push(&name)?;
        }
    }
    Ok(kept)
}

/// Adds the variables that elements bind to those that have a value, or gives the first fault of a variable.
#[cycle(binding)]
fn bind_elements(known: &mut NameList, elements: &[ElementForm]) -> Result<(), Refused>
    ensures { KnowsElements known.old (map form_value elements.now) known.new result }
{
    for element in elements {
        bind_element(known, element)?;
    }
    Ok(())
}

/// Adds the variables that an element binds to those that have a value, or gives the first fault of a variable.
///
/// It calls itself as deep as groups are nested.
#[cycle(binding)]
fn bind_element(known: &mut NameList, element: &ElementForm) -> Result<(), Refused>
    ensures { ReadsAs (λ _. known.new) result (variable_faults known.old (form_value element.now))
        (known_past known.old (form_value element.now)) }
{
    match element {
        ElementForm::Pattern(form) => bind_pattern(known, form),
        ElementForm::Test(expr) => need_all(known, expr),
        ElementForm::Group(_, inner) => bind_group(known, inner.as_slice()),
    }
}

/// The first fault of a variable in a group. What its elements bind is known in it alone.
#[cycle(binding)]
fn bind_group(known: &mut NameList, inner: &[ElementForm]) -> Result<(), Refused>
    ensures { ReadsAs (λ _. known.new) result
        (variables_faults known.old (rules.elements (map form_value inner.now))) known.old }
{
    let count = known.len();
    bind_elements(known, inner)?;
    known.truncate(count);
    Ok(())
}

/// Where a variable of an expression has no value, the fault is CB11.
fn need_all(known: &NameList, expr: &Expr) -> Result<(), Refused>
    ensures { Knows known.now (map needed (variables_of (term_of expr.now))) known.now result }
{
    if !knows_all(known, expr) {
        return Err(Refused::Fault(Fault::UnboundVariable));
    }
    Ok(())
}

/// Adds the variables that a pattern binds to those that have a value, or gives the first fault of a variable.
fn bind_pattern(known: &mut NameList, form: &PatternForm) -> Result<(), Refused>
    ensures { Knows known.old (pattern_mentions form.now.address (record
        { relation = form.now.relation; parts = asked_parts form.now.parts })) known.new result }
{
    bind_address(known, form.address.as_ref())?;
    bind_parts(known, &form.parts)
}

/// Adds the variables that parts bind, one part after another, to those that have a value, or gives the first fault of a
/// variable.
fn bind_all<T: Mentions>(known: &mut NameList, parts: &[T]) -> Result<(), Refused>
    ensures { Knows known.old (flat_map T.mentions parts.now) known.new result }
{
    for part in parts {
        part.bind(known)?;
    }
    Ok(())
}

/// Adds the variable that takes a fact's address to those that have a value. Where it is one of them, the fault is CB08.
fn bind_address(known: &mut NameList, address: Option<&Name>) -> Result<(), Refused>
    ensures { Knows known.old (address_mentions (option_map (λ x. x.now) address.entry))
        known.new result }
{
    let Some(name) = address else {
        return Ok(());
    };
    if known.has(name) {
        return Err(Refused::Fault(Fault::MalformedForm));
    }
    known.push(name)?;
    Ok(())
}

/// Adds the variables that a row of fields or the slots of a pattern bind to those that have a value, or gives the first
/// fault of a variable.
fn bind_parts(known: &mut NameList, parts: &PatternParts) -> Result<(), Refused>
    ensures { Knows known.old (parts_mentions (asked_parts parts.now)) known.new result }
{
    match parts {
        PatternParts::Fields(row) => bind_row(known, row),
        PatternParts::Slots(slots) => bind_all(known, slots.as_slice()),
    }
}

/// Adds the variables that a row of constraints binds to those that have a value, or gives the first fault of a variable.
fn bind_row(known: &mut NameList, row: &Row) -> Result<(), Refused>
    ensures { Knows known.old (row_mentions row.now) known.new result }
{
    bind_all(known, row.constraints())
}

impl Mentions for SlotRow {
    ghost mentions = { λ slot. row_mentions slot.row };

    fn bind(&self, known: &mut NameList) -> Result<(), Refused> {
        bind_row(known, &self.row)
    }
}

impl Mentions for Constraint {
    ghost mentions = { λ constraint. demand_mentions (demand_of constraint.demand) };

    fn bind(&self, known: &mut NameList) -> Result<(), Refused> {
        match &self.demand {
            Demand::Nothing => Ok(()),
            Demand::Each(checks) => bind_all(known, checks.as_slice()),
            Demand::Either(apart, alternatives) => {
                bind_either(known, apart.as_ref(), alternatives.as_slice())
            }
        }
    }
}

impl Mentions for Check {
    ghost mentions = { λ check. check_mentions (check_of check) };

    fn bind(&self, known: &mut NameList) -> Result<(), Refused> {
        match plain_variable(self) {
            Some(name) => Ok(add_name(known, name)?),
            None => {
                if !knows_test(known, &self.test) {
                    return Err(Refused::Fault(Fault::UnboundVariable));
                }
                Ok(())
            }
        }
    }
}

/// The variable that a check is, without `~`.
fn plain_variable(check: &Check) -> Option<&Name>
    ensures { MatchOption result
        (check_mentions (check_of check.now)
        ≡ map needed (test_variables (asked_test check.now.test)))
        (λ x. check_mentions (check_of check.now) ≡ place x.now ∷ []) }
{
    if check.is_negated {
        return None;
    }
    match &check.test {
        Test::Variable(name) => Some(name),
        Test::Constant(_) | Test::Predicate(_) | Test::ReturnValue(_) => None,
    }
}

/// Adds the variable that stands before alternatives, if there is one, to those that have a value. Where a variable of the
/// alternatives has none, the fault is CB11.
fn bind_either(
    known: &mut NameList,
    apart: Option<&Name>,
    alternatives: &[Vec<Check>],
) -> Result<(), Refused>
    ensures { Knows known.old
        (demand_mentions (either (option_map (λ x. x.now) apart.entry)
        (map (λ cs. map check_of cs.items) alternatives.now)))
        known.new result }
{
    bind_apart(known, apart)?;
    if !knows_alternatives(known, alternatives) {
        return Err(Refused::Fault(Fault::UnboundVariable));
    }
    Ok(())
}

/// Adds a variable that is set apart.
fn bind_apart(known: &mut NameList, apart: Option<&Name>) -> Result<(), NoMemory>
    ensures { OnOk result (known.new
        ≡ known_after known.old (apart_mentions (option_map (λ x. x.now) apart.entry))) }
{
    match apart {
        Some(name) => add_name(known, name),
        None => Ok(()),
    }
}

/// Whether the variables of all alternatives have values.
fn knows_alternatives(known: &NameList, alternatives: &[Vec<Check>]) -> bool
    ensures { result ≡ list_all (is_known known.now)
        (flat_map checks_variables (map (λ cs. map check_of cs.items) alternatives.now)) }
{
    for checks in alternatives {
        if !knows_checks(known, checks.as_slice()) {
            return false;
        }
    }
    true
}

/// Whether the variables of all checks have values.
fn knows_checks(known: &NameList, checks: &[Check]) -> bool
    ensures { result ≡ list_all (is_known known.now) (checks_variables (map check_of checks.now)) }
{
    for check in checks {
        if !knows_test(known, &check.test) {
            return false;
        }
    }
    true
}

/// Whether the variables of a test have values.
fn knows_test(known: &NameList, test: &Test) -> bool
    ensures { result ≡ list_all (is_known known.now) (test_variables (asked_test test.now)) }
{
    match test {
        Test::Constant(_) => true,
        Test::Variable(name) => known.has(name),
        Test::Predicate(expr) | Test::ReturnValue(expr) => knows_all(known, expr),
    }
}

/// Adds a name, if it is not among them.
pub(crate) fn add_name(known: &mut NameList, name: &Name) -> Result<(), NoMemory>
    ensures { OnOk result (known.new ≡ with_name known.old name.now) }
{
    if known.has(name) {
        return Ok(());
    }
    known.push(name)
}
