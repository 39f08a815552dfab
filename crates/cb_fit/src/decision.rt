//! What decides whether a pattern fits a fact.
ghost use Rattle.std.specs.Prelude.{◌≡◌, ◌++◌, ◌∷◌, [], IfOk, OnOk, map, option_map};
ghost use Rattle.std.specs.List.{list_all};
ghost use Rattle.cb_constraints.specs.Binders.{binders_in, constraints_in};
ghost use Rattle.cb_constraints.specs.Constraints.{constraint_of};
ghost use Rattle.cb_constraints.specs.PartValues.{asked_parts};
ghost use Rattle.cb_fit.specs.Comparisons.{are_decided_parts, choice_fields, compared_at, compared_fields, conditions, decision, with_others};
ghost use Rattle.cb_fit.specs.Decided.{ones};
ghost use Rattle.cb_fit.specs.Decisions.{choice_field_of, decision_of, terms_at};
ghost use Rattle.cb_fit.specs.Internal.Reading.{compared_of, is_decided_alone, rows_of};

use crate::apart::{are_others_chosen, are_others_compared};
use crate::checks::Compared;
use crate::choice_field::ChoiceField;
use crate::comparison::ComparedField;
use crate::conditions::add_conditions;
use crate::cuts::Cuts;
use crate::demands::{add_chosen, add_names, comparisons_of, is_decided_demand, names_of};
use crate::field_place::FieldPlace;
use crate::placed::placed_demands;
use crate::settled::conditions_settle;
use crate::variable_fields::VariableFields;
use cb_constraints::{Constraint, PatternParts, SlotRow};
use cb_exprs::Expr;
use cb_facts::Name;
use cb_forms::NoMemory;
use std::alloc::Global;

/// What decides whether a pattern fits a fact, beside the fact's shape and the fields that have to be equal to variables.
#[derive(Drop)]
pub struct Decision<'a> {
    /// The fields that are compared with variables that don't stand before in the pattern.
    pub compared: Vec<ComparedField>,
    /// The fields that are to be equal to one of several variables.
    pub chosen: Vec<ChoiceField>,
    /// The conditions: expressions of predicates that are no comparisons. Each is to have a value that isn't FALSE, where variables have
    /// their values behind the pattern.
    pub conditions: Vec<&'a Expr>,
}

/// What decides whether a pattern that asks these parts fits a fact, or `None` where it isn't decided by values. Growth is refused as
/// `NoMemory`, and so is a count of sharers that is full.
pub(crate) fn decide_parts(
    alloc: Global,
    parts: &PatternParts,
) -> Result<Option<Decision<'_>>, NoMemory>
    ensures { IfOk result (λ d. option_map decision_of d ≡ decision (asked_parts parts.now)) }
{
    if !are_decided_parts(alloc, parts)? {
        return Ok(None);
    }
    let compared = compared_in(alloc, parts)?;
    let chosen = chosen_in(alloc, parts)?;
    let conditions = conditions_in(alloc, parts)?;
    Ok(Some(Decision {
        compared,
        chosen,
        conditions,
    }))
}

/// Whether what parts ask is decided by values. Growth is refused as `NoMemory`, and so is a count of sharers that is full.
pub(crate) fn are_decided_parts(alloc: Global, parts: &PatternParts) -> Result<bool, NoMemory>
    ensures { IfOk result (λ yes. yes ≡ are_decided_parts (asked_parts parts.now)) }
{
    if !are_decided(alloc, parts)? {
        return Ok(false);
    }
    let names = names_in(alloc, parts)?;
    let chosen = chosen_in(alloc, parts)?;
    if !are_others_chosen(names.as_slice(), chosen.as_slice()) {
        return Ok(false);
    }
    conditions_settle(alloc, names.as_slice(), parts)
}

/// Whether each constraint is decided by values, and compares its field with other variables than its own.
fn are_decided(alloc: Global, parts: &PatternParts) -> Result<bool, NoMemory>
    ensures { IfOk result (λ yes. yes
        ≡ list_all is_decided_alone (constraints_in (asked_parts parts.now))) }
{
    match parts {
        PatternParts::Fields(row) => is_decided_row(alloc, row.constraints()),
        PatternParts::Slots(rows) => are_decided_rows(alloc, rows.as_slice()),
    }
}

/// The same of the rows of slots.
fn are_decided_rows(alloc: Global, rows: &[SlotRow]) -> Result<bool, NoMemory>
    ensures { IfOk result (λ yes. yes ≡ list_all is_decided_alone (rows_of rows.now)) }
{
    for slot in rows {
        if !is_decided_row(alloc, slot.row.constraints())? {
            return Ok(false);
        }
    }
    Ok(true)
}

/// The same of a row.
fn is_decided_row(alloc: Global, constraints: &[Constraint]) -> Result<bool, NoMemory>
    ensures { IfOk result (λ yes. yes
        ≡ list_all is_decided_alone (map constraint_of constraints.now)) }
{
    for constraint in constraints {
        if !is_decided_constraint(alloc, constraint)? {
            return Ok(false);
        }
    }
    Ok(true)
}

/// The same of one constraint.
fn is_decided_constraint(alloc: Global, constraint: &Constraint) -> Result<bool, NoMemory>
    ensures { IfOk result (λ yes. yes ≡ is_decided_alone (constraint_of constraint.now)) }
{
    if constraint.takes_segment || !is_decided_demand(&constraint.demand) {
        return Ok(false);
    }
    let names = names_of(alloc, &constraint.demand)?;
    let comparisons = comparisons_of(alloc, &constraint.demand)?;
    Ok(are_others_compared(names.as_slice(), comparisons.as_slice()))
}

/// The variables that parts may give values.
pub(crate) fn names_in(alloc: Global, parts: &PatternParts) -> Result<Vec<Name>, NoMemory>
    ensures { IfOk result (λ all. all.items
        ≡ binders_in (constraints_in (asked_parts parts.now))) }
{
    let mut all = Vec::new(alloc);
    match parts {
        PatternParts::Fields(row) => add_row_names(row.constraints(), &mut all)?,
        PatternParts::Slots(rows) => add_slot_names(rows.as_slice(), &mut all)?,
    }
    Ok(all)
}

/// Adds those of the rows of slots.
fn add_slot_names(rows: &[SlotRow], all: &mut Vec<Name>) -> Result<(), NoMemory>
    ensures { OnOk result (all.new.items ≡ all.old.items ++ binders_in (rows_of rows.now)) }
{
    for slot in rows {
        add_row_names(slot.row.constraints(), all)?;
    }
    Ok(())
}

/// Adds those of a row.
fn add_row_names(constraints: &[Constraint], all: &mut Vec<Name>) -> Result<(), NoMemory>
    ensures { OnOk result (all.new.items
        ≡ all.old.items ++ binders_in (map constraint_of constraints.now)) }
{
    for constraint in constraints {
        add_names(&constraint.demand, all)?;
    }
    Ok(())
}

/// One field for each constraint: the lengths of the only way in which a pattern with these parts can fit, if it is decided by values.
pub(crate) fn ones_in(alloc: Global, parts: &PatternParts) -> Result<Cuts, NoMemory>
    ensures { IfOk result (λ cuts. cuts ≡ ones (constraints_in (asked_parts parts.now))) }
{
    let mut all = Vec::new(alloc);
    match parts {
        PatternParts::Fields(row) => add_row_ones(row.constraints(), &mut all)?,
        PatternParts::Slots(rows) => add_slot_ones(rows.as_slice(), &mut all)?,
    }
    Cuts::new(alloc, all)
}

/// Adds those of the rows of slots.
fn add_slot_ones(rows: &[SlotRow], all: &mut Vec<u64>) -> Result<(), NoMemory>
    ensures { OnOk result (all.new.items ≡ all.old.items ++ ones (rows_of rows.now)) }
{
    for slot in rows {
        add_row_ones(slot.row.constraints(), all)?;
    }
    Ok(())
}

/// Adds those of a row.
fn add_row_ones(constraints: &[Constraint], all: &mut Vec<u64>) -> Result<(), NoMemory>
    ensures { OnOk result (all.new.items ≡ all.old.items ++ ones (map constraint_of constraints.now)) }
{
    for _constraint in constraints {
        all.push(1)?;
    }
    Ok(())
}

/// The fields that parts compare with variables that don't stand before in them.
fn compared_in(alloc: Global, parts: &PatternParts) -> Result<Vec<ComparedField>, NoMemory>
    ensures { IfOk result (λ all. all.items ≡ compared_fields (asked_parts parts.now)) }
{
    let mut all = Vec::new(alloc);
    let mut before = VariableFields::new(alloc);
    for placed in placed_demands(alloc, parts)? {
        let comparisons = comparisons_of(alloc, placed.demand)?;
        add_compared(&before, placed.place, comparisons.as_slice(), &mut all)?;
        before = before.with_demand(alloc, placed.place, placed.demand)?;
    }
    Ok(all)
}

/// Adds the field at this place, for each of these comparisons with a variable that none of the fields before has.
fn add_compared(
    before: &VariableFields,
    place: FieldPlace,
    comparisons: &[Compared<'_>],
    all: &mut Vec<ComparedField>,
) -> Result<(), NoMemory>
    ensures { OnOk result (all.new.items ≡ all.old.items
        ++ compared_at place (with_others before.now (map compared_of comparisons.now))) }
{
    for compared in comparisons {
        add_comparison(before, place, compared, all)?;
    }
    Ok(())
}

/// The same of one comparison.
fn add_comparison(
    before: &VariableFields,
    place: FieldPlace,
    compared: &Compared<'_>,
    all: &mut Vec<ComparedField>,
) -> Result<(), NoMemory>
    ensures { OnOk result (all.new.items ≡ all.old.items
        ++ compared_at place (with_others before.now (compared_of compared.now ∷ []))) }
{
    if before.field_of(compared.variable).is_none() {
        all.push(ComparedField {
            place,
            comparison: compared.comparison,
            variable: compared.variable.clone()?,
        })?;
    }
    Ok(())
}

/// The fields of parts that are to be equal to one of several variables.
fn chosen_in(alloc: Global, parts: &PatternParts) -> Result<Vec<ChoiceField>, NoMemory>
    ensures { IfOk result (λ all. map choice_field_of all.items
        ≡ choice_fields (asked_parts parts.now)) }
{
    let mut all = Vec::new(alloc);
    for placed in placed_demands(alloc, parts)? {
        add_chosen(alloc, placed.place, placed.demand, &mut all)?;
    }
    Ok(all)
}

/// The conditions of parts.
fn conditions_in(alloc: Global, parts: &PatternParts) -> Result<Vec<&Expr>, NoMemory>
    ensures { IfOk result (λ all. terms_at all.items ≡ conditions (asked_parts parts.now)) }
{
    let mut all = Vec::new(alloc);
    for placed in placed_demands(alloc, parts)? {
        add_conditions(placed.demand, &mut all)?;
    }
    Ok(all)
}
