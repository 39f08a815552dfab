//! The fields of a fact that have to be equal to variables, whatever else a pattern asks.
ghost use Rattle.std.specs.Prelude.{◌≡◌, ◌++◌, ◌∷◌, [], IfOk, OnOk, map};
ghost use Rattle.std.specs.Option.{option_map};
ghost use Rattle.cb_constraints.specs.Binders.{binder, binders, binders_of};
ghost use Rattle.cb_constraints.specs.Constraints.{check_of, demand_of};
ghost use Rattle.cb_constraints.specs.Holding.{tested_value};
ghost use Rattle.cb_constraints.specs.PartValues.{asked_parts};
ghost use Rattle.cb_fit.specs.FieldPlaces.{field_value};
ghost use Rattle.cb_fit.specs.JoinFields.{fields_for, giving_fields, join_fields, place_of, value_in};

use crate::field_place::FieldPlace;
use crate::placed::placed_demands;
use crate::variable_fields::VariableFields;
use cb_constraints::{Check, Demand, PatternParts, Test, Tested};
use cb_facts::{Fact, Name, Value};
use cb_forms::NoMemory;
use std::alloc::Global;

/// A field of a fact that has to be equal to a variable, where that has a value: else no pattern with this field fits the fact.
///
/// It is one of the fields that a pattern takes one by one before its first segment, with a variable that stands there without `~`.
#[derive(Drop)]
pub struct JoinField {
    /// The variable.
    pub variable: Name,
    /// The place of the slot among the slots of the template; `None` for an ordered fact.
    pub slot: Option<usize>,
    /// The place of the field in the slot or in the ordered fact, from 0.
    pub field: usize,
}

impl JoinField {
    /// The field in a fact, borrowed, or `None` where the fact has no such field.
    pub fn field_in<'a>(&self, fact: &'a Fact) -> Option<Tested<'a>>
        ensures { option_map tested_value result ≡ value_in self.now fact.now.content }
    {
        self.place().field_in(fact)
    }

    /// The value of the field in a fact, or `None` where the fact has no such field. It takes no memory, and is refused as `NoMemory`
    /// only where a count of sharers is full.
    pub fn value_in(&self, fact: &Fact) -> Result<Option<Value>, NoMemory>
        ensures { IfOk result (λ v. v ≡ value_in self.now fact.now.content) }
    {
        self.place().value_in(fact)
    }

    /// Its place.
    pub(crate) fn place(&self) -> FieldPlace
        ensures { result ≡ place_of self.now }
    {
        FieldPlace {
            slot: self.slot,
            field: self.field,
        }
    }
}

/// The first field with each variable, by what a pattern asks. Growth is refused as `NoMemory`, and so is a count of sharers that is
/// full.
pub(crate) fn giving_of_parts(
    alloc: Global,
    parts: &PatternParts,
) -> Result<Vec<JoinField>, NoMemory>
    ensures { IfOk result (λ all. all.items ≡ giving_fields (asked_parts parts.now)) }
{
    let mut all = VariableFields::new(alloc);
    for field in fields_of_parts(alloc, parts)? {
        if all.field_of(&field.variable).is_none() {
            all = all.with(field)?;
        }
    }
    Ok(all.into_fields())
}

/// The fields that have to be equal to variables, by what a pattern asks. Growth is refused as `NoMemory`, and so is a count of
/// sharers that is full.
pub(crate) fn fields_of_parts(
    alloc: Global,
    parts: &PatternParts,
) -> Result<Vec<JoinField>, NoMemory>
    ensures { IfOk result (λ all. all.items ≡ join_fields (asked_parts parts.now)) }
{
    let mut all = Vec::new(alloc);
    for placed in placed_demands(alloc, parts)? {
        add_demand(placed.place, placed.demand, &mut all)?;
    }
    all.shrink_to_fit();
    Ok(all)
}

/// Adds a field, once for each variable that it has to be equal to.
pub(crate) fn add_demand(
    place: FieldPlace,
    demand: &Demand,
    all: &mut Vec<JoinField>,
) -> Result<(), NoMemory>
    ensures { OnOk result (all.new.items
        ≡ all.old.items ++ fields_for place (binders (demand_of demand.now))) }
{
    match demand {
        Demand::Nothing | Demand::Either(None, _) => Ok(()),
        Demand::Each(checks) => add_checks(place, checks.as_slice(), all),
        Demand::Either(Some(name), _) => add_variable(place, name, all),
    }
}

/// The same of checks joined by `&`.
fn add_checks(place: FieldPlace, checks: &[Check], all: &mut Vec<JoinField>) -> Result<(), NoMemory>
    ensures { OnOk result (all.new.items
        ≡ all.old.items ++ fields_for place (binders_of (map check_of checks.now))) }
{
    for check in checks {
        add_check(place, check, all)?;
    }
    Ok(())
}

/// The same of one check.
fn add_check(place: FieldPlace, check: &Check, all: &mut Vec<JoinField>) -> Result<(), NoMemory>
    ensures { OnOk result (all.new.items ≡ all.old.items
        ++ fields_for place (binder (check_of check.now).negated (check_of check.now).test)) }
{
    match &check.test {
        Test::Variable(name) if !check.is_negated => add_variable(place, name, all),
        _ => Ok(()),
    }
}

/// Adds a field for one variable.
fn add_variable(place: FieldPlace, name: &Name, all: &mut Vec<JoinField>) -> Result<(), NoMemory>
    ensures { OnOk result (all.new.items
        ≡ all.old.items ++ fields_for place (name.now ∷ [])) }
{
    let variable = name.clone()?;
    all.push(JoinField {
        variable,
        slot: place.slot,
        field: place.field,
    })?;
    Ok(())
}
