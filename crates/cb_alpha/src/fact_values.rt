//! The values of join fields in a fact.
ghost use Rattle.std.specs.Prelude.{◌≡◌, ◌∷◌, [], IfOk};
ghost use Rattle.cb_alpha.specs.JoinValues.{field_values};

use crate::join_values::JoinValues;
use cb_facts::Fact;
use cb_fit::JoinField;
use cb_forms::NoMemory;
use std::alloc::Global;

/// The values of these fields in a fact, or `None` where it lacks one.
pub fn values_of_fact(
    alloc: Global,
    fields: &[JoinField],
    fact: &Fact,
) -> Result<Option<JoinValues>, NoMemory>
    ensures { IfOk result (λ found. found ≡ field_values fields.now fact.now.content) }
{
    match fields {
        [field] => value_of_fact(field, fact),
        [first, second] => values_of_two(first, second, fact),
        [first, second, third] => values_of_three(first, second, third, fact),
        _ => values_of_many(alloc, fields, fact),
    }
}

/// The same of any number of fields.
fn values_of_many(
    alloc: Global,
    fields: &[JoinField],
    fact: &Fact,
) -> Result<Option<JoinValues>, NoMemory>
    ensures { IfOk result (λ found. found ≡ field_values fields.now fact.now.content) }
{
    let mut values = Vec::with_capacity(alloc, fields.len())?;
    for field in fields {
        match field.value_in(fact)? {
            Some(value) => values.push(value)?,
            None => return Ok(None),
        }
    }
    Ok(Some(JoinValues::many(values)))
}

/// The same of one field.
fn value_of_fact(field: &JoinField, fact: &Fact) -> Result<Option<JoinValues>, NoMemory>
    ensures { IfOk result (λ found. found ≡ field_values (field.now ∷ []) fact.now.content) }
{
    match field.value_in(fact)? {
        Some(value) => Ok(Some(JoinValues::one(value))),
        None => Ok(None),
    }
}

/// The same of two fields.
fn values_of_two(
    first: &JoinField,
    second: &JoinField,
    fact: &Fact,
) -> Result<Option<JoinValues>, NoMemory>
    ensures { IfOk result (λ found. found
        ≡ field_values (first.now ∷ second.now ∷ []) fact.now.content) }
{
    let Some(first) = first.value_in(fact)? else {
        return Ok(None);
    };
    match second.value_in(fact)? {
        Some(second) => Ok(Some(JoinValues::two([first, second]))),
        None => Ok(None),
    }
}

/// The same of three fields.
fn values_of_three(
    first: &JoinField,
    second: &JoinField,
    third: &JoinField,
    fact: &Fact,
) -> Result<Option<JoinValues>, NoMemory>
    ensures { IfOk result (λ found. found
        ≡ field_values (first.now ∷ second.now ∷ third.now ∷ []) fact.now.content) }
{
    let Some(first) = first.value_in(fact)? else {
        return Ok(None);
    };
    let Some(second) = second.value_in(fact)? else {
        return Ok(None);
    };
    match third.value_in(fact)? {
        Some(third) => Ok(Some(JoinValues::three([first, second, third]))),
        None => Ok(None),
    }
}
