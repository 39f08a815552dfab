//! The values of the variables of join fields.
ghost use Rattle.std.specs.Prelude.{◌≡◌, ◌∷◌, [], IfOk};
ghost use Rattle.cb_alpha.specs.JoinValues.{variable_values};

use crate::join_values::JoinValues;
use cb_exprs::Lookup;
use cb_fit::JoinField;
use cb_forms::NoMemory;
use std::alloc::Global;

/// The values of the variables of these fields, or `None` where one has none. Those of up to three fields take no memory of their own. It is
/// refused as `NoMemory` where a look-up is, or growth.
pub fn values_of_variables<L: Lookup>(
    alloc: Global,
    fields: &[JoinField],
    known: &L,
) -> Result<Option<JoinValues>, NoMemory>
    ensures { IfOk result (λ found. found ≡ variable_values fields.now (L.bindings known.now)) }
{
    match fields {
        [field] => value_of_variable(field, known),
        [first, second] => values_of_two(first, second, known),
        [first, second, third] => values_of_three(first, second, third, known),
        _ => values_of_many(alloc, fields, known),
    }
}

/// The same of any number of fields.
fn values_of_many<L: Lookup>(
    alloc: Global,
    fields: &[JoinField],
    known: &L,
) -> Result<Option<JoinValues>, NoMemory>
    ensures { IfOk result (λ found. found ≡ variable_values fields.now (L.bindings known.now)) }
{
    let mut values = Vec::with_capacity(alloc, fields.len())?;
    for field in fields {
        match known.variable(&field.variable)? {
            Some(value) => values.push(value)?,
            None => return Ok(None),
        }
    }
    Ok(Some(JoinValues::many(values)))
}

/// The same of one field.
fn value_of_variable<L: Lookup>(
    field: &JoinField,
    known: &L,
) -> Result<Option<JoinValues>, NoMemory>
    ensures { IfOk result (λ found. found ≡ variable_values (field.now ∷ []) (L.bindings known.now)) }
{
    match known.variable(&field.variable)? {
        Some(value) => Ok(Some(JoinValues::one(value))),
        None => Ok(None),
    }
}

/// The same of two fields.
fn values_of_two<L: Lookup>(
    first: &JoinField,
    second: &JoinField,
    known: &L,
) -> Result<Option<JoinValues>, NoMemory>
    ensures { IfOk result (λ found. found
        ≡ variable_values (first.now ∷ second.now ∷ []) (L.bindings known.now)) }
{
    let Some(first) = known.variable(&first.variable)? else {
        return Ok(None);
    };
    match known.variable(&second.variable)? {
        Some(second) => Ok(Some(JoinValues::two([first, second]))),
        None => Ok(None),
    }
}

/// The same of three fields.
fn values_of_three<L: Lookup>(
    first: &JoinField,
    second: &JoinField,
    third: &JoinField,
    known: &L,
) -> Result<Option<JoinValues>, NoMemory>
    ensures { IfOk result (λ found. found
        ≡ variable_values (first.now ∷ second.now ∷ third.now ∷ []) (L.bindings known.now)) }
{
    let Some(first) = known.variable(&first.variable)? else {
        return Ok(None);
    };
    let Some(second) = known.variable(&second.variable)? else {
        return Ok(None);
    };
    match known.variable(&third.variable)? {
        Some(third) => Ok(Some(JoinValues::three([first, second, third]))),
        None => Ok(None),
    }
}
