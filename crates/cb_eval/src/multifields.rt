//! Multifields.
ghost use Rattle.std.specs.Prelude.{◌≡◌, IfOk, drop, option_copied, take};
ghost use Rattle.std.specs.List.{position};
ghost use Rattle.cb_eval.specs.Comparison.{same};
ghost use Rattle.cb_eval.specs.Multifields.{created, field_at, field_or_nil, first_field, member, nth, number_of_fields, of_fields, other_fields, place_of};
ghost use Rattle.cb_facts.specs.Results.{Returns};
ghost use Rattle.cb_facts.specs.Values.{value_of_field};

use crate::arguments::{both, integer, multifield, only};
use crate::constants::Constants;
use cb_facts::{Multifield, Refused, Single, Value, is_multifield, splice, value_of};
use cb_forms::{Fault, NoMemory};
use std::alloc::Global;

/// A multifield of all values, multifields spliced.
pub(crate) fn create(alloc: Global, values: &[Value]) -> Result<Value, Refused>
    ensures { Returns result (created values.now) }
{
    let fields = splice(alloc, values)?;
    Ok(Value::Multi(Multifield::from_vec(fields)?))
}

/// The field at a place, the first value, of a multifield, the second: it counts from 1, and where there is none it is nil.
pub(crate) fn find_nth(constants: &Constants, values: &[Value]) -> Result<Value, Refused>
    ensures { Returns result (nth values.now) }
{
    let (place, fields) = both(values)?;
    let place = integer(place)?;
    let fields = multifield(fields)?;
    Ok(value_or_nil(constants, find_field(place, fields.as_slice()))?)
}

/// The field at a place, or `None` where there is none. It takes no memory, so no place is refused for want of it.
fn find_field(place: i64, fields: &[Single]) -> Option<&Single>
    ensures { field_or_nil (option_copied result) ≡ field_at place fields.now }
{
    let place = usize::try_from(place).ok()?;
    fields.get(place.checked_sub(1)?)
}

/// This field as a value, or nil where there is none.
fn value_or_nil(constants: &Constants, field: Option<&Single>) -> Result<Value, NoMemory>
    ensures { IfOk result (λ v. v ≡ field_or_nil (option_copied field.entry)) }
{
    match field {
        Some(field) => Ok(value_of(field.clone()?)),
        None => constants.nil(),
    }
}

/// The first place of the first value, which is to be a single one, among the fields of the second, a multifield: it counts
/// from 1, and where there is none it is FALSE.
pub(crate) fn find_member(constants: &Constants, values: &[Value]) -> Result<Value, Refused>
    ensures { Returns result (member values.now) }
{
    let (value, fields) = both(values)?;
    if is_multifield(value) {
        return Err(Refused::Fault(Fault::WrongType));
    }
    let fields = multifield(fields)?;
    Ok(find_place(constants, value, fields.as_slice())?)
}

fn find_place(constants: &Constants, value: &Value, fields: &[Single]) -> Result<Value, NoMemory>
    ensures { IfOk result (λ v. v ≡ place_of value.now fields.now) }
{
    match first_place(value, fields) {
        Some(place) => Ok(Value::Int(place as i64 + 1)),
        None => constants.truth(false),
    }
}

fn first_place(value: &Value, fields: &[Single]) -> Option<usize>
    ensures { result ≡ position (λ field. same (value_of_field field) value.now) fields.now }
{
    fields.iter().position(|field| is_field(field, value))
}

fn is_field(field: &Single, value: &Value) -> bool
    ensures { result ≡ same (value_of_field field.now) value.now }
{
    match field {
        Single::Symbol(bytes) => matches!(value, Value::Symbol(others) if *bytes == *others),
        Single::Str(bytes) => matches!(value, Value::Str(others) if *bytes == *others),
        Single::Int(number) => matches!(value, Value::Int(other) if *number == *other),
        Single::Fact(ix) => matches!(value, Value::Fact(other) if *ix == *other),
    }
}

/// The number of fields of the only value, a multifield.
pub(crate) fn count(values: &[Value]) -> Result<Value, Refused>
    ensures { Returns result (of_fields number_of_fields values.now) }
{
    let fields = multifield(only(values)?)?;
    Ok(Value::Int(fields.as_slice().len() as i64))
}

/// The first field of the only value, a multifield, as a multifield, which is empty where the other is. It shares the
/// fields.
pub(crate) fn find_first(values: &[Value]) -> Result<Value, Refused>
    ensures { Returns result (of_fields first_field values.now) }
{
    let fields = multifield(only(values)?)?;
    Ok(Value::Multi(first_of(fields)?))
}

fn first_of(fields: &Multifield) -> Result<Multifield, NoMemory>
    ensures { IfOk result (λ part. part ≡ take 1 fields.now) }
{
    fields.part(0, fields.as_slice().len().min(1))
}

/// The fields of the only value, a multifield, but the first, as a multifield. It shares the fields.
pub(crate) fn find_rest(values: &[Value]) -> Result<Value, Refused>
    ensures { Returns result (of_fields other_fields values.now) }
{
    let fields = multifield(only(values)?)?;
    Ok(Value::Multi(rest_of(fields)?))
}

fn rest_of(fields: &Multifield) -> Result<Multifield, NoMemory>
    ensures { IfOk result (λ part. part ≡ drop 1 fields.now) }
{
    let count = fields.as_slice().len();
    fields.part(count.min(1), count)
}
