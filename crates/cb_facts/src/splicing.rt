//! The fields of values.
ghost use Rattle.std.specs.Prelude.{◌≡◌, ◌++◌, IfOk, OnOk};
ghost use Rattle.cb_facts.specs.Values.{fields_in, is_multifield, spliced, value_of_field};

use crate::single::Single;
use crate::value::Value;
use cb_forms::NoMemory;
use std::alloc::Global;

/// The fields of values in their order, those of a multifield in its place. Growth is refused as `NoMemory`.
pub fn splice(alloc: Global, values: &[Value]) -> Result<Vec<Single>, NoMemory>
    ensures { IfOk result (λ fields. fields.items ≡ spliced values.now) }
{
    let mut fields = Vec::with_capacity(alloc, values.len())?;
    for value in values {
        add_fields(&mut fields, value)?;
    }
    Ok(fields)
}

/// The fields of a value after those that are there.
fn add_fields(fields: &mut Vec<Single>, value: &Value) -> Result<(), NoMemory>
    ensures { OnOk result (fields.new.items ≡ fields.old.items ++ fields_in value.now) }
{
    match value {
        Value::Symbol(bytes) => fields.push(Single::Symbol(bytes.clone()?))?,
        Value::Str(bytes) => fields.push(Single::Str(bytes.clone()?))?,
        Value::Int(number) => fields.push(Single::Int(*number))?,
        Value::Fact(ix) => fields.push(Single::Fact(*ix))?,
        Value::Multi(more) => add_each(fields, more.as_slice())?,
    }
    Ok(())
}

fn add_each(fields: &mut Vec<Single>, more: &[Single]) -> Result<(), NoMemory>
    ensures { OnOk result (fields.new.items ≡ fields.old.items ++ more.now) }
{
    for field in more {
        fields.push(field.clone()?)?;
    }
    Ok(())
}

/// A field as a value.
pub fn value_of(field: Single) -> Value
    ensures { result ≡ value_of_field field }
{
    match field {
        Single::Symbol(bytes) => Value::Symbol(bytes),
        Single::Str(bytes) => Value::Str(bytes),
        Single::Int(number) => Value::Int(number),
        Single::Fact(ix) => Value::Fact(ix),
    }
}

/// Whether a value is a multifield.
pub fn is_multifield(value: &Value) -> bool
    ensures { result ≡ is_multifield value.now }
{
    matches!(value, Value::Multi(_))
}
