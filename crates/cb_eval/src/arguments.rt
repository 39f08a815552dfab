//! The values that a function is given, by their number and their types.
ghost use Rattle.cb_eval.specs.Arguments.{both_of, fields_of, integer_of, only_value};
ghost use Rattle.cb_facts.specs.Results.{Returns, Settles};

use cb_facts::{Multifield, Refused, Value};
use cb_forms::Fault;

/// The only value.
pub(crate) fn only(values: &[Value]) -> Result<&Value, Refused>
    ensures { Settles (λ v. v.now) result (only_value values.now) }
{
    let Some((value, others)) = values.split_first() else {
        return Err(Refused::Fault(Fault::WrongType));
    };
    match others.split_first() {
        None => Ok(value),
        Some(_) => Err(Refused::Fault(Fault::WrongType)),
    }
}

/// The two values.
pub(crate) fn both(values: &[Value]) -> Result<(&Value, &Value), Refused>
    ensures { Settles (λ p. (p.0.now, p.1.now)) result (both_of values.now) }
{
    let Some((first, others)) = values.split_first() else {
        return Err(Refused::Fault(Fault::WrongType));
    };
    Ok((first, only(others)?))
}

/// The number, where an integer is wanted.
pub(crate) fn integer(value: &Value) -> Result<i64, Refused>
    ensures { Returns result (integer_of value.now) }
{
    match value {
        Value::Int(number) => Ok(*number),
        _ => Err(Refused::Fault(Fault::WrongType)),
    }
}

/// The fields, where a multifield is wanted.
pub(crate) fn multifield(value: &Value) -> Result<&Multifield, Refused>
    ensures { Settles (λ m. m.now) result (fields_of value.now) }
{
    match value {
        Value::Multi(fields) => Ok(fields),
        _ => Err(Refused::Fault(Fault::WrongType)),
    }
}
