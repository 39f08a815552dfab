//! Arithmetic.
ghost use Rattle.std.specs.Prelude.{◌≡◌, pos, map, ok_or, unsigned_abs};
ghost use Rattle.cb_eval.specs.Arithmetic.{calculated, or_overflow, left_to_right, magnitude, quotient, remainder, with_others};
ghost use Rattle.cb_eval.specs.Internal.Operations.{operator_of};
ghost use Rattle.cb_eval.specs.Internal.{as_number};
ghost use Rattle.cb_facts.specs.Results.{Returns};

use crate::arguments::{integer, only};
use crate::numbers::{are_integers, number};
use cb_facts::{Refused, Value};
use cb_forms::Fault;

/// What is made of two numbers.
#[derive(Clone, Copy)]
pub(crate) enum Operation {
    /// Their sum.
    Add,
    /// The first less the second.
    Subtract,
    /// Their product.
    Multiply,
    /// Their quotient, truncated toward zero.
    Divide,
    /// What a division leaves, with the sign of the dividend.
    Remainder,
    /// The lesser.
    Least,
    /// The greater.
    Greatest,
}

/// What an operation makes of values from left to right. All are to be integers, which is checked first.
pub(crate) fn calculate(operation: Operation, values: &[Value]) -> Result<Value, Refused>
    ensures { Returns result (calculated (operator_of operation) values.now) }
{
    if !are_integers(values) {
        return Err(Refused::Fault(Fault::WrongType));
    }
    let total = go_from_left_to_right(operation, values)?;
    Ok(Value::Int(total))
}

fn go_from_left_to_right(operation: Operation, values: &[Value]) -> Result<i64, Refused>
    ensures { Returns result (left_to_right (operator_of operation) (map as_number values.now)) }
{
    let Some((first, others)) = values.split_first() else {
        return Err(Refused::Fault(Fault::WrongType));
    };
    go_on(operation, number(first), others)
}

fn go_on(operation: Operation, first: i64, others: &[Value]) -> Result<i64, Refused>
    ensures { Returns result
        (with_others (operator_of operation) first (map as_number others.now)) }
{
    let mut total = first;
    for value in others {
        total = combine(operation, total, number(value))?;
    }
    Ok(total)
}

#[tactic(auto, unfolding(crate::specs::Internal::Operations::operator_of))]
fn combine(operation: Operation, total: i64, number: i64) -> Result<i64, Refused>
    ensures { Returns result (operator_of operation total number) }
{
    match operation {
        Operation::Add => fit(total.checked_add(number)),
        Operation::Subtract => fit(total.checked_sub(number)),
        Operation::Multiply => fit(total.checked_mul(number)),
        Operation::Divide => divide(total, number),
        Operation::Remainder => remain(total, number),
        Operation::Least => Ok(total.min(number)),
        Operation::Greatest => Ok(total.max(number)),
    }
}

fn divide(dividend: i64, divisor: i64) -> Result<i64, Refused>
    ensures { Returns result (quotient dividend divisor) }
{
    if divisor == 0 {
        return Err(Refused::Fault(Fault::DivisionByZero));
    }
    fit(dividend.checked_div(divisor))
}

fn remain(dividend: i64, divisor: i64) -> Result<i64, Refused>
    ensures { Returns result (remainder dividend divisor) }
{
    if divisor == 0 {
        return Err(Refused::Fault(Fault::DivisionByZero));
    }
    Ok(dividend.wrapping_rem(divisor))
}

/// The only value, which is to be an integer, without its sign.
pub(crate) fn absolute(values: &[Value]) -> Result<Value, Refused>
    ensures { Returns result (magnitude values.now) }
{
    let number = integer(only(values)?)?;
    Ok(Value::Int(without_sign(number)?))
}

fn without_sign(number: i64) -> Result<i64, Refused>
    ensures { Returns result (or_overflow (pos (unsigned_abs number))) }
{
    fit(number.checked_abs())
}

/// A number, where it fits 64 bits.
fn fit(number: Option<i64>) -> Result<i64, Refused>
    ensures { result ≡ ok_or number (Refused.Fault Fault.IntegerOverflow) }
{
    number.ok_or(Refused::Fault(Fault::IntegerOverflow))
}
