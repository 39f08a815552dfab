//! Tests of a value's type.
ghost use Rattle.std.specs.Prelude.{◌≡◌, not};
ghost use Rattle.cb_eval.specs.Internal.Operations.{test_of};
ghost use Rattle.cb_eval.specs.TypeTests.{integer_tested, is_even, is_integer, is_symbol, is_string, tested};
ghost use Rattle.cb_facts.specs.Results.{Returns};

use crate::arguments::{integer, only};
use crate::constants::Constants;
use cb_facts::{Refused, Value, is_multifield};

/// A kind of values.
#[derive(Clone, Copy)]
pub(crate) enum Kind {
    /// Integers.
    Integer,
    /// Symbols.
    Symbol,
    /// Strings.
    Str,
    /// Symbols and strings.
    Lexeme,
    /// Multifields.
    Multifield,
}

/// Whether the only value is of a kind.
pub(crate) fn test(constants: &Constants, kind: Kind, values: &[Value]) -> Result<Value, Refused>
    ensures { Returns result (tested (test_of kind) values.now) }
{
    let value = only(values)?;
    Ok(constants.truth(is_of(kind, value))?)
}

fn is_of(kind: Kind, value: &Value) -> bool
    ensures { result ≡ test_of kind value.now }
{
    match kind {
        Kind::Integer => is_integer(value),
        Kind::Symbol => is_symbol(value),
        Kind::Str => is_string(value),
        Kind::Lexeme => is_symbol(value) || is_string(value),
        Kind::Multifield => is_multifield(value),
    }
}

/// Whether a value is an integer.
pub(crate) fn is_integer(value: &Value) -> bool
    ensures { result ≡ is_integer value.now }
{
    matches!(value, Value::Int(_))
}

fn is_symbol(value: &Value) -> bool
    ensures { result ≡ is_symbol value.now }
{
    matches!(value, Value::Symbol(_))
}

fn is_string(value: &Value) -> bool
    ensures { result ≡ is_string value.now }
{
    matches!(value, Value::Str(_))
}

/// Whether the only value, which is to be an integer, is even.
pub(crate) fn even(constants: &Constants, values: &[Value]) -> Result<Value, Refused>
    ensures { Returns result (integer_tested is_even values.now) }
{
    let number = integer(only(values)?)?;
    Ok(constants.truth(is_even(number))?)
}

/// Whether the only value, which is to be an integer, is odd.
pub(crate) fn odd(constants: &Constants, values: &[Value]) -> Result<Value, Refused>
    ensures { Returns result (integer_tested (λ n. not (is_even n)) values.now) }
{
    let number = integer(only(values)?)?;
    Ok(constants.truth(!is_even(number))?)
}

fn is_even(number: i64) -> bool
    ensures { result ≡ is_even number }
{
    number.unsigned_abs() % 2 == 0
}
