//! What is true, and what decides.
ghost use Rattle.std.specs.Prelude.{◌≡◌, codes, not};
ghost use Rattle.std.specs.Str.{bytes_eq};
ghost use Rattle.std.specs.List.{list_all, list_any};
ghost use Rattle.cb_eval.specs.Logic.{decides, is_true};
ghost use Rattle.cb_eval.specs.TypeTests.{tested};
ghost use Rattle.cb_facts.specs.Results.{Returns};

use crate::arguments::only;
use crate::constants::Constants;
use cb_facts::{Refused, Value};
use cb_words::Function;

/// Whether a value counts as true, as every value does but the symbol FALSE.
pub fn is_true(value: &Value) -> bool
    ensures { result ≡ is_true value.now }
{
    match value {
        Value::Symbol(bytes) => !is_false(bytes.as_slice()),
        _ => true,
    }
}

/// Whether a symbol of these bytes is FALSE.
fn is_false(bytes: &[u8]) -> bool
    ensures { result ≡ bytes_eq bytes.now (codes "FALSE") }
{
    matches!(bytes, [b'F', b'A', b'L', b'S', b'E'])
}

/// Whether an argument with this value decides what the call returns, whatever comes after it: a false one for `and`, a true
/// one for `or`, and no value for any other function.
pub fn decides(function: Function, value: &Value) -> bool
    ensures { result ≡ decides function value.now }
{
    match function {
        Function::And => !is_true(value),
        Function::Or => is_true(value),
        _ => false,
    }
}

/// Whether all values count as true.
pub(crate) fn are_all_true(values: &[Value]) -> bool
    ensures { result ≡ list_all is_true values.now }
{
    values.iter().all(is_true)
}

/// Whether any value counts as true.
pub(crate) fn is_any_true(values: &[Value]) -> bool
    ensures { result ≡ list_any is_true values.now }
{
    values.iter().any(is_true)
}

/// Whether the only value does not count as true.
pub(crate) fn negate(constants: &Constants, values: &[Value]) -> Result<Value, Refused>
    ensures { Returns result (tested (λ v. not (is_true v)) values.now) }
{
    let value = only(values)?;
    Ok(constants.truth(!is_true(value))?)
}
