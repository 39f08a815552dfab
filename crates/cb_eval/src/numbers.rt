//! The numbers of values that are known to be integers: so no list is made of them.
ghost use Rattle.std.specs.Prelude.{◌≡◌, Ok, Err, MatchBool, map};
ghost use Rattle.std.specs.List.{list_all};
ghost use Rattle.cb_eval.specs.Arguments.{integers_of};
ghost use Rattle.cb_eval.specs.Internal.{as_number};
ghost use Rattle.cb_eval.specs.TypeTests.{is_integer};

use crate::type_tests::is_integer;
use cb_facts::Value;
use cb_forms::Fault;

/// Whether all values are integers.
#[tactic(auto, using(crate::proofs::Integers::all_integers, crate::proofs::Integers::not_all_integers))]
pub(crate) fn are_integers(values: &[Value]) -> bool
    ensures { MatchBool result (integers_of values.now ≡ Ok (map as_number values.now))
        (integers_of values.now ≡ Err Fault.WrongType) }
{
    pass_all(values)
}

fn pass_all(values: &[Value]) -> bool
    ensures { result ≡ list_all is_integer values.now }
{
    values.iter().all(is_integer)
}

/// The number of an integer; no other value is asked for its number.
pub(crate) fn number(value: &Value) -> i64
    ensures { result ≡ as_number value.now }
{
    match value {
        Value::Int(number) => *number,
        _ => 0,
    }
}
