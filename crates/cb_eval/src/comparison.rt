//! Comparisons.
ghost use Rattle.std.specs.Prelude.{◌≡◌, ◌&&◌, map, not};
ghost use Rattle.std.specs.List.{list_all};
ghost use Rattle.cb_eval.specs.Comparison.{all_same, compared, first_differs, in_order, in_order_after, of_integers, same};
ghost use Rattle.cb_eval.specs.Internal.Operations.{order_of};
ghost use Rattle.cb_eval.specs.Internal.{as_number};
ghost use Rattle.cb_facts.specs.Results.{Returns};

use crate::constants::Constants;
use crate::numbers::{are_integers, number};
use cb_facts::{Refused, Value};
use cb_forms::Fault;

/// An order of two numbers.
#[derive(Clone, Copy)]
pub(crate) enum Order {
    /// The first is the lesser.
    Less,
    /// The first is the greater.
    Greater,
    /// The first is not the greater.
    LessOrEqual,
    /// The first is not the lesser.
    GreaterOrEqual,
}

/// Whether an order holds of each two neighbours. All values are to be integers, which is checked first.
pub(crate) fn compare(
    constants: &Constants,
    order: Order,
    values: &[Value],
) -> Result<Value, Refused>
    ensures { Returns result (compared (order_of order) values.now) }
{
    if !are_integers(values) {
        return Err(Refused::Fault(Fault::WrongType));
    }
    Ok(constants.truth(are_in_order(order, values))?)
}

/// Whether all integers equal the first. All values are to be integers, which is checked first.
pub(crate) fn equal(constants: &Constants, values: &[Value]) -> Result<Value, Refused>
    ensures { Returns result (of_integers all_same values.now) }
{
    if !are_integers(values) {
        return Err(Refused::Fault(Fault::WrongType));
    }
    Ok(constants.truth(are_same(values))?)
}

/// Whether the first integer differs from all others. All values are to be integers, which is checked first.
pub(crate) fn not_equal(constants: &Constants, values: &[Value]) -> Result<Value, Refused>
    ensures { Returns result (of_integers first_differs values.now) }
{
    if !are_integers(values) {
        return Err(Refused::Fault(Fault::WrongType));
    }
    Ok(constants.truth(does_first_differ(values))?)
}

/// Whether all values equal the first.
pub(crate) fn are_same(values: &[Value]) -> bool
    ensures { result ≡ all_same values.now }
{
    match values.split_first() {
        None => true,
        Some((first, others)) => all_equal(first, others),
    }
}

fn all_equal(first: &Value, others: &[Value]) -> bool
    ensures { result ≡ list_all (λ v. same v first.now) others.now }
{
    others.iter().all(|value| *value == *first)
}

/// Whether the first value differs from all others.
pub(crate) fn does_first_differ(values: &[Value]) -> bool
    ensures { result ≡ first_differs values.now }
{
    match values.split_first() {
        None => true,
        Some((first, others)) => none_equal(first, others),
    }
}

fn none_equal(first: &Value, others: &[Value]) -> bool
    ensures { result ≡ list_all (λ v. not (same v first.now)) others.now }
{
    others.iter().all(|value| *value != *first)
}

fn are_in_order(order: Order, values: &[Value]) -> bool
    ensures { result ≡ in_order (order_of order) (map as_number values.now) }
{
    match values.split_first() {
        None => true,
        Some((first, others)) => go_on_in_order(order, number(first), others),
    }
}

fn go_on_in_order(order: Order, first: i64, others: &[Value]) -> bool
    ensures { result ≡ in_order_after (order_of order) first (map as_number others.now) }
{
    let mut previous = first;
    for value in others {
        let next = number(value);
        if !holds(order, previous, next) {
            return false;
        }
        previous = next;
    }
    true
}

fn holds(order: Order, first: i64, second: i64) -> bool
    ensures { result ≡ order_of order first second }
{
    match order {
        Order::Less => first < second,
        Order::Greater => first > second,
        Order::LessOrEqual => first <= second,
        Order::GreaterOrEqual => first >= second,
    }
}
