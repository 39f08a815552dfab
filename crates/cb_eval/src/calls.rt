//! What a function returns for the values of its arguments.
ghost use Rattle.cb_eval.specs.Applied.{applied, computed};
ghost use Rattle.cb_facts.specs.Results.{Returns};

use crate::arithmetic::{Operation, absolute, calculate};
use crate::comparison::{Order, are_same, compare, does_first_differ, equal, not_equal};
use crate::constants::Constants;
use crate::joining::{join_to_string, join_to_symbol};
use crate::logic::{are_all_true, is_any_true, negate};
use crate::multifields::{count, create, find_first, find_member, find_nth, find_rest};
use crate::type_tests::{Kind, even, odd, test};
use cb_facts::{Refused, Value};
use cb_forms::Fault;
use cb_words::Function;
use std::alloc::Global;

/// What a function returns for the values of its arguments, or its fault (`docs/LANGUAGE.md`, "Functions").
///
/// The types of all values are checked before anything is computed, and then the value is computed from left to right: a
/// value of a wrong type is CB17, a result or a partial result that does not fit 64 bits is CB18, and a zero divisor is
/// CB19. A number of values that the function does not take is CB17 too: a caller that reads calls reports it before, as
/// CB07. Growth is refused as `NoMemory`.
pub fn apply(
    alloc: Global,
    constants: &Constants,
    function: Function,
    values: &[Value],
) -> Result<Value, Refused>
    ensures { Returns result (applied function values.now) }
{
    if !function.arity().takes(values.len()) {
        return Err(Refused::Fault(Fault::WrongType));
    }
    compute(alloc, constants, function, values)
}

#[tactic(auto, unfolding(crate::specs::Internal::Operations::operator_of))]
fn compute(
    alloc: Global,
    constants: &Constants,
    function: Function,
    values: &[Value],
) -> Result<Value, Refused>
    ensures { Returns result (computed function values.now) }
{
    match function {
        Function::Add => calculate(Operation::Add, values),
        Function::Subtract => calculate(Operation::Subtract, values),
        Function::Multiply => calculate(Operation::Multiply, values),
        Function::Div => calculate(Operation::Divide, values),
        Function::Mod => calculate(Operation::Remainder, values),
        Function::Min => calculate(Operation::Least, values),
        Function::Max => calculate(Operation::Greatest, values),
        Function::Abs => absolute(values),
        Function::Equal => equal(constants, values),
        Function::NotEqual => not_equal(constants, values),
        Function::Less => compare(constants, Order::Less, values),
        Function::Greater => compare(constants, Order::Greater, values),
        Function::LessOrEqual => compare(constants, Order::LessOrEqual, values),
        Function::GreaterOrEqual => compare(constants, Order::GreaterOrEqual, values),
        Function::Eq => Ok(constants.truth(are_same(values))?),
        Function::Neq => Ok(constants.truth(does_first_differ(values))?),
        Function::And => Ok(constants.truth(are_all_true(values))?),
        Function::Or => Ok(constants.truth(is_any_true(values))?),
        Function::Not => negate(constants, values),
        Function::Create => create(alloc, values),
        Function::Nth => find_nth(constants, values),
        Function::Length => count(values),
        Function::Member => find_member(constants, values),
        Function::First => find_first(values),
        Function::Rest => find_rest(values),
        Function::StrCat => join_to_string(alloc, values),
        Function::SymCat => join_to_symbol(alloc, values),
        Function::Integerp | Function::Numberp => test(constants, Kind::Integer, values),
        Function::Symbolp => test(constants, Kind::Symbol, values),
        Function::Stringp => test(constants, Kind::Str, values),
        Function::Lexemep => test(constants, Kind::Lexeme, values),
        Function::Multifieldp => test(constants, Kind::Multifield, values),
        Function::Evenp => even(constants, values),
        Function::Oddp => odd(constants, values),
    }
}
