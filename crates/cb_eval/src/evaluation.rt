//! The value of an expression.
ghost use Rattle.std.specs.Prelude.{◌≡◌, [], option_copied, true};
ghost use Rattle.std.specs.Option.{ok_or};
ghost use Rattle.cb_eval.specs.Applied.{applied};
ghost use Rattle.cb_eval.specs.Evaluation.{value_of, values_of};
ghost use Rattle.cb_eval.specs.Internal.{may_be_decided};
ghost use Rattle.cb_eval.specs.Laws.{all_values};
ghost use Rattle.cb_exprs.specs.Terms.{term_of, terms_of};
ghost use Rattle.cb_exprs.specs.Terms as term;
ghost use Rattle.cb_facts.specs.Results.{Returns, and_then};

use crate::calls::apply;
use crate::constants::Constants;
use crate::logic::decides;
use cb_exprs::{Expr, Lookup};
use cb_facts::{Name, Refused, Value};
use cb_forms::Fault;
use cb_words::Function;
use std::alloc::Global;

/// The value of an expression without an effect, or its first fault (`docs/LANGUAGE.md`, "Expressions").
///
/// The arguments of a call are evaluated from left to right, and those after one that decides it (see
/// `decides`) are not. The faults are CB11 for a variable without a value, CB12 for a global variable without
/// one, and those of `apply`. An expression with an effect has no value here: it is CB14. Growth is refused
/// as `NoMemory`; a constant, a variable, `and`, `or` and a call of up to four arguments take no memory of their own.
///
/// It calls itself as deep as the expression is nested.
#[cycle(evaluation)]
pub fn eval<L: Lookup>(
    alloc: Global,
    constants: &Constants,
    expr: &Expr,
    known: &L,
) -> Result<Value, Refused>
    ensures { Returns result (value_of (term_of expr.now) (L.bindings known.now)) }
{
    match expr {
        Expr::Constant(value) => Ok(value.clone()?),
        Expr::Variable(name) => variable(known, name),
        Expr::Global(name) => global_variable(known, name),
        Expr::Call(function, args) => call(alloc, constants, *function, args.as_slice(), known),
        Expr::Effect(_, _) | Expr::If(_, _, _) | Expr::While(_, _) | Expr::Actions(_) => {
            Err(Refused::Fault(Fault::NotInProfile))
        }
    }
}

/// The value of a variable, or CB11 if it has none.
fn variable<L: Lookup>(known: &L, name: &Name) -> Result<Value, Refused>
    ensures { Returns result (value_of (term.variable name.now) (L.bindings known.now)) }
{
    known
        .variable(name)?
        .ok_or(Refused::Fault(Fault::UnboundVariable))
}

/// The value of a global variable, or CB12 if it has none.
fn global_variable<L: Lookup>(known: &L, name: &Name) -> Result<Value, Refused>
    ensures { Returns result (value_of (term.global name.now) (L.bindings known.now)) }
{
    known
        .global_variable(name)?
        .ok_or(Refused::Fault(Fault::UnknownGlobal))
}

/// What a function returns for the values of these arguments.
#[cycle(evaluation)]
fn call<L: Lookup>(
    alloc: Global,
    constants: &Constants,
    function: Function,
    args: &[Expr],
    known: &L,
) -> Result<Value, Refused>
    ensures { Returns result
        (and_then (values_of function [] (terms_of args.now) (L.bindings known.now)) (applied function)) }
{
    if may_be_decided(function) {
        return call_until_decided(alloc, constants, function, args, known);
    }
    call_with_all(alloc, constants, function, args, known)
}

/// The value of a call that an argument may decide. Of those that don't decide it only the last is kept, as the others change
/// nothing.
#[cycle(evaluation)]
fn call_until_decided<L: Lookup>(
    alloc: Global,
    constants: &Constants,
    function: Function,
    args: &[Expr],
    known: &L,
) -> Result<Value, Refused>
    requires { may_be_decided function ≡ true }
    ensures { Returns result
        (and_then (values_of function [] (terms_of args.now) (L.bindings known.now)) (applied function)) }
{
    let mut last = None;
    for arg in args {
        let value = eval(alloc, constants, arg, known)?;
        if decides(function, &value) {
            return apply(alloc, constants, function, &[value]);
        }
        last = Some(value);
    }
    match last {
        Some(value) => apply(alloc, constants, function, &[value]),
        None => apply(alloc, constants, function, &[]),
    }
}

/// What a function returns for the values of all these arguments. Up to four need no vector.
#[cycle(evaluation)]
fn call_with_all<L: Lookup>(
    alloc: Global,
    constants: &Constants,
    function: Function,
    args: &[Expr],
    known: &L,
) -> Result<Value, Refused>
    ensures { Returns result
        (and_then (all_values (terms_of args.now) (L.bindings known.now)) (applied function)) }
{
    match args {
        [only] => {
            let value = eval(alloc, constants, only, known)?;
            apply(alloc, constants, function, &[value])
        }
        [first, second] => {
            let first = eval(alloc, constants, first, known)?;
            let second = eval(alloc, constants, second, known)?;
            apply(alloc, constants, function, &[first, second])
        }
        _ => call_with_more(alloc, constants, function, args, known),
    }
}

/// The same, where there may be three or four.
#[cycle(evaluation)]
fn call_with_more<L: Lookup>(
    alloc: Global,
    constants: &Constants,
    function: Function,
    args: &[Expr],
    known: &L,
) -> Result<Value, Refused>
    ensures { Returns result
        (and_then (all_values (terms_of args.now) (L.bindings known.now)) (applied function)) }
{
    match args {
        [first, second, third] => {
            let first = eval(alloc, constants, first, known)?;
            let second = eval(alloc, constants, second, known)?;
            let third = eval(alloc, constants, third, known)?;
            apply(alloc, constants, function, &[first, second, third])
        }
        [first, second, third, fourth] => {
            let first = eval(alloc, constants, first, known)?;
            let second = eval(alloc, constants, second, known)?;
            let third = eval(alloc, constants, third, known)?;
            let fourth = eval(alloc, constants, fourth, known)?;
            apply(alloc, constants, function, &[first, second, third, fourth])
        }
        _ => call_with_many(alloc, constants, function, args, known),
    }
}

/// The same for any number of them, in a vector.
#[cycle(evaluation)]
fn call_with_many<L: Lookup>(
    alloc: Global,
    constants: &Constants,
    function: Function,
    args: &[Expr],
    known: &L,
) -> Result<Value, Refused>
    ensures { Returns result
        (and_then (all_values (terms_of args.now) (L.bindings known.now)) (applied function)) }
{
    let mut values = Vec::new(alloc);
    for arg in args {
        values.push(eval(alloc, constants, arg, known)?)?;
    }
    apply(alloc, constants, function, values.as_slice())
}

/// Whether an argument may decide what a call of this function returns (see `decides`).
fn may_be_decided(function: Function) -> bool
    ensures { result ≡ may_be_decided function }
{
    matches!(function, Function::And | Function::Or)
}
