//! The values of expressions.
use super::rows::{named, read};
use cb_calc::{Constants, Env, eval};
use cb_facts::{Name, Refused, Value, quoted_text};
use cb_forms::NoMemory;
use std::alloc::Global;

/// Gives a variable a value.
fn set(alloc: Global, env: &mut Env, text: &str, number: i64) -> Result<(), NoMemory> {
    let (name, value) = named(alloc, text, number)?;
    env.set(&name, value)
}

/// Gives a global variable a value.
fn set_global(alloc: Global, env: &mut Env, text: &str, number: i64) -> Result<(), NoMemory> {
    let (name, value) = named(alloc, text, number)?;
    env.set_global(&name, value)
}

/// Takes the value of a variable away.
fn unset(alloc: Global, env: &mut Env, text: &str) -> Result<(), NoMemory> {
    let name = Name::new(alloc, text.as_bytes())?;
    env.unset(&name)
}

/// Makes `?x` 7 after it was 6, gives `?gone` a value and takes it away.
fn set_variables(alloc: Global, env: &mut Env) -> Result<(), NoMemory> {
    set(alloc, env, "x", 6)?;
    set(alloc, env, "gone", 5)?;
    set(alloc, env, "x", 7)?;
    unset(alloc, env, "gone")
}

/// `?x` is 7 after it was 6, `?*g*` is 8 after it was 9, and `?gone` had a value.
fn env(alloc: Global) -> Result<Env, NoMemory> {
    let mut env = Env::new(alloc);
    set_variables(alloc, &mut env)?;
    set_global(alloc, &mut env, "g", 9)?;
    set_global(alloc, &mut env, "g", 8)?;
    Ok(env)
}

/// `?x` is 3 after it was 1, and `?y` is 2, with what `env` has.
fn with_more(alloc: Global, env: &Env) -> Result<Env, NoMemory> {
    let mut bindings = Vec::new(alloc);
    for (text, number) in [("x", 1), ("y", 2), ("x", 3)] {
        bindings.push(named(alloc, text, number)?)?;
    }
    env.with(bindings)
}

/// Expressions, and their values.
const VALUES: [(&str, &str); 28] = [
    ("red", "red"),
    ("\"a b\"", "\"a b\""),
    ("?x", "7"),
    ("?*g*", "8"),
    ("(+ ?x ?*g*)", "15"),
    ("(- 1 2 3)", "-4"),
    ("(create$)", "()"),
    ("(create$ 1 (create$ 2 ?x) ?x)", "(1 2 7 7)"),
    ("(not FALSE)", "TRUE"),
    ("(and 5)", "TRUE"),
    ("(or FALSE)", "FALSE"),
    // What an argument decides, those after it don't change, with or without a value.
    ("(and FALSE (div 1 0))", "FALSE"),
    ("(or 0 (div 1 0))", "TRUE"),
    ("(and 1 FALSE (div 1 0))", "FALSE"),
    ("(or FALSE 1 (div 1 0))", "TRUE"),
    ("(and FALSE (div 1 0) (+ red 1))", "FALSE"),
    (
        "(or (and TRUE FALSE (div 1 0)) (not FALSE) (div 1 0))",
        "TRUE",
    ),
    ("(and TRUE 1)", "TRUE"),
    ("(or FALSE FALSE FALSE)", "FALSE"),
    ("(and 1 red 2)", "TRUE"),
    ("(or FALSE FALSE ?x FALSE)", "TRUE"),
    // From two arguments to five, in order.
    ("(- 10 1)", "9"),
    ("(- 10 1 2 3)", "4"),
    ("(- 10 1 2 3 5)", "-1"),
    ("(< 1 2 3 4)", "TRUE"),
    ("(< 1 2 3 3)", "FALSE"),
    ("(neq red blue green red)", "FALSE"),
    ("(str-cat a b c d e)", "\"abcde\""),
];

/// The value of an expression, or its first fault.
fn outcome(alloc: Global, constants: &Constants, env: &Env, text: &str) -> Result<Value, Refused> {
    let expr = read(alloc, env, text.as_bytes())?;
    eval(alloc, constants, &expr, env)
}

/// Whether it has this value.
fn is_value(
    alloc: Global,
    constants: &Constants,
    env: &Env,
    text: &str,
    want: &str,
) -> Result<bool, Refused> {
    let value = outcome(alloc, constants, env, text)?;
    Ok(quoted_text(alloc, &value)?.as_slice() == want.as_bytes())
}

/// The first of these rows whose expression has another value.
fn first_other_value(
    alloc: Global,
    constants: &Constants,
    env: &Env,
    rows: &[(&str, &str)],
) -> Result<Option<usize>, Refused> {
    for (i, (text, want)) in rows.iter().enumerate() {
        if !is_value(alloc, constants, env, text, want)? {
            return Ok(Some(i));
        }
    }
    Ok(None)
}

fn first_wrong_value(
    alloc: Global,
    env: &Env,
    rows: &[(&str, &str)],
) -> Result<Option<usize>, Refused> {
    let constants = Constants::new(alloc)?;
    first_other_value(alloc, &constants, env, rows)
}

#[test]
fn evaluates(rt: HostRuntime) -> Result<(), Refused> {
    let env = env(rt.alloc())?;
    assert!(rt; first_wrong_value(rt.alloc(), &env, &VALUES)?.is_none());
    Ok(())
}

/// Expressions, and their values where variables have more values.
const VALUES_WITH_MORE: [(&str, &str); 3] = [("?x", "3"), ("?y", "2"), ("(+ ?x ?*g*)", "11")];

#[test]
fn more_values_are_seen(rt: HostRuntime) -> Result<(), Refused> {
    let env = with_more(rt.alloc(), &env(rt.alloc())?)?;
    assert!(rt; first_wrong_value(rt.alloc(), &env, &VALUES_WITH_MORE)?.is_none());
    Ok(())
}

#[test]
fn more_values_are_not_seen_below(rt: HostRuntime) -> Result<(), Refused> {
    let env = env(rt.alloc())?;
    drop(with_more(rt.alloc(), &env)?);
    assert!(rt; first_wrong_value(rt.alloc(), &env, &VALUES)?.is_none());
    Ok(())
}

/// `?x` is 3 and `?y` is 2, given so many times.
fn given_often(alloc: Global, times: usize) -> Result<Env, NoMemory> {
    let mut env = Env::new(alloc);
    for _ in 0..times {
        env = with_more(alloc, &env)?;
    }
    Ok(env)
}

/// How often they are given: few values stand in frames, and more in a tree.
const TIMES: [usize; 3] = [1, 5, 6];

/// Expressions, and their values.
const VALUES_GIVEN_OFTEN: [(&str, &str); 2] = [("?x", "3"), ("?y", "2")];

#[test]
fn values_given_often_are_seen(rt: HostRuntime) -> Result<(), Refused> {
    for times in TIMES {
        let env = given_often(rt.alloc(), times)?;
        assert!(rt; first_wrong_value(rt.alloc(), &env, &VALUES_GIVEN_OFTEN)?.is_none());
    }
    Ok(())
}

/// Expressions, and the numbers of their faults: the first counts, from left to right, and types come after all values.
const FAULTS: [(&str, u8); 20] = [
    ("?y", 11),
    ("?gone", 11),
    ("?g", 11),
    ("?*x*", 12),
    ("(+ ?y ?*h*)", 11),
    ("(+ ?*h* ?y)", 12),
    ("(+ red (div 1 0))", 19),
    ("(+ red 2 (div 1 0) (+ red 1))", 19),
    ("(+ (+ red 1) (div 1 0))", 17),
    ("(and TRUE (div 1 0))", 19),
    ("(or FALSE FALSE (div 1 0) TRUE)", 19),
    ("(create$ 1 (+ red 1) (div 1 0))", 17),
    // The `bind` makes ?y known to the reader, and comes too late.
    ("(+ (div 1 0) (bind ?y 1))", 19),
    ("(+ (div 1 0) ?y (bind ?y 1))", 19),
    ("(+ ?y (div 1 0) (bind ?y 1))", 11),
    ("(+ 1 2 (div 1 0))", 19),
    ("(+ red 2 3 (div 1 0))", 19),
    ("(+ 1 ?y (div 1 0) (bind ?y 1))", 11),
    ("(+ 1 2 3 (div 1 0) ?y (bind ?y 1))", 19),
    ("(print 1)", 14),
];

fn number_of(outcome: Result<Value, Refused>) -> u8 {
    match outcome {
        Err(Refused::Fault(fault)) => fault.number(),
        _ => 0,
    }
}

/// The first of these rows whose expression has no such fault.
fn first_other_fault(
    alloc: Global,
    constants: &Constants,
    env: &Env,
    rows: &[(&str, u8)],
) -> Option<usize> {
    for (i, (text, number)) in rows.iter().enumerate() {
        if number_of(outcome(alloc, constants, env, text)) != *number {
            return Some(i);
        }
    }
    None
}

fn first_wrong_fault(alloc: Global, rows: &[(&str, u8)]) -> Result<Option<usize>, Refused> {
    let constants = Constants::new(alloc)?;
    let env = env(alloc)?;
    Ok(first_other_fault(alloc, &constants, &env, rows))
}

#[test]
fn reports_the_first_fault(rt: HostRuntime) -> Result<(), Refused> {
    assert!(rt; first_wrong_fault(rt.alloc(), &FAULTS)?.is_none());
    Ok(())
}

/// So many sums, each in the one before.
fn nested(alloc: Global, depth: usize) -> Result<Vec<u8>, NoMemory> {
    let mut text = Vec::new(alloc);
    for _ in 0..depth {
        text.extend_from_slice(b"(+ 1 ".as_slice())?;
    }
    text.push(b'0')?;
    for _ in 0..depth {
        text.push(b')')?;
    }
    Ok(text)
}

/// The value of so many sums.
fn nested_value(
    alloc: Global,
    constants: &Constants,
    env: &Env,
    depth: usize,
) -> Result<Value, Refused> {
    let text = nested(alloc, depth)?;
    let expr = read(alloc, env, text.as_slice())?;
    eval(alloc, constants, &expr, env)
}

/// The same where no variable has a value.
fn sum_of(alloc: Global, depth: usize) -> Result<Value, Refused> {
    let constants = Constants::new(alloc)?;
    let env = Env::new(alloc);
    nested_value(alloc, &constants, &env, depth)
}

fn is_sum(alloc: Global, depth: usize, sum: i64) -> Result<bool, Refused> {
    Ok(sum_of(alloc, depth)? == Value::Int(sum))
}

#[test]
fn evaluates_what_is_nested_deep(rt: HostRuntime) -> Result<(), Refused> {
    assert!(rt; is_sum(rt.alloc(), 199, 199)?);
    Ok(())
}
