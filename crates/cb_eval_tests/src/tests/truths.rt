//! Comparisons, logic and tests of types; what decides.
use super::rows::{Row, first_wrong, function_named, read_form, value_of_form};
use cb_eval::{decides, is_true};
use cb_facts::{Refused, Value};
use cb_forms::NoMemory;
use cb_words::Function;
use std::alloc::Global;

const TRUTHS: [Row; 116] = [
    ("(= 1 1)", "TRUE"),
    ("(= 1 2)", "FALSE"),
    ("(= 1 1 1)", "TRUE"),
    ("(= 1 1 1 2)", "FALSE"),
    ("(= 1 1 \"a\")", "!17"),
    ("(= 1 2 a)", "!17"),
    ("(= a a)", "!17"),
    ("(= 1)", "!17"),
    ("(<> 1 2)", "TRUE"),
    ("(<> 1 1)", "FALSE"),
    ("(<> 1 2 2)", "TRUE"),
    ("(<> 1 2 1)", "FALSE"),
    ("(<> 1 1 a)", "!17"),
    ("(<> (1) 1)", "!17"),
    ("(<> 1)", "!17"),
    ("(< 1 2 3)", "TRUE"),
    ("(< 1 3 2)", "FALSE"),
    ("(< 1 1)", "FALSE"),
    ("(< -9223372036854775808 9223372036854775807)", "TRUE"),
    ("(< -1 -2)", "FALSE"),
    ("(< 2 1 a)", "!17"),
    ("(< 1)", "!17"),
    ("(> 3 2 1)", "TRUE"),
    ("(> 3 1 2)", "FALSE"),
    ("(> 1 1)", "FALSE"),
    ("(> 1 -1)", "TRUE"),
    ("(> \"b\" \"a\")", "!17"),
    ("(> 1)", "!17"),
    ("(<= 1 1 2)", "TRUE"),
    ("(<= 2 1)", "FALSE"),
    ("(<= -2 -2)", "TRUE"),
    ("(<= 1 2 1)", "FALSE"),
    ("(<= 1 a)", "!17"),
    ("(<= 1)", "!17"),
    ("(>= 2 2 1)", "TRUE"),
    ("(>= 1 2)", "FALSE"),
    ("(>= 2 1 2)", "FALSE"),
    ("(>= 1 ?)", "!17"),
    ("(>= 1)", "!17"),
    ("(eq a a)", "TRUE"),
    ("(eq a \"a\")", "FALSE"),
    ("(eq 1 \"1\")", "FALSE"),
    ("(eq 1 1 2)", "FALSE"),
    ("(eq 1 1 1)", "TRUE"),
    ("(eq (a) (a))", "TRUE"),
    ("(eq (a) a)", "FALSE"),
    ("(eq () ())", "TRUE"),
    ("(eq (1 2) (1 3))", "FALSE"),
    ("(eq (1 2) (1))", "FALSE"),
    ("(eq ? ?)", "TRUE"),
    ("(eq ? 1)", "FALSE"),
    ("(eq \"\" \"\")", "TRUE"),
    ("(eq a)", "!17"),
    ("(neq a b)", "TRUE"),
    ("(neq a a)", "FALSE"),
    ("(neq a b a)", "FALSE"),
    ("(neq a b b)", "TRUE"),
    ("(neq (a b) (a))", "TRUE"),
    ("(neq \"a\" a ?)", "TRUE"),
    ("(neq a)", "!17"),
    ("(and 1 2)", "TRUE"),
    ("(and FALSE)", "FALSE"),
    ("(and TRUE FALSE 1)", "FALSE"),
    ("(and \"FALSE\")", "TRUE"),
    ("(and (FALSE))", "TRUE"),
    ("(and ())", "TRUE"),
    ("(and false)", "TRUE"),
    ("(and)", "!17"),
    ("(or FALSE FALSE)", "FALSE"),
    ("(or FALSE 0)", "TRUE"),
    ("(or 3)", "TRUE"),
    ("(or ? FALSE)", "TRUE"),
    ("(or FALSE)", "FALSE"),
    ("(or)", "!17"),
    ("(not FALSE)", "TRUE"),
    ("(not 5)", "FALSE"),
    ("(not TRUE)", "FALSE"),
    ("(not \"FALSE\")", "FALSE"),
    ("(not ())", "FALSE"),
    ("(not)", "!17"),
    ("(not 1 2)", "!17"),
    ("(integerp 1)", "TRUE"),
    ("(integerp a)", "FALSE"),
    ("(integerp \"1\")", "FALSE"),
    ("(integerp (1))", "FALSE"),
    ("(integerp ?)", "FALSE"),
    ("(integerp)", "!17"),
    ("(numberp 1)", "TRUE"),
    ("(numberp a)", "FALSE"),
    ("(numberp ?)", "FALSE"),
    ("(numberp 1 2)", "!17"),
    ("(symbolp a)", "TRUE"),
    ("(symbolp \"a\")", "FALSE"),
    ("(symbolp 1)", "FALSE"),
    ("(symbolp (a))", "FALSE"),
    ("(symbolp ?)", "FALSE"),
    ("(symbolp)", "!17"),
    ("(stringp \"\")", "TRUE"),
    ("(stringp a)", "FALSE"),
    ("(stringp 1)", "FALSE"),
    ("(stringp (\"a\"))", "FALSE"),
    ("(stringp ?)", "FALSE"),
    ("(stringp)", "!17"),
    ("(lexemep a)", "TRUE"),
    ("(lexemep \"a\")", "TRUE"),
    ("(lexemep 1)", "FALSE"),
    ("(lexemep (a))", "FALSE"),
    ("(lexemep ?)", "FALSE"),
    ("(lexemep)", "!17"),
    ("(multifieldp ())", "TRUE"),
    ("(multifieldp (a))", "TRUE"),
    ("(multifieldp a)", "FALSE"),
    ("(multifieldp \"()\")", "FALSE"),
    ("(multifieldp 1)", "FALSE"),
    ("(multifieldp ?)", "FALSE"),
    ("(multifieldp)", "!17"),
];

#[test]
fn compares(rt: HostRuntime) -> Result<(), NoMemory> {
    assert!(rt; first_wrong(rt.alloc(), &TRUTHS)?.is_none());
    Ok(())
}

/// A function, a value, whether an argument with that value decides what the call returns, and whether the value is true.
type Deciding = (&'static str, &'static str, bool, bool);

const DECIDING: [Deciding; 12] = [
    ("and", "FALSE", true, false),
    ("and", "TRUE", false, true),
    ("and", "0", false, true),
    ("and", "\"FALSE\"", false, true),
    ("and", "(FALSE)", false, true),
    ("or", "FALSE", false, false),
    ("or", "nil", true, true),
    ("or", "?", true, true),
    ("or", "()", true, true),
    ("not", "FALSE", false, false),
    ("eq", "TRUE", false, true),
    ("+", "1", false, true),
];

fn is_so(alloc: Global, row: &Deciding) -> Result<bool, Refused> {
    let (name, text, decided, truth) = *row;
    let value = value_of_form(alloc, &read_form(alloc, text)?)?;
    let Some(function) = function_named(name.as_bytes()) else {
        return Err(Refused::NoMemory);
    };
    Ok(has_decided(function, &value) == decided && has_truth(&value) == truth)
}

fn has_decided(function: Function, value: &Value) -> bool {
    decides(function, value)
}

fn has_truth(value: &Value) -> bool {
    is_true(value)
}

/// The first of these rows that is not so.
fn first_other(alloc: Global, rows: &[Deciding]) -> Result<Option<usize>, Refused> {
    for (i, row) in rows.iter().enumerate() {
        if !is_so(alloc, row)? {
            return Ok(Some(i));
        }
    }
    Ok(None)
}

#[test]
fn decides_by_one_value(rt: HostRuntime) -> Result<(), Refused> {
    assert!(rt; first_other(rt.alloc(), &DECIDING)?.is_none());
    Ok(())
}
