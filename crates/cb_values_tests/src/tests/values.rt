//! Constants, the texts and the order of values, and parts of multifields.
use super::rows::{Field, Row, forms, many, value};
use cb_forms::{Form, NoMemory};
use cb_values::{Multifield, Names, Refused, Value, plain_text, quoted_text};
use std::alloc::Global;
use std::cmp::Ordering;

/// A value, the text that it is printed with, and the one that it is shown with.
struct Texts {
    value: Row,
    plain: &'static str,
    quoted: &'static str,
}

const TEXTS: [Texts; 12] = [
    Texts {
        value: Row::One(Field::Symbol("a\"b")),
        plain: "a\"b",
        quoted: "a\"b",
    },
    Texts {
        value: Row::One(Field::Str("")),
        plain: "",
        quoted: "\"\"",
    },
    Texts {
        value: Row::One(Field::Str("a b")),
        plain: "a b",
        quoted: "\"a b\"",
    },
    Texts {
        value: Row::One(Field::Str("a\"b\\c")),
        plain: "a\"b\\c",
        quoted: "\"a\\\"b\\\\c\"",
    },
    Texts {
        value: Row::One(Field::Int(0)),
        plain: "0",
        quoted: "0",
    },
    Texts {
        value: Row::One(Field::Int(-1)),
        plain: "-1",
        quoted: "-1",
    },
    Texts {
        value: Row::One(Field::Int(i64::MAX)),
        plain: "9223372036854775807",
        quoted: "9223372036854775807",
    },
    Texts {
        value: Row::One(Field::Int(i64::MIN)),
        plain: "-9223372036854775808",
        quoted: "-9223372036854775808",
    },
    Texts {
        value: Row::One(Field::Address(0)),
        plain: "<Fact-0>",
        quoted: "<Fact-0>",
    },
    Texts {
        value: Row::One(Field::Address(u64::MAX)),
        plain: "<Fact-18446744073709551615>",
        quoted: "<Fact-18446744073709551615>",
    },
    Texts {
        value: Row::Multifield(&[]),
        plain: "()",
        quoted: "()",
    },
    Texts {
        value: Row::Multifield(&MIXED),
        plain: "(red \"a b\" -3 <Fact-7>)",
        quoted: "(red \"a b\" -3 <Fact-7>)",
    },
];

const MIXED: [Field; 4] = [
    Field::Symbol("red"),
    Field::Str("a b"),
    Field::Int(-3),
    Field::Address(7),
];

fn has_texts(alloc: Global, value: &Value, row: &Texts) -> Result<bool, NoMemory> {
    let plain = plain_text(alloc, value)?;
    let quoted = quoted_text(alloc, value)?;
    Ok(plain.as_slice() == row.plain.as_bytes() && quoted.as_slice() == row.quoted.as_bytes())
}

/// The first row of these that has other texts.
fn first_wrong_text(alloc: Global, rows: &[Texts]) -> Result<Option<usize>, NoMemory> {
    for (i, row) in rows.iter().enumerate() {
        if !has_texts(alloc, &value(alloc, &row.value)?, row)? {
            return Ok(Some(i));
        }
    }
    Ok(None)
}

#[test]
fn prints_values(rt: HostRuntime) -> Result<(), NoMemory> {
    assert!(rt; first_wrong_text(rt.alloc(), &TEXTS)?.is_none());
    Ok(())
}

/// Values in rising order.
const RISING: [Row; 7] = [
    Row::One(Field::Symbol("a")),
    Row::One(Field::Symbol("b")),
    Row::One(Field::Str("a")),
    Row::One(Field::Int(1)),
    Row::One(Field::Address(1)),
    Row::Multifield(&[]),
    Row::Multifield(&[Field::Symbol("a"), Field::Int(1)]),
];

/// How each of them, copied, stands to each.
const SIGNS: &[u8] = b"=<<<<<<
>=<<<<<
>>=<<<<
>>>=<<<
>>>>=<<
>>>>>=<
>>>>>>=
";

fn rising(alloc: Global) -> Result<Vec<Value>, NoMemory> {
    let mut values = Vec::new(alloc);
    for row in &RISING {
        values.push(value(alloc, row)?)?;
    }
    Ok(values)
}

fn sign(one: &Value, other: &Value) -> u8 {
    match one.cmp(other) {
        Ordering::Less => b'<',
        Ordering::Equal => b'=',
        Ordering::Greater => b'>',
    }
}

/// The same by `==` and `<`.
fn operator(one: &Value, other: &Value) -> u8 {
    if one == other {
        return b'=';
    }
    if one < other { b'<' } else { b'>' }
}

fn add_signs(signs: &mut Vec<u8>, one: &Value, values: &[Value]) -> Result<(), NoMemory> {
    for other in values {
        let sign = sign(one, other);
        signs.push(if operator(one, other) == sign {
            sign
        } else {
            b'!'
        })?;
    }
    signs.push(b'\n')?;
    Ok(())
}

fn signs(alloc: Global) -> Result<Vec<u8>, NoMemory> {
    let values = rising(alloc)?;
    let mut signs = Vec::new(alloc);
    for value in &values {
        add_signs(&mut signs, &value.clone()?, values.as_slice())?;
    }
    Ok(signs)
}

#[test]
fn orders_values(rt: HostRuntime) -> Result<(), NoMemory> {
    assert!(rt; signs(rt.alloc())?.as_slice() == SIGNS);
    Ok(())
}

/// The text of the last field of these, shared, or of none.
fn last(fields: &Multifield) -> Result<Multifield, NoMemory> {
    let len = fields.as_slice().len();
    fields.part(len.saturating_sub(1), len)
}

fn last_of_last(alloc: Global, fields: &[Field]) -> Result<Vec<u8>, NoMemory> {
    let last_one = last(&many(alloc, fields)?)?;
    quoted_text(alloc, &Value::Multi(last(&last_one)?))
}

/// Fields, and the text of the last of them.
const LASTS: [(&[Field], &str); 2] = [(&MIXED, "(<Fact-7>)"), (&[], "()")];

fn first_wrong_part(alloc: Global) -> Result<Option<usize>, NoMemory> {
    for (i, (fields, text)) in LASTS.iter().enumerate() {
        if last_of_last(alloc, fields)?.as_slice() != text.as_bytes() {
            return Ok(Some(i));
        }
    }
    Ok(None)
}

#[test]
fn shares_a_part(rt: HostRuntime) -> Result<(), NoMemory> {
    assert!(rt; first_wrong_part(rt.alloc())?.is_none());
    Ok(())
}

/// The text of the constant that a form is.
fn shown(alloc: Global, names: &mut Names, form: &Form) -> Result<Vec<u8>, NoMemory> {
    if let Form::Atom(token) = form {
        if let Some(value) = Value::constant(names, token)? {
            return quoted_text(alloc, &value);
        }
    }
    Ok(Vec::from_slice(alloc, b"none")?)
}

/// Adds the constant that a form is.
fn add_constant(
    alloc: Global,
    names: &mut Names,
    form: &Form,
    shown_ones: &mut Vec<u8>,
) -> Result<(), Refused> {
    let one = shown(alloc, names, form)?;
    shown_ones.extend_from_slice(one.as_slice())?;
    shown_ones.push(b' ')?;
    Ok(())
}

/// Adds the constants that the forms of a text are.
fn add_constants(alloc: Global, text: &str, shown_ones: &mut Vec<u8>) -> Result<(), Refused> {
    let forms = forms(alloc, text)?;
    let mut names = Names::new(alloc);
    for form in forms.as_slice() {
        add_constant(alloc, &mut names, form, shown_ones)?;
    }
    Ok(())
}

fn shown_constants(alloc: Global, text: &str) -> Result<Vec<u8>, Refused> {
    let mut shown_ones = Vec::new(alloc);
    add_constants(alloc, text, &mut shown_ones)?;
    Ok(shown_ones)
}

#[test]
fn takes_constants(rt: HostRuntime) -> Result<(), Refused> {
    let shown = shown_constants(rt.alloc(), "red \"a b\" -7 ?x & $?x ?*g*")?;
    assert!(rt; shown.as_slice() == b"red \"a b\" -7 none none none none ".as_slice());
    Ok(())
}

#[test]
fn takes_names_again(rt: HostRuntime) -> Result<(), Refused> {
    let text = "red a-name-of-more-than-two-dozen-bytes red a-name-of-more-than-two-dozen-bytes ";
    let shown = shown_constants(rt.alloc(), text)?;
    assert!(rt; shown.as_slice() == text.as_bytes());
    Ok(())
}

/// Whether each of so many names is as it was read: more than are kept where nothing else holds them.
fn are_as_read(alloc: Global, count: u32) -> Result<bool, NoMemory> {
    let mut names = Names::new(alloc);
    for number in 0..count {
        let bytes = number.to_be_bytes();
        if names.name(&bytes)?.as_slice() != bytes.as_slice() {
            return Ok(false);
        }
    }
    Ok(true)
}

#[test]
fn reads_many_names(rt: HostRuntime) -> Result<(), NoMemory> {
    assert!(rt; are_as_read(rt.alloc(), 3000)?);
    Ok(())
}
