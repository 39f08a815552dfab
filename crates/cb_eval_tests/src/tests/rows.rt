//! Calls that are written as in a script, and how their values are shown.
use cb_eval::{Constants, apply};
use cb_facts::{Multifield, Names, Refused, Value, quoted_text, splice};
use cb_forms::{Form, Item, NoMemory, Token, read_items, split_head};
use cb_words::{Function, Head, read_head};
use std::alloc::Global;

/// A call, and its value as it is shown, or the number of its fault after a `!`.
///
/// An argument that is a list stands for the multifield of what is in it, and `?` for the address of a fact. A number of
/// arguments that the function does not take is `!17` here.
pub(crate) type Row = (&'static str, &'static str);

/// The first of these rows whose call has another value.
pub(crate) fn first_wrong(alloc: Global, rows: &[Row]) -> Result<Option<usize>, NoMemory> {
    let constants = Constants::new(alloc)?;
    for (i, (call, value)) in rows.iter().enumerate() {
        if !is_shown(alloc, &constants, call, value)? {
            return Ok(Some(i));
        }
    }
    Ok(None)
}

fn is_shown(
    alloc: Global,
    constants: &Constants,
    call: &str,
    value: &str,
) -> Result<bool, NoMemory> {
    let text = shown(alloc, called(alloc, constants, call))?;
    Ok(text.as_slice() == value.as_bytes())
}

/// The value of a call.
fn called(alloc: Global, constants: &Constants, text: &str) -> Result<Value, Refused> {
    match read_form(alloc, text)? {
        Form::Atom(_) => Err(Refused::NoMemory),
        Form::List(members) => applied(alloc, constants, members.as_slice()),
    }
}

fn applied(alloc: Global, constants: &Constants, members: &[Form]) -> Result<Value, Refused> {
    let Some((name, arguments)) = split_head(members) else {
        return Err(Refused::NoMemory);
    };
    applied_named(alloc, constants, name, arguments)
}

fn applied_named(
    alloc: Global,
    constants: &Constants,
    name: &[u8],
    arguments: &[Form],
) -> Result<Value, Refused> {
    let Some(function) = function_named(name) else {
        return Err(Refused::NoMemory);
    };
    let values = values_of(alloc, arguments)?;
    apply(alloc, constants, function, values.as_slice())
}

/// The one form of a text.
pub(crate) fn read_form(alloc: Global, text: &str) -> Result<Form, Refused> {
    for item in items(alloc, text)? {
        return form_of(item);
    }
    Err(Refused::NoMemory)
}

fn items(alloc: Global, text: &str) -> Result<Vec<Item>, NoMemory> {
    read_items(alloc, text.as_bytes())
}

fn form_of(item: Item) -> Result<Form, Refused> {
    match item {
        Item::Form(form) => Ok(form),
        Item::Bad(fault) => Err(Refused::Fault(fault)),
    }
}

/// The function of a name.
pub(crate) fn function_named(name: &[u8]) -> Option<Function> {
    match read_head(name) {
        Some(Head::Function(function)) => Some(function),
        _ => None,
    }
}

fn values_of(alloc: Global, forms: &[Form]) -> Result<Vec<Value>, Refused> {
    let mut values = Vec::new(alloc);
    for form in forms {
        values.push(value_of_form(alloc, form)?)?;
    }
    Ok(values)
}

/// The value that an argument stands for.
pub(crate) fn value_of_form(alloc: Global, form: &Form) -> Result<Value, Refused> {
    match form {
        Form::Atom(token) => value_of_token(alloc, token),
        Form::List(forms) => multifield(alloc, forms.as_slice()),
    }
}

fn multifield(alloc: Global, forms: &[Form]) -> Result<Value, Refused> {
    let values = single_values(alloc, forms)?;
    let fields = splice(alloc, values.as_slice())?;
    Ok(Value::Multi(Multifield::from_vec(fields)?))
}

fn single_values(alloc: Global, forms: &[Form]) -> Result<Vec<Value>, Refused> {
    let mut values = Vec::new(alloc);
    for form in forms {
        values.push(single_value(alloc, form)?)?;
    }
    Ok(values)
}

fn single_value(alloc: Global, form: &Form) -> Result<Value, Refused> {
    match form {
        Form::Atom(token) => value_of_token(alloc, token),
        Form::List(_) => Err(Refused::NoMemory),
    }
}

fn value_of_token(alloc: Global, token: &Token) -> Result<Value, Refused> {
    match token {
        Token::Any => Ok(Value::Fact(1)),
        token => constant(alloc, token),
    }
}

fn constant(alloc: Global, token: &Token) -> Result<Value, Refused> {
    match constant_of(&mut Names::new(alloc), token)? {
        Some(value) => Ok(value),
        None => Err(Refused::NoMemory),
    }
}

fn constant_of(names: &mut Names, token: &Token) -> Result<Option<Value>, NoMemory> {
    Value::constant(names, token)
}

fn shown(alloc: Global, value: Result<Value, Refused>) -> Result<Vec<u8>, NoMemory> {
    match value {
        Ok(value) => quoted_text(alloc, &value),
        Err(Refused::Fault(fault)) => numbered(alloc, fault.number()),
        Err(Refused::NoMemory) => Err(NoMemory),
    }
}

/// A number after a `!`.
fn numbered(alloc: Global, number: u8) -> Result<Vec<u8>, NoMemory> {
    let mut text = Vec::from_slice(alloc, b"!")?;
    text.push(b'0' + number / 10)?;
    text.push(b'0' + number % 10)?;
    Ok(text)
}
