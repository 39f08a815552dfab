//! Texts joined.
ghost use Rattle.std.specs.Prelude.{◌≡◌, ◌++◌, IfOk, OnOk};
ghost use Rattle.std.specs.List.{flat_map, list_all};
ghost use Rattle.cb_eval.specs.Joining.{is_joinable, texts_joined, joined_string, joined_symbol};
ghost use Rattle.cb_facts.specs.Results.{Returns, Settles};
ghost use Rattle.cb_facts.specs.Texts.{plain_bytes};

use cb_facts::{Name, Refused, Value, plain_text};
use cb_forms::{Fault, NoMemory};
use std::alloc::Global;

/// The texts of values joined, as a string. The values are to be symbols, strings and integers, which is checked first.
pub(crate) fn join_to_string(alloc: Global, values: &[Value]) -> Result<Value, Refused>
    ensures { Returns result (joined_string values.now) }
{
    let name = join(alloc, values)?;
    Ok(Value::Str(name))
}

/// The same, as a symbol.
pub(crate) fn join_to_symbol(alloc: Global, values: &[Value]) -> Result<Value, Refused>
    ensures { Returns result (joined_symbol values.now) }
{
    let name = join(alloc, values)?;
    Ok(Value::Symbol(name))
}

fn join(alloc: Global, values: &[Value]) -> Result<Name, Refused>
    ensures { Returns result (texts_joined values.now) }
{
    if !are_joinable(values) {
        return Err(Refused::Fault(Fault::WrongType));
    }
    let text = join_texts(alloc, values)?;
    Ok(Name::new(alloc, text.as_slice())?)
}

fn are_joinable(values: &[Value]) -> bool
    ensures { result ≡ list_all is_joinable values.now }
{
    values.iter().all(is_joinable)
}

fn is_joinable(value: &Value) -> bool
    ensures { result ≡ is_joinable value.now }
{
    matches!(value, Value::Symbol(_) | Value::Str(_) | Value::Int(_))
}

fn join_texts(alloc: Global, values: &[Value]) -> Result<Vec<u8>, NoMemory>
    ensures { IfOk result (λ text. text.items ≡ flat_map plain_bytes values.now) }
{
    let mut text = Vec::new(alloc);
    for value in values {
        add_text(alloc, &mut text, value)?;
    }
    Ok(text)
}

/// Adds the text that a value is printed with. That of a symbol or a string is not copied on the way.
fn add_text(alloc: Global, text: &mut Vec<u8>, value: &Value) -> Result<(), NoMemory>
    ensures { OnOk result (text.new.items ≡ text.old.items ++ plain_bytes value.now) }
{
    match value {
        Value::Symbol(bytes) | Value::Str(bytes) => text.extend_from_slice(bytes.as_slice())?,
        value => text.extend_from_slice(plain_text(alloc, value)?.as_slice())?,
    }
    Ok(())
}
