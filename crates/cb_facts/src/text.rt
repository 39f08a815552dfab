//! The texts of values and facts.
ghost use Rattle.std.specs.Prelude.{◌≡◌, ◌++◌, IfOk, OnOk, codes};
ghost use Rattle.std.specs.List.{flat_map, join_by};
ghost use Rattle.std.specs.Fmt.{signed_decimal};
ghost use Rattle.cb_facts.specs.Facts.{slots, content_of};
ghost use Rattle.cb_facts.specs.Texts.{address_bytes, between_quotes, content_bytes, fact_bytes, fields_bytes, plain_bytes, quoted_bytes, quoted_single, slot_bytes, slot_fields};

use crate::fact::{Content, Fact};
use crate::name::Name;
use crate::single::Single;
use crate::value::Value;
use cb_forms::NoMemory;
use itoa::Buffer;
use std::alloc::Global;

/// The text that a value is printed with: the bytes of a symbol and of a string, an integer's decimal digits after a `-`
/// where it is negative, `<Fact-N>` for the address of the fact with index N, and a multifield's fields, each by its
/// quoted text, with a blank between each two, in parentheses. Growth is refused as `NoMemory`.
pub fn plain_text(alloc: Global, value: &Value) -> Result<Vec<u8>, NoMemory>
    ensures { IfOk result (λ text. text.items ≡ plain_bytes value.now) }
{
    let mut text = Vec::new(alloc);
    match value {
        Value::Str(bytes) => text.extend_from_slice(bytes.as_slice())?,
        value => add_quoted(&mut text, value)?,
    }
    Ok(text)
}

/// The text that a value is shown with: its plain text, but a string stands between quotes, with a backslash before
/// each quote and each backslash in it. Growth is refused as `NoMemory`.
pub fn quoted_text(alloc: Global, value: &Value) -> Result<Vec<u8>, NoMemory>
    ensures { IfOk result (λ text. text.items ≡ quoted_bytes value.now) }
{
    let mut text = Vec::new(alloc);
    add_quoted(&mut text, value)?;
    Ok(text)
}

/// The text that a fact is shown with: its relation and what stands after it, in parentheses. Each field of an ordered
/// fact stands by its quoted text after a blank. Each slot of a template's fact stands in parentheses after a blank: its
/// name and its value by its quoted text after a blank, or of a multifield each field so, without further parentheses.
/// Growth is refused as `NoMemory`.
pub fn fact_text(alloc: Global, fact: &Fact) -> Result<Vec<u8>, NoMemory>
    ensures { IfOk result (λ text. text.items ≡ fact_bytes fact.now) }
{
    let mut text = Vec::new(alloc);
    text.push(b'(')?;
    text.extend_from_slice(fact.relation())?;
    add_content(&mut text, fact.content())?;
    text.push(b')')?;
    Ok(text)
}

fn add_content(text: &mut Vec<u8>, content: &Content) -> Result<(), NoMemory>
    ensures { OnOk result
        (text.new.items ≡ text.old.items ++ content_bytes (content_of content.now)) }
{
    match content {
        Content::Fields(fields) => add_singles(text, fields.as_slice()),
        Content::Slots(slots) => add_slots(text, slots.as_slice()),
    }
}

fn add_slots(text: &mut Vec<u8>, pairs: &[(Name, Value)]) -> Result<(), NoMemory>
    ensures { OnOk result (text.new.items ≡ text.old.items ++ content_bytes (slots pairs.now)) }
{
    for slot in pairs {
        add_slot(text, slot)?;
    }
    Ok(())
}

fn add_slot(text: &mut Vec<u8>, slot: &(Name, Value)) -> Result<(), NoMemory>
    ensures { OnOk result (text.new.items ≡ text.old.items ++ slot_bytes slot.now) }
{
    let (name, value) = slot;
    text.extend_from_slice(b" (")?;
    text.extend_from_slice(name.as_slice())?;
    add_slot_fields(text, value)?;
    text.push(b')')?;
    Ok(())
}

fn add_slot_fields(text: &mut Vec<u8>, value: &Value) -> Result<(), NoMemory>
    ensures { OnOk result (text.new.items ≡ text.old.items ++ slot_fields value.now) }
{
    match value {
        Value::Multi(fields) => add_singles(text, fields.as_slice()),
        value => {
            text.push(b' ')?;
            add_quoted(text, value)
        }
    }
}

fn add_quoted(text: &mut Vec<u8>, value: &Value) -> Result<(), NoMemory>
    ensures { OnOk result (text.new.items ≡ text.old.items ++ quoted_bytes value.now) }
{
    match value {
        Value::Symbol(bytes) => text.extend_from_slice(bytes.as_slice())?,
        Value::Str(bytes) => add_between_quotes(text, bytes.as_slice())?,
        Value::Int(number) => add_integer(text, *number)?,
        Value::Fact(ix) => add_address(text, *ix)?,
        Value::Multi(fields) => add_fields(text, fields.as_slice())?,
    }
    Ok(())
}

fn add_single(text: &mut Vec<u8>, single: &Single) -> Result<(), NoMemory>
    ensures { OnOk result (text.new.items ≡ text.old.items ++ quoted_single single.now) }
{
    match single {
        Single::Symbol(bytes) => text.extend_from_slice(bytes.as_slice())?,
        Single::Str(bytes) => add_between_quotes(text, bytes.as_slice())?,
        Single::Int(number) => add_integer(text, *number)?,
        Single::Fact(ix) => add_address(text, *ix)?,
    }
    Ok(())
}

fn add_integer(text: &mut Vec<u8>, number: i64) -> Result<(), NoMemory>
    ensures { OnOk result (text.new.items ≡ text.old.items ++ signed_decimal number) }
{
    let mut buffer = Buffer::new();
    text.extend_from_slice(buffer.format(number).as_bytes())?;
    Ok(())
}

fn add_address(text: &mut Vec<u8>, ix: u64) -> Result<(), NoMemory>
    ensures { OnOk result (text.new.items ≡ text.old.items ++ address_bytes ix) }
{
    let mut buffer = Buffer::new();
    text.extend_from_slice(b"<Fact-")?;
    text.extend_from_slice(buffer.format(ix).as_bytes())?;
    text.push(b'>')?;
    Ok(())
}

fn add_between_quotes(text: &mut Vec<u8>, bytes: &[u8]) -> Result<(), NoMemory>
    ensures { OnOk result (text.new.items ≡ text.old.items ++ between_quotes bytes.now) }
{
    text.push(b'"')?;
    for byte in bytes {
        if *byte == b'"' || *byte == b'\\' {
            text.push(b'\\')?;
        }
        text.push(*byte)?;
    }
    text.push(b'"')?;
    Ok(())
}

fn add_fields(text: &mut Vec<u8>, fields: &[Single]) -> Result<(), NoMemory>
    ensures { OnOk result (text.new.items ≡ text.old.items ++ fields_bytes fields.now) }
{
    text.push(b'(')?;
    add_joined(text, fields)?;
    text.push(b')')?;
    Ok(())
}

fn add_joined(text: &mut Vec<u8>, fields: &[Single]) -> Result<(), NoMemory>
    ensures { OnOk result
        (text.new.items ≡ text.old.items ++ join_by quoted_single (codes " ") fields.now) }
{
    let Some((first, others)) = fields.split_first() else {
        return Ok(());
    };
    add_single(text, first)?;
    add_singles(text, others)
}

fn add_singles(text: &mut Vec<u8>, singles: &[Single]) -> Result<(), NoMemory>
    ensures { OnOk result (text.new.items
        ≡ text.old.items ++ flat_map (λ single. codes " " ++ quoted_single single) singles.now) }
{
    for single in singles {
        text.push(b' ')?;
        add_single(text, single)?;
    }
    Ok(())
}
