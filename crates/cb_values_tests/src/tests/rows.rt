//! Values, templates and facts from rows, and how they are shown.
use cb_forms::{Form, Item, NoMemory, read_items, split_head};
use cb_values::{
    Fact, GivenSlot, Multifield, Name, Names, Parts, Refused, Relations, Single, Value, build_fact,
    change_fact, fact_text,
};
use std::alloc::Global;

/// A field.
pub(crate) enum Field {
    Symbol(&'static str),
    Str(&'static str),
    Int(i64),
    Address(u64),
}

/// A value.
pub(crate) enum Row {
    One(Field),
    Multifield(&'static [Field]),
}

/// The name with these bytes.
fn named(alloc: Global, text: &str) -> Result<Name, NoMemory> {
    Name::new(alloc, text.as_bytes())
}

pub(crate) fn single(alloc: Global, field: &Field) -> Result<Single, NoMemory> {
    Ok(match field {
        Field::Symbol(text) => Single::Symbol(named(alloc, text)?),
        Field::Str(text) => Single::Str(named(alloc, text)?),
        Field::Int(number) => Single::Int(*number),
        Field::Address(ix) => Single::Fact(*ix),
    })
}

pub(crate) fn many(alloc: Global, fields: &[Field]) -> Result<Multifield, NoMemory> {
    let mut singles = Vec::new(alloc);
    for field in fields {
        singles.push(single(alloc, field)?)?;
    }
    Multifield::from_vec(singles)
}

pub(crate) fn value(alloc: Global, row: &Row) -> Result<Value, NoMemory> {
    match row {
        Row::One(field) => one(alloc, field),
        Row::Multifield(fields) => Ok(Value::Multi(many(alloc, fields)?)),
    }
}

/// The value of one field.
fn one(alloc: Global, field: &Field) -> Result<Value, NoMemory> {
    Ok(match field {
        Field::Symbol(text) => Value::Symbol(named(alloc, text)?),
        Field::Str(text) => Value::Str(named(alloc, text)?),
        Field::Int(number) => Value::Int(*number),
        Field::Address(ix) => Value::Fact(*ix),
    })
}

/// The forms of a text.
pub(crate) fn forms(alloc: Global, text: &str) -> Result<Vec<Form>, Refused> {
    let mut forms = Vec::new(alloc);
    for item in items(alloc, text)? {
        forms.push(form(item)?)?;
    }
    Ok(forms)
}

fn items(alloc: Global, text: &str) -> Result<Vec<Item>, NoMemory> {
    read_items(alloc, text.as_bytes())
}

fn form(item: Item) -> Result<Form, Refused> {
    match item {
        Item::Form(form) => Ok(form),
        Item::Bad(fault) => Err(Refused::Fault(fault)),
    }
}

/// The constant that a form is.
fn constant(alloc: Global, form: &Form) -> Result<Value, Refused> {
    let Form::Atom(token) = form else {
        return Err(Refused::NoMemory);
    };
    let mut names = Names::new(alloc);
    Ok(Value::constant(&mut names, token)?.ok_or(Refused::NoMemory)?)
}

fn constants(alloc: Global, forms: &[Form]) -> Result<Vec<Value>, Refused> {
    let mut values = Vec::new(alloc);
    for form in forms {
        values.push(constant(alloc, form)?)?;
    }
    Ok(values)
}

/// The value of a form: of a list the multifield of the constants in it.
fn written_value(alloc: Global, form: &Form) -> Result<Value, Refused> {
    match form {
        Form::Atom(_) => constant(alloc, form),
        Form::List(fields) => multifield(alloc, fields.as_slice()),
    }
}

fn multifield(alloc: Global, forms: &[Form]) -> Result<Value, Refused> {
    let values = constants(alloc, forms)?;
    let fields = cb_values::splice(alloc, values.as_slice())?;
    Ok(Value::Multi(Multifield::from_vec(fields)?))
}

fn written_values(alloc: Global, forms: &[Form]) -> Result<Vec<Value>, Refused> {
    let mut values = Vec::new(alloc);
    for form in forms {
        values.push(written_value(alloc, form)?)?;
    }
    Ok(values)
}

fn given_slot(alloc: Global, form: &Form) -> Result<GivenSlot, Refused> {
    let (name, forms) = form.call().ok_or(Refused::NoMemory)?;
    let name = Name::new(alloc, name)?;
    Ok(GivenSlot::new(name, written_values(alloc, forms)?))
}

fn given_slots(alloc: Global, forms: &[Form]) -> Result<Vec<GivenSlot>, Refused> {
    let mut given = Vec::new(alloc);
    for form in forms {
        given.push(given_slot(alloc, form)?)?;
    }
    Ok(given)
}

/// The relation of a fact and what it is given, by their text. A list stands for a multifield.
#[derive(Clone, Copy)]
pub(crate) enum Given {
    Fields(&'static str),
    Slots(&'static str),
}

fn parts(alloc: Global, given: &Given, forms: &[Form]) -> Result<Parts, Refused> {
    Ok(match given {
        Given::Fields(_) => Parts::Fields(written_values(alloc, forms)?),
        Given::Slots(_) => Parts::Slots(given_slots(alloc, forms)?),
    })
}

/// Defines the template of these forms.
fn define(names: &mut Names, relations: &mut Relations, form: &Form) -> Result<(), Refused> {
    match form {
        Form::Atom(_) => Err(Refused::NoMemory),
        Form::List(members) => relations.define_template(names, members.as_slice(), false),
    }
}

/// The relations with templates, each written as a list of what stands after `deftemplate`.
pub(crate) fn defined(alloc: Global, templates: &str) -> Result<Relations, Refused> {
    let mut names = Names::new(alloc);
    let mut relations = Relations::new(alloc);
    for form in forms(alloc, templates)? {
        define(&mut names, &mut relations, &form)?;
    }
    Ok(relations)
}

/// The fact that is given so where the relations have these templates.
pub(crate) fn fact(alloc: Global, templates: &str, given: &Given) -> Result<Fact, Refused> {
    let relations = defined(alloc, templates)?;
    let (Given::Fields(text) | Given::Slots(text)) = given;
    given_fact(alloc, &relations, given, forms(alloc, text)?.as_slice())
}

/// The fact that one that is given so becomes where these slots are given new values.
pub(crate) fn changed(
    alloc: Global,
    templates: &str,
    given: &Given,
    changes: &str,
) -> Result<Fact, Refused> {
    let relations = defined(alloc, templates)?;
    let (Given::Fields(text) | Given::Slots(text)) = given;
    let old = given_fact(alloc, &relations, given, forms(alloc, text)?.as_slice())?;
    change(alloc, &relations, &old, changes)
}

/// The fact that this one becomes.
fn change(
    alloc: Global,
    relations: &Relations,
    old: &Fact,
    changes: &str,
) -> Result<Fact, Refused> {
    let given = given_slots(alloc, forms(alloc, changes)?.as_slice())?;
    change_fact(alloc, relations, old, given)
}

fn given_fact(
    alloc: Global,
    relations: &Relations,
    given: &Given,
    forms: &[Form],
) -> Result<Fact, Refused> {
    let (relation, forms) = split_head(forms).ok_or(Refused::NoMemory)?;
    let parts = parts(alloc, given, forms)?;
    build_fact(alloc, relations, Name::new(alloc, relation)?, parts)
}

/// The text of a fact, or the number of the fault after a `!`.
pub(crate) fn shown_fact(alloc: Global, fact: Result<Fact, Refused>) -> Result<Vec<u8>, NoMemory> {
    match fact {
        Ok(fact) => fact_text(alloc, &fact),
        Err(refused) => shown_refusal(alloc, refused),
    }
}

/// The number of a fault after a `!`.
pub(crate) fn shown_refusal(alloc: Global, refused: Refused) -> Result<Vec<u8>, NoMemory> {
    match refused {
        Refused::Fault(fault) => numbered(alloc, fault.number()),
        Refused::NoMemory => Err(NoMemory),
    }
}

fn numbered(alloc: Global, number: u8) -> Result<Vec<u8>, NoMemory> {
    let mut text = Vec::from_slice(alloc, b"!")?;
    text.push(b'0' + number / 10)?;
    text.push(b'0' + number % 10)?;
    Ok(text)
}
