//! Templates as they are written: their slots, and the faults of those that are refused.
use super::rows::{Field, defined, forms, shown_refusal, single};
use cb_forms::NoMemory;
use cb_values::{Multifield, Name, Names, Refused, Relations, Single, Slot, Value, quoted_text};
use std::alloc::Global;

/// Templates, and the slots of `t`: after a name `*` for a multislot, then its default, or `!` where each fact must give
/// it.
const SLOTS: [(&str, &str); 23] = [
    ("(t (slot a))", "a nil "),
    ("(t (slot a (type ?VARIABLE)))", "a nil "),
    ("(t (slot a (type SYMBOL)))", "a nil "),
    ("(t (slot a (type STRING)))", "a \"\" "),
    ("(t (slot a (type STRING STRING)))", "a \"\" "),
    ("(t (slot a (type LEXEME)))", "a nil "),
    ("(t (slot a (type STRING SYMBOL)))", "a nil "),
    ("(t (slot a (type INTEGER)))", "a 0 "),
    ("(t (slot a (type INTEGER INTEGER)))", "a 0 "),
    ("(t (slot a (type NUMBER)))", "a 0 "),
    ("(t (slot a (type INTEGER NUMBER)))", "a nil "),
    ("(t (slot a (type STRING) (default ?DERIVE)))", "a \"\" "),
    ("(t (slot a (default ?NONE)))", "a ! "),
    ("(t (slot a (default \"x y\") (type STRING)))", "a \"x y\" "),
    ("(t (multislot a))", "a* () "),
    (
        "(t (multislot a (type INTEGER) (default ?DERIVE)))",
        "a* () ",
    ),
    ("(t (multislot a (default ?NONE)))", "a* ! "),
    ("(t (multislot a (type INTEGER) (default ?NONE)))", "a* ! "),
    ("(t (multislot a (default)))", "a* () "),
    ("(t (slot a) (slot b))", "a nil b nil "),
    ("(t (slot a) (slot b)) (t (slot c))", "c nil "),
    ("(t \"c\")", ""),
    ("(t \"c\" (slot a)) (u (slot b))", "a nil "),
];

fn add_slot(text: &mut Vec<u8>, alloc: Global, slot: &Slot) -> Result<(), NoMemory> {
    text.extend_from_slice(slot.name().as_slice())?;
    text.extend_from_slice(if slot.multi() { b"* " } else { b" " })?;
    text.extend_from_slice(default_text(alloc, slot)?.as_slice())?;
    text.push(b' ')?;
    Ok(())
}

fn default_text(alloc: Global, slot: &Slot) -> Result<Vec<u8>, NoMemory> {
    if slot.required() {
        return Ok(Vec::from_slice(alloc, b"!")?);
    }
    match slot.default() {
        Some(value) => quoted_text(alloc, value),
        None => Ok(Vec::new(alloc)),
    }
}

/// The slots of `t`, if it has a template.
fn slots(alloc: Global, relations: &Relations) -> Result<Option<&[Slot]>, NoMemory> {
    Ok(relations.shape(&Name::new(alloc, b"t")?))
}

fn slots_text(alloc: Global, slots: &[Slot]) -> Result<Vec<u8>, NoMemory> {
    let mut text = Vec::new(alloc);
    for slot in slots {
        add_slot(&mut text, alloc, slot)?;
    }
    Ok(text)
}

fn shows(alloc: Global, templates: &str, text: &str) -> Result<bool, Refused> {
    let relations = defined(alloc, templates)?;
    match slots(alloc, &relations)? {
        Some(slots) => Ok(slots_text(alloc, slots)?.as_slice() == text.as_bytes()),
        None => Ok(false),
    }
}

/// The first row whose slots are others.
fn wrong_slots(alloc: Global) -> Result<Option<&'static str>, Refused> {
    for (templates, text) in &SLOTS {
        if !shows(alloc, templates, text)? {
            return Ok(Some(templates));
        }
    }
    Ok(None)
}

#[test]
fn defines_templates(rt: HostRuntime) -> Result<(), Refused> {
    let wrong = wrong_slots(rt.alloc())?;
    assert!(rt; wrong.is_none(), "{wrong:?}");
    Ok(())
}

/// What stands after `deftemplate`, and the number of its fault.
const REFUSED: [(&str, &str); 50] = [
    // A type.
    ("t (slot a (type FLOAT))", "!14"),
    ("t (slot a (type 3))", "!08"),
    ("t (slot a (type ?FOO))", "!08"),
    ("t (slot a (type $?VARIABLE))", "!08"),
    ("t (slot a (type ?VARIABLE INTEGER))", "!08"),
    ("t (slot a (type))", "!08"),
    ("t (slot a (type (f)))", "!08"),
    ("t (slot a (type 3 FLOAT))", "!08"),
    ("t (slot a (type FLOAT 3))", "!14"),
    ("t (multislot a (type FLOAT))", "!14"),
    ("t (multislot a (type 3))", "!08"),
    ("t (multislot a (type ?FOO))", "!08"),
    ("t (multislot a (type $?VARIABLE))", "!08"),
    ("t (multislot a (type ?VARIABLE INTEGER))", "!08"),
    ("t (multislot a (type))", "!08"),
    ("t (multislot a (type (f)))", "!08"),
    ("t (multislot a (type 3 FLOAT))", "!08"),
    ("t (multislot a (type FLOAT 3))", "!14"),
    // A default.
    ("t (slot a (default ?x))", "!08"),
    ("t (slot a (default ()))", "!08"),
    ("t (slot a (default (1)))", "!08"),
    ("t (slot a (default (bogus)))", "!14"),
    ("t (slot a (default ?*g*))", "!14"),
    ("t (slot a (default $?NONE))", "!08"),
    ("t (slot a (default (+ 1 2) 3))", "!08"),
    ("t (slot a (default 3 (+ 1 2)))", "!08"),
    ("t (slot a (default))", "!08"),
    ("t (multislot a (default ?NONE 1))", "!08"),
    ("t (multislot a (default 1 ?NONE))", "!08"),
    ("t (slot a (type INTEGER) (default x))", "!10"),
    ("t (multislot a (type INTEGER) (default 1 x))", "!10"),
    (
        "t (slot a (default x) (type INTEGER)) (slot b (foo))",
        "!10",
    ),
    // A slot.
    ("q (field a)", "!08"),
    ("q a", "!08"),
    ("q ()", "!08"),
    ("q (slot)", "!08"),
    ("q (slot \"a\")", "!08"),
    ("q (slot a) (slot a (foo))", "!08"),
    ("q (slot a (type INTEGER) (type FLOAT))", "!08"),
    ("q (slot a (default 1) (default (f)))", "!08"),
    ("q (slot a (range 1 10))", "!14"),
    ("q (slot a (foo))", "!14"),
    ("q (slot a foo)", "!08"),
    ("q (slot a ())", "!08"),
    ("q (slot a (3))", "!08"),
    ("q (slot a) \"c\"", "!08"),
    // A name.
    ("test (foo)", "!08"),
    ("", "!08"),
    ("\"c\"", "!08"),
    ("q \"c\" \"d\"", "!08"),
];

/// The same where the relation is in use.
const IN_USE: [(&str, &str); 3] = [("p (foo)", "!23"), ("t (slot a)", "!23"), ("and", "!08")];

fn define(alloc: Global, text: &str, in_use: bool) -> Result<(), Refused> {
    let mut relations = Relations::new(alloc);
    let mut names = Names::new(alloc);
    relations.define_template(&mut names, forms(alloc, text)?.as_slice(), in_use)
}

fn is_refused(alloc: Global, text: &str, in_use: bool, number: &str) -> Result<bool, NoMemory> {
    match define(alloc, text, in_use) {
        Ok(()) => Ok(false),
        Err(refused) => Ok(shown_refusal(alloc, refused)?.as_slice() == number.as_bytes()),
    }
}

/// The first row that is not refused so.
fn wrong_refusal(
    alloc: Global,
    rows: &[(&'static str, &'static str)],
    in_use: bool,
) -> Result<Option<&'static str>, NoMemory> {
    for (text, number) in rows {
        if !is_refused(alloc, text, in_use, number)? {
            return Ok(Some(text));
        }
    }
    Ok(None)
}

#[test]
fn refuses_templates(rt: HostRuntime) -> Result<(), NoMemory> {
    let wrong = wrong_refusal(rt.alloc(), &REFUSED, false)?;
    assert!(rt; wrong.is_none(), "{wrong:?}");
    Ok(())
}

#[test]
fn refuses_templates_in_use(rt: HostRuntime) -> Result<(), NoMemory> {
    let wrong = wrong_refusal(rt.alloc(), &IN_USE, true)?;
    assert!(rt; wrong.is_none(), "{wrong:?}");
    Ok(())
}

/// A template, a field, and whether its first slot takes the field, by itself and in a multifield.
const ALLOWED: [(&str, Field, bool); 9] = [
    ("(t (multislot a (type NUMBER)))", Field::Int(1), true),
    (
        "(t (multislot a (type ?VARIABLE)))",
        Field::Address(1),
        true,
    ),
    (
        "(t (multislot a (type INTEGER LEXEME)))",
        Field::Symbol("x"),
        true,
    ),
    ("(t (multislot a (type LEXEME)))", Field::Str("x"), true),
    ("(t (multislot a (type INTEGER)))", Field::Address(1), false),
    ("(t (multislot a (type SYMBOL)))", Field::Str("x"), false),
    ("(t (multislot a (type SYMBOL)))", Field::Address(1), false),
    ("(t (multislot a (type STRING)))", Field::Address(1), false),
    ("(t (multislot a (type LEXEME)))", Field::Address(1), false),
];

fn allows(alloc: Global, slot: &Slot, field: Single) -> Result<(bool, bool), NoMemory> {
    let by_itself = slot.allows(&field);
    let mut fields = Vec::new(alloc);
    fields.push(field)?;
    let in_many = slot.allows_all(&Value::Multi(Multifield::from_vec(fields)?))?;
    Ok((by_itself, in_many))
}

fn takes(alloc: Global, templates: &str, field: &Field) -> Result<Option<(bool, bool)>, Refused> {
    let relations = defined(alloc, templates)?;
    match slots(alloc, &relations)? {
        Some([slot, ..]) => Ok(Some(allows(alloc, slot, single(alloc, field)?)?)),
        _ => Ok(None),
    }
}

/// The first row that does not go so.
fn wrong_allowed(alloc: Global) -> Result<Option<&'static str>, Refused> {
    for (templates, field, want) in &ALLOWED {
        if takes(alloc, templates, field)? != Some((*want, *want)) {
            return Ok(Some(templates));
        }
    }
    Ok(None)
}

#[test]
fn allows_fields(rt: HostRuntime) -> Result<(), Refused> {
    let wrong = wrong_allowed(rt.alloc())?;
    assert!(rt; wrong.is_none(), "{wrong:?}");
    Ok(())
}
