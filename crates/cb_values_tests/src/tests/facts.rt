//! Facts from what they are given, their texts, and which are equal.
use super::rows::{Given, changed, fact, shown_fact};
use cb_forms::NoMemory;
use cb_values::{Fact, Refused};
use std::alloc::Global;
use std::cmp::Ordering;

/// Templates, what a fact is given by its relation's name, and the fact's text or the number of its fault.
type Row = (&'static str, &'static str, &'static str);

/// Facts that are given fields.
const BY_FIELDS: [Row; 7] = [
    ("", "p", "(p)"),
    ("", "p ()", "(p)"),
    ("", "p 1 x \"y\"", "(p 1 x \"y\")"),
    ("", "item a \"b c\" 12", "(item a \"b c\" 12)"),
    ("", "p 1 (2 x) () \"y\" (3)", "(p 1 2 x \"y\" 3)"),
    (
        "",
        "p 9223372036854775807 -9223372036854775808",
        "(p 9223372036854775807 -9223372036854775808)",
    ),
    ("(t)", "t", "!09"),
];

/// Facts that are given slots.
const BY_SLOTS: [Row; 21] = [
    (TEMPLATE, "t (r b)", "(t (a 1) (m x 2) (r b) (n))"),
    (
        TEMPLATE,
        "t (a 4) (m 5 6) (r b) (n 7)",
        "(t (a 4) (m 5 6) (r b) (n 7))",
    ),
    (
        TEMPLATE,
        "t (n \"7\") (r b) (m) (a 4)",
        "(t (a 4) (m) (r b) (n \"7\"))",
    ),
    (
        TEMPLATE,
        "t (m 1 (2 3) () 4) (r b)",
        "(t (a 1) (m 1 2 3 4) (r b) (n))",
    ),
    (
        TEMPLATE,
        "t (r b) (n (1 2))",
        "(t (a 1) (m x 2) (r b) (n 1 2))",
    ),
    (TEMPLATE, "t", "!09"),
    (TEMPLATE, "t (a 1)", "!09"),
    (TEMPLATE, "t (r b) (s 1)", "!09"),
    (TEMPLATE, "t (r b) (a 1) (r b)", "!09"),
    (TEMPLATE, "t (r b c)", "!09"),
    (TEMPLATE, "t (r)", "!09"),
    (TEMPLATE, "t (r (b)) (s 1)", "!09"),
    (TEMPLATE, "t (a (b)) (r)", "!09"),
    (TEMPLATE, "t (r (b))", "!22"),
    (TEMPLATE, "t (r ()) (a 1)", "!22"),
    (TEMPLATE, "p (r b)", "!09"),
    (TEMPLATE, "p", "!09"),
    ("(t)", "t", "(t)"),
    ("(t (slot a)) (t (slot b))", "t (b 2)", "(t (b 2))"),
    ("(t (slot a)) (t (slot b))", "t (a 2)", "!09"),
    (
        TASK,
        "task (state open) (title \"a b\") (parts x \"y z\") (notes)",
        "(task (state open) (title \"a b\") (parts x \"y z\") (notes))",
    ),
];

const TEMPLATE: &str =
    "(t (slot a (default 1)) (multislot m (default x 2)) (slot r (default ?NONE)) (multislot n))";

const TASK: &str = "(task (slot state) (slot title) (multislot parts) (multislot notes))";

/// What is given by this text.
fn given(text: &'static str, by_slots: bool) -> Given {
    if by_slots {
        return Given::Slots(text);
    }
    Given::Fields(text)
}

/// What is shown of a fact that is given so.
fn shown(alloc: Global, templates: &str, given: &Given) -> Result<Vec<u8>, NoMemory> {
    shown_fact(alloc, fact(alloc, templates, given))
}

/// The first row that is shown otherwise.
fn wrong_fact(
    alloc: Global,
    rows: &[Row],
    by_slots: bool,
) -> Result<Option<&'static str>, NoMemory> {
    for (templates, text, want) in rows {
        if shown(alloc, templates, &given(text, by_slots))?.as_slice() != want.as_bytes() {
            return Ok(Some(want));
        }
    }
    Ok(None)
}

#[test]
fn builds_facts_of_fields(rt: HostRuntime) -> Result<(), NoMemory> {
    let wrong = wrong_fact(rt.alloc(), &BY_FIELDS, false)?;
    assert!(rt; wrong.is_none(), "{wrong:?}");
    Ok(())
}

#[test]
fn builds_facts_of_slots(rt: HostRuntime) -> Result<(), NoMemory> {
    let wrong = wrong_fact(rt.alloc(), &BY_SLOTS, true)?;
    assert!(rt; wrong.is_none(), "{wrong:?}");
    Ok(())
}

/// Facts, what is given anew, and the text of the fact that each becomes, or the number of its fault. `p` and `o` have no template.
const CHANGED: [(Given, &str, &str); 17] = [
    (Given::Slots("t (r b)"), "", "(t (a 1) (m x 2) (r b) (n))"),
    (
        Given::Slots("t (r b) (a 4) (m 5)"),
        "(n 7 (8 9)) (r c)",
        "(t (a 4) (m 5) (r c) (n 7 8 9))",
    ),
    (
        Given::Slots("t (r b) (a 4) (m 5 6) (n 7)"),
        "(m) (a \"s\")",
        "(t (a \"s\") (m) (r b) (n 7))",
    ),
    (
        Given::Slots("t (r b)"),
        "(m (1 2) () 3)",
        "(t (a 1) (m 1 2 3) (r b) (n))",
    ),
    (
        Given::Slots("t (r b) (m 1)"),
        "(r b) (m 1)",
        "(t (a 1) (m 1) (r b) (n))",
    ),
    // A slot that is not there, or is given twice, and a number of values that one doesn't take.
    (Given::Slots("t (r b)"), "(s 1)", "!09"),
    (Given::Slots("t (r b)"), "(a 1) (a 2)", "!09"),
    (Given::Slots("t (r b)"), "(a 1 2)", "!09"),
    (Given::Slots("t (r b)"), "(a)", "!09"),
    (Given::Slots("t (r b)"), "(r (1)) (s 1)", "!09"),
    (Given::Slots("t (r b)"), "(a (1)) (r)", "!09"),
    // A multifield for a slot of one value.
    (Given::Slots("t (r b)"), "(r (1))", "!22"),
    (Given::Slots("t (r b)"), "(r ()) (m)", "!22"),
    (Given::Slots("t (r b)"), "(a (1 2)) (n 3)", "!22"),
    // An ordered fact.
    (Given::Fields("p 1"), "", "!09"),
    (Given::Fields("p 1"), "(a 1)", "!09"),
    (Given::Fields("o"), "(a (1))", "!09"),
];

/// The first row whose fact is shown otherwise.
fn wrong_change(alloc: Global) -> Result<Option<&'static str>, NoMemory> {
    for (given, changes, want) in &CHANGED {
        let fact = changed(alloc, TEMPLATE, given, changes);
        if shown_fact(alloc, fact)?.as_slice() != want.as_bytes() {
            return Ok(Some(want));
        }
    }
    Ok(None)
}

#[test]
fn changes_slots_of_facts(rt: HostRuntime) -> Result<(), NoMemory> {
    let wrong = wrong_change(rt.alloc())?;
    assert!(rt; wrong.is_none(), "{wrong:?}");
    Ok(())
}

/// The relations `item` and `list` have a template.
const COUNTS: &str = "(item (slot count)) (list (slot count))";

/// No two of these are equal. A template may have no slot: its fact is fed to a hasher as the ordered fact with no field
/// is.
const APART: [(&str, Given); 9] = [
    ("", Given::Fields("item 4")),
    ("", Given::Fields("item 5")),
    ("", Given::Fields("list 4")),
    (COUNTS, Given::Slots("item (count 4)")),
    (COUNTS, Given::Slots("item (count 5)")),
    (COUNTS, Given::Slots("list (count 4)")),
    ("(item (slot size))", Given::Slots("item (size 4)")),
    ("", Given::Fields("item")),
    ("(item)", Given::Slots("item")),
];

/// Which of them, made anew and copied, is equal to which.
const EQUAL: &[u8] = b"=........
.=.......
..=......
...=.....
....=....
.....=...
......=..
.......=.
........=
";

fn facts(alloc: Global) -> Result<Vec<Fact>, Refused> {
    let mut facts = Vec::new(alloc);
    for (templates, given) in &APART {
        facts.push(fact(alloc, templates, given)?)?;
    }
    Ok(facts)
}

fn add_signs(signs: &mut Vec<u8>, fact: &Fact, facts: &[Fact]) -> Result<(), NoMemory> {
    for other in facts {
        signs.push(if fact == other { b'=' } else { b'.' })?;
    }
    signs.push(b'\n')?;
    Ok(())
}

fn signs(alloc: Global) -> Result<Vec<u8>, Refused> {
    let others = facts(alloc)?;
    let mut signs = Vec::new(alloc);
    for fact in facts(alloc)? {
        add_signs(&mut signs, &fact.clone()?, others.as_slice())?;
    }
    Ok(signs)
}

#[test]
fn tells_facts_apart(rt: HostRuntime) -> Result<(), Refused> {
    assert!(rt; signs(rt.alloc())?.as_slice() == EQUAL);
    Ok(())
}

/// How two facts stand to each other that are fed to a hasher alike: the ordered one, and the one of a template.
fn sign_of_alike(alloc: Global) -> Result<Ordering, Refused> {
    let ordered = fact(alloc, "", &Given::Fields("item"))?;
    let of_slots = fact(alloc, "(item)", &Given::Slots("item"))?;
    Ok(ordered.cmp(&of_slots))
}

#[test]
fn puts_fields_before_slots(rt: HostRuntime) -> Result<(), Refused> {
    assert!(rt; sign_of_alike(rt.alloc())? == Ordering::Less);
    Ok(())
}
