//! The symbol that a form is, and the one that a list begins with.
use super::shown::Shown;
use cb_forms::{Form, Item, NoMemory, read_items, split_head};
use std::alloc::Global;

/// A form, and what is shown of it: `=` and the symbol that it is, `(`, the symbol that it begins with and the members
/// after that, or nothing of these.
const ROWS: [(&[u8], &[u8]); 14] = [
    (b"abc", b"=abc"),
    (b"\"abc\"", b""),
    (b"12", b""),
    (b"?x", b""),
    (b"&", b""),
    (b"()", b""),
    (b"(abc)", b"(abc"),
    (b"(a 1)", b"(a i:1"),
    (b"(1)", b""),
    (b"(abc 1 (d e) f)", b"(abc i:1 ( s:d s:e ) s:f"),
    (b"(\"abc\" d)", b""),
    (b"(1 abc)", b""),
    (b"((abc) d)", b""),
    (b"(?x abc)", b""),
];

fn add_call(shown: &mut Shown, head: &[u8], members: &[Form]) -> Result<(), NoMemory> {
    shown.add(b"(")?;
    shown.add(head)?;
    for member in members {
        shown.add_form(member)?;
    }
    Ok(())
}

/// What a form says of itself.
fn told(alloc: Global, form: &Form) -> Result<Shown, NoMemory> {
    let mut shown = Shown::new(alloc);
    if let Some(name) = form.symbol() {
        shown.add(b"=")?;
        shown.add(name)?;
    }
    if let Some((head, members)) = form.call() {
        add_call(&mut shown, head, members)?;
    }
    Ok(shown)
}

/// What is split off the members of a list, by `split_head`.
fn split(alloc: Global, members: &[Form]) -> Result<Shown, NoMemory> {
    let mut shown = Shown::new(alloc);
    if let Some((head, rest)) = split_head(members) {
        add_call(&mut shown, head, rest)?;
    }
    Ok(shown)
}

fn is_told(alloc: Global, form: &Form, want: &[u8]) -> Result<bool, NoMemory> {
    let is_split = match form {
        Form::List(members) => split(alloc, members.as_slice())?.bytes() == want,
        Form::Atom(_) => true,
    };
    Ok(is_split && told(alloc, form)?.bytes() == want)
}

fn is_row_told(alloc: Global, text: &[u8], want: &[u8]) -> Result<bool, NoMemory> {
    match read_items(alloc, text)?.as_slice() {
        [Item::Form(form)] => is_told(alloc, form, want),
        _ => Ok(false),
    }
}

/// The first row that isn't so.
fn first_wrong(alloc: Global) -> Result<Option<usize>, NoMemory> {
    for (place, (text, want)) in ROWS.iter().enumerate() {
        if !is_row_told(alloc, text, want)? {
            return Ok(Some(place));
        }
    }
    Ok(None)
}

#[test]
fn tells_symbols_and_heads(rt: HostRuntime) -> Result<(), NoMemory> {
    assert_eq!(rt; first_wrong(rt.alloc())?, None);
    Ok(())
}
