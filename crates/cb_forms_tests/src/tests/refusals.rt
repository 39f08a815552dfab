//! Growth that is refused. `rt try --test --fail-alloc N` refuses the Nth growth of each test; these pass however great N
//! is.
use super::shown::Shown;
use cb_forms::{Cut, Cutter, Item, NoMemory, read_items};
use std::alloc::Global;

const TEXT: &[u8] = b"(ab \"c\" (1)) ?x&d";

const ITEMS: &[u8] = b" ( s:ab t:c ( i:1 ) ) v:x & s:d";

/// Whether a call says that it failed exactly if the cutter then does, and does so once one has.
fn is_reported(had_failed: bool, has_failed: bool, is_err: bool) -> bool {
    has_failed == is_err && (is_err || !had_failed)
}

/// Adds what a byte has cut, if the call didn't fail.
fn add_cut(shown: &mut Shown, cut: Result<Cut, NoMemory>) -> Result<(), NoMemory> {
    match cut {
        Ok(cut) => shown.add_cut(&cut),
        Err(NoMemory) => Ok(()),
    }
}

/// Adds what the end has cut, if the call didn't fail.
fn add_end(shown: &mut Shown, end: Result<Option<Item>, NoMemory>) -> Result<(), NoMemory> {
    match end {
        Ok(item) => shown.add_some(item.as_ref()),
        Err(NoMemory) => Ok(()),
    }
}

/// One more byte, and whether its failure is reported so.
fn step_is_reported(cutter: &mut Cutter, shown: &mut Shown, byte: u8) -> Result<bool, NoMemory> {
    let had_failed = cutter.failed();
    let cut = cutter.step(byte);
    let is_reported = is_reported(had_failed, cutter.failed(), cut.is_err());
    add_cut(shown, cut)?;
    Ok(is_reported)
}

/// The same of the end.
fn end_is_reported(cutter: &mut Cutter, shown: &mut Shown) -> Result<bool, NoMemory> {
    let had_failed = cutter.failed();
    let end = cutter.end();
    let is_reported = is_reported(had_failed, cutter.failed(), end.is_err());
    add_end(shown, end)?;
    Ok(is_reported)
}

/// Whether each byte and the end report their failures so.
fn all_are_reported(cutter: &mut Cutter, shown: &mut Shown) -> Result<bool, NoMemory> {
    for byte in TEXT {
        if !step_is_reported(cutter, shown, *byte)? {
            return Ok(false);
        }
    }
    end_is_reported(cutter, shown)
}

/// Whether a refusal is reported from then on, and the items before it are as ever: all of them where none was refused.
fn is_as_ever(alloc: Global) -> Result<bool, NoMemory> {
    let mut cutter = Cutter::new(alloc, 100);
    let mut shown = Shown::new(alloc);
    let are_reported = all_are_reported(&mut cutter, &mut shown)?;
    let is_whole = cutter.failed() || shown.bytes() == ITEMS;
    Ok(are_reported && is_whole && ITEMS.starts_with(shown.bytes()))
}

#[test]
fn reports_a_refusal_by_steps(rt: HostRuntime) {
    assert!(rt; is_as_ever(rt.alloc()).unwrap_or(true));
}

/// Whether a text that is read at once has all items.
fn reads_all(alloc: Global) -> Result<bool, NoMemory> {
    let mut shown = Shown::new(alloc);
    for item in &read_items(alloc, TEXT)? {
        shown.add_item(item)?;
    }
    Ok(shown.bytes() == ITEMS)
}

#[test]
fn reports_a_refusal_at_once(rt: HostRuntime) {
    assert!(rt; reads_all(rt.alloc()).unwrap_or(true));
}
