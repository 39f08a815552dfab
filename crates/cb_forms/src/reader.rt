//! Reading a whole script at once, part by part.
ghost use Rattle.std.specs.Prelude.{◌≡◌, ◌<◌, ◌∷◌, ◌++◌, length, map, IfOk, OnOk};
ghost use Rattle.cb_forms.specs.Cuts.{item_readings};
ghost use Rattle.cb_forms.specs.Items.{parts, readings_of, items};
ghost use Rattle.cb_forms.specs.Internal.ScanStates.{IsStateIn};
ghost use Rattle.cb_forms.specs.Trees.{reading_of};

use crate::fault::Fault;
use crate::form::Item;
use crate::part::read_part;
use crate::scan_state::ScanState;
use cb_io::NoMemory;
use std::alloc::Global;

/// The items of a whole script, in order. The script is at hand as a whole, and an item may have any length. Growth is
/// refused as `NoMemory`.
pub fn read_items(alloc: Global, text: &[u8]) -> Result<Vec<Item>, NoMemory>
    ensures { IfOk result (λ read. map reading_of read.items ≡ items text.now) }
{
    let mut read = Vec::new(alloc);
    let mut rest = text;
    while !rest.is_empty() {
        let (part, more, state) = split_part(rest);
        rest = more;
        keep(&mut read, read_last_part(alloc, part, state)?)?;
    }
    Ok(read)
}

/// The first part of a text, what stands after it, and the state at the part's end.
fn split_part(text: &[u8]) -> (&[u8], &[u8], ScanState)
    requires { 0 < length text.now }
    ensures cut { parts text.now ≡ result.0.now ∷ parts result.1.now }
    ensures state { IsStateIn result.0.now result.2.mode result.2.depth }
    ensures shorter { length result.1.now < length text.now }
{
    let mut state = ScanState::fresh(text[0]);
    let mut end = 1;
    while end < text.len() && state.takes(text[end]) {
        state = state.after(text[end]);
        end += 1;
    }
    let (part, more) = text.split_at(end);
    (part, more, state)
}

/// The item that a part is, also a list that isn't closed: none for a blank or a comment.
fn read_last_part(alloc: Global, part: &[u8], state: ScanState) -> Result<Option<Item>, NoMemory>
    requires { IsStateIn part.now state.mode state.depth }
    ensures { IfOk result (λ item. item_readings item ≡ readings_of part.now) }
{
    if state.depth > 0 {
        return Ok(Some(Item::Bad(Fault::FormNotClosed)));
    }
    read_part(alloc, part)
}

/// Puts an item at the end, if there is one.
fn keep(read: &mut Vec<Item>, item: Option<Item>) -> Result<(), NoMemory>
    ensures { OnOk result (map reading_of read.new.items
        ≡ map reading_of read.old.items ++ item_readings item) }
{
    if let Some(item) = item {
        read.push(item)?;
    }
    Ok(())
}
