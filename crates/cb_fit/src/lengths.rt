//! Whether a fact has as many fields as a pattern can take. It looks at no field and takes no memory, so it is asked first.
ghost use Rattle.std.specs.Prelude.{◌≡◌, map};
ghost use Rattle.cb_constraints.specs.PartValues.{asked_parts, asked_slot};
ghost use Rattle.cb_facts.specs.Facts.{content_of};
ghost use Rattle.cb_fit.specs.Internal.{slot_takes_length, slots_take_lengths, take_lengths, takes_length};

use crate::slots::slot_value;
use cb_constraints::{Fields, PatternParts, Row, SlotRow};
use cb_facts::{Content, Name, Value};

/// Whether a pattern can take as many fields as the content of a fact has: those of an ordered fact, or those of each slot
/// that the pattern writes.
pub(crate) fn take_lengths(parts: &PatternParts, content: &Content) -> bool
    ensures { result ≡ take_lengths (asked_parts parts.now) (content_of content.now) }
{
    match (parts, content) {
        (PatternParts::Fields(row), Content::Fields(fields)) => {
            takes_length(row, fields.as_slice().len())
        }
        (PatternParts::Slots(rows), Content::Slots(slots)) => slots_take_lengths(rows, slots),
        _ => false,
    }
}

/// Whether each row can take as many fields as its slot has.
fn slots_take_lengths(rows: &[SlotRow], slots: &[(Name, Value)]) -> bool
    ensures { result ≡ slots_take_lengths (map asked_slot rows.now) slots.now }
{
    for row in rows {
        if !slot_takes_length(row, slots) {
            return false;
        }
    }
    true
}

/// Whether a row can take as many fields as its slot has.
fn slot_takes_length(row: &SlotRow, slots: &[(Name, Value)]) -> bool
    ensures { result ≡ slot_takes_length (asked_slot row.now) slots.now }
{
    match slot_value(slots, row.place) {
        Some(value) => takes_length(&row.row, Fields::Slot(value).len()),
        None => false,
    }
}

/// Whether a row can take so many fields.
pub(crate) fn takes_length(row: &Row, count: usize) -> bool
    ensures { result ≡ takes_length row.now count }
{
    if row.segments() == 0 {
        return count == row.fields();
    }
    row.fields() <= count
}
