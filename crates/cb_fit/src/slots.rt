//! The slots that a pattern writes.
ghost use Rattle.std.specs.Prelude.{◌≡◌, map, option_copied};
ghost use Rattle.cb_constraints.specs.PartValues.{asked_slot};
ghost use Rattle.cb_fit.specs.Internal.{may_take_slot, may_take_slots};
ghost use Rattle.cb_fit.specs.Ways.{slot_at};

use crate::may_take::may_take_row;
use cb_constraints::{Fields, SlotRow};
use cb_facts::{Name, Value};

/// Whether each row may take the fields of its slot, by their number and by the constants before the first segment and after
/// the last. It takes no memory.
pub(crate) fn may_take_slots(rows: &[SlotRow], slots: &[(Name, Value)]) -> bool
    ensures { result ≡ may_take_slots (map asked_slot rows.now) slots.now }
{
    for row in rows {
        if !may_take_slot(row, slots) {
            return false;
        }
    }
    true
}

/// Whether a row may take the fields of its slot.
fn may_take_slot(row: &SlotRow, slots: &[(Name, Value)]) -> bool
    ensures { result ≡ may_take_slot (asked_slot row.now) slots.now }
{
    match slot_value(slots, row.place) {
        Some(value) => may_take_row(Fields::Slot(value), &row.row),
        None => false,
    }
}

/// The value of the slot at a place, or `None` after the last.
pub(crate) fn slot_value(slots: &[(Name, Value)], place: usize) -> Option<&Value>
    ensures { option_copied result ≡ slot_at place slots.now }
{
    match slots.get(place) {
        Some((_, value)) => Some(value),
        None => None,
    }
}
