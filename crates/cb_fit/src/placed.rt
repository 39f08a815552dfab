//! What a pattern asks of each field that it takes alone.
ghost use Rattle.std.specs.Prelude.{◌≡◌, ◌++◌, IfOk, OnOk, map};
ghost use Rattle.cb_constraints.specs.PartValues.{asked_parts, asked_slot};
ghost use Rattle.cb_fit.specs.FieldPlaces.{placed_demands, row_demands, slot_demands};
ghost use Rattle.cb_fit.specs.Internal.Placed.{placed_of};
ghost use Rattle.std.specs.List.{flat_map};

use crate::field_place::FieldPlace;
use cb_constraints::{Demand, PatternParts, Row, SlotRow};
use cb_forms::NoMemory;
use std::alloc::Global;

/// A field of a fact, and what is asked of it.
#[derive(Clone, Copy)]
pub(crate) struct Placed<'a> {
    pub(crate) place: FieldPlace,
    pub(crate) demand: &'a Demand,
}

/// The fields that a pattern takes one by one before the first segment of a row, each with what its constraint asks. Growth is
/// refused as `NoMemory`.
pub(crate) fn placed_demands<'a>(
    alloc: Global,
    parts: &'a PatternParts,
) -> Result<Vec<Placed<'a>>, NoMemory>
    ensures { IfOk result (λ all. map placed_of all.items
        ≡ placed_demands (asked_parts parts.now)) }
{
    let mut all = Vec::new(alloc);
    match parts {
        PatternParts::Fields(row) => add_row(None, row, &mut all)?,
        PatternParts::Slots(rows) => add_slots(rows.as_slice(), &mut all)?,
    }
    Ok(all)
}

/// Adds those of slots.
fn add_slots<'a>(rows: &'a [SlotRow], all: &mut Vec<Placed<'a>>) -> Result<(), NoMemory>
    ensures { OnOk result (map placed_of all.new.items
        ≡ map placed_of all.old.items ++ flat_map slot_demands (map asked_slot rows.now)) }
{
    for slot in rows {
        add_row(Some(slot.place), &slot.row, all)?;
    }
    Ok(())
}

/// Adds those of a row.
fn add_row<'a>(slot: Option<usize>, row: &'a Row, all: &mut Vec<Placed<'a>>) -> Result<(), NoMemory>
    ensures { OnOk result (map placed_of all.new.items
        ≡ map placed_of all.old.items ++ row_demands slot 0 row.now) }
{
    let mut field = 0;
    for constraint in row.constraints() {
        if constraint.takes_segment {
            return Ok(());
        }
        all.push(Placed {
            place: FieldPlace { slot, field },
            demand: &constraint.demand,
        })?;
        field += 1;
    }
    Ok(())
}
