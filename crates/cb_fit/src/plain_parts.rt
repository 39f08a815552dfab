//! Patterns that ask each field for constants alone. Whether one fits a fact is seen from its lengths and constants, with no search and no
//! memory taken.
ghost use Rattle.std.specs.Prelude.{◌≡◌, map, true};
ghost use Rattle.std.specs.List.{list_all};
ghost use Rattle.cb_constraints.specs.PartValues.{asked_parts, asked_slot};
ghost use Rattle.cb_exprs.specs.Bindings.{no_bindings};
ghost use Rattle.cb_facts.specs.Facts.{content_of};
ghost use Rattle.cb_fit.specs.Internal.PlainParts.{are_plain, may_take_parts, parts_take_ones, slot_takes_ones};
ghost use Rattle.cb_fit.specs.Meters.{one_test_more};
ghost use Rattle.cb_fit.specs.Shapes.{has_way};
ghost use Rattle.cb_fit.specs.Ways.{ways};

use crate::may_take::may_take_row;
use crate::meter::Meter;
use crate::pattern::Pattern;
use crate::slots::may_take_slots;
use crate::standing_alone::parts_alone;
use cb_constraints::{Fields, PatternParts, SlotRow};
use cb_facts::{Content, Fact};

/// Whether what a pattern asks is plain: no constraint takes a segment, or has a variable or an expression.
pub(crate) fn are_plain(parts: &PatternParts) -> bool
    ensures { result ≡ are_plain (asked_parts parts.now) }
{
    parts_take_ones(parts) && parts_alone(parts)
}

/// Whether no constraint takes a segment.
fn parts_take_ones(parts: &PatternParts) -> bool
    ensures { result ≡ parts_take_ones (asked_parts parts.now) }
{
    match parts {
        PatternParts::Fields(row) => row.segments() == 0,
        PatternParts::Slots(rows) => slots_take_ones(rows.as_slice()),
    }
}

/// The same of the slots of a template.
fn slots_take_ones(rows: &[SlotRow]) -> bool
    ensures { result ≡ list_all slot_takes_ones (map asked_slot rows.now) }
{
    for slot in rows {
        if slot.row.segments() != 0 {
            return false;
        }
    }
    true
}

/// Whether a plain pattern fits a fact. It tests the pattern once, so the meter goes up by one.
#[tactic(auto, using(crate::proofs::PlainFits::plain_fits))]
pub(crate) fn plain_fits<T>(pattern: &Pattern<T>, fact: &Fact, meter: &mut Meter<T>) -> bool
    requires plain { are_plain pattern.now.parts ≡ true }
    ensures fits { result ≡ has_way (ways pattern.now fact.now no_bindings) }
    ensures counted { meter.new ≡ one_test_more meter.old }
{
    let body = pattern.open(meter);
    may_take_parts(body.parts(), fact.content()) && pattern.relation().as_slice() == fact.relation()
}

/// Whether a pattern may take the content of a fact, by its lengths and constants.
fn may_take_parts(parts: &PatternParts, content: &Content) -> bool
    ensures { result ≡ may_take_parts (asked_parts parts.now) (content_of content.now) }
{
    match (parts, content) {
        (PatternParts::Fields(row), Content::Fields(fields)) => {
            may_take_row(Fields::All(fields), row)
        }
        (PatternParts::Slots(rows), Content::Slots(slots)) => {
            may_take_slots(rows.as_slice(), slots.as_slice())
        }
        _ => false,
    }
}
