//! The places of fields in a fact.
ghost use Rattle.std.specs.Prelude.{◌≡◌, IfOk};
ghost use Rattle.std.specs.Option.{option_map};
ghost use Rattle.cb_constraints.specs.Holding.{tested_value};
ghost use Rattle.cb_constraints.specs.Internal.RowFields.{row_fields};
ghost use Rattle.cb_facts.specs.Facts.{content_of};
ghost use Rattle.cb_fit.specs.FieldPlaces.{field_at, field_value};

use crate::slots::slot_value;
use cb_constraints::{Fields, Tested};
use cb_facts::{Content, Fact, Value};
use cb_forms::NoMemory;

/// The place of a field in the facts of a relation. Of two places the one with the lesser slot is the lesser, and in one slot the
/// one with the lesser field.
#[derive(Clone, Copy, PartialEq, Eq, PartialOrd, Ord)]
pub struct FieldPlace {
    /// The place of the slot among the slots of the template; `None` for an ordered fact.
    pub slot: Option<usize>,
    /// The place of the field in the slot or in the ordered fact, from 0.
    pub field: usize,
}

impl FieldPlace {
    /// The field in a fact, borrowed, or `None` where the fact has no such field.
    pub fn field_in<'a>(&self, fact: &'a Fact) -> Option<Tested<'a>>
        ensures { option_map tested_value result ≡ field_value self.now.slot self.now.field fact.now.content }
    {
        match (fact.content(), self.slot) {
            (Content::Fields(fields), None) => field_at(Fields::All(fields), self.field),
            (Content::Slots(slots), Some(place)) => {
                field_at(Fields::Slot(slot_value(slots, place)?), self.field)
            }
            _ => None,
        }
    }

    /// The value of the field in a fact, or `None` where the fact has no such field. It takes no memory, and is refused as `NoMemory`
    /// only where a count of sharers is full.
    pub fn value_in(&self, fact: &Fact) -> Result<Option<Value>, NoMemory>
        ensures { IfOk result (λ v. v ≡ field_value self.now.slot self.now.field fact.now.content) }
    {
        match self.field_in(fact) {
            Some(field) => Ok(Some(field.to_value()?)),
            None => Ok(None),
        }
    }
}

/// The field at a place, or `None` after the last.
fn field_at<'a>(fields: Fields<'a>, at: usize) -> Option<Tested<'a>>
    ensures { option_map tested_value result ≡ field_at at (row_fields fields.entry) }
{
    fields.get(at)
}
