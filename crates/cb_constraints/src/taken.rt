//! The values that the constraints of a pattern took of a fact.
ghost use Rattle.std.specs.Prelude.{◌≡◌, ◌<◌, [], IfOk, MatchOption, Some, drop, get_or, length, map, min, option_copied, slice_get, slice_index_or, take};
ghost use Rattle.cb_constraints.specs.Internal.Places.{sites_in};
ghost use Rattle.cb_constraints.specs.PartValues.{asked_parts, asked_slot};
ghost use Rattle.cb_constraints.specs.Internal.RowFields.{row_fields};
ghost use Rattle.cb_constraints.specs.Internal.Values.{fields_of_row, first_fields, first_row_fields, value_at_site, value_taken, values};
ghost use Rattle.cb_facts.specs.Facts.{content_of};

use crate::body::Body;
use crate::fields::Fields;
use crate::pattern_parts::{PatternParts, SlotRow};
use crate::segments::{Segments, Span};
use crate::site::Site;
use cb_facts::{Content, Multifield, Name, Value};
use cb_forms::NoMemory;
use std::alloc::Global;

/// What the constraints of a pattern took of a fact: segments of these lengths, one for each constraint from the first on.
#[derive(Clone, Copy)]
pub struct Taken<'a> {
    /// For the multifield of a slot's value that is none.
    pub alloc: Global,
    /// The pattern.
    pub body: &'a Body,
    /// The content of the fact.
    pub content: &'a Content,
    /// The lengths.
    pub cuts: &'a Segments,
}

impl Taken<'_> {
    /// How many constraints took a value.
    pub(crate) fn count(self) -> usize
        ensures { result ≡ length (values self.entry) }
    {
        self.cuts.len()
    }

    /// The value that a constraint took. It shares its bytes or fields. It is refused as `NoMemory` where a count of sharers is
    /// full, or where memory for it is.
    pub(crate) fn value(self, constraint: usize) -> Result<Value, NoMemory>
        requires { constraint < length (values self) }
        ensures { IfOk result (λ v. v ≡ slice_index_or (values self.entry) constraint v) }
    {
        self.read(constraint)
    }

    /// The value that the constraint with this number took.
    fn read(self, number: usize) -> Result<Value, NoMemory>
        requires { number < length self.cuts.now }
        ensures { IfOk result (λ v. v ≡ value_at_site
            (slice_get (sites_in self.entry.body.now) number) self.entry.body.now
            (content_of self.entry.content.now) (take number self.entry.cuts.now)
            (get_or self.entry.cuts.now number 0)) }
    {
        match self.body.site(number) {
            Some(site) => self.read_at(site, number),
            None => no_fields(self.alloc),
        }
    }

    /// That of the constraint at this site.
    fn read_at(self, site: Site, number: usize) -> Result<Value, NoMemory>
        requires { number < length self.cuts.now }
        ensures { IfOk result (λ v. v ≡ value_at_site (Some site) self.entry.body.now
            (content_of self.entry.content.now) (take number self.entry.cuts.now)
            (get_or self.entry.cuts.now number 0)) }
    {
        let Some(span) = self.cuts.span(site.start, number) else {
            return Err(NoMemory);
        };
        match find_fields(self.body.parts(), self.content, site.row) {
            Some(fields) => value_of_part(self.alloc, fields, site.takes_segment, span),
            None => no_fields(self.alloc),
        }
    }
}

/// The multifield without fields.
fn no_fields(alloc: Global) -> Result<Value, NoMemory>
    ensures { IfOk result (λ v. v ≡ Value.Multi []) }
{
    Ok(Value::Multi(Multifield::from_vec(Vec::new(alloc))?))
}

/// The value of a part of fields: their multifield, or the first of them.
fn value_of_part(
    alloc: Global,
    fields: Fields<'_>,
    takes_segment: bool,
    span: Span,
) -> Result<Value, NoMemory>
    ensures { IfOk result (λ v. v ≡ value_taken takes_segment
        (take span.length (drop span.from (row_fields fields.entry)))) }
{
    let len = fields.len();
    let from = at_most(span.from, len);
    let to = at_most(span.from.saturating_add(span.length), len);
    if takes_segment {
        return fields.segment(alloc, from, to);
    }
    if from < to {
        if let Some(tested) = fields.get(from) {
            return tested.to_value();
        }
    }
    fields.segment(alloc, from, from)
}

/// The fields for which a row is, by its number.
fn find_fields<'a>(parts: &PatternParts, content: &'a Content, row: usize) -> Option<Fields<'a>>
    ensures { MatchOption result
        (fields_of_row row (asked_parts parts.now) (content_of content.now) ≡ [])
        (λ f. row_fields f
        ≡ fields_of_row row (asked_parts parts.now) (content_of content.entry.now)) }
{
    match (parts, content) {
        (PatternParts::Fields(_), Content::Fields(fields)) => Some(Fields::All(fields)),
        (PatternParts::Slots(rows), Content::Slots(slots)) => find_slot(rows, slots, row),
        _ => None,
    }
}

/// Those of the slot for which a row is.
#[tactic(auto, using(crate::proofs::PartLaws::no_row, crate::proofs::PartLaws::a_row))]
fn find_slot<'a>(rows: &[SlotRow], slots: &'a [(Name, Value)], row: usize) -> Option<Fields<'a>>
    ensures { MatchOption result
        (first_row_fields (drop row (map asked_slot rows.now)) slots.now ≡ [])
        (λ f. row_fields f
        ≡ first_row_fields (drop row (map asked_slot rows.now)) slots.entry.now) }
{
    match row_at(rows, row) {
        Some(found) => slot_fields(slots, found.place),
        None => None,
    }
}

/// The row with a number, or `None` after the last.
fn row_at(rows: &[SlotRow], row: usize) -> Option<&SlotRow>
    ensures { option_copied result ≡ slice_get rows.now row }
{
    rows.get(row)
}

/// Those of the slot at a place.
fn slot_fields(slots: &[(Name, Value)], place: usize) -> Option<Fields<'_>>
    ensures { MatchOption result (first_fields (drop place slots.now) ≡ [])
        (λ f. row_fields f ≡ first_fields (drop place slots.entry.now)) }
{
    match slots.get(place) {
        Some((_, value)) => Some(Fields::Slot(value)),
        None => None,
    }
}

/// A number, or this one if that is greater.
fn at_most(number: u64, most: usize) -> usize
    ensures { result ≡ min number most }
{
    if number > most as u64 {
        return most;
    }
    number as usize
}
