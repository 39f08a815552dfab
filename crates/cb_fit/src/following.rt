//! What follows the beginning of a way: the rest of a row, the rows of the slots after it, and at last the way.
ghost use Rattle.std.specs.Prelude.{◌≡◌, ◌++◌, ◌∷◌, ◌+◌, ◌≤◌, [], true, IfOk, IfSome, OnOk, length, map};
ghost use Rattle.cb_constraints.specs.Constraints.{constraint_of};
ghost use Rattle.cb_constraints.specs.Rows.{segments_wanted};
ghost use Rattle.cb_constraints.specs.PartValues.{asked_slot};
ghost use Rattle.cb_constraints.specs.Internal.RowFields.{row_fields};
ghost use Rattle.cb_fit.specs.Internal.{begun_at, endings, env_after, may_take_row, may_take_slots, taken_by};
ghost use Rattle.cb_fit.specs.Internal.Choices.{IsOpen, IsRest, KeepsFirst, as_ways, followed_by_rows, kept_with, most_tries, segments_in, tries};
ghost use Rattle.cb_fit.specs.Internal.Searches.{search_of};
ghost use Rattle.cb_fit.specs.Internal.Standing.{AreNext, IsAt};
ghost use Rattle.cb_fit.specs.WayValues.{way_of};
ghost use Rattle.cb_fit.specs.Ways.{after_cuts, ways_of_row};

use crate::choice::Choice;
use crate::cuts::Cuts;
use crate::rest::Rest;
use crate::search::Search;
use crate::slots::slot_value;
use crate::way::Way;
use cb_constraints::{Fields, Row, Segments, SlotRow, newly_bound};
use cb_exprs::Lookup;
use cb_forms::NoMemory;
use smallvec::SmallVec;

impl<'a, L: Lookup> Search<'a, L> {
    /// Goes on with what is left of a row, and with the rows of slots that follow: returns the choice that comes next, or keeps
    /// the way where no segment follows.
    pub(crate) fn go_on(
        self,
        fields: Fields<'a>,
        rest: Rest<'a>,
        rows: &'a [SlotRow],
        cuts: &mut Segments,
        kept: &mut SmallVec<Way, 1>,
    ) -> Result<Option<Choice<'a>>, NoMemory>
        requires rest { IsRest rest }
        requires within { rest.at ≤ length (row_fields fields) }
        requires ended { rest.constraints.now ≡ [] → rest.at ≡ length (row_fields fields) }
        requires rows { may_take_slots (map asked_slot rows.now) self.slots.now ≡ true }
        requires place { IsAt (search_of L.bindings self) (row_fields fields) cuts.old rest.at
            (map constraint_of rest.constraints.now) }
        requires next { AreNext (search_of L.bindings self)
            (length cuts.old + length rest.constraints.now)
            (map asked_slot rows.now) }
        ensures ways { IfOk result (λ next. kept_with
            (search_of L.bindings self.entry) cuts.new kept.new.items next
            ≡ map way_of kept.old.items
            ++ as_ways (search_of L.bindings self.entry) (followed_by_rows
            (map asked_slot rows.now) self.entry.slots.now
            (endings (map constraint_of rest.entry.constraints.now)
            (begun_at (search_of L.bindings self.entry)
            (row_fields fields.entry) cuts.old rest.entry.at)))) }
        ensures open { IfOk result (λ next. IfSome next (IsOpen
            (search_of L.bindings self.entry) cuts.new)) }
        ensures keeps { OnOk result (KeepsFirst (length cuts.old) cuts.old cuts.new) }
        ensures order { IfOk result (λ next. IfSome next (λ c. length cuts.old ≤ c.number)) }
        ensures tries { IfOk result (λ next. IfSome next (λ c. tries c ≤ most_tries
            (segments_wanted (map constraint_of rest.entry.constraints.now)
            + segments_in (map asked_slot rows.now)))) }
    {
        if !rest.constraints.is_empty() {
            return Ok(Choice::new(fields, cuts.len(), rest, rows));
        }
        self.begin_rows(rows, cuts, kept)
    }

    /// Begins the rows of slots, which may take their fields, up to the first with a segment: returns the choice of that, or
    /// keeps the way where there is none.
    pub(crate) fn begin_rows(
        self,
        rows: &'a [SlotRow],
        cuts: &mut Segments,
        kept: &mut SmallVec<Way, 1>,
    ) -> Result<Option<Choice<'a>>, NoMemory>
        requires may { may_take_slots (map asked_slot rows.now) self.slots.now ≡ true }
        requires next { AreNext (search_of L.bindings self) (length cuts.old)
            (map asked_slot rows.now) }
        ensures ways { IfOk result (λ next. kept_with
            (search_of L.bindings self.entry) cuts.new kept.new.items next
            ≡ map way_of kept.old.items
            ++ as_ways (search_of L.bindings self.entry) (followed_by_rows
            (map asked_slot rows.now) self.entry.slots.now
            (taken_by (search_of L.bindings self.entry) cuts.old ∷ []))) }
        ensures open { IfOk result (λ next. IfSome next (IsOpen
            (search_of L.bindings self.entry) cuts.new)) }
        ensures keeps { OnOk result (KeepsFirst (length cuts.old) cuts.old cuts.new) }
        ensures order { IfOk result (λ next. IfSome next (λ c. length cuts.old ≤ c.number)) }
        ensures tries { IfOk result (λ next. IfSome next (λ c. tries c
            ≤ most_tries (segments_in (map asked_slot rows.now)))) }
    {
        let mut left = rows;
        while let Some((row, others)) = left.split_first() {
            let Some(value) = slot_value(self.slots, row.place) else {
                return Ok(None);
            };
            let fields = Fields::Slot(value);
            let Some(rest) = self.begin_row(&row.row, fields, cuts)? else {
                return Ok(None);
            };
            if !rest.constraints.is_empty() {
                return Ok(Choice::new(fields, cuts.len(), rest, others));
            }
            left = others;
        }
        self.keep(cuts, kept)?;
        Ok(None)
    }

    /// Keeps the way of segments with these lengths, one for each constraint of the pattern.
    fn keep(self, cuts: &Segments, kept: &mut SmallVec<Way, 1>) -> Result<(), NoMemory>
        requires { AreNext (search_of L.bindings self) (length cuts.now) [] }
        ensures { OnOk result (map way_of kept.new.items
            ≡ map way_of kept.old.items ++ as_ways (search_of L.bindings self.entry) (taken_by
            (search_of L.bindings self.entry) cuts.now ∷ [])) }
    {
        let took = self.taken(cuts);
        let bound = newly_bound(self.alloc, self.body, self.before, took)?;
        kept.push(Way {
            cuts: Cuts::of(self.alloc, cuts)?,
            bound,
        })?;
        Ok(())
    }

    /// Begins the row of an ordered fact, which may take its fields, in the same way.
    pub(crate) fn begin_fields(
        self,
        row: &'a Row,
        fields: Fields<'a>,
        cuts: &mut Segments,
        kept: &mut SmallVec<Way, 1>,
    ) -> Result<Option<Choice<'a>>, NoMemory>
        requires may { may_take_row row.now (row_fields fields) ≡ true }
        requires place { IsAt (search_of L.bindings self) (row_fields fields) cuts.old 0 row.now }
        requires next { AreNext (search_of L.bindings self) (length cuts.old + length row.now) [] }
        ensures ways { IfOk result (λ next. kept_with
            (search_of L.bindings self.entry) cuts.new kept.new.items next
            ≡ map way_of kept.old.items ++ as_ways (search_of L.bindings self.entry) (map
            (after_cuts cuts.old)
            (ways_of_row row.now (row_fields fields.entry) (env_after
            (search_of L.bindings self.entry) cuts.old)))) }
        ensures open { IfOk result (λ next. IfSome next (IsOpen
            (search_of L.bindings self.entry) cuts.new)) }
    {
        let Some(rest) = self.begin_row(row, fields, cuts)? else {
            return Ok(None);
        };
        self.go_on(fields, rest, &[], cuts, kept)
    }
}
