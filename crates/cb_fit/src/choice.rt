//! Choices of where a segment ends.
ghost use Rattle.std.specs.Prelude.{◌≡◌, ◌≢◌, ◌∷◌, ◌++◌, [], ℕ, List, true, ◌+◌, ◌-◌, ◌<◌, ◌≤◌, IfOk, IfSome, MatchOption, OnOk, flat_map, length, map, replicate};
ghost use Rattle.cb_constraints.specs.Constraints.{constraint_of, demand_of};
ghost use Rattle.cb_constraints.specs.Internal.Asking.{HoldsOfAll};
ghost use Rattle.cb_constraints.specs.Rows.{segments_wanted};
ghost use Rattle.cb_constraints.specs.PartValues.{asked_slot};
ghost use Rattle.cb_constraints.specs.Internal.RowFields.{row_fields};
ghost use Rattle.cb_fit.specs.Internal.{begun_at, begun_if, endings};
ghost use Rattle.cb_fit.specs.Internal.Choices.{IsChoice, IsIn, IsRest, KeepsFirst, choice_endings, cuts_before, group_from, most_tries, segments_in, tries};
ghost use Rattle.cb_fit.specs.Internal.Searches.{SearchValue, search_of};
ghost use Rattle.cb_fit.specs.Internal.Standing.{AreNext, IsAt};

use crate::rest::{Rest, split_ones};
use crate::search::Search;
use cb_constraints::{Constraint, Fields, Segments, SlotRow, count_leading, holds_of_all};
use cb_exprs::Lookup;
use cb_forms::NoMemory;

/// A segment that may end at a place, or at each of those after it up to the last. What was taken before it stands in the
/// lengths that the search keeps.
#[derive(Drop)]
pub(crate) struct Choice<'a> {
    /// The fields of the row.
    pub(crate) fields: Fields<'a>,
    /// The number of the constraint: how many were before it in the pattern.
    pub(crate) number: usize,
    /// How many fields of the row were taken before it.
    pub(crate) at: usize,
    /// The constraint for the segment.
    pub(crate) constraint: &'a Constraint,
    /// Those for one field that follow it.
    pub(crate) ones: &'a [Constraint],
    /// The others of the row.
    pub(crate) rest: &'a [Constraint],
    /// How many fields these want.
    pub(crate) wanted: usize,
    /// The rows of slots that follow.
    pub(crate) rows: &'a [SlotRow],
    /// The first place where the segment may end.
    pub(crate) to: usize,
    /// The last.
    pub(crate) last: usize,
}

impl<'a> Choice<'a> {
    /// The choice for the first of these constraints, if enough fields are left for all of them. A segment that no other follows
    /// has to take all that is left.
    pub(crate) fn new(
        fields: Fields<'a>,
        number: usize,
        rest: Rest<'a>,
        rows: &'a [SlotRow],
    ) -> Option<Choice<'a>>
        requires some { rest.constraints.now ≢ [] }
        requires rest { IsRest rest }
        requires within { rest.at ≤ length (row_fields fields) }
        ensures ways { (s : SearchValue) (before : List ℕ) → MatchOption result
            (endings (map constraint_of rest.entry.constraints.now)
            (begun_at s (row_fields fields.entry) before rest.entry.at) ≡ [])
            (λ c. choice_endings s before c ≡ endings (map constraint_of rest.entry.constraints.now)
            (begun_at s (row_fields fields.entry) before rest.entry.at)) }
        ensures inside { (s : SearchValue) (before : List ℕ) → number ≡ length before
            → IsAt s (row_fields fields.entry) before rest.entry.at
            (map constraint_of rest.entry.constraints.now)
            → AreNext s (length before + length rest.entry.constraints.now)
            (map asked_slot rows.now)
            → IfSome result (IsIn s before) }
        ensures rows { IfSome result (λ c. c.rows.now ≡ rows.now) }
        ensures number { IfSome result (λ c. c.number ≡ number) }
        ensures choice { IfSome result IsChoice }
        ensures tries { IfSome result (λ c. tries c ≤ most_tries
            (segments_wanted (map constraint_of rest.entry.constraints.now)
            + segments_in (map asked_slot rows.now))) }
    {
        let (constraint, following) = rest.constraints.split_first()?;
        let (ones, after) = split_ones(following, count_leading(following));
        let len = fields.len();
        if len - rest.at < rest.wanted {
            return None;
        }
        let last = len - rest.wanted;
        let to = first_end(after, rest.at, last);
        Some(Choice {
            fields,
            number,
            at: rest.at,
            constraint,
            ones,
            rest: after,
            wanted: rest.wanted - ones.len(),
            rows,
            to,
            last,
        })
    }

    /// The first place where the segment may end so that it and the constraints for one field that follow it hold; then their
    /// lengths stand after those before the segment.
    pub(crate) fn take<L: Lookup>(
        &self,
        search: Search<'a, L>,
        cuts: &mut Segments,
    ) -> Result<Option<usize>, NoMemory>
        requires choice { IsChoice self.now }
        requires inside { IsIn (search_of L.bindings search)
            (cuts_before self.now cuts.old) self.now }
        ensures order { IfOk result (λ end. IfSome end (λ to. self.now.to ≤ to)) }
        ensures last { IfOk result (λ end. IfSome end (λ to. to ≤ self.now.last)) }
        ensures cuts { IfOk result (λ end. IfSome end (λ to. cuts.new
            ≡ cuts_before self.now cuts.old
            ++ ((to - self.now.at) ∷ replicate (length self.now.ones.now) 1))) }
        ensures keeps { OnOk result (KeepsFirst self.now.number cuts.old cuts.new) }
        ensures taken { IfOk result (λ end. MatchOption end
            (group_from (search_of L.bindings search.entry)
            (cuts_before self.now cuts.old) self.now self.now.to
            (self.now.last + 1 - self.now.to) ≡ [])
            (λ to. group_from (search_of L.bindings search.entry)
            (cuts_before self.now cuts.old) self.now self.now.to
            (self.now.last + 1 - self.now.to)
            ≡ begun_at (search_of L.bindings search.entry) (row_fields self.now.fields) cuts.new
            (to + length self.now.ones.now)
            ∷ group_from (search_of L.bindings search.entry)
            (cuts_before self.now cuts.old) self.now (to + 1)
            (self.now.last - to))) }
    {
        let demand = &self.constraint.demand;
        let holds_of_all = holds_of_all(demand, search.body, self.number, search.before)?;
        for to in self.to..=self.last {
            cuts.truncate(self.number);
            if self.take_up_to(search, holds_of_all, to, cuts)? {
                return Ok(Some(to));
            }
        }
        Ok(None)
    }

    /// Whether the segment, of which the constraint may be known to hold of every value, may end at a place so that it and the
    /// constraints for one field that follow it hold; then their lengths come after these.
    fn take_up_to<L: Lookup>(
        &self,
        search: Search<'a, L>,
        holds_of_all: bool,
        to: usize,
        cuts: &mut Segments,
    ) -> Result<bool, NoMemory>
        requires all { holds_of_all ≡ true → HoldsOfAll search.body.now self.now.number
            (L.bindings search.before.now) (demand_of self.now.constraint.now.demand) }
        requires choice { IsChoice self.now }
        requires inside { IsIn (search_of L.bindings search) cuts.old self.now }
        requires order { self.now.to ≤ to }
        requires last { to ≤ self.now.last }
        ensures cuts { IfOk result (λ holds. holds ≡ true → cuts.new
            ≡ cuts.old ++ ((to - self.now.at) ∷ replicate (length self.now.ones.now) 1)) }
        ensures keeps { OnOk result (KeepsFirst (length cuts.old) cuts.old cuts.new) }
        ensures taken { IfOk result (λ holds. group_from
            (search_of L.bindings search.entry) cuts.old self.now to 1
            ≡ begun_if holds (begun_at (search_of L.bindings search.entry)
            (row_fields self.now.fields) cuts.new
            (to + length self.now.ones.now))) }
    {
        search.take_group(
            self.fields,
            self.constraint,
            holds_of_all,
            self.ones,
            self.at,
            to,
            cuts,
        )
    }
}

/// The first place where a segment may end that begins at a place: the last, where no other segment comes after it.
fn first_end(after: &[Constraint], at: usize, last: usize) -> usize
    requires { at ≤ last }
    ensures begun { at ≤ result }
    ensures order { result ≤ last }
    ensures alone { at < result → after.now ≡ [] }
    ensures ended { after.now ≡ [] → result ≡ last }
{
    if after.is_empty() { last } else { at }
}
