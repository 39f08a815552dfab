//! Constraints that take fields.
ghost use Rattle.std.specs.Prelude.{◌≡◌, ◌∷◌, ◌++◌, [], ◌+◌, ◌-◌, ◌≤◌, true, false, IfOk, OnOk, drop, length, map, replicate, slice_range};
ghost use Rattle.cb_constraints.specs.Constraints.{constraint_of, demand_of};
ghost use Rattle.cb_constraints.specs.Holding.{Meets, may_hold, tested_value};
ghost use Rattle.cb_constraints.specs.Rows.{segments_wanted};
ghost use Rattle.cb_constraints.specs.Internal.Asking.{HoldsOfAll};
ghost use Rattle.cb_constraints.specs.Internal.RowFields.{row_fields};
ghost use Rattle.cb_fit.specs.Internal.{after_ones, begun_at, begun_if, env_after, may_take, with_group};
ghost use Rattle.cb_fit.specs.Internal.Choices.{KeepsFirst};
ghost use Rattle.cb_fit.specs.Internal.Searches.{search_of};
ghost use Rattle.cb_fit.specs.Internal.Standing.{IsAt, ComesNext, TestsNext};
ghost use Rattle.cb_fit.specs.Ways.{after_segment};

use crate::may_take::may_take;
use crate::search::Search;
use cb_constraints::{
    Constraint, Demand, Fields, Known, Segments, Taken, Tested, holds_of_all, meets,
    meets_beyond_constants,
};
use cb_exprs::Lookup;
use cb_forms::NoMemory;

impl<'a, L: Lookup> Search<'a, L> {
    /// Constraints for one field, which may take one each (`may_take`), do so from a place on, if they hold. Their lengths come
    /// after the others.
    pub(crate) fn take_ones(
        self,
        fields: Fields<'_>,
        constraints: &[Constraint],
        from: usize,
        cuts: &mut Segments,
    ) -> Result<bool, NoMemory>
        requires within { from ≤ length (row_fields fields) }
        requires may { may_take (map constraint_of constraints.now) (drop from (row_fields fields))
            ≡ true }
        requires ones { segments_wanted (map constraint_of constraints.now) ≡ 0 }
        requires place { IsAt (search_of L.bindings self) (row_fields fields) cuts.old from
            (map constraint_of constraints.now) }
        ensures cuts { IfOk result (λ holds. holds ≡ true
            → cuts.new ≡ cuts.old ++ replicate (length constraints.now) 1) }
        ensures within { IfOk result (λ holds. holds ≡ true
            → from + length constraints.now ≤ length (row_fields fields.entry)) }
        ensures keeps { OnOk result (KeepsFirst (length cuts.old) cuts.old cuts.new) }
        ensures holds { IfOk result (λ holds. Meets holds (env_after
            (search_of L.bindings self.entry) cuts.new)
            (after_ones (map constraint_of constraints.now) (drop from (row_fields fields.entry))
            (env_after (search_of L.bindings self.entry) cuts.old))) }
    {
        let mut at = from;
        for constraint in constraints {
            let Some(tested) = fields.get(at) else {
                return Ok(false);
            };
            if !self.field_holds(constraint, tested, cuts)? {
                return Ok(false);
            }
            cuts.add_ones(1)?;
            at += 1;
        }
        Ok(true)
    }

    /// Whether the constraint that comes next holds of a field, where it may by its constants.
    fn field_holds(
        self,
        constraint: &Constraint,
        tested: Tested<'_>,
        cuts: &Segments,
    ) -> Result<bool, NoMemory>
        requires next { ComesNext (search_of L.bindings self) cuts.now
            (constraint_of constraint.now) }
        requires may { may_hold (demand_of constraint.now.demand) (tested_value tested) ≡ true }
        ensures { IfOk result (TestsNext (search_of L.bindings self.entry) cuts.now
            (demand_of constraint.now.demand)
            (tested_value tested.entry)) }
    {
        if holds_of_all(&constraint.demand, self.body, cuts.len(), self.before)? {
            return Ok(true);
        }
        let took = self.taken(cuts);
        let known = self.known(&took, tested);
        meets_beyond_constants(
            self.alloc,
            self.constants,
            &constraint.demand,
            tested,
            known,
        )
    }

    /// Whether a constraint, which may be known to hold of every value, takes the segment of the fields from a place up to another.
    /// Then its length comes after the others.
    fn take_segment(
        self,
        fields: Fields<'_>,
        constraint: &Constraint,
        holds_of_all: bool,
        from: usize,
        to: usize,
        cuts: &mut Segments,
    ) -> Result<bool, NoMemory>
        requires all { holds_of_all ≡ true → HoldsOfAll self.body.now (length cuts.old)
            (L.bindings self.before.now) (demand_of constraint.now.demand) }
        requires segment { (constraint_of constraint.now).segment ≡ true }
        requires order { from ≤ to }
        requires within { to ≤ length (row_fields fields) }
        requires place { IsAt (search_of L.bindings self) (row_fields fields) cuts.old from
            (constraint_of constraint.now ∷ []) }
        ensures cuts { IfOk result (λ holds. holds ≡ true
            → cuts.new ≡ cuts.old ++ (to - from) ∷ []) }
        ensures none { IfOk result (λ holds. holds ≡ false → cuts.new ≡ cuts.old) }
        ensures holds { IfOk result (λ holds. Meets holds
            (env_after (search_of L.bindings self.entry) (cuts.old ++ (to - from) ∷ []))
            (after_segment (constraint_of constraint.now)
            (slice_range (row_fields fields.entry) from to)
            (env_after (search_of L.bindings self.entry) cuts.old))) }
    {
        if !self.holds_of_part(fields, constraint, holds_of_all, from, to, cuts)? {
            return Ok(false);
        }
        cuts.add_segment((to - from) as u64)?;
        Ok(true)
    }

    /// Whether a constraint, which may be known to hold of every value, holds of the segment of the fields from a place up to
    /// another.
    fn holds_of_part(
        self,
        fields: Fields<'_>,
        constraint: &Constraint,
        holds_of_all: bool,
        from: usize,
        to: usize,
        cuts: &Segments,
    ) -> Result<bool, NoMemory>
        requires all { holds_of_all ≡ true → HoldsOfAll self.body.now (length cuts.now)
            (L.bindings self.before.now) (demand_of constraint.now.demand) }
        requires segment { (constraint_of constraint.now).segment ≡ true }
        requires order { from ≤ to }
        requires within { to ≤ length (row_fields fields) }
        requires place { IsAt (search_of L.bindings self) (row_fields fields) cuts.now from
            (constraint_of constraint.now ∷ []) }
        ensures { IfOk result (λ holds. Meets holds
            (env_after (search_of L.bindings self.entry) (cuts.now ++ (to - from) ∷ []))
            (after_segment (constraint_of constraint.now)
            (slice_range (row_fields fields.entry) from to)
            (env_after (search_of L.bindings self.entry) cuts.now))) }
    {
        if let Demand::Nothing = &constraint.demand {
            return Ok(true);
        }
        if holds_of_all {
            return Ok(true);
        }
        let segment = fields.segment(self.alloc, from, to)?;
        let tested = Tested::Whole(&segment);
        let took = self.taken(cuts);
        let known = self.known(&took, tested);
        meets(
            self.alloc,
            self.constants,
            &constraint.demand,
            tested,
            known,
        )
    }

    /// Whether a constraint, which may be known to hold of every value, takes the segment up to a place, and those for one field that
    /// follow it one field each, if they hold. Then their lengths come after the others.
    pub(crate) fn take_group(
        self,
        fields: Fields<'_>,
        constraint: &Constraint,
        holds_of_all: bool,
        ones: &[Constraint],
        from: usize,
        to: usize,
        cuts: &mut Segments,
    ) -> Result<bool, NoMemory>
        requires all { holds_of_all ≡ true → HoldsOfAll self.body.now (length cuts.old)
            (L.bindings self.before.now) (demand_of constraint.now.demand) }
        requires segment { (constraint_of constraint.now).segment ≡ true }
        requires ones { segments_wanted (map constraint_of ones.now) ≡ 0 }
        requires order { from ≤ to }
        requires within { to ≤ length (row_fields fields) }
        requires place { IsAt (search_of L.bindings self) (row_fields fields) cuts.old from
            (constraint_of constraint.now ∷ map constraint_of ones.now) }
        ensures cuts { IfOk result (λ holds. holds ≡ true
            → cuts.new ≡ cuts.old ++ ((to - from) ∷ replicate (length ones.now) 1)) }
        ensures keeps { OnOk result (KeepsFirst (length cuts.old) cuts.old cuts.new) }
        ensures taken { IfOk result (λ holds. with_group (constraint_of constraint.now)
            (map constraint_of ones.now)
            (begun_at (search_of L.bindings self.entry) (row_fields fields.entry) cuts.old from)
            (to - from)
            ≡ begun_if holds (begun_at (search_of L.bindings self.entry)
            (row_fields fields.entry) cuts.new
            (to + length ones.now))) }
    {
        if !may_take(fields, ones, to) {
            return Ok(false);
        }
        if !self.take_segment(fields, constraint, holds_of_all, from, to, cuts)? {
            return Ok(false);
        }
        self.take_ones(fields, ones, to, cuts)
    }

    /// What the constraints took of the fact, in segments of these lengths.
    pub(crate) fn taken<'k>(self, cuts: &'k Segments) -> Taken<'k>
    where
        'a: 'k,
        ensures body { result.body.now ≡ self.entry.body.now }
        ensures content { result.content.now ≡ self.entry.content.now }
        ensures cuts { result.cuts.now ≡ cuts.now }
    {
        Taken {
            alloc: self.alloc,
            body: self.body,
            content: self.content,
            cuts,
        }
    }

    /// What variables have where the constraint that comes next is tested for a value.
    fn known<'k>(self, took: &'k Taken<'k>, tested: Tested<'k>) -> Known<'k, L>
    where
        'a: 'k,
        ensures before { result.before.now ≡ self.entry.before.now }
        ensures body { result.body.now ≡ self.entry.body.now }
        ensures took { result.took.now ≡ took.now }
        ensures tested { result.tested ≡ tested.entry }
    {
        Known {
            before: self.before,
            body: self.body,
            took,
            tested,
        }
    }
}
