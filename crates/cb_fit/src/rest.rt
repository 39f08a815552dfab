//! What is left of a row.
ghost use Rattle.std.specs.Prelude.{◌≡◌, ◌+◌, ◌++◌, ◌≤◌, [], IfOk, IfSome, MatchOption, OnOk, length, map, take, true};
ghost use Rattle.cb_constraints.specs.Constraints.{constraint_of};
ghost use Rattle.cb_constraints.specs.Rows.{before_segments, segments_wanted};
ghost use Rattle.cb_constraints.specs.Internal.RowFields.{row_fields};
ghost use Rattle.cb_fit.specs.Internal.{begun_at, endings, env_after, may_take_row};
ghost use Rattle.cb_fit.specs.Internal.Choices.{IsRest, KeepsFirst};
ghost use Rattle.cb_fit.specs.Internal.Searches.{search_of};
ghost use Rattle.cb_fit.specs.Internal.Standing.{IsAt};
ghost use Rattle.cb_fit.specs.Ways.{after_cuts, ways_of_row};

use crate::search::Search;
use cb_constraints::{Constraint, Fields, Row, Segments};
use cb_exprs::Lookup;
use cb_forms::NoMemory;

/// The constraints of a row from one for a segment on, or none.
#[derive(Clone, Copy)]
pub(crate) struct Rest<'a> {
    pub(crate) constraints: &'a [Constraint],
    /// How many fields they want.
    pub(crate) wanted: usize,
    /// How many fields those before them took.
    pub(crate) at: usize,
}

impl<L: Lookup> Search<'_, L> {
    /// Begins a row, which may take the fields: its constraints before the first segment take one field each, if they hold.
    /// Returns the others.
    pub(crate) fn begin_row<'r>(
        self,
        row: &'r Row,
        fields: Fields<'_>,
        cuts: &mut Segments,
    ) -> Result<Option<Rest<'r>>, NoMemory>
        requires may { may_take_row row.now (row_fields fields) ≡ true }
        requires place { IsAt (search_of L.bindings self) (row_fields fields) cuts.old 0 row.now }
        ensures ways { IfOk result (λ rest. MatchOption rest
            (ways_of_row row.now (row_fields fields.entry) (env_after
            (search_of L.bindings self.entry) cuts.old) ≡ [])
            (λ r. map (after_cuts cuts.old)
            (ways_of_row row.now (row_fields fields.entry) (env_after
            (search_of L.bindings self.entry) cuts.old))
            ≡ endings (map constraint_of r.constraints.now)
            (begun_at (search_of L.bindings self.entry) (row_fields fields.entry) cuts.new r.at))) }
        ensures keeps { OnOk result (KeepsFirst (length cuts.old) cuts.old cuts.new) }
        ensures place { IfOk result (λ rest. IfSome rest (λ r. IsAt
            (search_of L.bindings self.entry)
            (row_fields fields.entry) cuts.new r.at (map constraint_of r.constraints.now))) }
        ensures count { IfOk result (λ rest. IfSome rest (λ r.
            length cuts.new + length r.constraints.now ≡ length cuts.old + length row.now)) }
        ensures rest { IfOk result (λ rest. IfSome rest IsRest) }
        ensures segments { IfOk result (λ rest. IfSome rest (λ r.
            segments_wanted (map constraint_of r.constraints.now) ≡ segments_wanted row.now)) }
        ensures within { IfOk result (λ rest. IfSome rest (λ r.
            r.at ≤ length (row_fields fields.entry))) }
        ensures ended { IfOk result (λ rest. IfSome rest (λ r. r.constraints.now ≡ []
            → r.at ≡ length (row_fields fields.entry))) }
    {
        let (leading, constraints) = split_ones(row.constraints(), row.leading());
        if !self.take_ones(fields, leading, 0, cuts)? {
            return Ok(None);
        }
        Ok(Some(Rest {
            constraints,
            wanted: row.fields() - leading.len(),
            at: leading.len(),
        }))
    }
}

/// The constraints before the first that takes a segment, which are so many, and the others.
#[tactic(auto, using(crate::proofs::Splits::taken_front, crate::proofs::Splits::taken_ones, crate::proofs::Splits::dropped_segment, crate::proofs::Splits::few_leading))]
pub(crate) fn split_ones(
    constraints: &[Constraint],
    leading: usize,
) -> (&[Constraint], &[Constraint])
    requires { leading ≡ before_segments (map constraint_of constraints.now) }
    ensures all { result.0.now ++ result.1.now ≡ constraints.now }
    ensures front { map constraint_of result.0.now
        ≡ take (before_segments (map constraint_of constraints.now))
        (map constraint_of constraints.now) }
    ensures ones { segments_wanted (map constraint_of result.0.now) ≡ 0 }
    ensures segment { before_segments (map constraint_of result.1.now) ≡ 0 }
{
    constraints.split_at(leading)
}
