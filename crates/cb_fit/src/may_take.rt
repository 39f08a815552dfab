//! Whether a row may take fields, by their number and by what it asks by constants alone. It takes no memory, so it is asked before
//! any variable takes a value.
ghost use Rattle.std.specs.Prelude.{◌≡◌, ◌≤◌, drop, length, map, take, true};
ghost use Rattle.cb_constraints.specs.Constraints.{constraint_of};
ghost use Rattle.cb_constraints.specs.Internal.RowFields.{row_fields};
ghost use Rattle.cb_fit.specs.Internal.{after_last, may_take, may_take_back, may_take_front, may_take_row, takes_length};

use crate::lengths::takes_length;
use crate::rest::split_ones;
use cb_constraints::{Constraint, Fields, Row, asks_constants, may_hold};

/// Whether a row may take the fields: as many as these, and by what its constraints before the first segment and those after the
/// last ask.
#[tactic(auto, using(crate::proofs::Looked::never_long, crate::proofs::Looked::never_front, crate::proofs::Looked::by_its_back))]
pub(crate) fn may_take_row(fields: Fields<'_>, row: &Row) -> bool
    ensures { result ≡ may_take_row row.now (row_fields fields.entry) }
{
    if !takes_length(row, fields.len()) {
        return false;
    }
    if !may_take_front(fields, row) {
        return false;
    }
    row.segments() == 0 || may_take_back(fields, row)
}

/// Whether the constraints before the first segment may take the first fields.
fn may_take_front(fields: Fields<'_>, row: &Row) -> bool
    ensures { result ≡ may_take_front row.now (row_fields fields.entry) }
{
    let (leading, _) = split_ones(row.constraints(), row.leading());
    may_take(fields, leading, 0)
}

/// Whether those after the last segment may take the last fields.
#[tactic(auto, using(crate::proofs::Trailing::few_fields))]
fn may_take_back(fields: Fields<'_>, row: &Row) -> bool
    requires { takes_length row.now (length (row_fields fields)) ≡ true }
    ensures { result ≡ may_take_back row.now (row_fields fields.entry) }
{
    let from = fields.len() - row.trailing();
    may_take(fields, trailing(row), from)
}

/// Whether constraints for one field may take one each, from a place on.
pub(crate) fn may_take(fields: Fields<'_>, constraints: &[Constraint], from: usize) -> bool
    requires { from ≤ length (row_fields fields) }
    ensures { result ≡ may_take (map constraint_of constraints.now)
        (drop from (row_fields fields.entry)) }
{
    let mut at = from;
    for constraint in constraints {
        let Some(tested) = fields.get(at) else {
            return false;
        };
        if asks_constants(&constraint.demand) && !may_hold(&constraint.demand, tested) {
            return false;
        }
        at += 1;
    }
    true
}

/// The constraints after the last that takes a segment, or all where none does.
#[tactic(auto, using(crate::proofs::Trailing::few_trailing, crate::proofs::Trailing::dropped_back))]
fn trailing(row: &Row) -> &[Constraint]
    ensures { map constraint_of result.now ≡ after_last row.now }
{
    let constraints = row.constraints();
    let (_, trailing) = constraints.split_at(constraints.len() - row.trailing());
    trailing
}
