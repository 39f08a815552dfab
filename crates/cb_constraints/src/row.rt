//! Constraints in a row.
ghost use Rattle.std.specs.Prelude.{◌≡◌, map};
ghost use Rattle.cb_constraints.specs.Constraints.{constraint_of};
ghost use Rattle.cb_constraints.specs.Rows.{after_segments, before_segments, fields_wanted, segments_wanted};

use crate::constraint::Constraint;
use std::marker::Model;

/// The constraints for the fields of an ordered fact, or of a slot, with what a search needs to know of them.
///
/// Contracts see the list of the constraints.
#[derive(Drop)]
pub struct Row {
    constraints: Vec<Constraint>,
    fields: usize,
    segments: usize,
    leading: usize,
    trailing: usize,
}

impl Model for Row {
    ghost use Rattle.std.specs.Coded.{codes};
    ghost use Rattle.std.specs.Prelude.{◌≡◌, List, map};
    ghost use Rattle.cb_constraints.specs.Internal.Codes.{row_code};
    ghost use Rattle.cb_constraints.specs.Constraints.{Constraint, constraint_of};
    ghost use Rattle.cb_constraints.specs.Rows.{after_segments, before_segments, fields_wanted, segments_wanted};

    ghost Value = { List Constraint };

    ghost coded = { row_code (Prim.hlevel codes) (Prim.hlevel codes) (Prim.hlevel codes) };

    ghost view = { λ r. map constraint_of r.constraints.items };

    ghost invariant = { λ r. (r.fields ≡ fields_wanted (map constraint_of r.constraints.items)) × (r.segments ≡ segments_wanted (map constraint_of r.constraints.items)) × (r.leading ≡ before_segments (map constraint_of r.constraints.items)) × (r.trailing ≡ after_segments (map constraint_of r.constraints.items)) };
}

impl Row {
    /// These constraints.
    pub fn new(constraints: Vec<Constraint>) -> Row
        ensures { result ≡ map constraint_of constraints.items }
    {
        let fields = count_fields(constraints.as_slice());
        let segments = count_segments(constraints.as_slice());
        let leading = count_leading(constraints.as_slice());
        let trailing = count_trailing(constraints.as_slice(), segments);
        Row {
            constraints,
            fields,
            segments,
            leading,
            trailing,
        }
    }

    /// The constraints, in their order.
    pub fn constraints(&self) -> &[Constraint]
        ensures { map constraint_of result.now ≡ self.now }
    {
        self.constraints.as_slice()
    }

    /// How many of them take one field: the least number of fields that the row takes, and the only one where none takes a
    /// segment.
    pub fn fields(&self) -> usize
        ensures { result ≡ fields_wanted self.now }
    {
        self.fields
    }

    /// How many of them take a segment.
    pub fn segments(&self) -> usize
        ensures { result ≡ segments_wanted self.now }
    {
        self.segments
    }

    /// How many stand before the first that takes a segment: each of these has its place from the front.
    pub fn leading(&self) -> usize
        ensures { result ≡ before_segments self.now }
    {
        self.leading
    }

    /// How many stand after the last that takes a segment, or all where none does: each of these has its place from the end.
    pub fn trailing(&self) -> usize
        ensures { result ≡ after_segments self.now }
    {
        self.trailing
    }
}

/// How many constraints take one field.
fn count_fields(constraints: &[Constraint]) -> usize
    ensures { result ≡ fields_wanted (map constraint_of constraints.now) }
{
    let mut fields = 0;
    for constraint in constraints {
        if !constraint.takes_segment {
            fields += 1;
        }
    }
    fields
}

/// How many take a segment.
fn count_segments(constraints: &[Constraint]) -> usize
    ensures { result ≡ segments_wanted (map constraint_of constraints.now) }
{
    let mut segments = 0;
    for constraint in constraints {
        if constraint.takes_segment {
            segments += 1;
        }
    }
    segments
}

/// How many constraints stand before the first that takes a segment.
pub fn count_leading(constraints: &[Constraint]) -> usize
    ensures { result ≡ before_segments (map constraint_of constraints.now) }
{
    let mut leading = 0;
    for constraint in constraints {
        if constraint.takes_segment {
            return leading;
        }
        leading += 1;
    }
    leading
}

/// How many stand after the last that takes a segment, where so many do.
fn count_trailing(constraints: &[Constraint], segments: usize) -> usize
    requires { segments ≡ segments_wanted (map constraint_of constraints.now) }
    ensures { result ≡ after_segments (map constraint_of constraints.now) }
{
    let mut left = segments;
    let mut trailing = 0;
    for constraint in constraints {
        if constraint.takes_segment {
            left -= 1;
        } else if left == 0 {
            trailing += 1;
        }
    }
    trailing
}
