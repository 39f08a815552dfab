//! Where constraints stand in a pattern.

/// Where a constraint stands: in which row, and from which constraint on; and whether it takes a segment.
#[derive(Clone, Copy)]
pub struct Site {
    /// The number of the row among the slots that the pattern writes, from 0; that of an ordered pattern is 0.
    pub row: usize,
    /// The number of the row's first constraint.
    pub start: usize,
    /// Whether the constraint takes a segment of none or more fields, and not one field.
    pub takes_segment: bool,
}
