//! Where variables take values in a pattern.

/// Where a variable may first take a value: at a check of a constraint.
#[derive(Clone, Copy)]
pub struct Place {
    /// The number of the constraint, from 0, in the order in which they are written.
    pub constraint: usize,
    /// The number of the check among those that the constraint joins by `&`, from 0.
    pub check: usize,
}
