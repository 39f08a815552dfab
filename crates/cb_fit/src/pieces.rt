//! The pieces of a shape.
use cb_facts::{Name, Value};

/// A piece of a shape. What stands in a slot or in a constraint follows its head.
#[derive(PartialEq, Eq, PartialOrd, Ord, Drop)]
pub(crate) enum Piece {
    /// The head of a pattern for ordered facts: the constraints of its row follow.
    Ordered,
    /// The head of a slot, with its name and its place among the slots of the template: the constraints of its row follow.
    Slot(Name, usize),
    /// A constraint that asks nothing. Here, and in the two that follow, `true` says that it takes a segment.
    Wildcard(bool),
    /// The head of a constraint of checks joined by `&`: those for constants follow.
    Each(bool),
    /// The head of a constraint of alternatives joined by `|`: they follow.
    Either(bool),
    /// The head of an alternative: its checks for constants follow.
    Alternative,
    /// A check for a constant; `true` says that `~` stands before it.
    Constant(bool, Value),
}
