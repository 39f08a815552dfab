//! What comes of assertions.
use cb_matches::Delta;

/// What came of the assertion of a fact.
#[derive(Drop)]
pub enum Asserted {
    /// An equal fact is there, with this index.
    There(u64),
    /// The fact has this index, and these matches went and came.
    Added(u64, Delta),
    /// No index was left.
    NoIndex,
}
