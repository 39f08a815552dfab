//! What a pattern asks of the content of a fact.
use crate::row::Row;
use cb_facts::Name;

/// What a pattern asks of a slot.
#[derive(Drop)]
pub struct SlotRow {
    /// The slot's name.
    pub name: Name,
    /// Its place among the slots of the template, from 0: there the fact's value for it stands.
    pub place: usize,
    /// The constraints for its fields.
    pub row: Row,
}

/// What a pattern asks of the content of a fact.
#[derive(Drop)]
pub enum PatternParts {
    /// The constraints for the fields of an ordered fact.
    Fields(Row),
    /// Those for each slot that the pattern writes, in the order in which they are written.
    Slots(Vec<SlotRow>),
}
