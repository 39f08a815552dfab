//! Fields with variables as alternatives.
use crate::field_place::FieldPlace;
use cb_facts::Name;

/// A field of a fact that is to be equal to one of several variables.
#[derive(Drop)]
pub struct ChoiceField {
    /// The place of the field.
    pub place: FieldPlace,
    /// The variables.
    pub variables: Vec<Name>,
}
