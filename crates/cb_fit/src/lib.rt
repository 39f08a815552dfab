//! Patterns, and the ways in which one fits a fact.
//!
//! Before the search a fact is asked, in `lengths.rt` and `may_take.rt`, what takes no memory: whether the numbers of its fields
//! and the constants of the pattern fit. Where each constraint takes one field and asks it for constants alone, nothing is left to search
//! (`plain_parts.rt`). `docs/DECISIONS.md`, "Patterns", says how the search goes.
//!
//! `docs/ARCHITECTURE.md` says where it belongs.
#![tactic(auto)]

mod apart; // names that don't stand among others
mod checks; // reading the checks of a constraint
mod choice; // a choice: the places where a segment may end
mod choice_field; // fields with variables as alternatives
mod comparison; // comparisons of a field with a variable
mod conditions; // reading the conditions of a pattern
mod constant_fields; // the fields of a fact that have to be equal to constants
mod cuts; // the lengths of the segments into which a pattern cuts a fact
mod decision; // what decides whether a pattern fits
mod demands; // reading what one constraint asks
mod field_place; // the place of a field in a fact
mod fitting; // `fit`: from the pattern and the fact to the ways
mod following; // what follows the beginning of a way: the rest of a row, the rows of the slots after it, the way
mod join_fields; // the fields of a fact that have to be equal to variables
mod key_list; // lists in keys, which compare item by item
pub mod laws; // laws of ways
mod lengths; // whether a fact has as many fields as a pattern can take; asked before anything else
mod loose; // what a pattern asks without its variables and expressions
mod may_take; // whether a row may take fields, by their number and by constants alone
mod meter; // how often patterns were tested
mod open_choices; // the choices that are open
mod own_field; // fields of one fact that are compared with constants and with one another
mod own_fields; // which fields of one fact a pattern compares with constants and with one another
mod pattern; // a pattern; what it asks is private to the crate
mod pieces; // the pieces of a shape
mod placed; // what a pattern asks of each field that it takes alone
mod plain_parts; // patterns that ask each field for constants alone, and fit with no search
mod rest; // how a row begins: the constraints before the first segment, and what is left after them
mod search; // the search for all ways, which takes up one choice at a time
mod selection; // what a pattern asks of a fact alone
mod settled; // whether the conditions of a pattern can be evaluated behind it
mod shape; // the shapes of patterns, as keys
mod short_lengths; // a few lengths, none of which is long
mod slots; // whether the rows of all slots may take what a fact has
mod standing_alone; // whether a pattern asks by constants and lengths alone
mod taking; // whether the constraint that comes next holds; constraints that take fields, from a place on
mod variable_fields; // fields with variables, found by these
mod way; // a way

pub use choice_field::ChoiceField;
pub use comparison::{ComparedField, Comparison};
pub use constant_fields::ConstantField;
pub use cuts::Cuts;
pub use decision::Decision;
pub use field_place::FieldPlace;
pub use fitting::{fit, fits};
pub use join_fields::JoinField;
pub use meter::Meter;
pub use own_field::{Operand, OwnField};
pub use pattern::Pattern;
pub use selection::Selection;
pub use shape::Shape;
pub use way::Way;
