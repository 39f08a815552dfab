//! What patterns are made of: constraints and rows of them; whether a constraint holds, and what the constraints of a pattern took of
//! a fact.
//!
//! `docs/ARCHITECTURE.md` says where it belongs.
#![tactic(auto)]

mod asking; // what a constraint asks, found out without a value
mod body; // what a pattern asks, with a table of its variables and of the sites of its constraints
mod constraint; // a test, a test with `~` before it, what a constraint asks, a constraint
mod fields; // the fields that a row is for: those of an ordered fact, or of a slot's value
mod given; // `newly_bound`: the variables that a way gives values
mod holding; // whether a constraint holds of the value in its place, wholly or by its constants alone
mod known; // what variables have where a constraint is tested: before the pattern, and by what its constraints took
pub mod laws; // laws of constraints
mod pattern_parts; // what a pattern asks of an ordered fact, or of slots
mod place; // where a variable may first take a value: at which check of which constraint
mod row; // constraints in a row, with how many fields they take
mod segments; // the lengths of the segments that constraints took, with running totals
mod site; // where a constraint stands: in which row, and whether it takes a segment
mod table; // the variables of a pattern, each once with its place, and the sites of its constraints
mod taken; // the values that the constraints took of a fact, each read by the lengths
mod tested; // the value in the place of a constraint: a field, or the multifield of a segment

pub use asking::{asks_constants, holds_of_all};
pub use body::Body;
pub use constraint::{Check, Constraint, Demand, Test};
pub use fields::Fields;
pub use given::newly_bound;
pub use holding::{may_hold, meets, meets_beyond_constants};
pub use known::Known;
pub use pattern_parts::{PatternParts, SlotRow};
pub use place::Place;
pub use row::{Row, count_leading};
pub use segments::{Segments, Span};
pub use site::Site;
pub use taken::Taken;
pub use tested::Tested;
