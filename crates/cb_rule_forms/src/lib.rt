//! Rules as they are written: which one forms are, or the first fault.
//!
//! What is wrong with forms as a pattern and which pattern they are are defined apart, over the members of a row
//! (`specs/Members.antt`). `docs/ARCHITECTURE.md` says where it belongs.
#![tactic(auto)]

mod actions; // the actions, with the variables that are known there
mod check; // a check of a constraint
mod declaration; // the salience
mod demand; // what a constraint asks, by its alternatives; a variable that comes first is set apart
mod element; // the condition elements, one by one
pub mod laws; // a slot of a pattern asks for the value of the slot with its name
mod member; // the next member of a row: a wildcard, a connective, or a check with what follows it
mod mentions; // the variables of a left side: which have a value where, and which want one
mod pattern; // a pattern; the slots that it writes
mod relations; // the relations that a rule names, in its patterns and in the asserts of its actions
mod row; // the constraints of a row
mod rule; // `read_rule`, which goes through these in turn
mod sections; // the name, the declaration, the elements and the actions of a rule
mod ways; // the branches of a left side
mod written; // the condition elements as they are written

pub use rule::read_rule;
