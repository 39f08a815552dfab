//! The join node: a pattern joined with the partial matches of the list before it, over tokens.
//!
//! A change is told by what went and came at the list before, and by the fact that came to the pattern's alpha memory or went from
//! it. What goes on from what is gone, and what has the fact that is gone, is found by number. The fact that came is joined with the
//! partial matches that were there before and have its values, and what came before the pattern with all facts of its values. So
//! nothing is joined that isn't new.
//!
//! A pattern that is decided by values isn't tested where it is known which variables have values before it: partial matches and facts
//! that meet by the values of the join's fields are joined, after comparisons, in the only way that there is.
//!
//! `docs/ARCHITECTURE.md` says where it belongs.
#![tactic(auto)]

mod by_values; // how a pattern that is decided by values is joined
mod filed; // partial matches, and facts, by the values that they are joined on
mod joining; // partial matches joined with facts
mod known_values; // what compared variables have by a partial match
pub mod laws; // laws of what is ready, and of how often a pattern may be tested
mod node; // a change of a join node
mod partials; // the partial matches before a pattern, by the values that they are joined on

pub use by_values::ByValues;
pub use joining::Joining;
pub use node::JoinNode;
