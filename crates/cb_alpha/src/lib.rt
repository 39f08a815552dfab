//! Alpha memories: the facts that could fit a pattern, found by the values that patterns are joined on.
//!
//! Patterns that are equal but for their variables share one alpha memory. What stands before a pattern is found by the same values,
//! in `Buckets` of the pattern's own.
//!
//! Where values are kept in their order, the least and the greatest values are found quickly too that a member, or a fact in the fields
//! of a join, has from some values on and before others; and the members with values between.
//!
//! `docs/ARCHITECTURE.md` says where it belongs.
#![tactic(auto)]

mod all_buckets; // what stands from one list of values on, before another, by going through all buckets
mod alpha_memory; // the facts that could fit a pattern
mod buckets; // members by the values that they are joined on
mod candidate; // a fact with its index
mod candidates; // the facts of an alpha memory by number and by index
mod fact_numbers; // the numbers of facts by their indices
mod fact_values; // the values of join fields in a fact
mod join_index; // the facts of an alpha memory by the values of join fields
mod join_values; // values that facts and partial matches are joined on
pub mod laws; // laws of what a change does to an alpha memory
mod numbering; // the numbers of buckets
mod value_ranges; // what stands from one list of values on, before another, where they are kept in order
mod variable_values; // the values of the variables of join fields

pub use alpha_memory::AlphaMemory;
pub use buckets::Buckets;
pub use candidate::Candidate;
pub use fact_values::values_of_fact;
pub use join_values::JoinValues;
pub use variable_values::values_of_variables;
