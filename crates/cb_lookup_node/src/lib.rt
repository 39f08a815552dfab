//! A group of one pattern that is looked up, over tokens: it holds for a partial match by whether there is a fact that the partial match sees,
//! by the values that it gives to fields of the pattern, and by what of the fact is compared with them. No pair of the two is kept.
//!
//! Where nothing is compared, or the last field by the order of integers, facts and partial matches are looked up by the values, and in
//! their order. Where more is compared, each partial match keeps one fact that it sees, its witness.
//!
//! `docs/ARCHITECTURE.md` says where it belongs.
#![tactic(auto)]

mod by_witness; // a change, where each partial match keeps a witness
mod filed; // partial matches by the values that they give to fields
mod forms; // by which of the two a pattern is looked up
mod in_order; // a change, where they are looked up by values and their order
mod node; // a change of such a group
mod order; // facts in the order of what is compared
mod parting; // the partial matches between two facts in this order
mod passing; // what it passes on
mod places; // lists of values as places in the order of such lists
mod seeing; // which facts partial matches see
mod sight; // how it is known whether there is a fact
mod turned; // the partial matches that facts turn
mod values; // the values of fields in a fact
mod witnesses; // partial matches, each with a fact that it sees, if there is one

pub use node::LookupNode;
