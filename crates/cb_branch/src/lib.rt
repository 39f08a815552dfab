//! A branch over tokens: its elements planned as nodes, their patterns in the alpha network, and the lists of tokens that the nodes
//! make, the last of them its matches; what a change of facts does to all of these, node after node.
//!
//! `docs/ARCHITECTURE.md` says where it belongs.
#![tactic(auto)]

mod all_nodes; // a change of all nodes, one after another
mod bound; // the variables to which the elements before give values
mod branch; // a branch
mod by_values; // what a pattern is joined on, by the variables that have values before it
mod clearing; // nodes and lists as they were before anything was found
mod copies; // copies of expressions without an effect
mod entering; // the patterns of nodes, entered in the alpha network
mod filling; // what a filling begins with
mod kinds; // groups of one pattern: how they are kept
pub mod laws; // laws of branches
mod leaving; // the patterns of nodes, taken out of the alpha network again
mod node; // a node of a branch
mod one_node; // a change of one node
mod planning; // the nodes of a branch, by its elements
mod tracing; // what the lists of nodes go on from
mod turning; // a change of all that is kept for a branch

pub use branch::Branch;
