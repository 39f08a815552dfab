//! The alpha network: the alpha memories of the patterns of all rules, and which of them a fact comes to or goes from.
//!
//! A pattern asks for the facts of its relation that have all of its constants at their places. So a fact costs a look-up for each list
//! of places by which patterns for its relation ask, a test for each pattern that is found, and what changes; patterns that ask for
//! other values cost nothing.
//!
//! Patterns that ask the same by constants and lengths have one shape, and share its memory, whichever rules they are of: a fact is tested
//! and kept once for all of them.
//!
//! `docs/ARCHITECTURE.md` says where it belongs.
#![tactic(auto)]

mod asked; // the table of what patterns ask for
mod changing; // the changes of the memories that are found for a fact
mod field_places; // places of fields in a fact
mod filling; // the facts that have a shape
mod last_places; // the places of the nodes that the last change concerned
mod memories; // alpha memories by number
mod network; // the alpha network
mod node_place; // the place of a pattern among the rules
mod spots; // where the patterns for one relation ask for values
mod user; // a node that uses a shape
mod wanted; // what a pattern asks for

pub use network::AlphaNetwork;
pub use node_place::{NodePlace, is_found};
