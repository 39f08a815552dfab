//! The group node: of the partial matches of a list those for which a group holds, over tokens.
//!
//! `docs/ARCHITECTURE.md` says where it belongs.
#![tactic(auto)]

mod descent; // what stands before a group
mod inside; // the tokens inside a group
pub mod laws; // laws of what goes on from a partial match before a group
mod marks; // numbers that are put into groups
mod node; // a change of a group
mod passing; // what a group passes on

pub use descent::outer;
pub use marks::{put_all, remove_all};
pub use node::GroupNode;
