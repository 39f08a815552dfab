//! A group of one pattern that stands alone, over tokens: it holds for all of the partial matches of a list or for none, by whether
//! there are facts.
//!
//! `docs/ARCHITECTURE.md` says where it belongs.
#![tactic(auto)]

mod node; // a change of such a group
mod passing; // what it passes on

pub use node::LoneNode;
