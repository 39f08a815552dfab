//! The test node: of the partial matches of a list those for which a test holds, over tokens.
//!
//! `docs/ARCHITECTURE.md` says where it belongs.
#![tactic(auto)]

mod passing; // what a change does behind a test

pub use passing::change_test;
