//! Which variables have values in the partial matches of each list of a branch: those of its scope, whatever facts there are; and what
//! that decides of a fact by its values.
//!
//! `docs/ARCHITECTURE.md` says where it belongs.
#![tactic(auto)]

mod compared; // fields of a fact that are compared with variables
pub mod laws; // laws of scopes

pub use compared::{compare_all, compare_both};
