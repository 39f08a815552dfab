//! The end of a branch: its matches told by their keys, in order, and found by them.
//!
//! `docs/ARCHITECTURE.md` says where it belongs.
#![tactic(auto)]

mod branch_end; // the end of a branch
mod finding; // the token of the match with a key
mod telling; // keys told in their order

pub use branch_end::BranchEnd;
