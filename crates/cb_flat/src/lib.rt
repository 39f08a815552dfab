//! The nodes of a branch: that their last list is the matches of the branch, which lists they go on from, how often they test patterns,
//! and which facts concern them. Only definitions, lemmas on them and laws stand here.
//!
//! `docs/ARCHITECTURE.md` says where it belongs.
#![tactic(auto)]

pub mod laws; // laws of the nodes of a branch
