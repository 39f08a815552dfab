//! A change of all lists of tokens of a branch, one after another: what holds between changes, and what one list may rely on while
//! the next are still to come. Only definitions, lemmas on them and laws stand here.
//!
//! `docs/ARCHITECTURE.md` says where it belongs.
#![tactic(auto)]

pub mod laws; // laws of a change of all lists
