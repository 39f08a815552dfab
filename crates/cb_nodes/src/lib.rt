//! What matchers that keep partial matches speak of: the elements of a branch as nodes, the lists of partial matches that these
//! make, and what a change of the facts does to a list. Only definitions, lemmas on them and laws stand here.
//!
//! `docs/ARCHITECTURE.md` says where it belongs.
#![tactic(auto)]

pub mod laws; // laws of what goes and comes
