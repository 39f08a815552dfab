//! The keys of the matches of rules, branch by branch: what comes and goes where the facts change, where a rule is added and where one is
//! dropped, and which match a key is of. Rules stand under their numbers, and a change passes over those that it doesn't concern. Only
//! definitions, lemmas on them and laws stand here.
//!
//! `docs/ARCHITECTURE.md` says where it belongs.
#![tactic(auto)]

pub mod laws; // laws of the keys of rules
