//! What is kept of matches, a number for each, found by the rule, the branch and the number of the match.
//!
//! `docs/ARCHITECTURE.md` says where it belongs.
#![tactic(auto)]

mod branches; // the values of the matches of one rule, by their branches
mod match_index; // those of all rules
mod values; // the values of the matches of one branch, by their numbers

pub use match_index::MatchIndex;
