//! Matching: matches by their keys, and what keeps them. All of it stands in `cb_matches`, `cb_rete` and `cb_rematch`.
//!
//! `docs/ARCHITECTURE.md` says where it belongs.
#![tactic(auto)]

pub use cb_matches::{Cuts, Delta, Key, MatchParts, Matcher, Part};
pub use cb_rematch::Rematch;
pub use cb_rete::Joins;
