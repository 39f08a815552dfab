//! Values that are kept for matches, each found by the key and the number of its match.
//!
//! `docs/ARCHITECTURE.md` says where it belongs.
#![tactic(auto)]

mod filing; // where the place of an entry is noted
mod match_table; // the table: its entries by their places

pub use match_table::{Entry, MatchTable};
