//! Lists of tokens as lists of partial matches: what a token stands for is found by going down the lists from which it goes on.
//!
//! `docs/ARCHITECTURE.md` says where it belongs.
#![tactic(auto)]

mod binding; // what variables have after a way
mod comparing; // whether a partial match has these parts
mod giving; // which value a way gives a variable
mod known; // what variables have where a test is, read when it asks for them
pub mod laws; // laws of lists of tokens
mod parts; // the parts of a path
mod path; // what is taken on the way down from a token
mod reading; // what variables have by a token, and its parts
mod source; // what a list goes on from
mod testing; // whether a test holds
mod variables; // what a variable has by a token

pub use known::{Grown, Reading};
pub use reading::TokenLists;
pub use source::Source;
