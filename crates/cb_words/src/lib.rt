//! The words of the language: what the symbol that a list begins with names.
//!
//! All readers ask the one table here, in `words.rt`; so it is a crate of its own, which stands on no other.
//! `docs/ARCHITECTURE.md` says where it belongs.
#![tactic(auto)]

mod among; // whether a word is one of a list
mod reserved; // the words that are never the relation of a fact
mod watch_item; // what can be watched
mod words; // what a word names, the table of all words, and how many arguments a function takes

pub use among::is_among;
pub use reserved::is_reserved;
pub use watch_item::{WatchItem, read_watch_item};
pub use words::{Action, Arity, Command, Construct, Function, Head, read_head};
