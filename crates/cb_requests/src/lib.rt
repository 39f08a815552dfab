//! What the items of a script ask for: constructs, commands and expressions as they are read, or their first faults.
//!
//! `docs/ARCHITECTURE.md` says where it belongs.
#![tactic(auto)]

mod arguments; // what commands take: nothing, an expression or none, a word
mod construct; // constructs
mod context; // what there is where an item is read; which relations are in use
mod fact_list; // the facts of a `deffacts`
mod global_list; // the globals of a `defglobal`, each of which may name those before it
pub mod laws; // a law of the globals of a `defglobal`
mod request; // what an item asks for, or its first fault; commands, a row each
mod top_expr; // expressions at the top level, where a variable is known that the form binds

pub use context::Context;
pub use request::{Request, read_request};
