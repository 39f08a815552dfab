//! Laws about what items and scripts do: each is the contract of a function that does nothing.
//!
//! `docs/ARCHITECTURE.md` says where it belongs.
#![tactic(auto)]

pub mod acting; // what `assert` and `retract` do, with their answers and faults
pub mod asserting; // what is asserted is there, and nothing goes
pub mod firing; // how many firings a run takes, that a rule fires once for one match, and that what is due is one
pub mod items; // an item does what is written: an expression, an `assert`, a `deftemplate`
pub mod modifying; // what a `modify` does, with its answers and faults
pub mod printed; // what is shown reads back as what it is
pub mod reached; // what holds of every state that a script can reach
pub mod retracting; // what is retracted is gone, and nothing else
pub mod running; // items are carried out one after another
