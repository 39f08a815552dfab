//! A beta memory: the partial matches of one list as tokens, each of which names the token that it goes on from and what it took.
//!
//! A token has a number. It stands for what the token of its parent stands for, in a list before, and what it took there besides:
//! so a partial match takes the memory of its last part alone, and all that goes on from a token that goes is found by its number.
//!
//! `docs/ARCHITECTURE.md` says where it belongs.
#![tactic(auto)]

mod filing; // tokens among those that they are found by
mod given; // what a token gives variables
mod marks; // marks of variables
mod memory; // the tokens of a list of partial matches
mod taken_fields; // the fields of a fact that give variables their values
mod token; // a token

pub use given::{Given, Gives};
pub use marks::Sought;
pub use memory::BetaMemory;
pub use taken_fields::TakenFields;
pub use token::{Taken, Token};
