//! What functions without an effect return for the values of their arguments, and the value of an expression.
//!
//! A crate of its own, so that what reads expressions needs only what they are. `docs/ARCHITECTURE.md` says where it belongs.
#![tactic(auto)]

mod arguments; // the values of a call by number and types: the only one, the two, an integer, a multifield
mod arithmetic; // what an operation makes of integers from left to right; the absolute value
mod calls; // `apply`: one row for each function
mod comparison; // integers in order; values that equal the first, or differ from it
mod constants; // the symbols TRUE, FALSE and nil, each made once
mod evaluation; // `eval`, over any `Lookup`: one row for each kind of expression
mod joining; // texts joined; none is copied on the way
pub mod laws; // laws of functions and of evaluation
mod logic; // which values are true; `and`, `or` and `not`; which value decides a call
mod multifields; // multifields made, counted, searched and cut; a part shares the fields of the whole
mod numbers; // whether all values are integers, and then their numbers; no list is made of them
mod type_tests; // the type of a value; even and odd

pub use calls::apply;
pub use constants::Constants;
pub use evaluation::eval;
pub use logic::{decides, is_true};
