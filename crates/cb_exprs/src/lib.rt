//! What expressions are, and what the variables of a script have.
//!
//! `docs/ARCHITECTURE.md` says where it belongs.
#![tactic(auto)]

mod assignment; // names, each with its value: few in frames, and many in a tree
mod channel; // where `printout` prints
mod effect; // what a call with an effect does
mod env; // the values of variables and of global variables
mod expr; // an expression, as it was read
mod fact_expr; // a fact that was read: its shape and its expressions
mod fact_shape; // what is known of a fact before its values are: its relation, and the names of its slots
mod frames; // names, each with its value, in frames that are shared
mod global_expr; // a global that was read: its name and its initial expression
pub mod laws; // laws of expressions as terms, and of the values that names have
mod lookup; // the trait `Lookup`: what says which values variables have; an `Env` is one
mod modified_slots; // the slots that a `modify` names, each with the number of its expressions
mod tree; // a balanced search tree of names, each with its value, whose nodes are shared
mod values; // many names, each with its value, in a tree of `tree.rt`

pub use channel::Channel;
pub use effect::Effect;
pub use env::Env;
pub use expr::Expr;
pub use fact_expr::FactExpr;
pub use fact_shape::FactShape;
pub use global_expr::GlobalExpr;
pub use lookup::Lookup;
pub use modified_slots::{ModifiedSlot, ModifiedSlots};
