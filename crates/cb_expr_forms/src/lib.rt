//! Expressions and facts as they are written: which one a form is, or its first fault.
//!
//! What a form is (`specs/ExprForms.antt`) and what is wrong with it (`specs/ExprFaults.antt`) are defined apart.
//! `docs/ARCHITECTURE.md` says where it belongs.
#![tactic(auto)]

mod action_form; // a call with an effect, split into what of it is read next
mod bound; // the variables that a `bind` in a form, or in several, names
mod build; // expressions, built of their parts once these are read
mod call_form; // any call, split into its word, whether an effect may stand there, and its arguments
mod expr_form; // `read_expr`, `read_exprs` and `read_fact`: reading, by recursion over the forms
pub mod laws; // laws of expressions and facts as they are written
mod name_list; // names in order, each found in logarithmic time
mod scope; // where an expression stands, and what is allowed and known there
mod slot_changes; // the slots that a `modify` names, with their expressions
mod slot_form; // a fact and its slots, split into what of them is read next
mod slot_values; // the slots that a fact gives so far, and the value of each
mod token_form; // an atom as an expression, and the names of variables that are known
mod value_form; // what is checked of a field of an ordered fact, or of a value of a slot
mod variables; // whether each variable of an expression is among some names
mod words; // symbols among forms, and the channels of `printout`

pub use bound::{bound_in_all, bound_variables};
pub use expr_form::{read_boxed, read_expr, read_exprs, read_fact};
pub use name_list::NameList;
pub use scope::{Scope, Side};
pub use variables::knows_all;
pub use words::{begins_with_list, is_symbol};
