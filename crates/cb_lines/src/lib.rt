//! The lines of facts, activations, firings and totals.
//!
//! A crate of its own, since `cb_actions` writes them as things happen, and `cb_session` where commands list them.
#![tactic(auto)]

mod lines; // the lines of facts, activations and firings
mod totals; // the lines of totals

pub use lines::{add_activation_line, add_agenda_line, add_fact_line, add_firing_line};
pub use totals::{Noun, add_total_line};
