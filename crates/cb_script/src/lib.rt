//! A whole script from a source to a sink, how it ended, and standard input and output as the two.
//!
//! A crate of its own, since a session reads from no source: who feeds it by `Session::feed` does without this crate.
#![tactic(auto)]

mod outcome; // how a run ended: its exit status, its line on standard error, and where faults arose
mod script; // a whole script from a source to a sink: `run`, and `run_once` for a program that ends with it
mod standard; // standard input as a source, standard output as a sink, and their histories

pub use outcome::{Cause, Outcome, Report};
pub use script::{run, run_once};
pub use standard::{StandardInput, StandardOutput};
