//! The program but for its `main`: its words, and the script as they ask. How a script is carried out stands in
//! `cb_script`, and this crate passes that on. It is a crate of its own, since it alone stands on `clap`.
#![tactic(auto)]

mod arguments; // `run_program`: the words that the system has for the program, and the report of how it went
mod places; // the line that says where faults arose
mod program; // `run_words`: the words read, and then `run_once`; refused words leave the script alone
mod reports; // what is reported outside the transcript, with the exit status that goes with it
mod words; // the limits, read from the program's words

pub use arguments::run_program;
pub use cb_script::{Cause, Outcome, Report, StandardInput, StandardOutput, run, run_once};
pub use places::places_line;
pub use program::run_words;
pub use words::read_words;
