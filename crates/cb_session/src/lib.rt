//! Scripts carried out item by item, and their transcripts.
#![tactic(auto)]

mod engine; // what is kept from item to item, and executing an item
pub mod laws; // laws of the transcript and of faults
mod limits; // how far a script may go
mod line; // the lines of faults, of values and of limits
mod listing; // the lists of facts, of activations and of rules, line by line
mod perform; // what each request does
mod places; // where faults arose, and the limit at which the script ended
mod reset; // what `reset` does
mod session; // `Session`, the public face: the cutter, the engine, and the status or the stop that was returned
mod status; // how a script goes on and ends

pub use cb_actions::Numbers;
pub use cb_io::Stop;
pub use cb_knowledge_base::Mark;
pub use limits::Limits;
pub use places::{Place, Places};
pub use session::Session;
pub use status::{Ending, Flow, Status};
