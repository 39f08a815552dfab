//! Expressions with effects, carried out: what is done to a state and written, one act after another, and how it ends.
//!
//! `docs/ARCHITECTURE.md` says where it belongs.
#![tactic(auto)]

mod act; // how an item ends before it is done, at which limit, and why a call breaks off
mod carry; // `World::carry_out`, and what it calls in turn: all that is recursive
mod change; // a fact asserted, and what is told of a change
mod commands; // what the commands on rules do
mod deffacts; // the facts of each `deffacts`, asserted
mod define; // rules defined and dropped
mod globals; // globals defined, all or none of them, and evaluated anew
pub mod laws; // laws of carrying out expressions
mod modify; // facts that are modified
mod numbers; // the numbers that were given last
mod perform; // what a call with an effect does with the values of its arguments: one arm for each effect
mod print; // what printed values put
mod rescheduled; // what a change does to the agenda, and the lines of it
mod restart; // all facts dropped, or everything
mod retract; // facts retracted, one change after another
mod rules; // the rule of a name, and the saliences of keys
mod run; // rules that fire
mod watched; // what is watched
mod world; // what actions see and change, and what each kind of action does with its values

pub use act::{Break, EarlyEnd, Limit};
pub use numbers::Numbers;
pub use print::{put_printed, put_values};
pub use watched::Watched;
pub use world::World;
