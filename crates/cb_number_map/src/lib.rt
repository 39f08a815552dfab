//! A map from numbers to numbers.
//!
//! `docs/ARCHITECTURE.md` says where it belongs.
#![tactic(auto)]

mod mixes; // numbers by which other things are filed
mod number_map; // the map: a table, and an ordered map for what finds no room in it
mod slots; // the slots of a table, and where a key stands
mod table; // the table, in which each key stands where a look-up finds it

pub use mixes::{key_of, mixed};
pub use number_map::NumberMap;
