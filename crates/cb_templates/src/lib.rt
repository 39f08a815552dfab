//! Templates: how they are written, and the facts that are made by them.
//!
//! `docs/ARCHITECTURE.md` says where it belongs.
#![tactic(auto)]

mod attribute; // the attributes of a slot as they are written, or the fault there
mod build; // a fact from the values that it is given, or its fault
mod comment; // what follows the comment of a construct
pub mod laws; // laws of templates and their facts
mod parts; // what a fact is given: the values of its fields, or of its slots, each found by its name
mod relations; // the relations that have a template; a template as it is written
mod slot; // a slot: its name, its types, its default
mod slot_form; // the slots as they are written, or the fault there; the default that follows from the types
mod slot_type; // the types that a slot may name
mod template; // a template: its slots in their order, each found by its name, and its place

pub use attribute::SlotDefault;
pub use build::{build_fact, build_slots, change_fact};
pub use comment::without_comment;
pub use parts::{GivenSlot, GivenSlots, Parts, find_given};
pub use relations::{Relations, read_template};
pub use slot::{Slot, find_slot};
pub use slot_type::SlotType;
pub use template::Template;
