//! Bytes in, items out.
//!
//! A script is cut into items while its bytes come ([`Cutter`]), each an atom or a list ([`Form`]) or a fault
//! ([`Fault`]). What `cb_io` has for the bytes themselves goes by this crate's name too, as [`Out`].
//! `docs/ARCHITECTURE.md` says where it belongs.
#![tactic(auto)]

mod byte_kinds; // blank, line end, single, delimiter
mod byte_string; // bytes that a script spells, as a value
mod cut; // what a byte gave
mod cutter; // the cutter: the open part, the limit, and what contracts see
mod fault; // the faults, each with its number and its text
mod form; // forms and items; the symbol that a form is, and the one that a list begins with
mod item_bytes; // the bytes of the open item, and how many line feeds are among them
mod kept_bytes; // bytes in a value where they are few, and else in an allocation
pub mod laws; // laws of texts and their items
mod lex_mode; // what the last piece waits for, as a line end, a quote or an escaped byte
mod lexeme; // what a piece is: a gap, an opening, a closing, or an atom or its fault
mod list; // reading a closed list
mod list_stack; // the lists that are open while a list is read
mod number; // the number that a word spells
mod open_part; // the part that the text so far ends with: its kept bytes and the state after them
mod part; // reading a part: a list or a piece
mod piece; // cutting a piece off a text, and reading it
mod reader; // `read_items`, the plain slow reader of a whole text, by which the definition is tested
mod scan_state; // a mode, and how many lists are open; how far an item stays open in a block
mod string; // the content of a string
mod token; // the atoms
mod word; // the class of a word

pub use byte_string::ByteString;
pub use cb_io::{
    History, MemSink, MemSource, NoMemory, Out, PlannedSink, PlannedSource, ReadFault, ReadStep,
    Sink, Source, WriteFault, WriteStep,
};
pub use cut::Cut;
pub use cutter::Cutter;
pub use fault::Fault;
pub use form::{Form, Item, split_head};
pub use lexeme::Lexeme;
pub use reader::read_items;
pub use token::Token;
