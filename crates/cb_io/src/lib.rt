//! Where the bytes of clipsbatch come from and where they go.
//!
//! Bytes come from a [`Source`] and go to a [`Sink`], through [`Out`]. `docs/ARCHITECTURE.md` says where it
//! belongs.
#![tactic(auto)]

mod countdown; // a count of calls, for a source or a sink that fails at a chosen one
mod histories; // what reads gave and writes took, for contracts alone
mod history; // a list that only contracts read, with no bytes at run time
pub mod laws; // laws of calls that put bytes
mod mem_sink; // a sink over memory
mod mem_source; // a source over memory
mod no_memory; // what is returned where a growth was refused
mod output; // `Out`, the one way for output
mod planned_sink; // a sink over memory that takes bytes by a plan
mod planned_source; // a source over memory that gives bytes by a plan
mod putting; // bytes and texts put into the output, or why the script can't go on
mod sink; // the trait of what takes bytes, with its history as a ghost member
mod source; // the trait of what gives bytes, with its history as a ghost member
mod stop; // why a script could not be carried out further: memory was refused, or a write failed

pub use histories::{ReadHistory, WriteHistory, with_all};
pub use history::History;
pub use mem_sink::MemSink;
pub use mem_source::MemSource;
pub use no_memory::NoMemory;
pub use output::Out;
pub use planned_sink::{PlannedSink, WriteStep};
pub use planned_source::{PlannedSource, ReadStep};
pub use putting::{put, put_text};
pub use sink::{Sink, WriteFault};
pub use source::{ReadFault, Source};
pub use stop::Stop;
