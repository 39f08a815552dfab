//! What the reads of a source gave and what the writes of a sink took.
ghost use Rattle.std.specs.Prelude.{◌≡◌, ◌++◌, length};
ghost use Rattle.cb_io.specs.Histories.{after_read, after_read_fault, after_write, after_write_fault, no_reads, no_writes};

use crate::history::History;
use std::marker::Model;

/// What the reads of a source gave, for contracts alone: it takes no bytes at run time.
///
/// Contracts see the bytes, how many reads reported the end, and how many failed. A source that notes each of its reads
/// here after it was made says by that which bytes a script had.
#[derive(Drop)]
pub struct ReadHistory {
    bytes: History<u8>,
    ends: History<()>,
    failures: History<()>,
}

impl Model for ReadHistory {
    ghost use Rattle.std.specs.Prelude.{length};
    ghost use Rattle.cb_io.specs.Histories.{PastReads};

    ghost Value = { PastReads };

    ghost view = { λ h. record {
      bytes = h.bytes.items;
      ends = length h.ends.items;
      failures = length h.failures.items;
    } };
}

impl ReadHistory {
    /// No read was made.
    pub fn new() -> ReadHistory
        ensures { result ≡ no_reads }
    {
        ReadHistory {
            bytes: History::new(),
            ends: History::new(),
            failures: History::new(),
        }
    }

    /// A read gave these bytes, into a buffer that has room for so many.
    pub fn read(&mut self, room: usize, bytes: &[u8])
        ensures { self.new ≡ after_read self.old room (length bytes.now) bytes.now }
    {
        self.bytes = with_all(&self.bytes, bytes);
        if bytes.is_empty() && room > 0 {
            self.ends = self.ends.and(&());
        }
    }

    /// A read failed.
    pub fn failed(&mut self)
        ensures { self.new ≡ after_read_fault self.old }
    {
        self.failures = self.failures.and(&());
    }
}

/// What the writes of a sink took, for contracts alone: it takes no bytes at run time.
///
/// Contracts see the bytes, and how many writes failed.
#[derive(Drop)]
pub struct WriteHistory {
    bytes: History<u8>,
    failures: History<()>,
}

impl Model for WriteHistory {
    ghost use Rattle.std.specs.Prelude.{length};
    ghost use Rattle.cb_io.specs.Histories.{PastWrites};

    ghost Value = { PastWrites };

    ghost view = { λ h. record { bytes = h.bytes.items; failures = length h.failures.items } };
}

impl WriteHistory {
    /// No write was made.
    pub fn new() -> WriteHistory
        ensures { result ≡ no_writes }
    {
        WriteHistory {
            bytes: History::new(),
            failures: History::new(),
        }
    }

    /// A write took these bytes, where so many were offered.
    pub fn wrote(&mut self, offered: usize, bytes: &[u8])
        ensures { self.new ≡ after_write self.old offered (length bytes.now) bytes.now }
    {
        self.bytes = with_all(&self.bytes, bytes);
        if bytes.is_empty() && offered > 0 {
            self.failures = self.failures.and(&());
        }
    }

    /// A write failed.
    pub fn failed(&mut self)
        ensures { self.new ≡ after_write_fault self.old }
    {
        self.failures = self.failures.and(&());
    }
}

/// These bytes, after those of the history.
pub fn with_all(history: &History<u8>, bytes: &[u8]) -> History<u8>
    ensures { result.items ≡ history.now.items ++ bytes.now }
{
    let mut all = history.again();
    for byte in bytes {
        all = all.and(byte);
    }
    all
}
