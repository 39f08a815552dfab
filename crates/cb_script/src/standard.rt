//! Standard input and standard output. Contracts don't know what bytes the system has for them, but which bytes the reads gave and
//! the writes took: each is noted right after the system's own call, in the few lines below, which a reader checks by eye.
ghost use Rattle.std.specs.Prelude.{◌≡◌, None};
ghost use Rattle.cb_io.specs.Histories.{no_reads, no_writes};

use cb_io::{ReadFault, ReadHistory, Sink, Source, WriteFault, WriteHistory};
use std::io::{Read, Stdin, Stdout, Write};

/// Standard input as a source. It doesn't say which bytes it has left.
#[derive(Drop)]
pub struct StandardInput {
    stdin: Stdin,
    history: ReadHistory,
}

impl StandardInput {
    /// Reads from this handle; no read was made.
    pub fn new(stdin: Stdin) -> StandardInput
        ensures left { ⟦<StandardInput as Source>⟧.left result ≡ None }
        ensures reads { ⟦<StandardInput as Source>⟧.reads result ≡ no_reads }
    {
        StandardInput {
            stdin,
            history: ReadHistory::new(),
        }
    }
}

impl Source for StandardInput {
    ghost left = { λ _. None };

    ghost reads = { λ s. s.history };

    fn read(&mut self, buf: &mut [u8]) -> Result<usize, ReadFault> {
        match self.stdin.read(buf) {
            Ok(n) => {
                self.history.read(buf.len(), &buf[..n]);
                Ok(n)
            }
            Err(_) => {
                self.history.failed();
                Err(ReadFault)
            }
        }
    }
}

/// Standard output as a sink.
#[derive(Drop)]
pub struct StandardOutput {
    stdout: Stdout,
    history: WriteHistory,
}

impl StandardOutput {
    /// Writes to this handle; no write was made.
    pub fn new(stdout: Stdout) -> StandardOutput
        ensures { ⟦<StandardOutput as Sink>⟧.writes result ≡ no_writes }
    {
        StandardOutput {
            stdout,
            history: WriteHistory::new(),
        }
    }
}

impl Sink for StandardOutput {
    ghost writes = { λ s. s.history };

    fn write(&mut self, bytes: &[u8]) -> Result<usize, WriteFault> {
        match self.stdout.write(bytes) {
            Ok(n) => {
                self.history.wrote(bytes.len(), &bytes[..n]);
                Ok(n)
            }
            Err(_) => {
                self.history.failed();
                Err(WriteFault)
            }
        }
    }
}
