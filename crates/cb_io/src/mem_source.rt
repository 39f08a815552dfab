//! A source over memory.
ghost use Rattle.std.specs.Prelude.{◌≡◌, ◌↔◌, ◌≤◌, ◌<◌, ◌++◌, Some, length, min, take, drop, IsErr, IfOk, OnErr};
ghost use Rattle.cb_io.specs.Histories.{after_read, after_read_fault, no_reads};
ghost use Rattle.cb_io.specs.Moved.{Gave, IsAtEnd};
ghost use Rattle.cb_io.specs.Countdown.{IsDue};
ghost use Rattle.cb_io.specs.MemSource.{supply_after_read, supply_after_fault};

use crate::countdown::Countdown;
use crate::histories::ReadHistory;
use crate::source::{ReadFault, Source};
use std::marker::Model;

/// Gives the bytes of a slice in pieces, and fails at one chosen read: for tests, and for scripts that
/// stand in memory.
#[derive(Drop)]
pub struct MemSource<'a> {
    left: &'a [u8],
    chunk: usize,
    countdown: Countdown,
    history: ReadHistory,
}

impl<'a> Model for MemSource<'a> {
    ghost use Rattle.std.specs.Prelude.{◌<◌};
    ghost use Rattle.cb_io.specs.MemSource.{Supply};

    ghost Value = { Supply };

    ghost view = { λ s. record {
      left = s.left.now;
      chunk = s.chunk;
      fails_in = s.countdown;
      reads = s.history;
    } };

    ghost invariant = { λ s. 0 < s.chunk };
}

impl<'a> MemSource<'a> {
    /// Gives these bytes, at most `chunk` of them a read, which is at least 1. The `fail_at`-th read, counted from 1,
    /// fails; with `None`, and with `Some(0)`, none does.
    pub fn new(bytes: &'a [u8], chunk: usize, fail_at: Option<u64>) -> MemSource<'a>
        requires { 0 < chunk }
        ensures { result
            ≡ record { left = bytes.now; chunk = chunk; fails_in = fail_at; reads = no_reads } }
    {
        MemSource {
            left: bytes,
            chunk,
            countdown: Countdown::new(fail_at),
            history: ReadHistory::new(),
        }
    }
}

impl Source for MemSource<'_> {
    ghost left = { λ s. Some s.left };

    ghost reads = { λ s. s.reads };

    /// Gives as many bytes as there are left and as the buffer and the chunk have room for. It fails at
    /// the chosen read alone.
    fn read(&mut self, buf: &mut [u8]) -> Result<usize, ReadFault>
        ensures within { IfOk result (λ n. n ≤ length buf.old) }
        ensures gave { IfOk result
            (λ n. Gave (Some self.old.left) (Some self.new.left) (take n buf.new)) }
        ensures end { IfOk result (λ n. n ≡ 0 → 0 < length buf.old → IsAtEnd (Some self.new.left)) }
        ensures noted { IfOk result
            (λ n. self.new.reads ≡ after_read self.old.reads (length buf.old) n (take n buf.new)) }
        ensures err { OnErr result (Some self.new.left ≡ Some self.old.left) }
        ensures err_noted { OnErr result (self.new.reads ≡ after_read_fault self.old.reads) }

        // When it fails, how many bytes it gives, and what it and the buffer are then.
        ensures fails { IsErr result ↔ IsDue self.old.fails_in }
        ensures moved { IfOk result
            (λ n. n ≡ min (length buf.old) (min self.old.chunk (length self.old.left))) }
        ensures buffer { IfOk result (λ n. buf.new ≡ take n self.old.left ++ drop n buf.old) }
        ensures read { IfOk result (λ n. self.new ≡ supply_after_read self.old (length buf.old) n) }
        ensures fault { OnErr result (self.new ≡ supply_after_fault self.old) }
    {
        if self.countdown.call() {
            self.history.failed();
            return Err(ReadFault);
        }
        let n = buf.len().min(self.chunk).min(self.left.len());
        let (given, rest) = self.left.split_at(n);
        buf[..n].copy_from_slice(given);
        self.left = rest;
        self.history.read(buf.len(), given);
        Ok(n)
    }
}
