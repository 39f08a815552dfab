//! A sink over memory.
ghost use Rattle.std.specs.Prelude.{◌≡◌, ◌↔◌, ◌<◌, [], length, min, IsErr, IsOk, IfOk, OnErr};
ghost use Rattle.cb_io.specs.Countdown.{IsDue};
ghost use Rattle.cb_io.specs.MemSink.{store_after_write, store_after_fault};

use crate::countdown::Countdown;
use crate::history::History;
use crate::no_memory::NoMemory;
use crate::sink::{Sink, WriteFault};
use std::alloc::Global;
use std::marker::Model;

/// Keeps the bytes that it takes in memory that was reserved at the start, takes them in pieces, and
/// fails at one chosen write: for tests.
#[derive(Drop)]
pub struct MemSink {
    bytes: Vec<u8>,
    room: usize,
    chunk: usize,
    countdown: Countdown,
    failed: History<()>,
}

impl Model for MemSink {
    ghost use Rattle.std.specs.Prelude.{◌≤◌, ◌+◌, length, vec_capacity};
    ghost use Rattle.cb_io.specs.MemSink.{Store};

    ghost Value = { Store };

    ghost view = { λ s. record {
      bytes = s.bytes.items;
      room = s.room;
      chunk = s.chunk;
      fails_in = s.countdown;
      failures = length s.failed.items;
    } };

    ghost invariant = { λ s. length s.bytes.items + s.room ≤ vec_capacity s.bytes };
}

impl MemSink {
    /// A sink that takes `room` bytes in all, at most `chunk` of them a write. The `fail_at`-th write,
    /// counted from 1, fails; with `None`, and with `Some(0)`, none does.
    ///
    /// `NoMemory` comes where the room can't be reserved. No later call takes memory.
    pub fn new(
        alloc: Global,
        room: usize,
        chunk: usize,
        fail_at: Option<u64>,
    ) -> Result<MemSink, NoMemory>
        ensures ok { IfOk result (λ s. s ≡ record {
          bytes = [];
          room = room;
          chunk = chunk;
          fails_in = fail_at;
          failures = 0;
        }) }
        ensures succeeds { room ≡ 0 → IsOk result }
    {
        Ok(MemSink {
            bytes: Vec::with_capacity(alloc, room)?,
            room,
            chunk,
            countdown: Countdown::new(fail_at),
            failed: History::new(),
        })
    }

    /// All bytes that it took, the first one first.
    pub fn bytes(&self) -> &[u8]
        ensures { result.now ≡ self.now.bytes }
    {
        self.bytes.as_slice()
    }
}

impl Sink for MemSink {
    ghost writes = { λ s. record { bytes = s.bytes; failures = s.failures } };

    /// Takes as many bytes as the chunk and the room allow. It answers an error at the chosen write
    /// alone; with no room left it answers 0, which counts as a failure where the slice isn't empty.
    fn write(&mut self, bytes: &[u8]) -> Result<usize, WriteFault>
        // When it answers an error, how many bytes it takes, and what it is then. All that the trait
        // ensures follows.
        ensures fails { IsErr result ↔ IsDue self.old.fails_in }
        ensures moved { IfOk result
            (λ n. n ≡ min (length bytes.now) (min self.old.chunk self.old.room)) }
        ensures written { IfOk result
            (λ n. 0 < n → self.new ≡ store_after_write self.old bytes.now n) }
        ensures stuck { IfOk result
            (λ n. n ≡ 0 → 0 < length bytes.now → self.new ≡ store_after_fault self.old) }
        ensures empty { IfOk result
            (λ n. bytes.now ≡ [] → self.new ≡ store_after_write self.old [] n) }
        ensures fault { OnErr result (self.new ≡ store_after_fault self.old) }
    {
        if self.countdown.call() {
            self.failed = self.failed.and(&());
            return Err(WriteFault);
        }
        let n = bytes.len().min(self.chunk).min(self.room);
        if n == 0 && !bytes.is_empty() {
            self.failed = self.failed.and(&());
            return Ok(0);
        }
        match self.bytes.extend_from_slice(&bytes[..n]) {
            Ok(()) => {
                self.room -= n;
                Ok(n)
            }
            Err(_) => Err(WriteFault),
        }
    }
}
