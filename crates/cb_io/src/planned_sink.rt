//! A sink over memory whose writes go by a plan.
ghost use Rattle.std.specs.Prelude.{◌≡◌, ◌↔◌, ◌≤◌, ◌<◌, [], length, min, take, IsErr, IsOk, IfOk, OnErr};
ghost use Rattle.cb_io.specs.Histories.{after_write, after_write_fault};
ghost use Rattle.cb_io.specs.PlannedSink.{IsToFail, bytes_planned, planned_after_fault, planned_after_write};

use crate::history::History;
use crate::no_memory::NoMemory;
use crate::sink::{Sink, WriteFault};
use std::alloc::Global;
use std::marker::Model;

/// What one write to a [`PlannedSink`] does.
#[derive(Clone, Copy, Debug, PartialEq, Eq)]
pub enum WriteStep {
    /// It takes at most so many bytes; 0 stands for 1.
    Take(usize),
    /// It takes nothing, which counts as a failure where there is something to take.
    Zero,
    /// It fails.
    Fail,
}

/// Keeps the bytes that it takes in memory that was reserved at the start, by a plan, which has a step for each write: for tests.
/// After the plan each write takes all that it can.
#[derive(Drop)]
pub struct PlannedSink<'a> {
    bytes: Vec<u8>,
    room: usize,
    plan: &'a [WriteStep],
    failed: History<()>,
}

impl<'a> Model for PlannedSink<'a> {
    ghost use Rattle.std.specs.Prelude.{◌≤◌, ◌+◌, length, vec_capacity};
    ghost use Rattle.cb_io.specs.PlannedSink.{PlannedWrites};

    ghost Value = { PlannedWrites };

    ghost view = { λ s. record {
      bytes = s.bytes.items;
      room = s.room;
      plan = s.plan.now;
      failures = length s.failed.items;
    } };

    ghost invariant = { λ s. length s.bytes.items + s.room ≤ vec_capacity s.bytes };
}

impl<'a> PlannedSink<'a> {
    /// A sink that takes `room` bytes in all, by this plan.
    ///
    /// `NoMemory` comes where the room can't be reserved. No later call takes memory.
    pub fn new(
        alloc: Global,
        room: usize,
        plan: &'a [WriteStep],
    ) -> Result<PlannedSink<'a>, NoMemory>
        ensures ok { IfOk result
            (λ s. s ≡ record { bytes = []; room = room; plan = plan.now; failures = 0 }) }
        ensures succeeds { room ≡ 0 → IsOk result }
    {
        Ok(PlannedSink {
            bytes: Vec::with_capacity(alloc, room)?,
            room,
            plan,
            failed: History::new(),
        })
    }

    /// All bytes that it took, the first one first.
    pub fn bytes(&self) -> &[u8]
        ensures { result.now ≡ self.now.bytes }
    {
        self.bytes.as_slice()
    }
}

impl Sink for PlannedSink<'_> {
    ghost writes = { λ s. record { bytes = s.bytes; failures = s.failures } };

    /// Does the next step of the plan. No write takes more bytes than the room allows.
    fn write(&mut self, bytes: &[u8]) -> Result<usize, WriteFault>
        ensures within { IfOk result (λ n. n ≤ length bytes.now) }
        ensures noted { IfOk result (λ n. record {
          bytes = self.new.bytes;
          failures = self.new.failures;
        } ≡ after_write (record {
          bytes = self.old.bytes;
          failures = self.old.failures;
        }) (length bytes.now) n (take n bytes.now)) }
        ensures err_noted { OnErr result (record {
          bytes = self.new.bytes;
          failures = self.new.failures;
        } ≡ after_write_fault (record {
          bytes = self.old.bytes;
          failures = self.old.failures;
        })) }

        // When it fails, how many bytes it takes, and what it is then.
        ensures fails { IsErr result ↔ IsToFail self.old.plan }
        ensures moved { IfOk result
            (λ n. n ≡ bytes_planned self.old.plan (min (length bytes.now) self.old.room)) }
        ensures written { IfOk result
            (λ n. 0 < n → self.new ≡ planned_after_write self.old bytes.now n) }
        ensures stuck { IfOk result
            (λ n. n ≡ 0 → 0 < length bytes.now → self.new ≡ planned_after_fault self.old) }
        ensures empty { IfOk result
            (λ n. bytes.now ≡ [] → self.new ≡ planned_after_write self.old [] n) }
        ensures fault { OnErr result (self.new ≡ planned_after_fault self.old) }
    {
        let mut n = bytes.len().min(self.room);
        if let Some((step, plan)) = self.plan.split_first() {
            self.plan = plan;
            match step {
                WriteStep::Take(most) => n = n.min((*most).max(1)),
                WriteStep::Zero => n = 0,
                WriteStep::Fail => {
                    self.failed = self.failed.and(&());
                    return Err(WriteFault);
                }
            }
        }
        if n == 0 && !bytes.is_empty() {
            self.failed = self.failed.and(&());
            return Ok(0);
        }
        match self.bytes.extend_from_slice(&bytes[..n]) {
            Ok(()) => {
                self.room -= n;
                Ok(n)
            }
            Err(_) => Err(WriteFault),
        }
    }
}
