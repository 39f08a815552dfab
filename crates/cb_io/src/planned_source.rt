//! A source over memory whose reads go by a plan.
ghost use Rattle.std.specs.Prelude.{◌≡◌, ◌↔◌, ◌≤◌, ◌<◌, ◌++◌, Some, length, min, take, drop, IsErr, IfOk, OnErr};
ghost use Rattle.cb_io.specs.Histories.{after_read, after_read_fault, no_reads};
ghost use Rattle.cb_io.specs.Moved.{Gave, IsAtEnd};
ghost use Rattle.cb_io.specs.PlannedSource.{IsToFail, bytes_planned, planned_after_fault, planned_after_read};

use crate::histories::ReadHistory;
use crate::source::{ReadFault, Source};
use std::marker::Model;

/// What one read of a [`PlannedSource`] does.
#[derive(Clone, Copy, Debug, PartialEq, Eq)]
pub enum ReadStep {
    /// It gives at most so many bytes; 0 stands for 1.
    Take(usize),
    /// It fails.
    Fail,
}

/// Gives the bytes of a slice by a plan, which has a step for each read: for tests. After the plan each read gives all that it can.
#[derive(Drop)]
pub struct PlannedSource<'a> {
    left: &'a [u8],
    plan: &'a [ReadStep],
    history: ReadHistory,
}

impl<'a> Model for PlannedSource<'a> {
    ghost use Rattle.cb_io.specs.PlannedSource.{PlannedReads};

    ghost Value = { PlannedReads };

    ghost view = { λ s. record { left = s.left.now; plan = s.plan.now; reads = s.history } };
}

impl<'a> PlannedSource<'a> {
    /// Gives these bytes by this plan.
    pub fn new(bytes: &'a [u8], plan: &'a [ReadStep]) -> PlannedSource<'a>
        ensures { result ≡ record { left = bytes.now; plan = plan.now; reads = no_reads } }
    {
        PlannedSource {
            left: bytes,
            plan,
            history: ReadHistory::new(),
        }
    }
}

impl Source for PlannedSource<'_> {
    ghost left = { λ s. Some s.left };

    ghost reads = { λ s. s.reads };

    /// Does the next step of the plan. No read gives more bytes than there are left and than the buffer has room for.
    fn read(&mut self, buf: &mut [u8]) -> Result<usize, ReadFault>
        ensures within { IfOk result (λ n. n ≤ length buf.old) }
        ensures gave { IfOk result
            (λ n. Gave (Some self.old.left) (Some self.new.left) (take n buf.new)) }
        ensures end { IfOk result (λ n. n ≡ 0 → 0 < length buf.old → IsAtEnd (Some self.new.left)) }
        ensures noted { IfOk result
            (λ n. self.new.reads ≡ after_read self.old.reads (length buf.old) n (take n buf.new)) }
        ensures err { OnErr result (Some self.new.left ≡ Some self.old.left) }
        ensures err_noted { OnErr result (self.new.reads ≡ after_read_fault self.old.reads) }

        // When it fails, how many bytes it gives, and what it and the buffer are then.
        ensures fails { IsErr result ↔ IsToFail self.old.plan }
        ensures moved { IfOk result
            (λ n. n ≡ bytes_planned self.old.plan (min (length buf.old) (length self.old.left))) }
        ensures buffer { IfOk result (λ n. buf.new ≡ take n self.old.left ++ drop n buf.old) }
        ensures read { IfOk result (λ n. self.new ≡ planned_after_read self.old (length buf.old) n) }
        ensures fault { OnErr result (self.new ≡ planned_after_fault self.old) }
    {
        let mut n = buf.len().min(self.left.len());
        if let Some((step, plan)) = self.plan.split_first() {
            self.plan = plan;
            match step {
                ReadStep::Take(most) => n = n.min((*most).max(1)),
                ReadStep::Fail => {
                    self.history.failed();
                    return Err(ReadFault);
                }
            }
        }
        let (given, rest) = self.left.split_at(n);
        buf[..n].copy_from_slice(given);
        self.left = rest;
        self.history.read(buf.len(), given);
        Ok(n)
    }
}
