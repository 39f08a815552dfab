//! Where bytes go.
ghost use Rattle.std.specs.Prelude.{◌≡◌, ◌≤◌, length, take, IfOk, OnErr};
ghost use Rattle.cb_io.specs.Histories.{PastWrites, after_write, after_write_fault};

use thiserror::Error;

/// A write failed: the sink refused, or took nothing where there was something to take.
#[derive(Clone, Copy, Debug, PartialEq, Eq, Error)]
#[error("write failed")]
pub struct WriteFault;

/// Something that takes bytes in order, as standard output or a buffer in memory.
pub trait Sink {
    // the bytes that its writes took, and how many of them failed; to take nothing of a slice that isn't empty is a failure
    ghost writes: { Self → PastWrites };

    /// Takes a beginning of the slice, and returns how many bytes that is: often fewer than all.
    ///
    /// A `WriteFault` may be returned at any time. It moves no byte and raises the count of failures
    /// by one, as the result 0 does for a slice that isn't empty; no other result changes that count. A
    /// later write may succeed.
    fn write(&mut self, bytes: &[u8]) -> Result<usize, WriteFault>
        ensures within { IfOk result (λ n. n ≤ length bytes.now) }
        ensures noted { IfOk result
            (λ n. writes self.new ≡ after_write (writes self.old) (length bytes.now) n (take n bytes.now)) }
        ensures err_noted { OnErr result (writes self.new ≡ after_write_fault (writes self.old)) };
}
