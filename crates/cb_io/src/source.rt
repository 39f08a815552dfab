//! Where bytes come from.
ghost use Rattle.std.specs.Prelude.{◌≡◌, ◌≤◌, ◌<◌, List, ℕ, Option, length, take, IfOk, OnErr};
ghost use Rattle.cb_io.specs.Histories.{PastReads, after_read, after_read_fault};
ghost use Rattle.cb_io.specs.Moved.{Gave, IsAtEnd};

use thiserror::Error;

/// A read failed, and gave no byte.
#[derive(Clone, Copy, Debug, PartialEq, Eq, Error)]
#[error("read failed")]
pub struct ReadFault;

/// Something that gives bytes in order, as standard input or a slice in memory.
pub trait Source {
    // the bytes that it hasn't given yet, or `None` where it doesn't say which
    ghost left: { Self → Option (List ℕ) };

    // the bytes that its reads gave, how many of them reported the end, and how many failed
    ghost reads: { Self → PastReads };

    /// Reads into the front of `buf` and returns how many bytes, at most `buf.len()`. The rest of the
    /// buffer is unspecified.
    ///
    /// 0 for a buffer that isn't empty is the end of the bytes.
    ///
    /// A `ReadFault` may be returned at any time. It moves no byte and raises the count of failures
    /// by one, and no other result changes that count; a later read may succeed.
    fn read(&mut self, buf: &mut [u8]) -> Result<usize, ReadFault>
        ensures within { IfOk result (λ n. n ≤ length buf.old) }
        ensures gave { IfOk result (λ n. Gave (left self.old) (left self.new) (take n buf.new)) }
        ensures end { IfOk result (λ n. n ≡ 0 → 0 < length buf.old → IsAtEnd (left self.new)) }
        ensures noted { IfOk result
            (λ n. reads self.new ≡ after_read (reads self.old) (length buf.old) n (take n buf.new)) }
        ensures err { OnErr result (left self.new ≡ left self.old) }
        ensures err_noted { OnErr result (reads self.new ≡ after_read_fault (reads self.old)) };
}
