//! A few lengths, none of which is long.
ghost use Rattle.std.specs.Prelude.{◌≡◌, ◌+◌, ◌<◌, ◌^◌, IfOk, IfSome};
ghost use Rattle.std.specs.Cmp.Lexicographic.{slice_cmp};
ghost use Rattle.std.specs.Ordering.{nat_cmp};
ghost use Rattle.cb_fit.specs.Internal.Lengths.{length_at};

use cb_forms::NoMemory;
use std::alloc::Global;
use std::cmp::Ordering;
use std::marker::Model;

/// How many lengths there may be.
const MOST: usize = 7;

/// Up to seven lengths of at most 255. Contracts see the list of them.
#[derive(Drop)]
pub(crate) struct ShortLengths {
    /// How many there are.
    count: u8,
    /// The lengths, from left to right, and zeros behind them.
    each: [u8; 7],
}

impl Model for ShortLengths {
    ghost use Rattle.std.specs.Prelude.{List, take, ℕ};

    ghost Value = { List ℕ };

    ghost view = { λ l. take l.count l.each };
}

impl ShortLengths {
    /// These lengths, if they are few and none is long.
    pub(crate) fn new(lengths: &[u64]) -> Option<ShortLengths>
        ensures { IfSome result (λ short. short ≡ lengths.now) }
    {
        if lengths.len() > MOST {
            return None;
        }
        let mut each = [0; 7];
        for (at, length) in lengths.iter().enumerate() {
            each[at] = u8::try_from(*length).ok()?;
        }
        Some(ShortLengths {
            count: lengths.len() as u8,
            each,
        })
    }

    /// The same lengths. It takes no memory.
    pub(crate) fn copy(&self) -> ShortLengths
        ensures { result ≡ self.now }
    {
        ShortLengths {
            count: self.count,
            each: self.each,
        }
    }

    /// The lengths.
    fn as_slice(&self) -> &[u8]
        ensures { result.now ≡ self.now }
    {
        match self.each.get(..self.count as usize) {
            Some(lengths) => lengths,
            None => self.each.as_slice(),
        }
    }

    /// The length at a place, if there are so many.
    pub(crate) fn get(&self, at: usize) -> Option<u64>
        ensures length { result ≡ length_at self.now at }
        ensures next { IfSome result (λ _. at + 1 < 2 ^ 64) }
    {
        let length = self.as_slice().get(at)?;
        Some(*length as u64)
    }

    /// The lengths, each in 64 bits. Growth is refused as `NoMemory`.
    pub(crate) fn to_vec(&self, alloc: Global) -> Result<Vec<u64>, NoMemory>
        ensures { IfOk result (λ lengths. lengths.items ≡ self.now) }
    {
        let mut lengths = Vec::with_capacity(alloc, self.count as usize)?;
        for length in self.as_slice() {
            lengths.push(*length as u64)?;
        }
        Ok(lengths)
    }

    /// Their order and that of others, by the first place where they differ.
    pub(crate) fn cmp(&self, others: &ShortLengths) -> Ordering
        ensures { result ≡ slice_cmp nat_cmp self.now others.now }
    {
        self.as_slice().cmp(others.as_slice())
    }
}
