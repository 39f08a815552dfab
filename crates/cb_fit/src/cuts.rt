//! The lengths of the segments into which a pattern cuts a fact.
ghost use Rattle.std.specs.Prelude.{◌≡◌, ◌+◌, ◌<◌, ◌^◌, [], IfOk, IfSome, nat_eq, refl};
ghost use Rattle.std.specs.Cmp.{partial_equiv_from_equiv, po};
ghost use Rattle.std.specs.Cmp.Lexicographic.{nat_list_cmp_total, nat_list_eq_equiv, pointwise, slice_cmp, texts_ties};
ghost use Rattle.std.specs.List.{list_all};
ghost use Rattle.std.specs.Ordering.{as_partial_cmp, nat_cmp};
ghost use Rattle.cb_fit.specs.Internal.Lengths.{length_at, lengths_in};

use crate::short_lengths::ShortLengths;
use cb_constraints::Segments;
use cb_forms::NoMemory;
use smallvec::SmallVec;
use std::alloc::{AllocError, Global};
use std::cmp::Ordering;
use std::marker::Model;
use std::rc::Rc;

/// The lengths of the segments into which a pattern cuts a fact, one for each constraint in the order in which they are written.
///
/// Where each is 1, as where no constraint takes a multifield, only their number is kept. That takes no memory, and neither do up to
/// seven lengths of at most 255. Clones share others: a clone takes no memory, and is refused only where the count of sharers is full.
/// They are in the order of the lengths, from left to right. Contracts see the list of the lengths.
#[derive(Drop)]
pub struct Cuts {
    lengths: Lengths,
}

/// Where the lengths are.
#[derive(Drop)]
enum Lengths {
    /// There are so many, and each is 1.
    Ones(u64),
    /// These few, none of which is long.
    Short(ShortLengths),
    /// In a list that clones share. It takes one block where there are up to six.
    Listed(Rc<SmallVec<u64, 6>>),
}

impl Model for Cuts {
    ghost use Rattle.std.specs.Prelude.{List, ℕ};
    ghost use Rattle.cb_fit.specs.Internal.Lengths.{length_at, lengths_in};

    ghost Value = { List ℕ };

    ghost view = { λ c. lengths_in c.lengths };
}

impl Cuts {
    /// No lengths. It takes no memory.
    pub fn none() -> Cuts
        ensures { result ≡ [] }
    {
        Cuts {
            lengths: Lengths::Ones(0),
        }
    }

    /// These lengths, taken over. Growth is refused as `NoMemory`.
    pub fn new(alloc: Global, lengths: Vec<u64>) -> Result<Cuts, NoMemory>
        ensures { IfOk result (λ cuts. cuts ≡ lengths.items) }
    {
        Cuts::listed(alloc, SmallVec::from_vec(lengths))
    }

    /// The same of a list.
    fn listed(alloc: Global, lengths: SmallVec<u64, 6>) -> Result<Cuts, NoMemory>
        ensures { IfOk result (λ cuts. cuts ≡ lengths.items) }
    {
        if are_ones(lengths.as_slice()) {
            return Ok(Cuts {
                lengths: Lengths::Ones(lengths.len() as u64),
            });
        }
        if let Some(short) = ShortLengths::new(lengths.as_slice()) {
            return Ok(Cuts {
                lengths: Lengths::Short(short),
            });
        }
        Ok(Cuts {
            lengths: Lengths::Listed(Rc::new(alloc, lengths)?),
        })
    }

    /// Those of segments that constraints took. Growth is refused as `NoMemory`.
    pub(crate) fn of(alloc: Global, segments: &Segments) -> Result<Cuts, NoMemory>
        ensures { IfOk result (λ cuts. cuts ≡ segments.now) }
    {
        match segments.only_ones() {
            Some(count) => Ok(Cuts {
                lengths: Lengths::Ones(count as u64),
            }),
            None => Cuts::listed(alloc, segments.to_list(alloc)?),
        }
    }

    /// The lengths, from left to right. Growth is refused as `NoMemory`.
    pub fn to_vec(&self, alloc: Global) -> Result<Vec<u64>, NoMemory>
        ensures { IfOk result (λ lengths. lengths.items ≡ self.now) }
    {
        match &self.lengths {
            Lengths::Ones(count) => Ok(Vec::from_elem(alloc, 1, *count as usize)?),
            Lengths::Short(lengths) => lengths.to_vec(alloc),
            Lengths::Listed(lengths) => Ok(lengths.as_slice().to_vec(alloc)?),
        }
    }

    /// A copy where each length is 1, and nothing elsewhere. It takes no memory, and fewer steps than a clone.
    #[inline]
    pub fn copy_of_ones(&self) -> Option<Cuts>
        ensures { IfSome result (λ copy. copy ≡ self.now) }
    {
        match &self.lengths {
            Lengths::Ones(count) => Some(Cuts {
                lengths: Lengths::Ones(*count),
            }),
            _ => None,
        }
    }
}

impl Clone for Cuts {
    ghost is_clone = { λ cuts copy. copy ≡ cuts };

    fn clone(&self) -> Result<Cuts, AllocError> {
        let lengths = match &self.lengths {
            Lengths::Ones(count) => Lengths::Ones(*count),
            Lengths::Short(lengths) => Lengths::Short(lengths.copy()),
            Lengths::Listed(lengths) => Lengths::Listed(lengths.clone()?),
        };
        Ok(Cuts { lengths })
    }
}

impl PartialEq for Cuts {
    ghost eq = { pointwise nat_eq };

    ghost laws = { partial_equiv_from_equiv nat_list_eq_equiv };

    #[inline]
    fn eq(&self, other: &Cuts) -> bool {
        match (&self.lengths, &other.lengths) {
            (Lengths::Ones(count), Lengths::Ones(others)) => *count == *others,
            (lengths, others) => order_of(lengths, others).is_eq(),
        }
    }
}

impl Eq for Cuts {
    ghost laws = { nat_list_eq_equiv };
}

impl PartialOrd for Cuts {
    ghost partial_cmp = { as_partial_cmp (slice_cmp nat_cmp) };

    ghost laws = { po nat_list_cmp_total texts_ties };

    fn partial_cmp(&self, other: &Cuts) -> Option<Ordering> {
        Some(self.cmp(other))
    }
}

impl Ord for Cuts {
    ghost cmp = { slice_cmp nat_cmp };

    ghost total = { nat_list_cmp_total };

    ghost matches_partial_cmp = { λ x y. refl };

    ghost matches_eq = { texts_ties };

    #[inline]
    fn cmp(&self, other: &Cuts) -> Ordering {
        match (&self.lengths, &other.lengths) {
            (Lengths::Ones(count), Lengths::Ones(others)) => count.cmp(others),
            (lengths, others) => order_of(lengths, others),
        }
    }
}

impl Lengths {
    /// The length at a place, if there are so many.
    fn get(&self, at: usize) -> Option<u64>
        ensures length { result ≡ length_at (lengths_in self.now) at }
        ensures next { IfSome result (λ _. at + 1 < 2 ^ 64) }
    {
        match self {
            Lengths::Ones(count) => { if (at as u64) < *count { Some(1) } else { None } }
            Lengths::Short(lengths) => lengths.get(at),
            Lengths::Listed(lengths) => lengths.as_slice().get(at).copied(),
        }
    }
}

/// Whether each length is 1.
fn are_ones(lengths: &[u64]) -> bool
    ensures { result ≡ list_all (nat_eq 1) lengths.now }
{
    for length in lengths {
        if *length != 1 {
            return false;
        }
    }
    true
}

/// The order of lengths. It is apart so that those who compare, mostly lengths of 1, stay short.
#[inline(never)]
fn order_of(lengths: &Lengths, others: &Lengths) -> Ordering
    ensures { result ≡ slice_cmp nat_cmp (lengths_in lengths.now) (lengths_in others.now) }
{
    match (lengths, others) {
        (Lengths::Short(lengths), Lengths::Short(others)) => lengths.cmp(others),
        (lengths, others) => in_turn(lengths, others),
    }
}

/// The order of lengths, by the first place where they differ.
fn in_turn(lengths: &Lengths, others: &Lengths) -> Ordering
    ensures { result ≡ slice_cmp nat_cmp (lengths_in lengths.now) (lengths_in others.now) }
{
    let mut at = 0;
    while let Some(length) = lengths.get(at) {
        let Some(other) = others.get(at) else {
            return Ordering::Greater;
        };
        match length.cmp(&other) {
            Ordering::Equal => at += 1,
            unequal => return unequal,
        }
    }
    match others.get(at) {
        Some(_) => Ordering::Less,
        None => Ordering::Equal,
    }
}
