//! The fields of a multifield value.
ghost use Rattle.std.specs.Prelude.{◌≡◌, ◌≤◌, IfOk, length, slice_range};
ghost use Rattle.std.specs.Hash as fed;
ghost use Rattle.std.specs.Hash.{items_Alike};
ghost use Rattle.std.specs.Cmp.Lexicographic.{pointwise, slice_cmp, slice_partial_cmp, lists_equiv, lists_agrees, lists_total, lists_ties, lists_per, lists_po};
ghost use Rattle.cb_facts.specs.contracts.single.SinglePartialEq.TheImpl.Laws as single_partial_eq;
ghost use Rattle.cb_facts.specs.contracts.single.SingleEq.TheImpl.Laws as single_eq;
ghost use Rattle.cb_facts.specs.contracts.single.SinglePartialOrd.TheImpl.Laws as single_partial_ord;
ghost use Rattle.cb_facts.specs.contracts.single.SingleOrd.TheImpl.Laws as single_ord;
ghost use Rattle.cb_facts.specs.contracts.single.SingleHash.TheImpl.Laws as single_hash;

use crate::single::Single;
use cb_forms::NoMemory;
use std::alloc::AllocError;
use std::cmp::Ordering;
use std::fmt;
use std::hash::{Hash, Hasher};
use std::marker::Model;
use std::rc::RcSlice;

/// The fields of a multifield value, of which there may be none: a part of a shared slice, or all of it.
///
/// A clone and a part share the fields. They take no memory, and are refused only where the count of the sharers is full.
/// Two lists of fields compare field by field in order, as Rust compares slices.
///
/// Contracts see the list of its fields.
#[derive(Drop)]
pub struct Multifield {
    shared: RcSlice<Single>,
    start: u32,
    end: u32,
}

impl Model for Multifield {
    ghost use Rattle.std.specs.Prelude.{◌<◌, ◌≤◌, ◌^◌, List, length, slice_range};
    ghost use Rattle.std.specs.Rc.{rc_slice_items};
    ghost use Rattle.cb_facts.specs.declared.single.Single.{Single};

    ghost Value = { List Single };

    ghost view = { λ m. slice_range (rc_slice_items m.shared) m.start m.end };

    ghost invariant = { λ m. (m.start ≤ m.end) × (m.end ≤ length (rc_slice_items m.shared)) × (m.end < 2 ^ 32) };
}

impl Multifield {
    /// These fields, taken over. Growth is refused as `NoMemory`, and so are 2^32 fields or more.
    pub fn from_vec(fields: Vec<Single>) -> Result<Multifield, NoMemory>
        ensures { IfOk result (λ m. m ≡ fields.items) }
    {
        let Ok(end) = u32::try_from(fields.len()) else {
            return Err(NoMemory);
        };
        Ok(Multifield {
            shared: RcSlice::from_vec(fields)?,
            start: 0,
            end,
        })
    }

    /// The fields.
    pub fn as_slice(&self) -> &[Single]
        ensures { result.now ≡ self.now }
    {
        &self.shared.as_slice()[self.start as usize..self.end as usize]
    }

    /// The fields from `from` up to and without `to`, shared. It takes no memory, and is refused as `NoMemory` only where
    /// the count of the sharers is full.
    pub fn part(&self, from: usize, to: usize) -> Result<Multifield, NoMemory>
        requires order { from ≤ to }
        requires within { to ≤ length self.now }
        ensures { IfOk result (λ m. m ≡ slice_range self.now from to) }
    {
        let before = self.start as usize;
        let shared = self.shared.clone()?;
        Ok(Multifield {
            shared,
            start: (before + from) as u32,
            end: (before + to) as u32,
        })
    }
}

impl Clone for Multifield {
    ghost is_clone = { λ m copy. copy ≡ m };

    fn clone(&self) -> Result<Multifield, AllocError> {
        let shared = self.shared.clone()?;
        Ok(Multifield {
            shared,
            start: self.start,
            end: self.end,
        })
    }
}

impl PartialEq for Multifield {
    ghost eq = { pointwise ⟦<Single as PartialEq>⟧.eq };

    ghost laws = { lists_per single_partial_eq.laws-law };

    fn eq(&self, other: &Multifield) -> bool {
        self.as_slice() == other.as_slice()
    }
}

impl Eq for Multifield {
    ghost laws = { lists_equiv single_eq.laws-law };
}

impl PartialOrd for Multifield {
    ghost partial_cmp = { slice_partial_cmp ⟦<Single as PartialOrd>⟧.partial_cmp };

    ghost laws = { lists_po single_partial_ord.laws-law };

    fn partial_cmp(&self, other: &Multifield) -> Option<Ordering> {
        self.as_slice().partial_cmp(other.as_slice())
    }
}

impl Ord for Multifield {
    ghost cmp = { slice_cmp ⟦<Single as Ord>⟧.cmp };

    ghost total = { lists_total single_ord.total-law };

    ghost matches_partial_cmp = { λ x y. lists_agrees single_ord.matches_partial_cmp-law x y };

    ghost matches_eq = { λ x y. lists_ties ⟦<Single as Ord>⟧.cmp single_ord.matches_eq-law x y };

    fn cmp(&self, other: &Multifield) -> Ordering {
        self.as_slice().cmp(other.as_slice())
    }
}

impl Hash for Multifield {
    ghost hash_input = { λ m. fed.slice ⟦<Single as Hash>⟧.hash_input m };

    ghost respects_eq = { (items_Alike (record { fed = single_hash.respects_eq-law })).fed };

    fn hash<H: Hasher>(&self, state: &mut H) {
        self.as_slice().hash(state);
    }
}

impl fmt::Debug for Multifield {
    fn fmt<W: fmt::Write>(&self, f: &mut fmt::Formatter<W>) -> fmt::Result {
        self.as_slice().fmt(f)
    }
}
