//! What one pattern of a match took.
ghost use Rattle.std.specs.Prelude.{◌≡◌, [], IfSome, refl};
ghost use Rattle.std.specs.Cmp.{partial_equiv_from_equiv, po};
ghost use Rattle.std.specs.Ordering.{as_partial_cmp};
ghost use Rattle.cb_matches.specs.Internal.KeyLaws.{part_equiv, part_tied, part_total};
ghost use Rattle.cb_matches.specs.Keys.{part_cmp, part_eq};

use cb_fit::Cuts;
use std::alloc::AllocError;
use std::cmp::Ordering;
use std::marker::Model;

/// What one pattern of a match took: a fact, cut into segments.
///
/// A clone takes no memory, and is refused only where a count of sharers is full. Contracts see the index and the list of the
/// lengths. Parts are in the order of the indices, and those of one fact in the order of the lengths, from left to right.
#[derive(Drop)]
pub struct Part {
    /// The index of the fact.
    pub index: u64,
    /// The lengths of the segments, one for each constraint in the order in which they are written; for one field it is 1.
    pub cuts: Cuts,
}

impl Model for Part {
    ghost use Rattle.cb_matches.specs.Keys.{PartValue};

    ghost Value = { PartValue };

    ghost view = { λ p. record { index = p.index; cuts = p.cuts } };
}

impl Part {
    /// A part where each length is 1, and nothing elsewhere. It takes no memory, and fewer steps than one with a clone.
    #[inline]
    pub fn of_ones(index: u64, cuts: &Cuts) -> Option<Part>
        ensures { IfSome result (λ part. part ≡ record { index = index; cuts = cuts.now }) }
    {
        let cuts = cuts.copy_of_ones()?;
        Some(Part { index, cuts })
    }

    /// A copy where each length is 1, and nothing elsewhere.
    #[inline]
    pub(crate) fn copy_of_ones(&self) -> Option<Part>
        ensures { IfSome result (λ copy. copy ≡ self.now) }
    {
        Part::of_ones(self.index, &self.cuts)
    }
}

impl Default for Part {
    ghost is_default = { λ part. part ≡ record { index = 0; cuts = [] } };

    fn default() -> Part {
        Part {
            index: 0,
            cuts: Cuts::none(),
        }
    }
}

impl Clone for Part {
    ghost is_clone = { λ part copy. copy ≡ part };

    fn clone(&self) -> Result<Part, AllocError> {
        let cuts = self.cuts.clone()?;
        Ok(Part {
            index: self.index,
            cuts,
        })
    }
}

impl PartialEq for Part {
    ghost eq = { part_eq };

    ghost laws = { partial_equiv_from_equiv part_equiv };

    #[inline]
    fn eq(&self, other: &Part) -> bool {
        self.index == other.index && self.cuts == other.cuts
    }
}

impl Eq for Part {
    ghost laws = { part_equiv };
}

impl PartialOrd for Part {
    ghost partial_cmp = { as_partial_cmp part_cmp };

    ghost laws = { po part_total part_tied };

    fn partial_cmp(&self, other: &Part) -> Option<Ordering> {
        Some(self.cmp(other))
    }
}

impl Ord for Part {
    ghost cmp = { part_cmp };

    ghost total = { part_total };

    ghost matches_partial_cmp = { λ x y. refl };

    ghost matches_eq = { part_tied };

    #[inline]
    fn cmp(&self, other: &Part) -> Ordering {
        match self.index.cmp(&other.index) {
            Ordering::Equal => self.cuts.cmp(&other.cuts),
            unequal => unequal,
        }
    }
}
