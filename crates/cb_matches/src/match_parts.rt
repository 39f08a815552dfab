//! The parts of a partial match.
ghost use Rattle.std.specs.Prelude.{◌≡◌, ◌++◌, ◌∷◌, [], IfOk, IfSome};
ghost use Rattle.std.specs.Cmp.Lexicographic.{pointwise, slice_cmp};
ghost use Rattle.std.specs.Ordering.{ordering_then};
ghost use Rattle.cb_matches.specs.Keys.{part_cmp, part_eq};

use crate::part::Part;
use cb_forms::NoMemory;
use smallvec::SmallVec;
use std::alloc::{AllocError, Global};
use std::cmp::Ordering;
use std::marker::Model;
use std::rc::Rc;

/// The parts of a partial match, which never change.
///
/// Up to three stand in the value itself, and clones share more: a clone takes no memory, and is refused only where a count of
/// sharers is full. Four take one block, five and six of `many` too, and others two. Contracts see the list of the parts.
#[derive(Drop)]
pub struct MatchParts {
    held: Held,
}

/// Where the parts are.
#[derive(Drop)]
enum Held {
    None,
    One([Part; 1]),
    Two([Part; 2]),
    Three([Part; 3]),
    Four(Rc<[Part; 4]>),
    More(Rc<SmallVec<Part, 6>>),
}

impl Model for MatchParts {
    ghost use Rattle.std.specs.Prelude.{List};
    ghost use Rattle.cb_matches.specs.Internal.HeldParts.{parts_in};
    ghost use Rattle.cb_matches.specs.Keys.{PartValue};

    ghost Value = { List PartValue };

    ghost view = { λ p. parts_in p.held };
}

impl MatchParts {
    /// No parts. It takes no memory.
    pub fn none() -> MatchParts
        ensures { result ≡ [] }
    {
        MatchParts { held: Held::None }
    }

    /// These parts, taken over. Growth is refused as `NoMemory`, and so is a count of sharers that is full.
    pub fn new(alloc: Global, parts: Vec<Part>) -> Result<MatchParts, NoMemory>
        ensures { IfOk result (λ all. all ≡ parts.items) }
    {
        MatchParts::many(alloc, SmallVec::from_vec(parts))
    }

    /// The same of a list that holds up to six in place. Then they take one block.
    pub fn many(alloc: Global, parts: SmallVec<Part, 6>) -> Result<MatchParts, NoMemory>
        ensures { IfOk result (λ all. all ≡ parts.items) }
    {
        if parts.len() <= 4 {
            return MatchParts::of(alloc, parts.as_slice());
        }
        Ok(MatchParts {
            held: Held::More(Rc::new(alloc, parts)?),
        })
    }

    /// One part. It takes no memory.
    pub fn one(part: Part) -> MatchParts
        ensures { result ≡ part ∷ [] }
    {
        MatchParts {
            held: Held::One([part]),
        }
    }

    /// These two parts. They take no memory.
    pub fn two(parts: [Part; 2]) -> MatchParts
        ensures { result ≡ parts }
    {
        MatchParts {
            held: Held::Two(parts),
        }
    }

    /// These three parts. They take no memory.
    pub fn three(parts: [Part; 3]) -> MatchParts
        ensures { result ≡ parts }
    {
        MatchParts {
            held: Held::Three(parts),
        }
    }

    /// These four parts, taken over, in one block. Growth is refused as `NoMemory`.
    pub fn four(alloc: Global, parts: [Part; 4]) -> Result<MatchParts, NoMemory>
        ensures { IfOk result (λ all. all ≡ parts) }
    {
        Ok(MatchParts {
            held: Held::Four(Rc::new(alloc, parts)?),
        })
    }

    /// A copy of these parts, which takes memory only where there are more than three. Growth is refused as `NoMemory`, and so is a
    /// count of sharers that is full.
    pub fn of(alloc: Global, parts: &[Part]) -> Result<MatchParts, NoMemory>
        ensures { IfOk result (λ all. all ≡ parts.now) }
    {
        let held = match parts {
            [] => Held::None,
            [only] => Held::One([only.clone()?]),
            [first, last] => Held::Two([first.clone()?, last.clone()?]),
            [a, b, c] => Held::Three([a.clone()?, b.clone()?, c.clone()?]),
            [a, b, c, d] => {
                let parts = [a.clone()?, b.clone()?, c.clone()?, d.clone()?];
                return MatchParts::four(alloc, parts);
            }
            more => return shared(alloc, more),
        };
        Ok(MatchParts { held })
    }

    /// The parts, from left to right.
    pub fn as_slice(&self) -> &[Part]
        ensures { result.now ≡ self.now }
    {
        match &self.held {
            Held::None => &[],
            Held::One(parts) => parts.as_slice(),
            Held::Two(parts) => parts.as_slice(),
            Held::Three(parts) => parts.as_slice(),
            Held::Four(parts) => parts.as_slice(),
            Held::More(parts) => parts.as_slice(),
        }
    }

    /// A copy with one more part at its end, which takes memory only where there are more than three then. Growth is refused as
    /// `NoMemory`, and so is a count of sharers that is full.
    pub fn and(&self, alloc: Global, last: Part) -> Result<MatchParts, NoMemory>
        ensures { IfOk result (λ all. all ≡ self.now ++ last ∷ []) }
    {
        let held = match self.as_slice() {
            [] => Held::One([last]),
            [first] => Held::Two([first.clone()?, last]),
            before => return MatchParts::new(alloc, with_last(alloc, before, last)?),
        };
        Ok(MatchParts { held })
    }
}

impl MatchParts {
    /// A copy of up to three parts where each length is 1, and nothing elsewhere. It takes no memory, and fewer steps than a clone.
    #[inline]
    pub(crate) fn copy_of_ones(&self) -> Option<MatchParts>
        ensures { IfSome result (λ copy. copy ≡ self.now) }
    {
        match &self.held {
            Held::None => Some(MatchParts::none()),
            Held::One([a]) => Some(MatchParts::one(a.copy_of_ones()?)),
            Held::Two([a, b]) => Some(MatchParts::two([a.copy_of_ones()?, b.copy_of_ones()?])),
            Held::Three([a, b, c]) => {
                let parts = [a.copy_of_ones()?, b.copy_of_ones()?, c.copy_of_ones()?];
                Some(MatchParts::three(parts))
            }
            _ => None,
        }
    }

    /// Whether these are the same parts.
    pub(crate) fn are(&self, others: &MatchParts) -> bool
        ensures { result ≡ pointwise part_eq self.now others.now }
    {
        match (&self.held, &others.held) {
            (Held::One([a]), Held::One([b])) => *a == *b,
            (Held::Two([a, b]), Held::Two([c, d])) => *a == *c && *b == *d,
            (Held::Three([a, b, c]), Held::Three([d, e, f])) => *a == *d && *b == *e && *c == *f,
            _ => self.as_slice() == others.as_slice(),
        }
    }

    /// Their order, part by part.
    pub(crate) fn order(&self, others: &MatchParts) -> Ordering
        ensures { result ≡ slice_cmp part_cmp self.now others.now }
    {
        match (&self.held, &others.held) {
            (Held::One([a]), Held::One([b])) => a.cmp(b),
            (Held::Two([a, b]), Held::Two([c, d])) => in_turn(a.cmp(c), b, d),
            (Held::Three([a, b, c]), Held::Three([d, e, f])) => {
                in_turn(in_turn(a.cmp(d), b, e), c, f)
            }
            _ => self.as_slice().cmp(others.as_slice()),
        }
    }
}

/// The order of parts behind others whose order is this.
#[inline]
fn in_turn(before: Ordering, part: &Part, other: &Part) -> Ordering
    ensures { result ≡ ordering_then before (part_cmp part.now other.now) }
{
    match before {
        Ordering::Equal => part.cmp(other),
        unequal => unequal,
    }
}

/// A copy of these parts in a block that clones share.
fn shared(alloc: Global, parts: &[Part]) -> Result<MatchParts, NoMemory>
    ensures { IfOk result (λ all. all ≡ parts.now) }
{
    let list = SmallVec::from_clones(alloc, parts)?;
    Ok(MatchParts {
        held: Held::More(Rc::new(alloc, list)?),
    })
}

/// A copy of these parts, with one more at its end.
fn with_last(alloc: Global, before: &[Part], last: Part) -> Result<Vec<Part>, NoMemory>
    ensures { IfOk result (λ all. all.items ≡ before.now ++ last ∷ []) }
{
    let mut parts = Vec::with_capacity(alloc, before.len() + 1)?;
    parts.extend_with_clones(before)?;
    parts.push(last)?;
    Ok(parts)
}

impl Clone for MatchParts {
    ghost is_clone = { λ parts copy. copy ≡ parts };

    #[inline(never)]
    fn clone(&self) -> Result<MatchParts, AllocError> {
        let held = match &self.held {
            Held::None => Held::None,
            Held::One([only]) => Held::One([only.clone()?]),
            Held::Two([first, last]) => Held::Two([first.clone()?, last.clone()?]),
            Held::Three([a, b, c]) => Held::Three([a.clone()?, b.clone()?, c.clone()?]),
            Held::Four(parts) => Held::Four(parts.clone()?),
            Held::More(parts) => Held::More(parts.clone()?),
        };
        Ok(MatchParts { held })
    }
}
