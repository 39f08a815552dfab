//! The parts of what was taken on the way down from a token.
ghost use Rattle.std.specs.Prelude.{◌≡◌, ◌++◌, IfOk, IfSome, Some};
ghost use Rattle.cb_beta.specs.Tokens.{taken_value};
ghost use Rattle.cb_token_lists.specs.Internal.{parts_taken};

use cb_beta::Taken;
use cb_forms::NoMemory;
use cb_matches::{MatchParts, Part};
use std::alloc::Global;

/// What was taken last on the way down from a token.
#[derive(Clone, Copy)]
pub(crate) struct LastTaken<'a> {
    pub(crate) taken: Taken<'a>,
    /// The list from which the way goes on.
    pub(crate) list: usize,
    /// The number of the token there.
    pub(crate) number: u32,
    /// By how many lists it may still go down.
    pub(crate) left: usize,
}

/// The part of what one pattern took. It takes no memory, and is refused as `NoMemory` only where a count of sharers is full.
pub(crate) fn one_part(a: Taken<'_>) -> Result<MatchParts, NoMemory>
    ensures { IfOk result (λ parts. parts ≡ parts_taken (Some (taken_value a.entry))) }
{
    Ok(MatchParts::one(part_of(a)?))
}

/// The parts of what two patterns took, from left to right, which take no memory either.
pub(crate) fn two_parts(a: Taken<'_>, b: Taken<'_>) -> Result<MatchParts, NoMemory>
    ensures { IfOk result (λ parts. parts
        ≡ parts_taken (Some (taken_value a.entry)) ++ parts_taken (Some (taken_value b.entry))) }
{
    Ok(MatchParts::two([part_of(a)?, part_of(b)?]))
}

/// The same of three.
pub(crate) fn three_parts(a: Taken<'_>, b: Taken<'_>, c: Taken<'_>) -> Result<MatchParts, NoMemory>
    ensures { IfOk result (λ parts. parts ≡ parts_taken (Some (taken_value a.entry))
        ++ parts_taken (Some (taken_value b.entry)) ++ parts_taken (Some (taken_value c.entry))) }
{
    Ok(MatchParts::three([part_of(a)?, part_of(b)?, part_of(c)?]))
}

/// The same of four, which take one block. Growth is refused as `NoMemory`, and so is a count of sharers that is full.
#[inline(never)]
pub(crate) fn four_parts(
    alloc: Global,
    a: Taken<'_>,
    b: Taken<'_>,
    c: Taken<'_>,
    d: Taken<'_>,
) -> Result<MatchParts, NoMemory>
    ensures { IfOk result (λ parts. parts ≡ parts_taken (Some (taken_value a.entry)) ++ parts_taken (Some (taken_value b.entry))
        ++ parts_taken (Some (taken_value c.entry)) ++ parts_taken (Some (taken_value d.entry))) }
{
    let parts = [part_of(a)?, part_of(b)?, part_of(c)?, part_of(d)?];
    MatchParts::four(alloc, parts)
}

/// The part of what a token took, where each length is 1, and nothing elsewhere.
#[inline]
pub(crate) fn part_of_ones(taken: Taken<'_>) -> Option<Part>
    ensures { IfSome result
        (λ part. part ≡ record { index = taken.entry.index; cuts = taken.entry.cuts.now }) }
{
    Part::of_ones(taken.index, taken.cuts)
}

/// The part of what a token took. It is refused as `NoMemory` only where a count of sharers is full.
pub(crate) fn part_of(taken: Taken<'_>) -> Result<Part, NoMemory>
    ensures { IfOk result
        (λ part. part ≡ record { index = taken.entry.index; cuts = taken.entry.cuts.now }) }
{
    if let Some(part) = part_of_ones(taken) {
        return Ok(part);
    }
    Ok(Part {
        index: taken.index,
        cuts: taken.cuts.clone()?,
    })
}
