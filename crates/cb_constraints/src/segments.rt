//! The lengths of segments.
ghost use Rattle.std.specs.Prelude.{◌≡◌, ◌+◌, ◌-◌, ◌<◌, ◌≤◌, ◌++◌, ◌∷◌, ◌^◌, [], IfOk, IfSome, MatchOption, None, OnOk, drop, flat_map, get_or, length, replicate, take};
ghost use Rattle.cb_constraints.specs.Internal.Values.{fields_taken};
ghost use Rattle.cb_constraints.specs.Internal.Lengths.{HasTotals, IsFront, IsNext, all_lengths, last_count, last_fields, segment_lengths};
ghost use Rattle.cb_constraints.specs.Internal.NextLengths.{next_length};

use cb_forms::NoMemory;
use smallvec::SmallVec;
use std::alloc::Global;
use std::marker::Model;

/// A segment that a constraint took.
#[derive(Clone, Copy, Default, Drop)]
struct Segment {
    /// How many constraints for one field stand before it, since the last segment.
    ones: usize,
    /// How many fields it has.
    length: u64,
    /// How many constraints there are up to it, its own among them.
    count: usize,
    /// How many fields these took.
    fields: u64,
}

/// A part of a row's fields.
#[derive(Clone, Copy)]
pub struct Span {
    /// How many fields stand before it.
    pub from: u64,
    /// How many it has.
    pub length: u64,
}

/// The lengths of the segments that constraints took, one for each constraint. Those of constraints for one field are only
/// counted, so what is kept grows with the number of segments and not with that of the constraints. Eight segments take no
/// memory.
///
/// Contracts see the list of the lengths.
#[derive(Drop)]
pub struct Segments {
    segments: SmallVec<Segment, 8>,
    /// How many constraints for one field stand after the last segment.
    ones: usize,
    /// How many constraints there are.
    count: usize,
}

impl Model for Segments {
    ghost use Rattle.std.specs.Prelude.{◌≡◌, ◌++◌, ℕ, List, length, replicate};
    ghost use Rattle.cb_constraints.specs.Internal.Lengths.{HasTotals, all_lengths};

    ghost Value = { List ℕ };

    ghost view = { λ c. all_lengths c.segments.items c.ones };

    ghost invariant = { λ c. (c.count ≡ length (all_lengths c.segments.items c.ones)) × HasTotals 0 0 c.segments.items };
}

impl Segments {
    /// No constraint took a segment.
    pub fn new(alloc: Global) -> Segments
        ensures { result ≡ [] }
    {
        Segments {
            segments: SmallVec::new(alloc),
            ones: 0,
            count: 0,
        }
    }

    /// How many constraints took one.
    pub fn len(&self) -> usize
        ensures { result ≡ length self.now }
    {
        self.count
    }

    /// Adds the length of each of so many fields: 1. Constraints that would be 2^64 or more are refused as `NoMemory`.
    #[tactic(auto, using(crate::proofs::LengthLaws::with_more_ones))]
    pub fn add_ones(&mut self, count: usize) -> Result<(), NoMemory>
        ensures { OnOk result (self.new ≡ self.old ++ replicate count 1) }
    {
        let Some(all) = self.count.checked_add(count) else {
            return Err(NoMemory);
        };
        self.ones += count;
        self.count = all;
        Ok(())
    }

    /// Adds the length of a segment. Fields or constraints that would be 2^64 or more are refused as `NoMemory`, and so is growth.
    #[tactic(auto, using(crate::proofs::LengthLaws::with_one_more, crate::proofs::LengthLaws::counted_one_more, crate::proofs::LengthLaws::totals_one_more))]
    pub fn add_segment(&mut self, length: u64) -> Result<(), NoMemory>
        ensures { OnOk result (self.new ≡ self.old ++ length ∷ []) }
    {
        let segment = next(self.segments.as_slice(), self.ones, length).ok_or(NoMemory)?;
        self.segments.push(segment)?;
        self.ones = 0;
        self.count = segment.count;
        Ok(())
    }

    /// How many fields the first so many constraints took, or `None` where they are 2^64 or more. The time grows with the logarithm
    /// of the number of segments.
    #[tactic(auto, using(crate::proofs::CutLaws::taken_before))]
    pub fn fields_before(&self, count: usize) -> Option<u64>
        requires { count ≤ length self.now }
        ensures { MatchOption result (2 ^ 64 ≤ fields_taken (take count self.now))
            (λ n. n ≡ fields_taken (take count self.now)) }
    {
        if count == 0 {
            return Some(0);
        }
        let (before, fields) = totals(front_of(self.segments.as_slice(), count));
        fields.checked_add((count - before) as u64)
    }

    /// Where the segment with this number begins and how long it is, where fields are counted from the constraint with the number
    /// `start` on; or `None` where they are 2^64 or more.
    #[tactic(auto, using(crate::proofs::CutLaws::taken_before, crate::proofs::CutLaws::length_is, crate::proofs::SpanLaws::taken_of_both, crate::proofs::SpanLaws::no_more_before, crate::proofs::SpanLaws::no_more_of_both))]
    pub fn span(&self, start: usize, number: usize) -> Option<Span>
        requires { number < length self.now }
        ensures from { IfSome result (λ s. s.from
            ≡ fields_taken (take number self.now)
            - fields_taken (take start (take number self.now))) }
        ensures length { IfSome result (λ s. s.length ≡ get_or self.now number 0) }
        ensures none { result ≡ None → 2 ^ 64 ≤ fields_taken (take (number + 1) self.now) }
    {
        let row = self.fields_before(start.min(number))?;
        let segments = self.segments.as_slice();
        let front = front_of(segments, number);
        let (before, fields) = totals(front);
        let from = fields.checked_add((number - before) as u64)?;
        Some(Span {
            from: from.saturating_sub(row),
            length: length_after(segments, front.len(), number),
        })
    }

    /// Keeps the first so many lengths. It takes no memory, and no more time than it took to add the lengths that go.
    #[tactic(auto, using(crate::proofs::CutLaws::cut_short))]
    pub fn truncate(&mut self, count: usize)
        ensures { self.new ≡ take count self.old }
    {
        if count >= self.count {
            return;
        }
        cut_back(&mut self.segments, count);
        let (before, _) = totals(self.segments.as_slice());
        self.ones = count - before;
        self.count = count;
    }

    /// How many lengths there are, where none is that of a segment; then each is 1.
    pub fn only_ones(&self) -> Option<usize>
        ensures { IfSome result (λ count. self.now ≡ replicate count 1) }
    {
        match self.segments.as_slice() {
            [] => Some(self.ones),
            _ => None,
        }
    }

    /// The lengths in a list. Up to six take no memory.
    pub fn to_list(&self, alloc: Global) -> Result<SmallVec<u64, 6>, NoMemory>
        ensures { IfOk result (λ all. all.items ≡ self.now) }
    {
        let mut all = SmallVec::with_capacity(alloc, self.count)?;
        add_lengths(self.segments.as_slice(), &mut all)?;
        add_ones(self.ones, &mut all)?;
        Ok(all)
    }
}

/// A segment of this length after these and so many fields, or `None` where the numbers are too great.
fn next(segments: &[Segment], ones: usize, length: u64) -> Option<Segment>
    ensures { IfSome result (λ s. IsNext segments.now ones length s) }
{
    let (count, fields) = totals(segments);
    let fields = fields.checked_add(ones as u64)?.checked_add(length)?;
    let count = count.checked_add(ones)?.checked_add(1)?;
    Some(Segment {
        ones,
        length,
        count,
        fields,
    })
}

/// How many constraints there are up to the last segment, and how many fields they took.
#[tactic(auto, using(crate::proofs::LengthLaws::last_count_of, crate::proofs::LengthLaws::last_fields_of))]
fn totals(segments: &[Segment]) -> (usize, u64)
    ensures count { result.0 ≡ last_count 0 segments.now }
    ensures fields { result.1 ≡ last_fields 0 segments.now }
{
    match segments.split_last() {
        Some((segment, _)) => (segment.count, segment.fields),
        None => (0, 0),
    }
}

/// Those of these segments, from the first on, that end within the first so many constraints.
#[tactic(auto, using(crate::proofs::FrontLaws::whole_front, crate::proofs::FrontLaws::without_last))]
fn front_of(segments: &[Segment], count: usize) -> &[Segment]
    requires { HasTotals 0 0 segments.now }
    ensures front { IsFront count segments.now result.now }
    ensures within { last_count 0 result.now ≤ count }
{
    let (last, _) = totals(segments);
    if last <= count {
        return segments;
    }
    if let Some((_, front)) = segments.split_last() {
        let (last, _) = totals(front);
        if last <= count {
            return front;
        }
    }
    &segments[..segments.partition_point(|segment| segment.count <= count)]
}

/// The length of what the constraint with this number took, where so many of the segments end before it: that of the next
/// segment, if the constraint took that one, or 1.
fn length_after(segments: &[Segment], front: usize, number: usize) -> u64
    ensures { result ≡ next_length number (drop front segments.now) }
{
    match segments.get(front) {
        Some(segment) if segment.count.saturating_sub(number) == 1 => segment.length,
        _ => 1,
    }
}

/// Drops the segments, from the last on, that end after the first so many constraints.
#[tactic(auto, using(crate::proofs::FrontLaws::front_popped, crate::proofs::FrontLaws::some_left))]
fn cut_back(segments: &mut SmallVec<Segment, 8>, count: usize)
    ensures front { IsFront count segments.old.items segments.new.items }
    ensures within { last_count 0 segments.new.items ≤ count }
{
    while totals(segments.as_slice()).0 > count {
        segments.pop();
    }
}

/// Adds the lengths of all constraints up to the last of these segments.
fn add_lengths(segments: &[Segment], all: &mut SmallVec<u64, 6>) -> Result<(), NoMemory>
    ensures { OnOk result (all.new.items ≡ all.old.items ++ flat_map segment_lengths segments.now) }
{
    for segment in segments {
        add_segment(segment, all)?;
    }
    Ok(())
}

/// Adds the lengths of the constraints up to a segment, and its own.
fn add_segment(segment: &Segment, all: &mut SmallVec<u64, 6>) -> Result<(), NoMemory>
    ensures { OnOk result (all.new.items ≡ all.old.items ++ segment_lengths segment.now) }
{
    add_ones(segment.ones, all)?;
    all.push(segment.length)?;
    Ok(())
}

/// Adds so many times 1.
fn add_ones(count: usize, all: &mut SmallVec<u64, 6>) -> Result<(), NoMemory>
    ensures { OnOk result (all.new.items ≡ all.old.items ++ replicate count 1) }
{
    for _ in 0..count {
        all.push(1)?;
    }
    Ok(())
}
