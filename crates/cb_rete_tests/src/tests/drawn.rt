//! Changes drawn by a generator of numbers, told to both matchers for the rules of the rows.
use crate::tests::building::{Element, Mark};
use crate::tests::changing::{Change, added_alike, changed_alike};
use crate::tests::rows::ROWS;
use cb_fit::Meter;
use cb_forms::NoMemory;
use cb_rematch::Rematch;
use cb_rete::Joins;
use std::alloc::Global;

const RELATIONS: [u8; 3] = [b'a', b'b', b'c'];

const NUMBERS: [&[i64]; 6] = [&[1], &[2], &[3], &[1, 1], &[1, 2], &[2, 1]];

/// How many changes there are for each rule.
const CHANGES: u64 = 200;

/// The next state of the generator, a linear congruential one.
fn next(state: u64) -> u64 {
    state
        .wrapping_mul(6364136223846793005)
        .wrapping_add(1442695040888963407)
}

/// The change that a state of the generator stands for. Of three changes two add a fact, under one of twelve indices.
fn change_of(state: u64) -> Change {
    let drawn = state >> 33;
    let ix = drawn / 54 % 12 + 1;
    if drawn % 3 == 0 {
        return Change::Retract(ix);
    }
    let relation = RELATIONS[(drawn / 3 % 3) as usize];
    let numbers = NUMBERS[(drawn / 9 % 6) as usize];
    Change::Assert(ix, relation, numbers)
}

/// Whether both tell the same where a rule of these branches is added, and then at each of the changes.
fn is_told(
    alloc: Global,
    branches: &'static [&'static [Element]],
    seed: u64,
) -> Result<bool, NoMemory> {
    let mut meter = Meter::new(Mark);
    let mut one = Joins::new(alloc);
    let mut other = Rematch::new(alloc);
    let mut alike = added_alike(alloc, &mut one, &mut other, branches, &mut meter)?.is_some();
    let mut state = seed;
    for _ in 0..CHANGES {
        state = next(state);
        let change = change_of(state);
        if changed_alike(alloc, &mut one, &mut other, &change, &mut meter)?.is_none() {
            alike = false;
        }
    }
    Ok(alike)
}

/// The first row whose rule the two tell differently.
fn wrong_row(alloc: Global) -> Result<Option<usize>, NoMemory> {
    for (i, row) in ROWS.iter().enumerate() {
        if !is_told(alloc, row.story.branches, i as u64)? {
            return Ok(Some(i));
        }
    }
    Ok(None)
}

#[test]
fn both_matchers_tell_drawn_changes_the_same(rt: HostRuntime) -> Result<(), NoMemory> {
    let wrong = wrong_row(rt.alloc())?;
    assert!(rt; wrong.is_none(), "{wrong:?}");
    Ok(())
}
