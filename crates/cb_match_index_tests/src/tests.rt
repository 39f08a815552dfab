//! Calls of `MatchIndex`: drawn ones, made of an ordered map as well, and such as are refused.
use cb_forms::NoMemory;
use cb_match_index::MatchIndex;
use std::alloc::Global;
use std::collections::BTreeMap;

/// How many calls are drawn.
const CALLS: u64 = 3000;

/// How many rules there are, how many branches a rule has, and how many numbers a branch.
const RULES: u64 = 3;

const BRANCHES: u64 = 3;

const NUMBERS: u64 = 12;

/// The last of the numbers are greater by this.
const GREAT: u32 = 50_000;

/// Branches and values that can't be kept: there can't be so many branches, and no value is the greatest of 32 bits.
const REFUSED: [(u64, u32); 4] = [
    (0, u32::MAX),
    (u64::MAX / 2, 1),
    (u64::MAX - 1, 1),
    (u64::MAX, 1),
];

/// A match: its rule, its branch and its number.
#[derive(Clone, Copy, PartialEq, Eq, PartialOrd, Ord)]
struct Place {
    rule: u64,
    branch: u64,
    number: u32,
}

#[derive(Clone, Copy)]
enum Call {
    Put(Place, u32),
    Take(Place),
    Forget(u64),
}

/// The next state of the generator, a linear congruential one.
fn next(state: u64) -> u64 {
    state
        .wrapping_mul(6364136223846793005)
        .wrapping_add(1442695040888963407)
}

/// The match that a drawn number stands for.
fn place_of(drawn: u64) -> Place {
    let number = (drawn % NUMBERS) as u32;
    Place {
        rule: drawn / NUMBERS % RULES,
        branch: drawn / (NUMBERS * RULES) % BRANCHES,
        number: if number < 10 { number } else { number + GREAT },
    }
}

/// The call that a state of the generator stands for.
fn call_of(state: u64) -> Call {
    let drawn = state >> 33;
    let place = place_of(drawn / 64);
    let kind = (drawn % 64) as u32;
    if kind == 0 {
        Call::Forget(place.rule)
    } else if kind < 24 {
        Call::Take(place)
    } else {
        Call::Put(place, kind)
    }
}

/// Makes a call of both. The answer is whether what was taken is the same.
fn made_alike(
    index: &mut MatchIndex,
    wanted: &mut BTreeMap<Place, u32>,
    call: &Call,
) -> Result<bool, NoMemory> {
    match call {
        Call::Put(place, value) => {
            index.put(place.rule, place.branch, place.number, *value)?;
            wanted.insert(*place, *value)?;
        }
        Call::Take(place) => {
            let taken = index.take(place.rule, place.branch, place.number);
            return Ok(taken == wanted.remove(place));
        }
        Call::Forget(rule) => {
            index.forget_rule(*rule);
            wanted.retain(|place, _value| place.rule != *rule);
        }
    }
    Ok(true)
}

/// Whether both keep the same of each match.
fn are_alike(index: &MatchIndex, wanted: &BTreeMap<Place, u32>) -> bool {
    for drawn in 0..NUMBERS * RULES * BRANCHES {
        let place = place_of(drawn);
        let kept = index.get(place.rule, place.branch, place.number);
        if kept != wanted.get(&place).copied() {
            return false;
        }
    }
    true
}

/// The number of the first call after which the two differ.
fn wrong_call(alloc: Global) -> Result<Option<u64>, NoMemory> {
    let mut index = MatchIndex::new(alloc);
    let mut wanted = BTreeMap::new(alloc);
    let mut state = 1;
    for number in 0..CALLS {
        state = next(state);
        let made = made_alike(&mut index, &mut wanted, &call_of(state))?;
        if !made || !are_alike(&index, &wanted) {
            return Ok(Some(number));
        }
    }
    Ok(None)
}

/// The place of the first row that isn't refused, or after which something else is kept.
fn wrong_row(alloc: Global) -> Result<Option<usize>, NoMemory> {
    let mut index = MatchIndex::new(alloc);
    index.put(0, 0, 0, 7)?;
    for (place, (branch, value)) in REFUSED.iter().enumerate() {
        let refused = index.put(0, *branch, 0, *value).is_err();
        if !refused || index.get(0, 0, 0) != Some(7) {
            return Ok(Some(place));
        }
    }
    Ok(None)
}

#[test]
fn drawn_calls_keep_what_a_map_keeps(rt: HostRuntime) -> Result<(), NoMemory> {
    let wrong = wrong_call(rt.alloc())?;
    assert!(rt; wrong.is_none(), "{wrong:?}");
    Ok(())
}

#[test]
fn what_cannot_be_kept_is_refused(rt: HostRuntime) -> Result<(), NoMemory> {
    let wrong = wrong_row(rt.alloc())?;
    assert!(rt; wrong.is_none(), "{wrong:?}");
    Ok(())
}
