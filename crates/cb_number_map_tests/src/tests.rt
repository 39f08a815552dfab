//! Calls of `NumberMap`, drawn and chosen, made of an ordered map as well.
use cb_forms::NoMemory;
use cb_number_map::NumberMap;
use std::alloc::Global;
use std::collections::BTreeMap;

/// How many calls are drawn.
const CALLS: u64 = 3000;

/// How many keys there are of each kind.
const KEYS: u64 = 150;

/// Keys that are so many times this all want the same slots.
const SAME_SLOTS: u32 = 832_040;

#[derive(Clone, Copy)]
enum Call {
    /// The key has this number from now on.
    Set(u32, u32),
    /// The same, unless the key has one.
    Add(u32, u32),
    Remove(u32),
    /// The key goes, if it has this number.
    TakeOut(u32, u32),
}

/// Calls of keys that want the same slots. One is taken out before others, which are found behind its slot, and one comes into that.
const SHARED: [Call; 12] = [
    Call::Set(SAME_SLOTS, 1),
    Call::Set(2 * SAME_SLOTS, 2),
    Call::Set(3 * SAME_SLOTS, 3),
    Call::Remove(SAME_SLOTS),
    Call::Add(3 * SAME_SLOTS, 4),
    Call::TakeOut(2 * SAME_SLOTS, 2),
    Call::Add(3 * SAME_SLOTS, 5),
    Call::Set(4 * SAME_SLOTS, 6),
    Call::Remove(3 * SAME_SLOTS),
    Call::Add(SAME_SLOTS, 7),
    Call::Remove(4 * SAME_SLOTS),
    Call::Add(SAME_SLOTS, 8),
];

/// The next state of the generator, a linear congruential one.
fn next(state: u64) -> u64 {
    state
        .wrapping_mul(6364136223846793005)
        .wrapping_add(1442695040888963407)
}

/// A key: of those near each other, or of those that all want the same slots.
fn key_of(drawn: u64) -> u32 {
    let number = (drawn / 2 % KEYS) as u32;
    if drawn % 2 == 0 {
        return number;
    }
    number.wrapping_mul(SAME_SLOTS)
}

/// The call that a state of the generator stands for. In the first half most keys come, in the second most go.
fn call_of(state: u64, number: u64) -> Call {
    let drawn = state >> 33;
    let key = key_of(drawn / 24);
    let comes = if number < CALLS / 2 { 3 } else { 1 };
    let number = (drawn / 8 % 3) as u32;
    match (drawn % 4 < comes, drawn / 4 % 2 == 0) {
        (true, true) => Call::Set(key, number),
        (true, false) => Call::Add(key, number),
        (false, true) => Call::Remove(key),
        (false, false) => Call::TakeOut(key, number),
    }
}

/// Makes a call of both.
fn make(
    numbers: &mut NumberMap,
    wanted: &mut BTreeMap<u32, u32>,
    call: &Call,
) -> Result<(), NoMemory> {
    match call {
        Call::Set(key, number) => {
            numbers.remove(*key);
            numbers.insert(*key, *number)?;
            wanted.insert(*key, *number)?;
        }
        Call::Add(key, number) => {
            if numbers.insert_new(*key, *number)? {
                wanted.insert(*key, *number)?;
            }
        }
        Call::Remove(key) => {
            numbers.remove(*key);
            wanted.remove(key);
        }
        Call::TakeOut(key, number) => {
            numbers.take_out_number(*key, *number as usize);
            if wanted.get(key) == Some(number) {
                wanted.remove(key);
            }
        }
    }
    Ok(())
}

/// Whether both have the same number for each key.
fn are_alike(numbers: &NumberMap, wanted: &BTreeMap<u32, u32>) -> bool {
    for drawn in 0..2 * KEYS {
        let key = key_of(drawn);
        if numbers.get(key) != wanted.get(&key).copied() {
            return false;
        }
    }
    true
}

/// The number of the first call after which the two differ.
fn wrong_call(alloc: Global) -> Result<Option<u64>, NoMemory> {
    let mut numbers = NumberMap::new(alloc);
    let mut wanted = BTreeMap::new(alloc);
    let mut state = 1;
    for number in 0..CALLS {
        state = next(state);
        make(&mut numbers, &mut wanted, &call_of(state, number))?;
        if !are_alike(&numbers, &wanted) {
            return Ok(Some(number));
        }
    }
    Ok(None)
}

/// The place of the first of these calls after which the two differ.
fn wrong_of(alloc: Global, calls: &[Call]) -> Result<Option<usize>, NoMemory> {
    let mut numbers = NumberMap::new(alloc);
    let mut wanted = BTreeMap::new(alloc);
    for (place, call) in calls.iter().enumerate() {
        make(&mut numbers, &mut wanted, call)?;
        if !are_alike(&numbers, &wanted) {
            return Ok(Some(place));
        }
    }
    Ok(None)
}

#[test]
fn drawn_calls_leave_the_numbers_of_a_map(rt: HostRuntime) -> Result<(), NoMemory> {
    let wrong = wrong_call(rt.alloc())?;
    assert!(rt; wrong.is_none(), "{wrong:?}");
    Ok(())
}

#[test]
fn keys_behind_a_freed_slot_are_found(rt: HostRuntime) -> Result<(), NoMemory> {
    let wrong = wrong_of(rt.alloc(), &SHARED)?;
    assert!(rt; wrong.is_none(), "{wrong:?}");
    Ok(())
}
