//! Drawn calls of `MatchTable`, made of an ordered map from matches to their numbers and values as well.
use cb_forms::NoMemory;
use cb_match_table::{Entry, MatchTable};
use cb_matches::{Cuts, Key, MatchParts, Part};
use std::alloc::Global;
use std::collections::BTreeMap;

/// How many calls are drawn.
const CALLS: u64 = 2000;

/// How many matches there are: of three rules with two branches each.
const MATCHES: u64 = 42;

/// What is kept for a match.
#[derive(Clone, Copy)]
struct Kept {
    number: u32,
    value: u64,
}

#[derive(Clone, Copy)]
enum Call {
    /// The match is added with this number and this value, unless it is there.
    Add(u64, Kept),
    Remove(u64),
    Forget(u64),
}

/// The next state of the generator, a linear congruential one.
fn next(state: u64) -> u64 {
    state
        .wrapping_mul(6364136223846793005)
        .wrapping_add(1442695040888963407)
}

/// The key of a match.
fn key_of(number: u64) -> Key {
    let part = Part {
        index: number / 6,
        cuts: Cuts::none(),
    };
    Key::of(number % 3, number / 3 % 2, MatchParts::one(part))
}

/// A number of a match: mostly one of three, so that many matches of a branch have the same.
fn number_of(drawn: u64) -> u32 {
    if drawn % 16 == 0 {
        return 1000;
    }
    (drawn % 3) as u32
}

/// The call that a state of the generator stands for. In the first half most matches come, in the second most go.
fn call_of(state: u64, number: u64) -> Call {
    let drawn = state >> 33;
    let which = drawn / 512 % MATCHES;
    let comes = if number < CALLS / 2 { 20 } else { 11 };
    let kept = Kept {
        number: number_of(drawn / 32 % 16),
        value: state,
    };
    match drawn % 32 {
        0 => Call::Forget(which % 3),
        kind if kind < comes => Call::Add(which, kept),
        _ => Call::Remove(which),
    }
}

/// Adds an entry, unless there is one. The answer is whether it was added.
fn add(table: &mut MatchTable<u64>, key: Key, kept: &Kept) -> Result<bool, NoMemory> {
    if table.find_key(&key).is_some() {
        return Ok(false);
    }
    table.add(key, kept.number, kept.value)?;
    Ok(true)
}

fn remove(table: &mut MatchTable<u64>, key: &Key) -> Option<Entry<u64>> {
    let place = table.find_key(key)?;
    table.remove(place)
}

/// Whether an entry that was removed is the one that is wanted.
fn is_wanted(removed: Option<Entry<u64>>, key: &Key, wanted: Option<Kept>) -> bool {
    match (removed, wanted) {
        (None, None) => true,
        (Some(entry), Some(kept)) => {
            entry.key == *key && entry.number == kept.number && entry.value == kept.value
        }
        _ => false,
    }
}

/// Makes a call of both. The answer is whether they agree on it.
fn made_alike(
    table: &mut MatchTable<u64>,
    wanted: &mut BTreeMap<u64, Kept>,
    call: &Call,
) -> Result<bool, NoMemory> {
    match call {
        Call::Add(which, kept) => {
            let is_new = !wanted.contains_key(which);
            if is_new {
                wanted.insert(*which, *kept)?;
            }
            Ok(add(table, key_of(*which), kept)? == is_new)
        }
        Call::Remove(which) => {
            let key = key_of(*which);
            let removed = remove(table, &key);
            Ok(is_wanted(removed, &key, wanted.remove(which)))
        }
        Call::Forget(rule) => {
            table.forget_rule(*rule);
            Ok(true)
        }
    }
}

/// Whether this is kept for a match, and it is found by its number and without.
fn is_kept(table: &MatchTable<u64>, key: &Key, kept: &Kept) -> bool {
    let Some(place) = table.find_key(key) else {
        return false;
    };
    let Some(entry) = table.get(place) else {
        return false;
    };
    entry.number == kept.number
        && entry.value == kept.value
        && table.find(key, entry.number) == Some(place)
}

/// Whether nothing is kept for a match, by a number of others and without.
fn is_absent(table: &MatchTable<u64>, key: &Key, number: u32) -> bool {
    table.find_key(key).is_none() && table.find(key, number).is_none()
}

/// Whether both have the same of each match.
fn are_alike(table: &MatchTable<u64>, wanted: &BTreeMap<u64, Kept>) -> bool {
    for which in 0..MATCHES {
        let key = key_of(which);
        let same = match wanted.get(&which) {
            Some(kept) => is_kept(table, &key, kept),
            None => is_absent(table, &key, (which % 3) as u32),
        };
        if !same {
            return false;
        }
    }
    true
}

/// The number of the first call after which they differ.
fn wrong_call(alloc: Global) -> Result<Option<u64>, NoMemory> {
    let mut table = MatchTable::new(alloc);
    let mut wanted = BTreeMap::new(alloc);
    let mut state = 1;
    for number in 0..CALLS {
        state = next(state);
        let made = made_alike(&mut table, &mut wanted, &call_of(state, number))?;
        if !made || !are_alike(&table, &wanted) {
            return Ok(Some(number));
        }
    }
    Ok(None)
}

#[test]
fn drawn_calls_keep_what_a_map_keeps(rt: HostRuntime) -> Result<(), NoMemory> {
    let wrong = wrong_call(rt.alloc())?;
    assert!(rt; wrong.is_none(), "{wrong:?}");
    Ok(())
}
