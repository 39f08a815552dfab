//! Which keys come.
ghost use Rattle.std.specs.Prelude.{◌≡◌, IfOk};
ghost use Rattle.std.specs.BTreeSet.{contains};
ghost use Rattle.std.specs.List.{list_any};
ghost use Rattle.std.specs.Map.{keys_of};
ghost use Rattle.cb_matches.specs.Changes.{come_of};
ghost use Rattle.cb_matches.specs.Keys.{KeyValue, key_cmp, key_eq};

use crate::branch::Match;
use cb_forms::NoMemory;
use cb_matches::Key;
use std::alloc::Global;
use std::collections::BTreeSet;

/// The keys of the new matches that are not among the old ones. The old ones are looked up in a set, so that many matches take
/// no more than some steps each. Growth is refused as `NoMemory`, and so is a count of sharers that is full.
pub(crate) fn keys_come(alloc: Global, old: &[Match], new: &[Match]) -> Result<Vec<Key>, NoMemory>
    ensures { IfOk result (λ keys. keys.items ≡ come_of (keys_of old.now) (keys_of new.now)) }
{
    let known = key_set(alloc, old)?;
    let mut keys = Vec::new(alloc);
    for found in new {
        if !known.contains(&found.key) {
            keys.push(found.key.clone()?)?;
        }
    }
    Ok(keys)
}

/// The keys of these matches as a set.
fn key_set(alloc: Global, matches: &[Match]) -> Result<BTreeSet<Key>, NoMemory>
    ensures { IfOk result (λ set. (k : KeyValue)
        → contains key_cmp set k ≡ list_any (key_eq k) (keys_of matches.now)) }
{
    let mut set = BTreeSet::new(alloc);
    for found in matches {
        set.insert(found.key.clone()?)?;
    }
    Ok(set)
}
