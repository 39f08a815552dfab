//! Where the place of an entry is noted: in the index, under the rule, the branch and the number of its match, or aside, under its key.
ghost use Rattle.std.specs.Prelude.{◌≡◌, ◌≢◌, ℕ, None, OnErr, OnOk, Option, Some, false, true};
ghost use Rattle.std.specs.BTreeMap.{get};
ghost use Rattle.cb_match_index.specs.MatchIndices.{kept_at};
ghost use Rattle.cb_match_table.specs.Internal.{IsFiled, place_of};
ghost use Rattle.cb_match_table.specs.MatchTables.{Name, key_at, key_of};
ghost use Rattle.cb_matches.specs.Keys.{key_cmp, key_eq};
ghost use Rattle.cb_number_map.specs.Filed.{ChangesAt, with_own_key};

use crate::match_table::Entry;
use cb_forms::NoMemory;
use cb_match_index::MatchIndex;
use cb_matches::Key;
use slab::Slab;
use std::collections::BTreeMap;

/// The place that is in the index for this key and number, if its entry has the key.
pub(crate) fn filed_with<V>(
    filed: &MatchIndex,
    entries: &Slab<Entry<V>>,
    key: &Key,
    number: u32,
) -> Option<usize>
    ensures { result ≡ with_own_key key_eq (key_at entries.now.slots)
        (kept_at filed.now (place_of (key.now, number))) key.now }
{
    let place = filed.get(key.rule(), key.branch(), number)? as usize;
    let entry = entries.get(place)?;
    if entry.key == *key { Some(place) } else { None }
}

/// The place of a key that stands aside, if it does. Mostly none does.
pub(crate) fn aside_at(aside: &BTreeMap<Key, usize>, key: &Key) -> Option<usize>
    ensures { result ≡ get key_cmp aside.now key.now }
{
    if aside.is_empty() {
        return None;
    }
    aside.get(key).copied()
}

/// Notes the place that an entry with this key and number gets: in the index where nothing stands there, or else aside. Growth is refused
/// as `NoMemory`, and then nothing has changed.
pub(crate) fn file(
    filed: &mut MatchIndex,
    aside: &mut BTreeMap<Key, usize>,
    key: &Key,
    number: u32,
    place: usize,
) -> Result<(), NoMemory>
    ensures ok { OnOk result ((names more : ℕ → Option Name)
        → IsFiled (kept_at filed.old) (get key_cmp aside.old) names
        → ((i : ℕ) → key_of (names i) ≢ Some key.now) → names place ≡ None
        → ChangesAt names more place (Some (key.now, number))
        → IsFiled (kept_at filed.new) (get key_cmp aside.new) more) }
    ensures err { OnErr result ((names : ℕ → Option Name)
        → IsFiled (kept_at filed.old) (get key_cmp aside.old) names
        → IsFiled (kept_at filed.new) (get key_cmp aside.new) names) }
{
    match u32::try_from(place) {
        Ok(short) if is_free(filed, key, number, short) => {
            filed.put(key.rule(), key.branch(), number, short)
        }
        _ => {
            let own = key.clone()?;
            aside.insert(own, place)?;
            Ok(())
        }
    }
}

/// Whether this place can be put into the index for this key and number: nothing stands there, and the place has its room there.
fn is_free(filed: &MatchIndex, key: &Key, number: u32, place: u32) -> bool
    ensures room { result ≡ true → place ≢ 4294967295 }
    ensures free { result ≡ true → kept_at filed.now (place_of (key.now, number)) ≡ None }
{
    place != u32::MAX && filed.get(key.rule(), key.branch(), number).is_none()
}

/// Forgets the place of an entry with this key and number.
pub(crate) fn unfile(
    filed: &mut MatchIndex,
    aside: &mut BTreeMap<Key, usize>,
    key: &Key,
    number: u32,
    place: usize,
)
    ensures { (names less : ℕ → Option Name)
        → IsFiled (kept_at filed.old) (get key_cmp aside.old) names
        → names place ≡ Some (key.now, number) → ChangesAt names less place None
        → IsFiled (kept_at filed.new) (get key_cmp aside.new) less }
{
    if is_at(filed, key, number, place) {
        filed.take(key.rule(), key.branch(), number);
    } else {
        aside.remove(key);
    }
}

/// Whether this place stands in the index for this key and number.
fn is_at(filed: &MatchIndex, key: &Key, number: u32, place: usize) -> bool
    ensures at { result ≡ true → kept_at filed.now (place_of (key.now, number)) ≡ Some place }
    ensures not { result ≡ false → kept_at filed.now (place_of (key.now, number)) ≢ Some place }
{
    match filed.get(key.rule(), key.branch(), number) {
        Some(short) => short as usize == place,
        None => false,
    }
}
