//! Values that are kept for matches.
ghost use Rattle.std.specs.Prelude.{◌≡◌, ◌≢◌, ◌↔◌, ℕ, [], IfOk, None, OnErr, Some, option_copied};
ghost use Rattle.cb_match_table.specs.MatchTables.{entry_at, key_at, name_at};
ghost use Rattle.cb_number_map.specs.Filed.{ChangesAt};

use crate::filing::{aside_at, file, filed_with, unfile};
use cb_forms::NoMemory;
use cb_match_index::MatchIndex;
use cb_matches::Key;
use slab::Slab;
use std::alloc::Global;
use std::collections::BTreeMap;
use std::marker::Model;

/// What is kept for a match: its key, its number and the value.
#[derive(Drop)]
pub struct Entry<V> {
    pub key: Key,
    pub number: u32,
    pub value: V,
}

/// Values that are kept for matches, each found by the key and the number of its match.
///
/// A matcher gives a match its number when it comes, and the match has it as long as it is there. So an entry is found without a hash of its
/// key: its place is in an index, under the rule, the branch and the number of its match, and one key is compared. Two matches of a branch
/// may have the same number, if one who keeps a value for a match doesn't know that it is gone: then the one that comes later stands
/// aside, in the order of keys, and so does an entry whose place has more than 32 bits.
///
/// An entry keeps its place, and another gets the place once it is gone. A look-up, an entry that comes and one that goes take a constant
/// number of steps, but for the look-up of the rule among those of which something was kept and for growth, and a number of steps that
/// grows with the logarithm of how many stand aside where some do. The memory is that of the entries, and four bytes for each number up
/// to the greatest that a branch had; these are kept until the rule is forgotten.
///
/// Contracts see what each place has.
#[derive(Drop)]
pub struct MatchTable<V> {
    entries: Slab<Entry<V>>,
    filed: MatchIndex,
    aside: BTreeMap<Key, usize>,
}

impl<V> Model for MatchTable<V> {
    ghost use Rattle.std.specs.BTreeMap.{get};
    ghost use Rattle.cb_match_index.specs.MatchIndices.{kept_at};
    ghost use Rattle.cb_match_table.specs.Internal.{IsFiled};
    ghost use Rattle.cb_match_table.specs.MatchTables.{Held, name_at};
    ghost use Rattle.cb_matches.specs.Keys.{key_cmp};

    ghost Value = { Held V };

    ghost view = { λ t. t.entries.slots };

    ghost invariant = { λ t. IsFiled (kept_at t.filed) (get key_cmp t.aside) (name_at t.entries.slots) };
}

impl<V> MatchTable<V> {
    /// No entry. It takes no memory yet.
    pub fn new(alloc: Global) -> MatchTable<V>
        ensures { result ≡ [] }
    {
        MatchTable {
            entries: Slab::new(alloc),
            filed: MatchIndex::new(alloc),
            aside: BTreeMap::new(alloc),
        }
    }

    /// The place of the entry with this key, if there is one. It has to have this number, the one of the match.
    pub fn find(&self, key: &Key, number: u32) -> Option<usize>
        requires { (i n : ℕ) → name_at self.now i ≡ Some (key.now, n) → n ≡ number }
        ensures { (i : ℕ) → (result ≡ Some i) ↔ (key_at self.now i ≡ Some key.now) }
    {
        match filed_with(&self.filed, &self.entries, key, number) {
            Some(place) => Some(place),
            None => aside_at(&self.aside, key),
        }
    }

    /// The same by the key alone. It goes over all entries.
    pub fn find_key(&self, key: &Key) -> Option<usize>
        ensures { (i : ℕ) → (result ≡ Some i) ↔ (key_at self.now i ≡ Some key.now) }
    {
        for (place, entry) in self.entries.iter() {
            if entry.key == *key {
                return Some(place);
            }
        }
        None
    }

    /// The entry at a place, if there is one.
    pub fn get(&self, place: usize) -> Option<&Entry<V>>
        ensures { option_copied result ≡ entry_at self.now place }
    {
        self.entries.get(place)
    }

    /// Gives back the memory that is kept for a rule, if it has no entry in the index. It takes a number of steps that grows with the
    /// greatest numbers of its branches.
    pub fn forget_rule(&mut self, rule: u64)
        ensures { self.new ≡ self.old }
    {
        self.filed.forget_unused(rule);
    }
}

impl<V: Drop> MatchTable<V> {
    /// Adds an entry for a match whose key no other has. The answer is its place. Growth is refused as `NoMemory`, and then nothing has
    /// changed.
    pub fn add(&mut self, key: Key, number: u32, value: V) -> Result<usize, NoMemory>
        requires { (i : ℕ) → key_at self.old i ≢ Some key }
        ensures free { IfOk result (λ place. entry_at self.old place ≡ None) }
        ensures ok { IfOk result (λ place. ChangesAt (entry_at self.old) (entry_at self.new)
            place (Some (record { key = key; number = number; value = value }))) }
        ensures err { OnErr result (self.new ≡ self.old) }
    {
        self.entries.reserve(1)?;
        let place = self.entries.vacant_key();
        file(&mut self.filed, &mut self.aside, &key, number, place)?;
        self.entries.insert_reserved(Entry { key, number, value });
        Ok(place)
    }

    /// Takes the entry at a place out, if there is one.
    pub fn remove(&mut self, place: usize) -> Option<Entry<V>>
        ensures before { result ≡ entry_at self.old place }
        ensures after { ChangesAt (entry_at self.old) (entry_at self.new) place None }
    {
        let entry = self.entries.try_remove(place)?;
        unfile(
            &mut self.filed,
            &mut self.aside,
            &entry.key,
            entry.number,
            place,
        );
        Some(entry)
    }
}
