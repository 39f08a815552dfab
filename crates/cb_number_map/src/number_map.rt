//! The map: a table, and an ordered map for what finds no room in it.
ghost use Rattle.std.specs.Prelude.{◌≡◌, ◌≢◌, ℕ, IfOk, None, OnErr, OnOk, Some, false, is_none, is_some, true};
ghost use Rattle.std.specs.BTreeMap as tree;
ghost use Rattle.std.specs.Ordering.{nat_cmp};
ghost use Rattle.cb_number_map.specs.Filed.{LeavesAside};
ghost use Rattle.cb_number_map.specs.Internal.{AreAmong, TakesOver};
ghost use Rattle.cb_number_map.specs.NumberMaps.{AreSameNumbers, Updates, number_at};
ghost use Rattle.cb_number_map.specs.Slots.{number_in};

use crate::table::Table;
use cb_forms::NoMemory;
use std::alloc::Global;
use std::collections::BTreeMap;

/// A table of so many slots at most is kept when its last key goes.
const KEPT: usize = 4096;

/// A map from numbers, the keys, to numbers.
///
/// It is a table, in which a key may stand in one of eight slots, and an ordered map for the keys that find no room there. Where a key
/// finds no room and the table is half full, it is made anew with twice as many slots. So a call takes constant time where few keys
/// want the same slots, and logarithmic time whatever the keys are, but for the growth of the table. A few keys take a few slots, of
/// 8 bytes each; a long table is taken to a quarter or more when it has grown.
///
/// Contracts see the number of each key.
#[derive(Drop)]
pub struct NumberMap {
    alloc: Global,
    table: Table,
    /// How many keys stand in the table, by which it is chosen when it grows.
    taken: usize,
    /// The keys that found no room in the table.
    aside: BTreeMap<u32, u32>,
}

impl NumberMap {
    /// No key. It takes no memory.
    pub fn new(alloc: Global) -> NumberMap
        ensures { (key : ℕ) → number_at result key ≡ None }
    {
        NumberMap {
            alloc,
            table: Table::new(alloc),
            taken: 0,
            aside: BTreeMap::new(alloc),
        }
    }

    /// The number of a key, if the map has the key.
    #[tactic(auto, unfolding(crate::specs::NumberMaps::number_at))]
    pub fn get(&self, key: u32) -> Option<u32>
        ensures { result ≡ number_at self.now key }
    {
        match self.table.number(key) {
            Some(number) => Some(number),
            None => self.aside.get(&key).copied(),
        }
    }

    /// Adds a key that the map doesn't have, with its number. Growth is refused as `NoMemory`, and then nothing has changed.
    pub fn insert(&mut self, key: u32, number: u32) -> Result<(), NoMemory>
        requires { number_at self.old key ≡ None }
        ensures ok { OnOk result (Updates self.old self.new key (Some number)) }
        ensures err { OnErr result (AreSameNumbers self.old self.new) }
    {
        if self.put(key, number) {
            return Ok(());
        }
        if self.taken >= self.table.places() / 2 {
            self.grow()?;
        }
        self.add(key, number)
    }

    /// Adds a key with its number, unless the map has the key. The answer is whether it was added. Growth is refused as `NoMemory`, and
    /// then nothing has changed.
    pub fn insert_new(&mut self, key: u32, number: u32) -> Result<bool, NoMemory>
        ensures added { IfOk result (λ added. added ≡ is_none (number_at self.old key)) }
        ensures new { OnOk result (number_at self.old key ≡ None
            → Updates self.old self.new key (Some number)) }
        ensures there { OnOk result (number_at self.old key ≢ None → AreSameNumbers self.old self.new) }
        ensures err { OnErr result (AreSameNumbers self.old self.new) }
    {
        if self.put_new(key, number) {
            return Ok(true);
        }
        if self.get(key).is_some() {
            return Ok(false);
        }
        self.insert(key, number)?;
        Ok(true)
    }

    /// Takes a key out, if the map has it. A long table is given back with the last key.
    pub fn remove(&mut self, key: u32)
        ensures { Updates self.old self.new key None }
    {
        self.take_out(key);
        if self.taken == 0 {
            self.release();
        }
    }

    /// Takes a key out, if the map has it. The table keeps its memory for the keys that come next.
    #[tactic(auto, unfolding(crate::specs::NumberMaps::number_at))]
    pub fn take_out(&mut self, key: u32)
        ensures { Updates self.old self.new key None }
    {
        if self.table.clear(key) {
            self.taken = self.taken.saturating_sub(1);
        }
        self.forget_aside(key);
    }

    /// Takes a key out, if it has this number. The table keeps its memory for the keys that come next.
    #[tactic(auto, unfolding(crate::specs::NumberMaps::number_at))]
    pub fn take_out_number(&mut self, key: u32, number: usize)
        ensures has { number_at self.old key ≡ Some number → Updates self.old self.new key None }
        ensures other { number_at self.old key ≢ Some number → AreSameNumbers self.old self.new }
    {
        if self.table.clear_number(key, number) {
            self.taken = self.taken.saturating_sub(1);
            self.forget_aside(key);
        } else if !self.aside.is_empty() && self.has_number(key, number) {
            self.aside.remove(&key);
        }
    }

    /// Whether a key has this number.
    fn has_number(&self, key: u32, number: usize) -> bool
        ensures yes { result ≡ true → number_at self.now key ≡ Some number }
        ensures no { result ≡ false → number_at self.now key ≢ Some number }
    {
        match self.get(key) {
            Some(found) => found as usize == number,
            None => false,
        }
    }

    /// Gives the memory of a long table back, if there is no key. This takes as many steps as the table has slots, and fewer than were
    /// taken to fill it.
    fn release(&mut self)
        ensures { AreSameNumbers self.old self.new }
    {
        if self.table.len() > KEPT && self.aside.is_empty() && self.table.is_free() {
            *self = NumberMap::new(self.alloc);
        }
    }

    /// Puts a key that the map doesn't have into the table. The answer is whether there is room for it.
    fn put(&mut self, key: u32, number: u32) -> bool
        requires { number_at self.old key ≡ None }
        ensures put { result ≡ true → Updates self.old self.new key (Some number) }
        ensures full { result ≡ false → AreSameNumbers self.old self.new }
    {
        if !self.table.put(key, number) {
            return false;
        }
        self.taken = self.taken.saturating_add(1);
        true
    }

    /// Puts a key into the table, unless the map has the key or there is no room for it. The answer is whether it did.
    fn put_new(&mut self, key: u32, number: u32) -> bool
        ensures absent { result ≡ true → number_at self.old key ≡ None }
        ensures put { result ≡ true → Updates self.old self.new key (Some number) }
        ensures not { result ≡ false → AreSameNumbers self.old self.new }
    {
        if self.stands_aside(key) {
            return false;
        }
        if !self.table.put_new(key, number) {
            return false;
        }
        self.taken = self.taken.saturating_add(1);
        true
    }

    /// Takes a key out of those that stand aside. Mostly none does.
    fn forget_aside(&mut self, key: u32)
        ensures table { self.new.table ≡ self.old.table }
        ensures aside { LeavesAside nat_cmp self.old.aside self.new.aside key }
    {
        if !self.aside.is_empty() {
            self.aside.remove(&key);
        }
    }

    /// Whether a key stands aside. Mostly none does.
    fn stands_aside(&self, key: u32) -> bool
        ensures { result ≡ is_some (tree.get nat_cmp self.now.aside key) }
    {
        !self.aside.is_empty() && self.aside.contains_key(&key)
    }

    /// Adds a key that the map doesn't have, aside if there is no room for it in the table. Growth is refused as `NoMemory`, and then
    /// nothing has changed.
    fn add(&mut self, key: u32, number: u32) -> Result<(), NoMemory>
        requires { number_at self.old key ≡ None }
        ensures ok { OnOk result (Updates self.old self.new key (Some number)) }
        ensures err { OnErr result (AreSameNumbers self.old self.new) }
    {
        if !self.put(key, number) {
            self.aside.insert(key, number)?;
        }
        Ok(())
    }

    /// Makes the table anew with more slots, and puts everything in again. Growth is refused as `NoMemory`, and then nothing has changed.
    fn grow(&mut self) -> Result<(), NoMemory>
        ensures { AreSameNumbers self.old self.new }
    {
        let mut longer = NumberMap {
            alloc: self.alloc,
            table: self.table.longer(self.alloc)?,
            taken: 0,
            aside: BTreeMap::new(self.alloc),
        };
        longer.take_table(self)?;
        longer.take_aside(self)?;
        *self = longer;
        Ok(())
    }

    /// Takes over what another map has in its table. Growth is refused as `NoMemory`.
    fn take_table(&mut self, other: &NumberMap) -> Result<(), NoMemory>
        requires { AreAmong self.old other.now }
        ensures among { OnOk result (AreAmong self.new other.now) }
        ensures all { OnOk result ((key : ℕ) → number_in other.now.table key ≢ None
            → number_at self.new key ≡ number_at other.now key) }
    {
        for slot in other.table.slots() {
            if slot.number().is_some() {
                self.take_over(other, slot.key)?;
            }
        }
        Ok(())
    }

    /// Takes over what stands aside in another map. Growth is refused as `NoMemory`.
    fn take_aside(&mut self, other: &NumberMap) -> Result<(), NoMemory>
        requires among { AreAmong self.old other.now }
        requires table { (key : ℕ) → number_in other.now.table key ≢ None
            → number_at self.old key ≡ number_at other.now key }
        ensures { OnOk result (AreSameNumbers other.now self.new) }
    {
        for (key, _number) in &other.aside {
            self.take_over(other, *key)?;
        }
        Ok(())
    }

    /// Takes over what another map has for a key. Growth is refused as `NoMemory`.
    fn take_over(&mut self, other: &NumberMap, key: u32) -> Result<(), NoMemory>
        requires { AreAmong self.old other.now }
        ensures { OnOk result (TakesOver self.old self.new other.now key) }
    {
        let Some(number) = other.get(key) else {
            return Ok(());
        };
        if self.put_new(key, number) || self.get(key).is_some() {
            return Ok(());
        }
        self.add(key, number)
    }
}
