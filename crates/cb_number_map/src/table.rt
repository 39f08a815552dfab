//! The table: slots, in which keys stand.
ghost use Rattle.std.specs.Prelude.{◌≡◌, ◌≢◌, ℕ, IfOk, None, Some, false, true};
ghost use Rattle.cb_number_map.specs.Slots.{TableUpdates, number_in};

use crate::slots::{Slot, UNUSED, are_free, clear, free_slot, longer, places, room_for, window};
use cb_forms::NoMemory;
use std::alloc::Global;
use std::marker::Model;

/// A table, in which a key may stand in one of eight slots, its window.
///
/// A key is put into the first free slot of its window. So no key stands behind a slot of its window that never had a key, and a look-up
/// ends there. A slot whose key went is told from one that never had a key only where a look-up may have to go on behind it.
///
/// Contracts see the slots.
#[derive(Drop)]
pub(crate) struct Table {
    slots: Vec<Slot>,
}

impl Model for Table {
    ghost use Rattle.std.specs.Prelude.{List};
    ghost use Rattle.cb_number_map.specs.declared.slots.Slot.{Slot};
    ghost use Rattle.cb_number_map.specs.Slots.{WindowsEndAtUnused};

    ghost Value = { List Slot };

    ghost view = { λ t. t.slots.items };

    ghost invariant = { λ t. WindowsEndAtUnused t.slots.items };
}

impl Table {
    /// No slot. It takes no memory.
    pub(crate) fn new(alloc: Global) -> Table
        ensures { (key : ℕ) → number_in result key ≡ None }
    {
        Table {
            slots: Vec::new(alloc),
        }
    }

    /// A table without a key, of more slots than this one. Growth is refused as `NoMemory`.
    pub(crate) fn longer(&self, alloc: Global) -> Result<Table, NoMemory>
        ensures { IfOk result (λ table. (key : ℕ) → number_in table key ≡ None) }
    {
        Ok(Table {
            slots: vec![in alloc; UNUSED; longer(self.slots.len())]?,
        })
    }

    /// How many slots there are.
    pub(crate) fn len(&self) -> usize {
        self.slots.len()
    }

    /// In so many slots a key may stand first.
    pub(crate) fn places(&self) -> usize {
        places(self.slots.len())
    }

    /// The slots.
    pub(crate) fn slots(&self) -> &[Slot]
        ensures { result.now ≡ self.now }
    {
        self.slots.as_slice()
    }

    /// Whether all slots are free.
    pub(crate) fn is_free(&self) -> bool
        ensures { result ≡ true → (key : ℕ) → number_in self.now key ≡ None }
    {
        are_free(self.slots.as_slice())
    }

    /// The number of a key. It takes constant time: at most eight slots are read, to the first that never had a key.
    pub(crate) fn number(&self, key: u32) -> Option<u32>
        ensures { result ≡ number_in self.now key }
    {
        let slots = self.slots.as_slice();
        let (from, to) = window(slots.len(), key);
        for slot in &slots[from..to] {
            if let Some(number) = slot.number_for(key) {
                return Some(number);
            }
            if slot.is_unused() {
                return None;
            }
        }
        None
    }

    /// Puts a key, which the table doesn't have, into the first free slot of its window. The answer is whether there is one, and the
    /// number isn't the greatest of 32 bits. It takes constant time.
    pub(crate) fn put(&mut self, key: u32, number: u32) -> bool
        requires { number_in self.old key ≡ None }
        ensures put { result ≡ true → TableUpdates self.old self.new key (Some number) }
        ensures full { result ≡ false → self.new ≡ self.old }
    {
        let Some(next) = number.checked_add(1) else {
            return false;
        };
        let Some(index) = free_slot(self.slots.as_slice(), key) else {
            return false;
        };
        self.slots[index] = Slot { key, next };
        true
    }

    /// Puts a key into the first free slot of its window, if the table doesn't have the key, the window has room, and the number isn't
    /// the greatest of 32 bits. The answer is whether it did. It takes constant time.
    pub(crate) fn put_new(&mut self, key: u32, number: u32) -> bool
        ensures absent { result ≡ true → number_in self.old key ≡ None }
        ensures put { result ≡ true → TableUpdates self.old self.new key (Some number) }
        ensures not { result ≡ false → self.new ≡ self.old }
    {
        let Some(next) = number.checked_add(1) else {
            return false;
        };
        let Some(index) = room_for(self.slots.as_slice(), key) else {
            return false;
        };
        self.slots[index] = Slot { key, next };
        true
    }

    /// Frees the slot of a key, if there is one. The answer is whether there was. It takes constant time.
    pub(crate) fn clear(&mut self, key: u32) -> bool
        ensures { TableUpdates self.old self.new key None }
    {
        clear(self.slots.as_mut_slice(), key)
    }

    /// Frees the slot of a key, if that has this number. The answer is whether it has. It takes constant time.
    pub(crate) fn clear_number(&mut self, key: u32, number: usize) -> bool
        ensures has { result ≡ true → number_in self.old key ≡ Some number }
        ensures cleared { result ≡ true → TableUpdates self.old self.new key None }
        ensures other { result ≡ false → (number_in self.old key ≢ Some number) × (self.new ≡ self.old) }
    {
        match self.number(key) {
            Some(found) if found as usize == number => {
                self.clear(key);
                true
            }
            _ => false,
        }
    }
}
