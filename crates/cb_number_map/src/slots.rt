//! The slots of a table, and where a key stands.
ghost use Rattle.std.specs.Prelude.{◌≡◌, ◌≢◌, ◌<◌, ◌≤◌, ◌+◌, ◌-◌, ◌↔◌, ℕ, IfSome, IsTrue, None, false, length, min, true};
ghost use Rattle.cb_number_map.specs.Slots.{IsFirstFree, IsFreed, NoneBehind, TableUpdates, WindowsEndAtUnused, first_slot, number_for, number_in, number_of, start_of, unused};

/// In so many slots, one after the other, a key may stand.
pub(crate) const WINDOW: usize = 8;

/// By this a key is multiplied, so that keys that are near each other stand apart.
const MULTIPLIER: u64 = 11_400_714_819_323_198_485;

/// A slot that never had a key.
pub(crate) const UNUSED: Slot = Slot { key: 0, next: 0 };

/// A slot whose key went.
const FREED: Slot = Slot { key: 1, next: 0 };

/// A slot: a key with its number, or none.
#[derive(Clone, Copy)]
pub(crate) struct Slot {
    /// The key. Where there is none, it tells a slot that never had a key from one whose key went.
    pub(crate) key: u32,
    /// The number after the key's, or 0 where there is no key.
    pub(crate) next: u32,
}

impl Slot {
    /// The number, if the slot has a key.
    pub(crate) fn number(self) -> Option<u32>
        ensures { result ≡ number_of self }
    {
        self.next.checked_sub(1)
    }

    /// The number that the slot has for a key.
    pub(crate) fn number_for(self, key: u32) -> Option<u32>
        ensures { result ≡ number_for key self }
    {
        if self.key == key { self.number() } else { None }
    }

    /// Whether the slot never had a key.
    pub(crate) fn is_unused(self) -> bool
        ensures { IsTrue result ↔ self ≡ unused }
    {
        self.next == UNUSED.next && self.key == UNUSED.key
    }
}

/// In so many slots of a table a key may stand first. Behind the last of them there is room for the rest of a window.
pub(crate) fn places(length: usize) -> usize
    ensures { result ≡ length - 7 }
{
    length.saturating_sub(WINDOW - 1)
}

/// How many slots has the table that comes after one of so many: a few, then about twice as many.
pub(crate) fn longer(length: usize) -> usize {
    if length < WINDOW {
        (length * 2).max(2)
    } else {
        let places = places(length).saturating_mul(2).max(16);
        places.saturating_add(WINDOW - 1)
    }
}

/// The first free slot of a key's window, if no slot of the window has the key.
pub(crate) fn room_for(slots: &[Slot], key: u32) -> Option<usize>
    requires { WindowsEndAtUnused slots.now }
    ensures room { IfSome result (IsFirstFree slots.now key) }
    ensures absent { result ≢ None → number_in slots.now key ≡ None }
{
    let (from, to) = window(slots.len(), key);
    let mut room = None;
    for index in from..to {
        let slot = slots[index];
        if slot.is_unused() {
            return room.or(Some(index));
        }
        if slot.number().is_some() {
            if slot.key == key {
                return None;
            }
        } else if room.is_none() {
            room = Some(index);
        }
    }
    room
}

/// The first free slot of a key's window.
pub(crate) fn free_slot(slots: &[Slot], key: u32) -> Option<usize>
    ensures { IfSome result (IsFirstFree slots.now key) }
{
    let (from, to) = window(slots.len(), key);
    for index in from..to {
        if slots[index].number().is_none() {
            return Some(index);
        }
    }
    None
}

/// Frees the slot of a key, if there is one. The answer is whether there was. It takes constant time.
pub(crate) fn clear(slots: &mut [Slot], key: u32) -> bool
    requires { WindowsEndAtUnused slots.old }
    ensures cleared { TableUpdates slots.old slots.new key None }
    ensures end { WindowsEndAtUnused slots.new }
{
    let mut found = false;
    let (from, to) = window(slots.len(), key);
    for index in from..to {
        let slot = slots[index];
        if slot.is_unused() {
            return found;
        }
        if slot.number_for(key).is_some() {
            slots[index] = freed(slots, index);
            found = true;
        }
    }
    found
}

/// What the slot at a place is once its key has gone. Where no look-up has to go on behind it, it counts as one that never had a key.
fn freed(slots: &[Slot], index: usize) -> Slot
    requires within { index < length slots.now }
    requires end { WindowsEndAtUnused slots.now }
    ensures { IsFreed slots.now index result }
{
    if has_behind(slots, index) {
        FREED
    } else {
        UNUSED
    }
}

/// Whether a slot behind this one has a key in whose window both are. It takes constant time.
fn has_behind(slots: &[Slot], index: usize) -> bool
    requires within { index < length slots.now }
    requires end { WindowsEndAtUnused slots.now }
    ensures { result ≡ false → NoneBehind slots.now index }
{
    for behind in index + 1..slots.len().min(index + WINDOW) {
        let slot = slots[behind];
        if slot.is_unused() {
            return false;
        }
        if slot.number().is_some() && window(slots.len(), slot.key).0 <= index {
            return true;
        }
    }
    false
}

/// Whether all slots are free.
pub(crate) fn are_free(slots: &[Slot]) -> bool
    ensures { result ≡ true → (key : ℕ) → number_in slots.now key ≡ None }
{
    for slot in slots {
        if slot.number().is_some() {
            return false;
        }
    }
    true
}

/// The slots in which a key may stand, of a table of so many: from the first number on, before the second.
pub(crate) fn window(length: usize, key: u32) -> (usize, usize)
    ensures from { result.0 ≡ first_slot key length }
    ensures to { result.1 ≡ min (first_slot key length + 8) length }
    ensures order { result.0 ≤ result.1 }
    ensures within { result.1 ≤ length }
{
    let from = start_of(length, key).min(length);
    (from, from + (length - from).min(WINDOW))
}

/// The place at which the window of a key begins, of a table of so many slots.
#[tactic(auto, unfolding(crate::specs::Slots::start_of))]
fn start_of(length: usize, key: u32) -> usize
    ensures { result ≡ start_of key length }
{
    let spread = u64::from(key).wrapping_mul(MULTIPLIER) >> 32;
    (spread.wrapping_mul(places(length) as u64) >> 32) as usize
}
