//! The activations of an agenda, by their places and by their matches.
ghost use Rattle.std.specs.Prelude.{◌≡◌, ◌≢◌, ◌↔◌, ℕ, List, None, Some, false};
ghost use Rattle.std.specs.Option.{option_copied};
ghost use Rattle.cb_agenda.specs.Agendas.{without_key};
ghost use Rattle.cb_agenda.specs.Internal.{IsFiled, KeepsNames, LosesKey, Placed, active_at, current, current_key};
ghost use Rattle.cb_match_table.specs.MatchTables.{key_at, name_at};
ghost use Rattle.cb_number_map.specs.Filed.{ChangesAt};

use crate::rank::Rank;
use cb_match_table::MatchTable;
use cb_matches::Key;

/// The activations of an agenda: the rank of each match that is due, found by the key and the number of the match. An activation has a
/// place, which it keeps, and which another gets once it is gone.
pub(crate) type Activations = MatchTable<Rank>;

/// The place of the activation of a match, if it has one. It is looked up by the number of the match, or, where that isn't known, by the
/// key alone, among all activations.
pub(crate) fn place_of(
    activations: &Activations,
    key: &Key,
    number: u32,
    by_key: bool,
) -> Option<usize>
    requires { by_key ≡ false
        → (i n : ℕ) → name_at activations.now i ≡ Some (key.now, n) → n ≡ number }
    ensures { (i : ℕ) → (result ≡ Some i) ↔ (key_at activations.now i ≡ Some key.now) }
{
    if by_key {
        activations.find_key(key)
    } else {
        activations.find(key, number)
    }
}

/// The key of the activation at a place, if it has this rank. It takes constant time.
pub(crate) fn current_key(activations: &Activations, place: usize, rank: Rank) -> Option<&Key>
    ensures { option_copied result ≡ current_key (active_at activations.now place) rank }
{
    match activations.get(place) {
        Some(entry) => {
            if entry.value == rank {
                Some(&entry.key)
            } else {
                None
            }
        }
        None => None,
    }
}

/// Takes the activation at a place out, if it has this rank. The answer is its key.
pub(crate) fn take(activations: &mut Activations, place: usize, rank: Rank) -> Option<Key>
    ensures before { result ≡ current_key (active_at activations.old place) rank }
    ensures none { result ≡ None → activations.new ≡ activations.old }
    ensures some { result ≢ None
        → ChangesAt (active_at activations.old) (active_at activations.new) place None }
    ensures names { KeepsNames activations.old activations.new }
{
    current_key(activations, place, rank)?;
    let entry = activations.remove(place)?;
    Some(entry.key)
}

/// Takes the activation of a match out, if it has one. The answer is its rank.
pub(crate) fn remove_key(
    activations: &mut Activations,
    key: &Key,
    number: u32,
    by_key: bool,
) -> Option<Rank>
    requires { by_key ≡ false
        → (i n : ℕ) → name_at activations.old i ≡ Some (key.now, n) → n ≡ number }
    ensures due { (xs : List Placed) → current (active_at activations.new) xs
        ≡ without_key (current (active_at activations.old) xs) key.now }
    ensures none { (i : ℕ) → key_at activations.new i ≢ Some key.now }
    ensures filed { (xs : List Placed) → IsFiled xs (active_at activations.old)
        → IsFiled xs (active_at activations.new) }
    ensures names { LosesKey activations.old activations.new key.now }
{
    let place = place_of(activations, key, number, by_key)?;
    let entry = activations.remove(place)?;
    Some(entry.value)
}
