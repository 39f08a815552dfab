//! The activations of an agenda.
ghost use Rattle.std.specs.Prelude.{◌≡◌, ◌≢◌, ◌<◌, ◌+◌, ◌≤◌, ◌⊎◌, ℕ, List, [], ◌∷◌, IfOk, None, OnErr, OnOk, Option, Some, false, map};
ghost use Rattle.std.specs.BTreeMap.{insert_entry};
ghost use Rattle.std.specs.List.{AllByRecursion, list_any};
ghost use Rattle.cb_agenda.specs.Agendas.{Activation, firing_order, key_and_salience, top_of, without_key, without_keys};
ghost use Rattle.cb_agenda.specs.Internal.{Active, GetsName, IsFiled, IsSplit, IsStampedUpTo, KeepsNames, LosesKey, Rises, active_at, current, left_and_key};
ghost use Rattle.cb_agenda.specs.Ranks.{greatest_stamp, rank_cmp};
ghost use Rattle.cb_match_table.specs.MatchTables.{key_at, name_at};
ghost use Rattle.cb_matches.specs.Chains.{In};
ghost use Rattle.cb_matches.specs.Changes.{HaveNumbers, IsNumber};
ghost use Rattle.cb_matches.specs.Keys.{KeyValue, key_eq};
ghost use Rattle.cb_number_map.specs.Filed.{ChangesAt};

use crate::activations::{Activations, place_of, remove_key, take};
use crate::lanes::Lanes;
use crate::rank::Rank;
use crate::strategy::Strategy;
use cb_forms::NoMemory;
use cb_match_table::MatchTable;
use cb_matches::Key;
use std::alloc::Global;
use std::marker::Model;

/// The activations of an agenda, and the stamp that was given last.
///
/// One that is taken out leaves its entry behind in its lane, where it is stale: its place has no activation, or one of another rank.
///
/// Where a match is looked up by its number, the number has to be its own; where by its key alone, the number is of no account.
///
/// Contracts see the activations by rising rank, each with its key, and the number of each match that is due.
#[derive(Drop)]
pub(crate) struct Due {
    alloc: Global,
    lanes: Lanes,
    activations: Activations,
    last: u64,
}

impl Model for Due {
    ghost use Rattle.std.specs.Prelude.{◌≤◌};
    ghost use Rattle.cb_agenda.specs.Internal.{IsFiled, IsStampedUpTo, NumberedDue, active_at, current, numbers_of};
    ghost use Rattle.cb_agenda.specs.Ranks.{greatest_stamp};

    ghost Value = { NumberedDue };

    ghost view = { λ d. record {
      due = record { entries = current (active_at d.activations) d.lanes; last = d.last };
      numbers = numbers_of d.activations;
    } };

    ghost invariant = { λ d. IsFiled d.lanes (active_at d.activations) × IsStampedUpTo d.last d.lanes × (d.last ≤ greatest_stamp) };
}

impl Due {
    /// No activation, with this stamp as the last. It takes no memory yet.
    pub(crate) fn new(alloc: Global, last: u64) -> Due
        requires { last ≤ greatest_stamp }
        ensures { result ≡ record { due = record { entries = []; last = last }; numbers = [] } }
    {
        Due {
            alloc,
            lanes: Lanes::new(alloc),
            activations: MatchTable::new(alloc),
            last,
        }
    }

    /// The stamp that was given last.
    pub(crate) fn last(&self) -> u64
        ensures last { result ≡ self.now.due.last }
        ensures bound { result ≤ greatest_stamp }
    {
        self.last
    }

    /// Takes all activations out.
    pub(crate) fn clear(&mut self)
        ensures { self.new ≡ record { due = record self.old.due { entries = [] }; numbers = [] } }
    {
        self.lanes.clear();
        self.activations = MatchTable::new(self.alloc);
    }

    /// Whether the match has an activation.
    pub(crate) fn has(&self, key: &Key, number: u32, by_key: bool) -> bool
        requires { by_key ≡ false → (m : ℕ) → IsNumber self.now.numbers key.now m → m ≡ number }
        ensures { result ≡ list_any (λ e. key_eq key.now e.1) self.now.due.entries }
    {
        place_of(&self.activations, key, number, by_key).is_some()
    }

    /// Takes the activations of these matches out. Where the numbers are needed, there is one for each.
    pub(crate) fn remove_keys(&mut self, keys: &[Key], numbers: &[u32], by_key: bool)
        requires { by_key ≡ false → HaveNumbers
            (λ k n. (m : ℕ) → IsNumber self.old.numbers k m → m ≡ n) keys.now numbers.now }
        ensures due { self.new.due ≡ record self.old.due { entries = without_keys self.old.due.entries keys.now } }
        ensures numbers { (k : KeyValue) (n : ℕ) → IsNumber self.new.numbers k n
            → IsNumber self.old.numbers k n × (In k keys.now → ⊥) }
    {
        let mut left = numbers;
        for key in keys {
            let (number, more) = split_number(left);
            self.remove(key, number, by_key);
            left = more;
        }
    }

    /// Takes the activation of a match out, if there is one.
    fn remove(&mut self, key: &Key, number: u32, by_key: bool)
        requires { by_key ≡ false → (m : ℕ) → IsNumber self.old.numbers key.now m → m ≡ number }
        ensures due { self.new.due ≡ record self.old.due { entries = without_key self.old.due.entries key.now } }
        ensures numbers { (k : KeyValue) (n : ℕ) → IsNumber self.new.numbers k n
            → IsNumber self.old.numbers k n × (k ≢ key.now) }
    {
        remove_from(&mut self.lanes, &mut self.activations, key, number, by_key);
    }

    /// Gives a match an activation with the next stamp, in place of the one that it has already, if it has one. Growth is refused as
    /// `NoMemory`, and then that one may be taken out.
    pub(crate) fn put(
        &mut self,
        salience: i64,
        key: &Key,
        number: u32,
        by_key: bool,
    ) -> Result<(), NoMemory>
        requires room { self.old.due.last < greatest_stamp }
        requires known { by_key ≡ false → (m : ℕ) → IsNumber self.old.numbers key.now m → m ≡ number }
        ensures due { OnOk result (self.new.due ≡ record {
          entries = insert_entry rank_cmp (without_key self.old.due.entries key.now)
              (record { salience = salience; stamp = self.old.due.last + 1 }) key.now;
          last = self.old.due.last + 1;
        }) }
        ensures numbers { OnOk result ((k : KeyValue) (n : ℕ) → IsNumber self.new.numbers k n
            → IsNumber self.old.numbers k n ⊎ ((k ≡ key.now) × (n ≡ number))) }
    {
        let stamp = self.last + 1;
        put_in(
            &mut self.lanes,
            &mut self.activations,
            Rank { salience, stamp },
            key,
            number,
            by_key,
        )?;
        self.last = stamp;
        Ok(())
    }

    /// Takes the activation that fires first out, if there is one. The answer is its key.
    pub(crate) fn pop(&mut self, strategy: Strategy) -> Option<Key>
        ensures left { left_and_key self.old.due.entries (top_of strategy self.old.due.entries)
            ≡ (self.new.due.entries, result) }
        ensures last { self.new.due.last ≡ self.old.due.last }
        ensures numbers { (k : KeyValue) (n : ℕ) → IsNumber self.new.numbers k n → IsNumber self.old.numbers k n }
    {
        pop_current(&mut self.lanes, &mut self.activations, strategy)
    }

    /// Keys and saliences in the order of firing. Growth is refused as `NoMemory`.
    pub(crate) fn list(&self, strategy: Strategy) -> Result<Vec<(Key, i64)>, NoMemory>
        ensures { IfOk result
            (λ v. v.items ≡ map key_and_salience (firing_order strategy self.now.due.entries)) }
    {
        let mut listed = self.by_rank()?;
        match strategy {
            Strategy::Depth => {
                listed.reverse();
                Ok(listed)
            }
            Strategy::Breadth => {
                listed.sort_by(|a, b| b.1.cmp(&a.1))?;
                Ok(listed)
            }
        }
    }

    /// Gives back the memory of a rule of which nothing is due.
    pub(crate) fn forget_rule(&mut self, rule: u64)
        ensures { self.new ≡ self.old }
    {
        self.activations.forget_rule(rule);
    }

    /// Keys and saliences by rising rank. Growth is refused as `NoMemory`.
    fn by_rank(&self) -> Result<Vec<(Key, i64)>, NoMemory>
        ensures all { IfOk result (λ v. v.items ≡ map key_and_salience self.now.due.entries) }
        ensures rising { Rises self.now.due.entries }
    {
        self.lanes.by_rank(&self.activations)
    }
}

/// The number of the match that is next, and the numbers of those after it. Where there is none left, it is 0.
pub(crate) fn split_number(numbers: &[u32]) -> (u32, &[u32])
    ensures { IsSplit numbers.now result.0 result.1.now }
{
    match numbers.split_first() {
        Some((number, more)) => (*number, more),
        None => (0, numbers),
    }
}

/// Takes the activation of a match out, if there is one.
fn remove_from(
    lanes: &mut Lanes,
    activations: &mut Activations,
    key: &Key,
    number: u32,
    by_key: bool,
)
    requires filed { IsFiled lanes.old (active_at activations.old) }
    requires known { by_key ≡ false
        → (i n : ℕ) → name_at activations.old i ≡ Some (key.now, n) → n ≡ number }
    ensures filed { IsFiled lanes.new (active_at activations.new) }
    ensures due { current (active_at activations.new) lanes.new
        ≡ without_key (current (active_at activations.old) lanes.old) key.now }
    ensures none { (i : ℕ) → key_at activations.new i ≢ Some key.now }
    ensures stamped { (n : ℕ) → IsStampedUpTo n lanes.old → IsStampedUpTo n lanes.new }
    ensures names { LosesKey activations.old activations.new key.now }
{
    if let Some(rank) = remove_key(activations, key, number, by_key) {
        lanes.thin(rank.salience, activations);
    }
}

/// Gives a match an activation of this rank, in place of the one that it has already, if it has one. The stamp is greater than all
/// others.
fn put_in(
    lanes: &mut Lanes,
    activations: &mut Activations,
    rank: Rank,
    key: &Key,
    number: u32,
    by_key: bool,
) -> Result<(), NoMemory>
    requires filed { IsFiled lanes.old (active_at activations.old) }
    requires above { (n : ℕ) × IsStampedUpTo n lanes.old × (n < rank.stamp) }
    requires known { by_key ≡ false
        → (i n : ℕ) → name_at activations.old i ≡ Some (key.now, n) → n ≡ number }
    ensures filed { IsFiled lanes.new (active_at activations.new) }
    ensures due { OnOk result (current (active_at activations.new) lanes.new
        ≡ insert_entry rank_cmp (without_key (current (active_at activations.old) lanes.old) key.now) rank key.now) }
    ensures stamped { OnOk result (IsStampedUpTo rank.stamp lanes.new) }
    ensures names { OnOk result (GetsName activations.old activations.new key.now number) }
    ensures err { OnErr result ((n : ℕ) → IsStampedUpTo n lanes.old → IsStampedUpTo n lanes.new) }
{
    let own = key.clone()?;
    remove_from(lanes, activations, key, number, by_key);
    let place = activations.add(own, number, rank)?;
    push_place(lanes, activations, rank, place)
}

/// Gives an activation its entry. The stamp is greater than all others. Where growth is refused, the activation is taken out.
fn push_place(
    lanes: &mut Lanes,
    activations: &mut Activations,
    rank: Rank,
    place: usize,
) -> Result<(), NoMemory>
    requires above { (n : ℕ) × IsStampedUpTo n lanes.old × (n < rank.stamp) }
    ensures filed { (find : ℕ → Option Active) (key : KeyValue) → IsFiled lanes.old find
        → find place ≡ None
        → ChangesAt find (active_at activations.old) place (Some (record { key = key; rank = rank }))
        → IsFiled lanes.new (active_at activations.new) }
    ensures due { OnOk result ((find : ℕ → Option Active) (key : KeyValue) → IsFiled lanes.old find
        → find place ≡ None
        → ChangesAt find (active_at activations.old) place (Some (record { key = key; rank = rank }))
        → current (active_at activations.new) lanes.new ≡ insert_entry rank_cmp (current find lanes.old) rank key) }
    ensures stamped { OnOk result (IsStampedUpTo rank.stamp lanes.new) }
    ensures same { OnOk result (activations.new ≡ activations.old) }
    ensures err { OnErr result ((n : ℕ) → IsStampedUpTo n lanes.old → IsStampedUpTo n lanes.new) }
{
    let pushed = lanes.push(rank, place);
    if pushed.is_err() {
        activations.remove(place);
    }
    pushed
}

/// Takes the activation that fires first out, if there is one. The answer is its key. Stale entries that fire before are let go.
fn pop_current(lanes: &mut Lanes, activations: &mut Activations, strategy: Strategy) -> Option<Key>
    requires filed { IsFiled lanes.old (active_at activations.old) }
    ensures filed { IsFiled lanes.new (active_at activations.new) }
    ensures left { left_and_key (current (active_at activations.old) lanes.old)
        (top_of strategy (current (active_at activations.old) lanes.old))
        ≡ (current (active_at activations.new) lanes.new, result) }
    ensures stamped { (n : ℕ) → IsStampedUpTo n lanes.old → IsStampedUpTo n lanes.new }
    ensures names { KeepsNames activations.old activations.new }
{
    while let Some((rank, place)) = lanes.pop(strategy) {
        if let Some(key) = take(activations, place, rank) {
            return Some(key);
        }
    }
    None
}
