//! The entries of one salience.
ghost use Rattle.std.specs.Prelude.{◌≡◌, ◌≢◌, ◌⊎◌, ◌++◌, ◌∷◌, [], IfOk, IfSome, None, OnErr, OnOk, false, map, true};
ghost use Rattle.std.specs.List.{filter};
ghost use Rattle.cb_agenda.specs.Agendas.{key_and_salience};
ghost use Rattle.cb_agenda.specs.Internal.{Line, current, active_at, is_current, put_back, ranked, ranked_all};

use crate::activations::{Activations, current_key};
use crate::rank::Rank;
use crate::strategy::Strategy;
use cb_forms::NoMemory;
use cb_matches::Key;
use std::alloc::Global;
use std::collections::VecDeque;
use std::marker::Model;

/// The entries of one salience by rising stamp, one for each activation that came: its stamp and its place.
///
/// An entry whose activation was taken out is stale. It stays until more than half of the entries are stale, or until it stands at
/// the end where activations fire. So each entry is passed over a constant number of times.
///
/// Contracts see stamps and places.
#[derive(Drop)]
pub(crate) struct Lane {
    entries: VecDeque<(u64, usize)>,
    /// So many became stale since all stale ones were let go.
    stale: usize,
}

impl Model for Lane {
    ghost use Rattle.cb_agenda.specs.Internal.{Line};

    ghost Value = { Line };

    ghost view = { λ l. l.entries.items };
}

impl Lane {
    /// No entry. It takes no memory yet.
    fn new(alloc: Global) -> Lane
        ensures { result ≡ [] }
    {
        Lane {
            entries: VecDeque::new(alloc),
            stale: 0,
        }
    }

    /// One entry. Growth is refused as `NoMemory`.
    pub(crate) fn of(alloc: Global, stamp: u64, place: usize) -> Result<Lane, NoMemory>
        ensures { IfOk result (λ lane. lane ≡ (stamp, place) ∷ []) }
    {
        let mut lane = Lane::new(alloc);
        lane.push(stamp, place)?;
        Ok(lane)
    }

    /// Whether there is no entry.
    pub(crate) fn is_empty(&self) -> bool
        ensures yes { result ≡ true → self.now ≡ [] }
        ensures no { result ≡ false → self.now ≢ [] }
    {
        self.entries.is_empty()
    }

    /// Adds the entry of the greatest stamp. Growth is refused as `NoMemory`, and then nothing has changed.
    pub(crate) fn push(&mut self, stamp: u64, place: usize) -> Result<(), NoMemory>
        ensures ok { OnOk result (self.new ≡ self.old ++ (stamp, place) ∷ []) }
        ensures err { OnErr result (self.new ≡ self.old) }
    {
        self.entries.push_back((stamp, place))?;
        Ok(())
    }

    /// Takes the entry out that fires first by this strategy, stale or not, if there is one.
    pub(crate) fn pop(&mut self, strategy: Strategy) -> Option<(u64, usize)>
        ensures some { IfSome result (λ x. self.old ≡ put_back strategy x self.new) }
        ensures none { result ≡ None → self.old ≡ [] }
    {
        match strategy {
            Strategy::Depth => self.entries.pop_back(),
            Strategy::Breadth => self.entries.pop_front(),
        }
    }

    /// One more entry has become stale. Where more than half of them may be, those that are are let go. It takes no memory.
    pub(crate) fn thin(&mut self, salience: i64, activations: &Activations)
        ensures { (self.new ≡ self.old)
            ⊎ (self.new ≡ filter (λ x. is_current (active_at activations.now) (ranked salience x)) self.old) }
    {
        self.stale = self.stale.saturating_add(1);
        if self.entries.len() / 2 < self.stale {
            self.stale = 0;
            let_go(&mut self.entries, salience, activations);
        }
    }

    /// Adds the keys and the salience of the activations by rising stamp. Growth is refused as `NoMemory`.
    pub(crate) fn add_listed(
        &self,
        salience: i64,
        activations: &Activations,
        listed: &mut Vec<(Key, i64)>,
    ) -> Result<(), NoMemory>
        ensures { OnOk result (listed.new.items ≡ listed.old.items
            ++ map key_and_salience (current (active_at activations.now) (ranked_all salience self.now))) }
    {
        let (first, second) = self.entries.as_slices();
        add_listed(first, salience, activations, listed)?;
        add_listed(second, salience, activations, listed)?;
        Ok(())
    }
}

/// Lets the stale entries of a lane go.
fn let_go(entries: &mut VecDeque<(u64, usize)>, salience: i64, activations: &Activations)
    ensures { entries.new.items
        ≡ filter (λ x. is_current (active_at activations.now) (ranked salience x)) entries.old.items }
{
    entries.retain(|entry| {
        let rank = Rank {
            salience,
            stamp: entry.0,
        };
        current_key(activations, entry.1, rank).is_some()
    });
}

/// Adds the keys and the salience of the activations among these entries of a lane.
fn add_listed(
    entries: &[(u64, usize)],
    salience: i64,
    activations: &Activations,
    listed: &mut Vec<(Key, i64)>,
) -> Result<(), NoMemory>
    ensures { OnOk result (listed.new.items ≡ listed.old.items
        ++ map key_and_salience (current (active_at activations.now) (ranked_all salience entries.now))) }
{
    for (stamp, place) in entries {
        let rank = Rank {
            salience,
            stamp: *stamp,
        };
        if let Some(key) = current_key(activations, *place, rank) {
            listed.push((key.clone()?, salience))?;
        }
    }
    Ok(())
}
