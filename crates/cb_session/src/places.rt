//! Where the faults of a script arose, and its limit.
ghost use Rattle.std.specs.Prelude.{◌≡◌, [], ◌++◌, ◌∷◌, ◌-◌, ◌^◌, ◌≤◌, OnErr, OnOk, Some, length, min, take};
ghost use Rattle.cb_session.specs.Places.{no_places};

use cb_facts::Name;
use cb_forms::{History, NoMemory};
use std::alloc::Global;
use std::marker::Model;

/// Where a fault arose.
#[derive(Drop)]
pub struct Place {
    /// The line on which the item begins whose fault it is. Lines are counted by line feeds, from 1 to 2^64 - 1.
    pub line: u64,
    /// The rule in whose actions it arose, where the item is a run.
    pub rule: Option<Name>,
}

/// Where the faults of a script arose, in order, and the line of the limit at which it ended. All faults are counted; the places of
/// the first eight are kept.
///
/// Contracts see the places of all.
#[derive(Drop)]
pub struct Places {
    count: u64,
    first: Vec<Place>,
    limit: Option<u64>,
    all: History<Place>,
}

impl Model for Places {
    ghost use Rattle.std.specs.Prelude.{◌≡◌, ◌-◌, ◌^◌, length, min, take};
    ghost use Rattle.cb_session.specs.Places.{FaultPlaces};

    ghost Value = { FaultPlaces };

    ghost view = { λ p. record { faults = p.all.items; limit = p.limit } };

    ghost invariant = { λ p. (p.count ≡ min (length p.all.items) (2 ^ 64 - 1)) × (p.first.items ≡ take 8 p.all.items) };
}

impl Places {
    /// No fault and no limit.
    pub fn new(alloc: Global) -> Places
        ensures { result ≡ no_places }
    {
        Places {
            count: 0,
            first: Vec::new(alloc),
            limit: None,
            all: History::new(),
        }
    }

    /// Notes one more fault. Growth is refused as `NoMemory`, and then nothing has changed.
    pub(crate) fn add(&mut self, place: Place) -> Result<(), NoMemory>
        ensures ok { OnOk result
            (self.new ≡ record self.old { faults = self.old.faults ++ place ∷ [] }) }
        ensures err { OnErr result (self.new ≡ self.old) }
    {
        let all = self.all.and(&place);
        keep(&mut self.first, place)?;
        self.count = self.count.saturating_add(1);
        self.all = all;
        Ok(())
    }

    /// Notes the line of the limit.
    pub(crate) fn end_at(&mut self, line: u64)
        ensures { self.new ≡ record self.old { limit = Some line } }
    {
        self.limit = Some(line);
    }

    /// How many faults there were, or 2^64 - 1 if there were more.
    pub fn count(&self) -> u64
        ensures { result ≡ min (length self.now.faults) (2 ^ 64 - 1) }
    {
        self.count
    }

    /// The places of the first eight, or of all if there were fewer.
    pub fn first(&self) -> &[Place]
        ensures { result.now ≡ take 8 self.now.faults }
    {
        self.first.as_slice()
    }

    /// The line on which the item begins that ended at a limit, or that is too long.
    pub fn limit(&self) -> Option<u64>
        ensures { result ≡ self.now.limit }
    {
        self.limit
    }
}

/// Keeps a place, unless eight are kept.
fn keep(first: &mut Vec<Place>, place: Place) -> Result<(), NoMemory>
    requires { length first.old.items ≤ 8 }
    ensures ok { OnOk result (first.new.items ≡ take 8 (first.old.items ++ place ∷ [])) }
    ensures err { OnErr result (first.new.items ≡ first.old.items) }
{
    if first.len() < 8 {
        first.push(place)?;
    }
    Ok(())
}
