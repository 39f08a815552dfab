//! The entries of all saliences.
ghost use Rattle.std.specs.Prelude.{◌≡◌, ◌≢◌, ◌<◌, ◌-◌, ◌⊎◌, ℤ, [], IfOk, IfSome, None, OnErr, OnOk, Some, false, length, map, slice_get, true};
ghost use Rattle.std.specs.BTreeMap.{IsOrdered, get, insert_entry, is_at};
ghost use Rattle.std.specs.List.{AllByRecursion, filter};
ghost use Rattle.std.specs.Map.{set_value};
ghost use Rattle.std.specs.Ordering.{int_cmp};
ghost use Rattle.cb_agenda.specs.Agendas.{key_and_salience};
ghost use Rattle.cb_agenda.specs.Internal.{AreFilled, IsNext, Line, Rises, Thinned, TookAt, current, active_at, laned, stays};
ghost use Rattle.cb_agenda.specs.Ranks.{rank_cmp};

use crate::activations::Activations;
use crate::lane::Lane;
use crate::rank::Rank;
use crate::strategy::Strategy;
use cb_forms::NoMemory;
use cb_matches::Key;
use std::alloc::Global;
use std::collections::BTreeMap;
use std::marker::Model;

/// The entries of an agenda: a lane for each salience that has some. An entry has the place of its activation, and is stale where that
/// was taken out.
///
/// What comes has the greatest stamp, and what fires stands at an end of its lane, so neither is searched for but by its salience.
///
/// Contracts see all entries by rising rank.
#[derive(Drop)]
pub(crate) struct Lanes {
    alloc: Global,
    lanes: BTreeMap<i64, Lane>,
}

impl Model for Lanes {
    ghost use Rattle.std.specs.Prelude.{List};
    ghost use Rattle.cb_agenda.specs.Internal.{AreFilled, Placed, Rises, laned};

    ghost Value = { List Placed };

    ghost view = { λ l. laned l.lanes.entries };

    ghost invariant = { λ l. Rises (laned l.lanes.entries) × AreFilled l.lanes.entries };
}

impl Lanes {
    /// No entry. It takes no memory yet.
    pub(crate) fn new(alloc: Global) -> Lanes
        ensures { result ≡ [] }
    {
        Lanes {
            alloc,
            lanes: BTreeMap::new(alloc),
        }
    }

    /// Takes all entries out.
    pub(crate) fn clear(&mut self)
        ensures { self.new ≡ [] }
    {
        *self = Lanes::new(self.alloc);
    }

    /// Adds an entry with a stamp that is greater than all others. Growth is refused as `NoMemory`, and then nothing has changed.
    pub(crate) fn push(&mut self, rank: Rank, place: usize) -> Result<(), NoMemory>
        requires { AllByRecursion (λ e. e.0.stamp < rank.stamp) self.old }
        ensures ok { OnOk result (self.new ≡ insert_entry rank_cmp self.old rank place) }
        ensures err { OnErr result (self.new ≡ self.old) }
        ensures rising { Rises self.new }
    {
        push_to(self.alloc, &mut self.lanes, rank, place)
    }

    /// Takes the entry out that fires first, stale or not, if there is one.
    pub(crate) fn pop(&mut self, strategy: Strategy) -> Option<(Rank, usize)>
        ensures some { IfSome result (λ x. IsNext strategy self.old x self.new) }
        ensures none { result ≡ None → (self.old ≡ []) × (self.new ≡ []) }
        ensures rising { Rises self.new }
    {
        pop_from(&mut self.lanes, strategy)
    }

    /// An entry of this salience has become stale. Where more than half of that lane is, those entries are let go.
    pub(crate) fn thin(&mut self, salience: i64, activations: &Activations)
        ensures thinned { Thinned (active_at activations.now) self.old self.new }
        ensures rising { Rises self.new }
    {
        if thin_at(&mut self.lanes, salience, activations) {
            drop(self.lanes.remove(&salience));
        }
    }

    /// The keys and saliences of the activations by rising rank. Growth is refused as `NoMemory`.
    pub(crate) fn by_rank(&self, activations: &Activations) -> Result<Vec<(Key, i64)>, NoMemory>
        ensures all { IfOk result
            (λ v. v.items ≡ map key_and_salience (current (active_at activations.now) self.now)) }
        ensures rising { Rises self.now }
    {
        let mut listed = Vec::new(self.alloc);
        for (salience, lane) in self.lanes.iter() {
            lane.add_listed(*salience, activations, &mut listed)?;
        }
        Ok(listed)
    }
}

/// An entry that was taken out of its lane.
struct Popped {
    stamp: u64,
    place: usize,
    /// Whether the lane is empty now.
    emptied: bool,
}

/// Adds an entry with a stamp that is greater than all others.
fn push_to(
    alloc: Global,
    lanes: &mut BTreeMap<i64, Lane>,
    rank: Rank,
    place: usize,
) -> Result<(), NoMemory>
    requires { AllByRecursion (λ e. e.0.stamp < rank.stamp) (laned lanes.old.entries) }
    ensures ok { OnOk result
        (laned lanes.new.entries ≡ insert_entry rank_cmp (laned lanes.old.entries) rank place) }
    ensures err { OnErr result (laned lanes.new.entries ≡ laned lanes.old.entries) }
    ensures filled { AreFilled lanes.old.entries → AreFilled lanes.new.entries }
{
    match lanes.get_mut(&rank.salience) {
        Some(lane) => lane.push(rank.stamp, place),
        None => {
            let lane = Lane::of(alloc, rank.stamp, place)?;
            lanes.insert(rank.salience, lane)?;
            Ok(())
        }
    }
}

/// Takes the entry out that fires first, if there is one.
fn pop_from(lanes: &mut BTreeMap<i64, Lane>, strategy: Strategy) -> Option<(Rank, usize)>
    requires rising { Rises (laned lanes.old.entries) }
    requires filled { AreFilled lanes.old.entries }
    ensures some { IfSome result
        (λ x. IsNext strategy (laned lanes.old.entries) x (laned lanes.new.entries)) }
    ensures none { result ≡ None
        → (laned lanes.old.entries ≡ []) × (laned lanes.new.entries ≡ []) }
    ensures filled { AreFilled lanes.new.entries }
{
    let salience = greatest(lanes)?;
    let Popped {
        stamp,
        place,
        emptied,
    } = pop_at(lanes, salience, strategy)?;
    if emptied {
        drop(lanes.remove(&salience));
    }
    Some((Rank { salience, stamp }, place))
}

/// The greatest salience that has a lane, if there is one.
fn greatest(lanes: &BTreeMap<i64, Lane>) -> Option<i64>
    ensures some { (s : ℤ) → result ≡ Some s → (xs : Line) × (slice_get lanes.now.entries (length lanes.now.entries - 1) ≡ Some (s, xs)) }
    ensures none { result ≡ None → lanes.now.entries ≡ [] }
{
    let (salience, _) = lanes.last_key_value()?;
    Some(*salience)
}

/// Takes the entry of a lane out that fires first.
fn pop_at(lanes: &mut BTreeMap<i64, Lane>, salience: i64, strategy: Strategy) -> Option<Popped>
    ensures took { (xs : Line) → get int_cmp lanes.old salience ≡ Some xs
        → TookAt strategy salience xs lanes.old.entries lanes.new.entries result }
    ensures ordered { IsOrdered int_cmp lanes.old }
{
    let lane = lanes.get_mut(&salience)?;
    let (stamp, place) = lane.pop(strategy)?;
    Some(Popped {
        stamp,
        place,
        emptied: lane.is_empty(),
    })
}

/// An entry of this salience has become stale. The answer is whether there is a lane of this salience that is empty now.
fn thin_at(lanes: &mut BTreeMap<i64, Lane>, salience: i64, activations: &Activations) -> bool
    ensures thinned { (laned lanes.new.entries ≡ laned lanes.old.entries)
        ⊎ (laned lanes.new.entries ≡ filter (stays (active_at activations.now) salience) (laned lanes.old.entries)) }
    ensures set { (xs : Line) × (lanes.new.entries ≡ set_value (is_at (int_cmp salience)) lanes.old.entries xs) }
    ensures empty { result ≡ true → get int_cmp lanes.new salience ≡ Some [] }
    ensures other { result ≡ false → get int_cmp lanes.new salience ≢ Some [] }
{
    match lanes.get_mut(&salience) {
        Some(lane) => {
            lane.thin(salience, activations);
            lane.is_empty()
        }
        None => false,
    }
}
