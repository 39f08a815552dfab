//! The changes of the memories that are found for a fact.
ghost use Rattle.std.specs.Prelude.{◌≡◌, ◌≢◌, ◌≤◌, ◌<◌, ◌+◌, if◌then◌else◌, is_some, count_by, ℕ, None, OnOk, Some, length};
ghost use Rattle.std.specs.List.Sorted.{IsStrictlySortedBy};
ghost use Rattle.std.specs.Ordering.{nat_cmp};
ghost use Rattle.cb_alpha.specs.AlphaMemories.{index_of, live};
ghost use Rattle.cb_alpha_network.specs.Internal.{ChangesThose, IsAsserted, IsRetracted, KeepsOtherMemories};
ghost use Rattle.cb_alpha_network.specs.Networks.{AreAtRest, memory_in, shape_in};
ghost use Rattle.cb_alpha_network.specs.declared.node_place.NodePlace.{NodePlace as Place};
ghost use Rattle.cb_fit.specs.Shapes.{SelectionValue};
ghost use Rattle.cb_matches.specs.Chains.{In};

use crate::memories::Memories;
use crate::node_place::NodePlace;
use crate::user::{User, first_user};
use cb_alpha::Candidate;
use cb_eval::Constants;
use cb_facts::Fact;
use cb_fit::{Meter, Selection};
use cb_forms::NoMemory;
use slab::Slab;
use std::alloc::Global;
use std::collections::BTreeSet;
use std::ops::Bound;

/// Adds a fact to the memories with these numbers that select it. Growth is refused as `NoMemory`.
pub(crate) fn assert_found<T>(
    alloc: Global,
    constants: &Constants,
    shapes: &Slab<Selection<T>>,
    memories: &mut Memories,
    found: &[u32],
    index: u64,
    fact: &Fact,
    meter: &mut Meter<T>,
) -> Result<(), NoMemory>
    requires sorted { IsStrictlySortedBy nat_cmp found.now }
    requires within { (n : ℕ) (s : SelectionValue) → shape_in shapes.now.slots n ≡ Some s → n < length memories.old }
    requires rest { AreAtRest memories.old }
    requires absent { (n : ℕ) (s : SelectionValue) → shape_in shapes.now.slots n ≡ Some s
        → (i : ℕ) → index_of (live (memory_in memories.old n) i) ≢ Some index }
    ensures changed { OnOk result (ChangesThose (λ n. IsAsserted (shape_in shapes.now.slots n) index fact.now)
        found.now memories.old memories.new) }
    ensures long { length memories.new ≡ length memories.old }
    ensures probes { meter.new ≤ meter.old + count_by is_some shapes.now.slots }
{
    for number in found {
        assert_at(
            alloc, constants, shapes, memories, *number, index, fact, meter,
        )?;
    }
    Ok(())
}

/// Adds a fact to the memory with a number, if what stands there selects it. Growth is refused as `NoMemory`.
fn assert_at<T>(
    alloc: Global,
    constants: &Constants,
    shapes: &Slab<Selection<T>>,
    memories: &mut Memories,
    number: u32,
    index: u64,
    fact: &Fact,
    meter: &mut Meter<T>,
) -> Result<(), NoMemory>
    requires within { (s : SelectionValue) → shape_in shapes.now.slots number ≡ Some s → number < length memories.old }
    requires none_come { (memory_in memories.old number).come ≡ None }
    requires absent { (s : SelectionValue) → shape_in shapes.now.slots number ≡ Some s
        → (i : ℕ) → index_of (live (memory_in memories.old number) i) ≢ Some index }
    ensures at { OnOk result (IsAsserted (shape_in shapes.now.slots number) index fact.now
        (memory_in memories.old number) (memory_in memories.new number)) }
    ensures others { KeepsOtherMemories number memories.old memories.new }
    ensures long { length memories.new ≡ length memories.old }
    ensures probes { meter.new ≤ meter.old + (if is_some (shape_in shapes.now.slots number) then 1 else 0) }
{
    let Some(shape) = shapes.get(number as usize) else {
        return Ok(());
    };
    if !shape.selects(alloc, constants, fact, meter)? {
        return Ok(());
    }
    let fact = fact.clone()?;
    memories.add(number, Candidate { index, fact })?;
    Ok(())
}

/// Takes the fact with an index out of the memories with these numbers. Growth is refused as `NoMemory`.
pub(crate) fn retract_found(
    memories: &mut Memories,
    found: &[u32],
    index: u64,
) -> Result<(), NoMemory>
    requires sorted { IsStrictlySortedBy nat_cmp found.now }
    requires rest { AreAtRest memories.old }
    ensures changed { OnOk result (ChangesThose (λ n. IsRetracted index) found.now memories.old memories.new) }
    ensures long { length memories.new ≡ length memories.old }
{
    for number in found {
        memories.remove(*number, index)?;
    }
    Ok(())
}

/// Adds the places of the nodes that use the shapes with these numbers. Growth is refused as `NoMemory`.
pub(crate) fn add_places(
    users: &BTreeSet<User>,
    numbers: &[u32],
    places: &mut Vec<NodePlace>,
) -> Result<(), NoMemory>
    ensures { OnOk result ((n : ℕ) (place : Place) → In n numbers.now → In (record { alpha = n; place = place }) users.now.keys
        → In place places.new.items) }
{
    for number in numbers {
        add_places_of(users, *number, places)?;
    }
    Ok(())
}

/// Adds the places of the nodes that use the shape with a number.
fn add_places_of(
    users: &BTreeSet<User>,
    number: u32,
    places: &mut Vec<NodePlace>,
) -> Result<(), NoMemory>
    ensures added { OnOk result ((place : Place) → In (record { alpha = number; place = place }) users.now.keys
        → In place places.new.items) }
    ensures stay { OnOk result ((place : Place) → In place places.old.items → In place places.new.items) }
{
    let first = first_user(number);
    for user in users.range((Bound::Included(&first), Bound::Unbounded)) {
        if user.alpha != number {
            return Ok(());
        }
        places.push(user.place)?;
    }
    Ok(())
}
