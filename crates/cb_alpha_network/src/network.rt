//! The alpha network.
ghost use Rattle.std.specs.Prelude.{◌≡◌, ◌≢◌, ◌≤◌, ◌<◌, ◌+◌, ℕ, [], IfOk, None, OnOk, Some, length};
ghost use Rattle.std.specs.List.Sorted.{IsStrictlySortedBy};
ghost use Rattle.cb_alpha.specs.AlphaMemories.{IsEnded};
ghost use Rattle.cb_alpha.specs.Turning.{HasJoin};
ghost use Rattle.cb_alpha_network.specs.Networks.{AlphasTurn, AreAlphas, AreAtRest, HasChanged, HasNoFact, IsShapeAt, IsShapeOf, KeepsShapes, KeepsShapesBut, NetworkChangesFrom, memory_at, shape_at, use_count};
ghost use Rattle.cb_alpha_network.specs.Places.{place_cmp};
ghost use Rattle.cb_constraints.specs.PatternValues.{PatternValue};
ghost use Rattle.cb_facts.specs.FactLists.{IndexedFacts, fact_at, with_fact, without_fact};
ghost use Rattle.cb_fit.specs.ShapeKeys.{key_of, shape_of};
ghost use Rattle.cb_fit.specs.Shapes.{SelectionValue};
ghost use Rattle.cb_matches.specs.Order.{IsRising};

use crate::asked::Asked;
use crate::changing::{assert_found, retract_found};
use crate::filling::fill;
use crate::last_places::LastPlaces;
use crate::memories::Memories;
use crate::node_place::NodePlace;
use crate::user::{User, is_used};
use cb_alpha::AlphaMemory;
use cb_alpha::laws::{
    a_change_of_an_alpha_memory_ends, a_fact_that_comes_turns_an_alpha_memory,
    a_fact_that_goes_turns_an_alpha_memory, a_fact_that_is_absent_goes,
    a_fact_that_is_not_selected_comes, a_fact_that_is_not_selected_goes,
    a_join_more_leaves_the_facts, an_alpha_memory_begins_over_no_facts,
};
use cb_eval::Constants;
use cb_facts::{Fact, FactList};
use cb_fit::laws::patterns_of_one_shape_are_equal_without_variables;
use cb_fit::{JoinField, Meter, Pattern, Selection, Shape};
use cb_forms::NoMemory;
use slab::Slab;
use std::alloc::Global;
use std::collections::{BTreeMap, BTreeSet};
use std::marker::Model;

/// The alpha memories of the patterns of all rules, each by its number.
///
/// What a pattern asks of a fact alone, its shape and the fields that it compares with one another, has a number, and the memory with
/// that number has the facts that it selects. All nodes whose patterns have one shape use the same; it goes with the last of them. A change asserts
/// one fact or retracts one, and ends by `end_change`. A call that grows is refused as `NoMemory` where memory is short, or where a count
/// of sharers is full; then the memories may have changed in part.
#[derive(Drop)]
pub struct AlphaNetwork<T> {
    /// What the shapes ask for.
    asked: Asked,
    /// The shapes by number.
    shapes: Slab<Selection<T>>,
    /// Their numbers.
    numbers: BTreeMap<Shape, u32>,
    /// The nodes that use them.
    users: BTreeSet<User>,
    /// The memories by the numbers of the shapes.
    memories: Memories,
    /// The numbers that were found for a fact: kept for its room.
    found: Vec<u32>,
    /// The places that were found for the last change.
    last: LastPlaces,
}

impl<T> Model for AlphaNetwork<T> {
    ghost use Rattle.std.specs.Coded.{codes};
    ghost use Rattle.std.specs.Prelude.{length};
    ghost use Rattle.cb_alpha_network.specs.Codes.{network_code};
    ghost use Rattle.cb_alpha_network.specs.Internal.{IsNetwork};
    ghost use Rattle.cb_alpha_network.specs.LastPlaces.{AreLast};
    ghost use Rattle.cb_alpha_network.specs.Networks.{AlphaNetworkValue};
    ghost use Rattle.cb_constraints.specs.Internal.Codes.{pattern_code};
    ghost use Rattle.cb_fit.specs.Internal.Codes.{selection_code};

    ghost Value = { AlphaNetworkValue };

    ghost coded = { network_code (selection_code (pattern_code (Prim.hlevel codes) (Prim.hlevel codes) (Prim.hlevel codes)) (Prim.hlevel codes)) (Prim.hlevel codes) (Prim.hlevel codes) };

    ghost view = { λ n. record { shapes = n.shapes.slots; users = n.users.keys; memories = n.memories } };

    ghost invariant = { λ n. IsNetwork n.asked n.numbers n.shapes.slots n.users.keys (length n.memories) × AreLast n.users.keys n.last };
}

impl<T> AlphaNetwork<T> {
    /// No shapes. It takes no memory yet.
    pub fn new(alloc: Global) -> AlphaNetwork<T>
        ensures { result ≡ record { shapes = []; users = []; memories = [] } }
    {
        AlphaNetwork {
            asked: Asked::new(alloc),
            shapes: Slab::new(alloc),
            numbers: BTreeMap::new(alloc),
            users: BTreeSet::new(alloc),
            memories: Memories::new(alloc),
            found: Vec::new(alloc),
            last: LastPlaces::new(alloc),
        }
    }

    /// The memories by number. Each shape has one.
    pub fn memories(&self) -> &[AlphaMemory]
        ensures memories { result.now ≡ self.now.memories }
        ensures within { (n : ℕ) (p : PatternValue) → IsShapeAt self.now n p → n < length self.now.memories }
    {
        self.memories.as_slice()
    }

    /// Enters the shape of a pattern, for the node at a place; the answer is its number. Where no node used the shape, its memory gets those
    /// of these facts that have it.
    pub fn enter(
        &mut self,
        alloc: Global,
        constants: &Constants,
        facts: &FactList,
        place: NodePlace,
        pattern: &Pattern<T>,
        meter: &mut Meter<T>,
    ) -> Result<u32, NoMemory>
        requires { AreAtRest self.old.memories }
        ensures entered { IfOk result (λ n. IsShapeOf self.new n pattern.now place) }
        ensures within { IfOk result (λ n. n < length self.new.memories) }
        ensures stay { OnOk result (KeepsShapes self.old self.new) }
        ensures rest { OnOk result (AreAtRest self.new.memories) }
        ensures alphas { OnOk result (AreAlphas self.old facts.now → AreAlphas self.new facts.now) }
        ensures count { OnOk result (use_count self.new ≤ use_count self.old + 1) }
    {
        patterns_of_one_shape_are_equal_without_variables();
        let shape = pattern.shape(alloc)?;
        if let Some(number) = self.numbers.get(&shape).copied() {
            self.last.forget();
            self.users.insert(User {
                alpha: number,
                place,
            })?;
            return Ok(number);
        }
        self.enter_first(alloc, constants, facts, place, shape, pattern, meter)
    }

    /// Enters the shape of a pattern that no node uses, for the node at a place; the answer is the number that it gets. Its memory gets
    /// those of these facts that have it.
    fn enter_first(
        &mut self,
        alloc: Global,
        constants: &Constants,
        facts: &FactList,
        place: NodePlace,
        shape: Shape,
        pattern: &Pattern<T>,
        meter: &mut Meter<T>,
    ) -> Result<u32, NoMemory>
        requires rest { AreAtRest self.old.memories }
        requires shape { shape ≡ shape_of pattern.now }
        requires first { (n : ℕ) (s : SelectionValue) → shape_at self.old n ≡ Some s → key_of s ≢ shape }
        ensures entered { IfOk result (λ n. IsShapeOf self.new n pattern.now place) }
        ensures within { IfOk result (λ n. n < length self.new.memories) }
        ensures stay { OnOk result (KeepsShapes self.old self.new) }
        ensures rest { OnOk result (AreAtRest self.new.memories) }
        ensures alphas { OnOk result (AreAlphas self.old facts.now → AreAlphas self.new facts.now) }
        ensures count { OnOk result (use_count self.new ≤ use_count self.old + 1) }
    {
        let (selection, memory) = fill(alloc, constants, facts, pattern, meter)?;
        self.shapes.reserve(1)?;
        let Ok(number) = u32::try_from(self.shapes.vacant_key()) else {
            return Err(NoMemory);
        };
        self.last.forget();
        self.users.insert(User {
            alpha: number,
            place,
        })?;
        self.asked.add(pattern, number)?;
        self.memories.put(number, memory)?;
        self.numbers.insert(shape, number)?;
        self.shapes.insert_reserved(selection);
        Ok(number)
    }

    /// Finds the facts of a shape by the values of these fields too, and if `is_ordered` the least and the greatest values of a range as
    /// quickly. The answer is the number of the join in its memory; it may be one that was there, which finds them by the same values.
    pub fn join(
        &mut self,
        number: u32,
        fields: Vec<JoinField>,
        is_ordered: bool,
    ) -> Result<usize, NoMemory>
        requires there { shape_at self.old number ≢ None }
        requires rest { AreAtRest self.old.memories }
        ensures joined { IfOk result (λ join. HasJoin (memory_at self.new number) join fields.items) }
        ensures shapes { self.new.shapes ≡ self.old.shapes }
        ensures users { self.new.users ≡ self.old.users }
        ensures stay { OnOk result (KeepsShapes self.old self.new) }
        ensures rest { OnOk result (AreAtRest self.new.memories) }
        ensures alphas { OnOk result ((fs : IndexedFacts) → AreAlphas self.old fs → AreAlphas self.new fs) }
    {
        a_join_more_leaves_the_facts();
        self.memories.add_join(number, fields, is_ordered)
    }

    /// The node at a place no longer uses a shape. Where it was the last that did, the shape goes, and its memory.
    pub fn leave(&mut self, alloc: Global, number: u32, place: NodePlace) -> Result<(), NoMemory>
        ensures others { OnOk result (KeepsShapesBut place self.old self.new) }
        ensures alphas { OnOk result ((fs : IndexedFacts) → AreAlphas self.old fs → AreAlphas self.new fs) }
        ensures count { OnOk result ((p : PatternValue) → IsShapeOf self.old number p place
            → use_count self.new + 1 ≡ use_count self.old) }
    {
        let user = User {
            alpha: number,
            place,
        };
        let Some(selection) = self.shapes.get(number as usize) else {
            self.users.remove(&user);
            return Ok(());
        };
        let shape = selection.key(alloc)?;
        self.users.remove(&user);
        if is_used(&self.users, number) {
            return Ok(());
        }
        self.numbers.remove(&shape);
        self.memories.reset(number);
        match self.shapes.try_remove(number as usize) {
            Some(selection) => self.asked.remove(selection.shape(), number),
            None => Ok(()),
        }
    }

    /// Adds a fact to the memory of each shape that it has. No shape is tested but those that ask for the fact's constants.
    pub fn assert(
        &mut self,
        alloc: Global,
        constants: &Constants,
        index: u64,
        fact: &Fact,
        meter: &mut Meter<T>,
    ) -> Result<(), NoMemory>
        requires rest { AreAtRest self.old.memories }
        requires free { HasNoFact self.old index }
        ensures changes { OnOk result (NetworkChangesFrom self.old self.new) }
        ensures turn { OnOk result ((fs : IndexedFacts) → AreAlphas self.old fs → fact_at fs index ≡ None
            → AlphasTurn self.new fs (with_fact fs index fact.now)) }
        ensures probes { meter.new ≤ meter.old + use_count self.old }
    {
        a_fact_that_comes_turns_an_alpha_memory();
        a_fact_that_is_not_selected_comes();
        self.asked.numbers_for(fact, &mut self.found)?;
        assert_found(
            alloc,
            constants,
            &self.shapes,
            &mut self.memories,
            self.found.as_slice(),
            index,
            fact,
            meter,
        )
    }

    /// Takes a fact out of all memories that have it. It tests no pattern.
    pub fn retract(&mut self, alloc: Global, index: u64, fact: &Fact) -> Result<(), NoMemory>
        requires { AreAtRest self.old.memories }
        ensures changes { OnOk result (NetworkChangesFrom self.old self.new) }
        ensures turn { OnOk result ((fs : IndexedFacts) → AreAlphas self.old fs → IsRising fs
            → fact_at fs index ≡ Some fact.now → AlphasTurn self.new fs (without_fact fs index)) }
    {
        a_fact_that_goes_turns_an_alpha_memory();
        a_fact_that_is_absent_goes();
        a_fact_that_is_not_selected_goes();
        self.asked.numbers_for(fact, &mut self.found)?;
        retract_found(&mut self.memories, self.found.as_slice(), index)
    }

    /// Finds the places of the nodes that use shapes to whose memories a fact came or from which one went in this change, in their order,
    /// in place of what was found before.
    pub fn places_changed(&mut self, found: &mut Vec<NodePlace>) -> Result<(), NoMemory>
        ensures same { self.new ≡ self.old }
        ensures changed { OnOk result (HasChanged self.old found.new.items) }
        ensures ordered { OnOk result (IsStrictlySortedBy place_cmp found.new.items) }
    {
        self.last.find(&self.users, self.memories.changed())?;
        found.clear();
        found.extend_from_slice(self.last.as_slice())?;
        Ok(())
    }

    /// The change ends: what is gone can't be read any more, and nothing went or came. It takes no memory.
    pub fn end_change(&mut self)
        ensures shapes { self.new.shapes ≡ self.old.shapes }
        ensures users { self.new.users ≡ self.old.users }
        ensures ended { (n : ℕ) → IsEnded (memory_at self.old n) (memory_at self.new n) }
        ensures alphas { (fs fs' : IndexedFacts) → AlphasTurn self.old fs fs' → AreAlphas self.new fs' }
    {
        a_change_of_an_alpha_memory_ends();
        self.memories.end_change();
    }

    /// Takes out all facts. The shapes and the joins stay.
    pub fn clear(&mut self)
        ensures shapes { self.new.shapes ≡ self.old.shapes }
        ensures users { self.new.users ≡ self.old.users }
        ensures joins { (n : ℕ) → (memory_at self.new n).joins ≡ (memory_at self.old n).joins }
        ensures alphas { AreAlphas self.new [] }
    {
        an_alpha_memory_begins_over_no_facts();
        self.memories.clear();
    }
}
