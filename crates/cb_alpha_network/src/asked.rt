//! The table of what patterns ask for.
ghost use Rattle.std.specs.Prelude.{◌≡◌, ◌≢◌, ℕ, [], IfOk, IfSome, List, OnOk, Some, false, true};
ghost use Rattle.std.specs.BTreeMap.{get};
ghost use Rattle.std.specs.List.Sorted.{IsStrictlySortedBy};
ghost use Rattle.std.specs.Ordering.{nat_cmp};
ghost use Rattle.cb_alpha_network.specs.Asked.{AddsNumbers, IsEntered, IsSpot, KeepsEntered, KeepsSpots, LosesOnly, name_cmp};
ghost use Rattle.cb_alpha_network.specs.Wanted.{sought_in, values_at};
ghost use Rattle.cb_alpha_network.specs.declared.spots.Spot.{Spot as SpotValue};
ghost use Rattle.cb_alpha_network.specs.declared.wanted.Entry.{Entry};
ghost use Rattle.cb_constraints.specs.PatternValues.{PatternValue};
ghost use Rattle.cb_facts.specs.declared.value.Value.{Value};
ghost use Rattle.cb_fit.specs.Shapes.{is_selected};
ghost use Rattle.cb_fit.specs.declared.field_place.FieldPlace.{FieldPlace};
ghost use Rattle.cb_matches.specs.Chains.{In};

use crate::field_places::FieldPlaces;
use crate::spots::{Spot, Spots};
use crate::wanted::{Entry, Sought, Wanted, wanted_of};
use cb_facts::{Fact, Name};
use cb_fit::Pattern;
use cb_fit::laws::{
    a_fact_that_is_selected_has_the_shape, a_fact_with_the_shape_has_the_constants,
};
use cb_forms::NoMemory;
use std::alloc::Global;
use std::collections::{BTreeMap, BTreeSet};
use std::ops::Bound;

/// What patterns ask for, each by its number.
///
/// A call that grows is refused as `NoMemory` where memory is short, or where a count of sharers is full. What is asked for under other
/// numbers stays then too.
#[derive(Drop)]
pub(crate) struct Asked {
    alloc: Global,
    /// Where the patterns for each relation ask for values.
    spots: BTreeMap<Name, Spots>,
    /// By the numbers of these places, then by values.
    entries: BTreeSet<Entry>,
    /// The number that the next places get.
    next: u32,
}

impl Asked {
    /// No pattern asks for anything. It takes no memory yet.
    pub(crate) fn new(alloc: Global) -> Asked {
        Asked {
            alloc,
            spots: BTreeMap::new(alloc),
            entries: BTreeSet::new(alloc),
            next: 0,
        }
    }

    /// Enters what the pattern with a number asks for.
    pub(crate) fn add<T>(&mut self, pattern: &Pattern<T>, number: u32) -> Result<(), NoMemory>
        ensures entered { OnOk result (IsEntered self.new pattern.now number) }
        ensures stay { KeepsEntered self.old self.new }
    {
        let Wanted {
            relation,
            places,
            values,
        } = wanted_of(self.alloc, pattern)?;
        let spot = self.spot(relation, places)?;
        let sought = Sought::new(spot, values);
        self.entries.insert(Entry { sought, number })?;
        Ok(())
    }

    /// The number of these places, which they get if they have none.
    fn spot(&mut self, relation: Name, places: FieldPlaces) -> Result<u32, NoMemory>
        ensures there { IfOk result (λ n. IsSpot self.new.spots relation places n) }
        ensures stay { KeepsSpots self.old.spots self.new.spots }
        ensures entries { self.new.entries ≡ self.old.entries }
    {
        if let Some(number) = spot_of(&self.spots, &relation, &places) {
            return Ok(number);
        }
        let number = self.next;
        add_spot(
            self.alloc,
            &mut self.spots,
            relation,
            Spot { places, number },
        )?;
        self.next = number.wrapping_add(1);
        Ok(number)
    }

    /// Takes out what the pattern with a number asks for. What was entered for other numbers stays.
    pub(crate) fn remove<T>(&mut self, pattern: &Pattern<T>, number: u32) -> Result<(), NoMemory>
        ensures { LosesOnly number self.old self.new }
    {
        let Wanted {
            relation,
            places,
            values,
        } = wanted_of(self.alloc, pattern)?;
        let Some(spot) = spot_of(&self.spots, &relation, &places) else {
            return Ok(());
        };
        let sought = Sought::new(spot, values);
        self.entries.remove(&Entry { sought, number });
        self.forget(&relation, spot);
        Ok(())
    }

    /// Takes the places with a number out, if nothing is asked for there any more.
    fn forget(&mut self, relation: &Name, spot: u32)
        ensures entries { self.new.entries ≡ self.old.entries }
        ensures stay { (r : List ℕ) (places : List FieldPlace) (entry : Entry) → In entry self.old.entries.keys
            → IsSpot self.old.spots r places entry.sought.spot → IsSpot self.new.spots r places entry.sought.spot }
    {
        if !self.is_used(spot) {
            remove_spot(&mut self.spots, relation, spot);
        }
    }

    /// Whether something is asked for at the places with a number.
    fn is_used(&self, spot: u32) -> bool
        ensures { result ≡ false → (entry : Entry) → In entry self.now.entries.keys → entry.sought.spot ≢ spot }
    {
        let first = Entry {
            sought: Sought::first(self.alloc, spot),
            number: 0,
        };
        match self
            .entries
            .range((Bound::Included(&first), Bound::Unbounded))
            .next()
        {
            Some(entry) => entry.sought.spot == spot,
            None => false,
        }
    }

    /// Finds the numbers of the patterns that a fact could fit, in their order, in place of what was found before: among them are those
    /// of all patterns that the fact is selected for.
    pub(crate) fn numbers_for(&self, fact: &Fact, found: &mut Vec<u32>) -> Result<(), NoMemory>
        ensures found { OnOk result ((pattern : PatternValue) (number : ℕ)
            → IsEntered self.now pattern number → is_selected pattern fact.now ≡ true
            → In number found.new.items) }
        ensures ordered { OnOk result (IsStrictlySortedBy nat_cmp found.new.items) }
    {
        a_fact_that_is_selected_has_the_shape();
        a_fact_with_the_shape_has_the_constants();
        found.clear();
        self.add_numbers(fact, found)?;
        found.sort_unstable();
        found.dedup();
        Ok(())
    }

    /// Adds the numbers of those that ask for the fact.
    fn add_numbers(&self, fact: &Fact, found: &mut Vec<u32>) -> Result<(), NoMemory>
        ensures { OnOk result (AddsNumbers self.now fact.now found.new.items) }
    {
        let Some(spots) = self.spots.get(fact.relation_name()) else {
            return Ok(());
        };
        for spot in spots.as_slice() {
            self.add_numbers_at(spot, fact, found)?;
        }
        Ok(())
    }

    /// Adds the numbers of those that ask for the fact by its values there.
    fn add_numbers_at(&self, spot: &Spot, fact: &Fact, found: &mut Vec<u32>) -> Result<(), NoMemory>
        ensures added { OnOk result ((values : List Value) (number : ℕ)
            → values_at spot.now.places fact.now.content ≡ Some values
            → In (record { sought = sought_in spot.now.number values; number = number }) self.now.entries.keys
            → In number found.new.items) }
        ensures stay { OnOk result ((number : ℕ) → In number found.old.items → In number found.new.items) }
    {
        match spot.places.values_in(self.alloc, fact)? {
            Some(values) => self.add_sought(Sought::new(spot.number, values), found),
            None => Ok(()),
        }
    }

    /// Adds the numbers of those that ask just for this.
    fn add_sought(&self, sought: Sought, found: &mut Vec<u32>) -> Result<(), NoMemory>
        ensures added { OnOk result ((entry : Entry) → In entry self.now.entries.keys
            → entry.sought ≡ sought → In entry.number found.new.items) }
        ensures stay { OnOk result ((number : ℕ) → In number found.old.items → In number found.new.items) }
    {
        let first = Entry { sought, number: 0 };
        for entry in self
            .entries
            .range((Bound::Included(&first), Bound::Unbounded))
        {
            if entry.sought != first.sought {
                return Ok(());
            }
            found.push(entry.number)?;
        }
        Ok(())
    }
}

/// The number of these places, if they have one.
fn spot_of(spots: &BTreeMap<Name, Spots>, relation: &Name, places: &FieldPlaces) -> Option<u32>
    ensures { IfSome result (IsSpot spots.now relation.now places.now) }
{
    spots.get(relation)?.number_of(places)
}

/// Adds places with their number. Growth is refused as `NoMemory`, and then the others stay too.
fn add_spot(
    alloc: Global,
    spots: &mut BTreeMap<Name, Spots>,
    relation: Name,
    spot: Spot,
) -> Result<(), NoMemory>
    ensures there { OnOk result (IsSpot spots.new relation spot.places spot.number) }
    ensures stay { KeepsSpots spots.old spots.new }
{
    match spots.get_mut(&relation) {
        Some(others) => others.push(spot)?,
        None => {
            let mut only = Spots::new(alloc);
            only.push(spot)?;
            spots.insert(relation, only)?;
        }
    }
    Ok(())
}

/// Takes out the places with a number. The others stay.
fn remove_spot(spots: &mut BTreeMap<Name, Spots>, relation: &Name, number: u32)
    ensures { (r : List ℕ) (places : List FieldPlace) (n : ℕ) → n ≢ number
        → IsSpot spots.old r places n → IsSpot spots.new r places n }
{
    if let Some(all) = spots.get_mut(relation) {
        all.remove(number);
    }
    settle(spots, relation);
}

/// Takes out a relation for which nothing is asked.
fn settle(spots: &mut BTreeMap<Name, Spots>, relation: &Name)
    ensures { KeepsSpots spots.old spots.new }
{
    if has_none(spots, relation) {
        drop(spots.remove(relation));
    }
}

/// Whether a relation stands there for which nothing is asked.
fn has_none(spots: &BTreeMap<Name, Spots>, relation: &Name) -> bool
    ensures { result ≡ true → (all : List SpotValue) → get name_cmp spots.now relation.now ≡ Some all → all ≡ [] }
{
    match spots.get(relation) {
        Some(all) => all.is_empty(),
        None => false,
    }
}
