//! The facts of a working memory.
ghost use Rattle.std.specs.Prelude.{◌≡◌, ◌≢◌, ◌↔◌, ◌+◌, if◌then◌else◌, is_some, ℕ, [], None, Option, Some, IsTrue, IfSome, IfNone, OnOk, OnErr, false, length, option_copied, option_map, slice_get, true};
ghost use Rattle.std.specs.BTreeMap.{is_at};
ghost use Rattle.std.specs.Map.{remove_entry};
ghost use Rattle.std.specs.Map.Iter.{ShowsInOrder, deref_pair};
ghost use Rattle.std.specs.Ordering.{nat_cmp};
ghost use Rattle.cb_facts.specs.Facts.{FactValue, fact_eq};
ghost use Rattle.cb_facts.specs.FactLists.{fact_at, with_fact, without_fact, ChangesOnly, IsAbsent, IsFactBase};
ghost use Rattle.cb_facts.specs.Internal.{index_in};
ghost use Rattle.cb_facts.specs.Internal.FactOrder.{fact_cmp, mix_of};
ghost use Rattle.cb_number_map.specs.Filed.{AreFound, ChangesAt, LeavesAside, with_own_key};
ghost use Rattle.cb_number_map.specs.NumberMaps.{number_at};

use crate::fact::Fact;
use cb_forms::NoMemory;
use cb_number_map::NumberMap;
use std::alloc::Global;
use std::collections::BTreeMap;
use std::collections::btree_map::Iter;
use std::marker::Model;

/// Facts by their indices, no two of them equal.
///
/// An equal fact is found, and a fact is added and removed, in logarithmic time, whatever the facts are, but for the growth of a table.
/// There the index of a fact is filed under half of the fact's hash, so that it is mostly seen in constant time that no fact is equal.
/// A fact that comes when another index is filed under the same half stands aside, in the order of facts, and so does one whose index
/// has more than 32 bits.
///
/// Contracts see the list of the pairs of an index and its fact, in rising order of the indices.
#[derive(Drop)]
pub struct FactList {
    // Fields drop in order: these go first, so that dropping `facts` frees them in the order of their indices.
    filed: NumberMap,
    aside: BTreeMap<Fact, u64>,
    facts: BTreeMap<u64, Fact>,
}

impl Model for FactList {
    ghost use Rattle.cb_facts.specs.FactLists.{IndexedFacts, fact_at};
    ghost use Rattle.cb_facts.specs.Internal.{IsIndexed, index_in};

    ghost Value = { IndexedFacts };

    ghost view = { λ l. l.facts.entries };

    ghost invariant = { λ l. IsIndexed l.facts.entries (index_in (fact_at l.facts.entries) l.filed l.aside) };
}

impl FactList {
    /// No facts. It takes no memory yet.
    pub fn new(alloc: Global) -> FactList
        ensures { result ≡ [] }
    {
        FactList {
            filed: NumberMap::new(alloc),
            aside: BTreeMap::new(alloc),
            facts: BTreeMap::new(alloc),
        }
    }

    /// How many facts there are.
    pub fn len(&self) -> usize
        ensures len { result ≡ length self.now }
        ensures base { IsFactBase self.now }
    {
        self.facts.len()
    }

    /// Whether there is no fact.
    pub fn is_empty(&self) -> bool
        ensures { IsTrue result ↔ (length self.now ≡ 0) }
    {
        self.facts.is_empty()
    }

    /// The index of the fact that is equal to this one, or `None` where no fact is.
    pub fn find(&self, fact: &Fact) -> Option<u64>
        ensures found { IfSome result (λ ix. fact_at self.now ix ≡ Some fact.now) }
        ensures absent { IfNone result (IsAbsent self.now fact.now) }
    {
        match filed_with(&self.filed, &self.facts, fact) {
            Some(ix) => Some(ix),
            None => self.aside.get(fact).copied(),
        }
    }

    /// The fact with this index, or `None` where there is none.
    pub fn get(&self, ix: u64) -> Option<&Fact>
        ensures { option_copied result ≡ fact_at self.now ix }
    {
        self.facts.get(&ix)
    }

    /// Adds a fact under an index that no fact has. Growth is refused as `NoMemory`, and then nothing has changed.
    pub fn add(&mut self, ix: u64, fact: Fact) -> Result<(), NoMemory>
        requires free { fact_at self.old ix ≡ None }
        requires absent { IsAbsent self.old fact }
        ensures ok { OnOk result (self.new ≡ with_fact self.old ix fact) }
        ensures changes { OnOk result
            (ChangesOnly (fact_at self.old) (fact_at self.new) ix (Some fact)) }
        ensures len { OnOk result (length self.new ≡ length self.old + 1) }
        ensures base { OnOk result (IsFactBase self.new) }
        ensures err { OnErr result (self.new ≡ self.old) }
    {
        let shared = fact.clone()?;
        self.facts.insert(ix, shared)?;
        let filed = file(&mut self.filed, &mut self.aside, fact, ix);
        if filed.is_err() {
            take_out(&mut self.facts, ix);
        }
        filed
    }

    /// Removes the fact with this index. Where there is none, nothing changes.
    pub fn remove(&mut self, ix: u64)
        ensures removed { self.new ≡ without_fact self.old ix }
        ensures changes { ChangesOnly (fact_at self.old) (fact_at self.new) ix None }
        ensures len { length self.new + (if is_some (fact_at self.old ix) then 1 else 0)
            ≡ length self.old }
        ensures base { IsFactBase self.new }
    {
        if let Some(fact) = self.facts.remove(&ix) {
            unfile(&mut self.filed, &mut self.aside, &fact, ix);
        }
    }

    /// The fact with `place` facts before it in rising order of the indices, with its index, or `None` where there are no
    /// more facts than `place`. It takes time in proportion to `place`.
    pub fn at(&self, place: usize) -> Option<(u64, &Fact)>
        ensures { option_map (λ p. (p.0, p.1.now)) result ≡ slice_get self.now place }
    {
        let (ix, fact) = self.iter().nth(place)?;
        Some((*ix, fact))
    }

    /// The pairs of an index and its fact, in rising order of the indices.
    pub fn iter(&self) -> Iter<'_, u64, Fact>
        ensures pairs { result ≡ self.now }
        ensures runs { ShowsInOrder (deref_pair {K = ℕ} {X = FactValue}) }
        ensures base { IsFactBase self.now }
    {
        self.facts.iter()
    }
}

/// Takes the fact with an index out, if there is one.
fn take_out(facts: &mut BTreeMap<u64, Fact>, ix: u64)
    ensures { facts.new.entries ≡ remove_entry (is_at (nat_cmp ix)) facts.old.entries }
{
    facts.remove(&ix);
}

/// The index that is filed under the mix of this fact, if it is the fact's.
fn filed_with(filed: &NumberMap, facts: &BTreeMap<u64, Fact>, fact: &Fact) -> Option<u64>
    ensures { result ≡ with_own_key fact_eq (fact_at facts.now.entries)
        (number_at filed.now (mix_of fact.now)) fact.now }
{
    let ix = u64::from(filed.get(fact.mix())?);
    if *facts.get(&ix)? == *fact {
        Some(ix)
    } else {
        None
    }
}

/// Notes the index that a fact gets. Growth is refused as `NoMemory`, and then nothing has changed.
fn file(
    filed: &mut NumberMap,
    aside: &mut BTreeMap<Fact, u64>,
    fact: Fact,
    ix: u64,
) -> Result<(), NoMemory>
    ensures ok { OnOk result ((facts more : ℕ → Option FactValue)
        → AreFound (index_in facts filed.old aside.old) facts
        → ((n : ℕ) → facts n ≢ Some fact) → facts ix ≡ None
        → ChangesAt facts more ix (Some fact)
        → AreFound (index_in more filed.new aside.new) more) }
    ensures err { OnErr result ((facts : ℕ → Option FactValue)
        → AreFound (index_in facts filed.old aside.old) facts
        → AreFound (index_in facts filed.new aside.new) facts) }
{
    let mix = fact.mix();
    match u32::try_from(ix) {
        Ok(short) if filed.get(mix).is_none() => filed.insert(mix, short),
        _ => {
            aside.insert(fact, ix)?;
            Ok(())
        }
    }
}

/// Forgets the index of a fact.
fn unfile(filed: &mut NumberMap, aside: &mut BTreeMap<Fact, u64>, fact: &Fact, ix: u64)
    ensures { (facts less : ℕ → Option FactValue)
        → AreFound (index_in facts filed.old aside.old) facts
        → facts ix ≡ Some fact.now → ChangesAt facts less ix None
        → AreFound (index_in less filed.new aside.new) less }
{
    forget_aside(aside, fact);
    let mix = fact.mix();
    if has_filed(filed, mix, ix) {
        filed.remove(mix);
    }
}

/// Takes a fact out of those that stand aside. Mostly none does.
fn forget_aside(aside: &mut BTreeMap<Fact, u64>, fact: &Fact)
    ensures { LeavesAside fact_cmp aside.old aside.new fact.now }
{
    if !aside.is_empty() {
        aside.remove(fact);
    }
}

/// Whether this index is filed under a mix.
fn has_filed(filed: &NumberMap, mix: u32, ix: u64) -> bool
    ensures yes { result ≡ true → number_at filed.now mix ≡ Some ix }
    ensures no { result ≡ false → number_at filed.now mix ≢ Some ix }
{
    match filed.get(mix) {
        Some(found) => u64::from(found) == ix,
        None => false,
    }
}
