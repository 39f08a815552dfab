//! An alpha memory.
ghost use Rattle.std.specs.Prelude.{◌≡◌, ◌≢◌, ◌↔◌, [], ℕ, IfOk, IfSome, List, None, OnErr, Some, option_copied, slice_get, true};
ghost use Rattle.cb_alpha.specs.AlphaMemories.{AreFactsWith, AreFirstInFacts, AreLastInFacts, AreLiveNumbers, GainsFact, GainsJoin, IsEnded, IsSameMemory, LosesFact, candidate_in, index_of, live, values_in};
ghost use Rattle.cb_alpha.specs.Turning.{were_in};
ghost use Rattle.cb_fit.specs.declared.join_fields.JoinField.{JoinField as Field};

use crate::candidate::Candidate;
use crate::candidates::{file, has_no_other, insert};
use crate::fact_numbers::FactNumbers;
use crate::join_index::{JoinIndex, clear_all, fill, find_join, push_join, remove_from_all};
use crate::join_values::JoinValues;
use cb_fit::JoinField;
use cb_forms::NoMemory;
use cb_groups::Groups;
use slab::Slab;
use std::alloc::Global;
use std::marker::Model;

/// The facts that have the shape of a pattern, by number, by index, and by the values of join fields.
///
/// A change adds one fact at most, and takes out one at most. Which came and which went can be asked until the change ends. A fact
/// that went can be read until then, and its number is free only afterwards: so no number means two facts in one change.
#[derive(Drop)]
pub struct AlphaMemory {
    alloc: Global,
    /// Those that are there, and until the end of a change the one that is gone.
    candidates: Slab<Candidate>,
    gone: Option<u32>,
    come: Option<u32>,
    joins: Vec<JoinIndex>,
    /// The numbers of those that are there, by index.
    numbers: FactNumbers,
    /// The same numbers, all in the group 0.
    all: Groups,
}

impl Model for AlphaMemory {
    ghost use Rattle.std.specs.Prelude.{map};
    ghost use Rattle.cb_alpha.specs.AlphaMemories.{AlphaMemoryValue, live_in};
    ghost use Rattle.cb_alpha.specs.Internal.FactNumbers.{number_by};
    ghost use Rattle.cb_alpha.specs.Internal.Joined.{AreListed, IsFound, IsReadable, fields_of};

    ghost Value = { AlphaMemoryValue };

    ghost view = { λ m. record { candidates = m.candidates.slots; gone = m.gone; come = m.come; joins = map fields_of m.joins.items } };

    ghost invariant = { λ m. IsFound m.candidates.slots m.gone (number_by m.numbers) m.joins.items × IsReadable m.candidates.slots m.come × AreListed m.all (live_in m.candidates.slots m.gone) };
}

impl AlphaMemory {
    /// No facts, and no join. It takes no memory.
    pub fn new(alloc: Global) -> AlphaMemory
        ensures { result ≡ record { candidates = []; gone = None; come = None; joins = [] } }
    {
        AlphaMemory {
            alloc,
            candidates: Slab::new(alloc),
            numbers: FactNumbers::new(alloc),
            all: Groups::new(alloc),
            gone: None,
            come: None,
            joins: Vec::new(alloc),
        }
    }

    /// The fact with a number, if there is one, or was when the change began.
    pub fn candidate(&self, number: u32) -> Option<&Candidate>
        ensures { option_copied result ≡ candidate_in self.now.candidates number }
    {
        self.candidates.get(number as usize)
    }

    /// The number of the fact with an index, if it is there.
    pub fn number(&self, index: u64) -> Option<u32>
        ensures { (n : ℕ) → (result ≡ Some n) ↔ (index_of (live self.now n) ≡ Some index) }
    {
        self.numbers.get(index)
    }

    /// The number of the fact that went in this change, if one did.
    pub fn gone(&self) -> Option<u32>
        ensures { result ≡ self.now.gone }
    {
        self.gone
    }

    /// The number of the fact that came in this change, if one did.
    pub fn come(&self) -> Option<u32>
        ensures { result ≡ self.now.come }
    {
        self.come
    }

    /// Whether no fact is there.
    pub fn is_empty(&self) -> bool
        ensures { (result ≡ true) ↔ ((n : ℕ) → live self.now n ≡ None) }
    {
        has_no_other(&self.candidates, self.gone)
    }

    /// Whether no fact was there when the change began.
    pub fn was_empty(&self) -> bool
        ensures { (result ≡ true) ↔ ((n : ℕ) → were_in self.now n ≡ None) }
    {
        has_no_other(&self.candidates, self.come)
    }

    /// The numbers of the facts that are there, in any order.
    pub fn numbers(&self) -> &[u32]
        ensures { AreLiveNumbers self.now result.now }
    {
        self.all.members(0)
    }

    /// The values of the fact of a number in the fields of a join, if it is there and has them all. They are as they were filed, so it
    /// takes constant time.
    pub fn values_of(&self, join: usize, number: u32) -> Option<&JoinValues>
        ensures { (fields : List Field) → slice_get self.now.joins join ≡ Some fields
            → option_copied result ≡ values_in fields (live self.now number) }
    {
        self.joins.get(join)?.values_of(number)
    }

    /// The numbers of the facts with these values in the fields of a join.
    pub fn facts_with(&self, join: usize, values: &JoinValues) -> &[u32]
        ensures { (fields : List Field) → slice_get self.now.joins join ≡ Some fields
            → AreFactsWith self.now fields values.now result.now }
    {
        match self.joins.get(join) {
            Some(join) => join.facts_with(values),
            None => &[],
        }
    }

    /// The least values from the first on, before the second, that a fact has in the fields of a join, if one has such. It takes a
    /// logarithmic number of comparisons if the join is in order, and else as many as there are values.
    pub fn first_within(
        &self,
        join: usize,
        low: &JoinValues,
        high: &JoinValues,
    ) -> Option<&JoinValues>
        ensures { (fields : List Field) → slice_get self.now.joins join ≡ Some fields
            → AreFirstInFacts self.now fields low.now high.now (option_copied result) }
    {
        match self.joins.get(join) {
            Some(index) => index.first_within(low, high),
            None => None,
        }
    }

    /// The greatest of them.
    pub fn last_within(
        &self,
        join: usize,
        low: &JoinValues,
        high: &JoinValues,
    ) -> Option<&JoinValues>
        ensures { (fields : List Field) → slice_get self.now.joins join ≡ Some fields
            → AreLastInFacts self.now fields low.now high.now (option_copied result) }
    {
        match self.joins.get(join) {
            Some(index) => index.last_within(low, high),
            None => None,
        }
    }

    /// Finds the facts by the values of these fields too, and if `is_ordered` the least and the greatest values of a range as quickly. The
    /// answer is the number of the join, which may have been there. Growth is refused as `NoMemory`, and then nothing has changed.
    pub fn add_join(&mut self, fields: Vec<JoinField>, is_ordered: bool) -> Result<usize, NoMemory>
        requires { self.old.gone ≡ None }
        ensures ok { IfOk result (λ join. GainsJoin self.old self.new join fields.items) }
        ensures err { OnErr result (self.new ≡ self.old) }
    {
        if let Some(join) = find_join(self.joins.as_slice(), fields.as_slice(), is_ordered) {
            return Ok(join);
        }
        let mut join = JoinIndex::new(self.alloc, fields, is_ordered);
        fill(&self.candidates, &mut join)?;
        let number = self.joins.len();
        push_join(&mut self.joins, join)?;
        Ok(number)
    }

    /// Adds a fact whose index no other has, and returns its number. A change adds one fact at most. Growth is refused as `NoMemory`,
    /// and then nothing has changed.
    pub fn add(&mut self, fact: Candidate) -> Result<u32, NoMemory>
        requires none_come { self.old.come ≡ None }
        requires absent { (n : ℕ) → index_of (live self.old n) ≢ Some fact.0 }
        ensures ok { IfOk result (λ number. GainsFact self.old self.new number fact) }
        ensures err { OnErr result (IsSameMemory self.old self.new) }
    {
        let number = insert(&mut self.candidates, fact)?;
        let filed = file(
            &self.candidates,
            &mut self.numbers,
            &mut self.all,
            self.joins.as_mut_slice(),
            number,
        );
        match filed {
            Ok(()) => {
                self.come = Some(number);
                Ok(number)
            }
            Err(NoMemory) => {
                remove_from_all(self.joins.as_mut_slice(), number);
                self.all.remove(number);
                self.candidates.try_remove(number as usize);
                Err(NoMemory)
            }
        }
    }

    /// Takes out the fact with an index, if it is there, and returns its number. A change takes out one fact at most. It takes no
    /// memory.
    pub fn remove(&mut self, index: u64) -> Option<u32>
        requires { self.old.gone ≡ None }
        ensures found { IfSome result (λ number. LosesFact self.old self.new number index) }
        ensures same { result ≡ None → self.new ≡ self.old }
        ensures absent { result ≡ None → (n : ℕ) → index_of (live self.old n) ≢ Some index }
    {
        let number = self.numbers.remove(index)?;
        remove_from_all(self.joins.as_mut_slice(), number);
        self.all.remove(number);
        self.gone = Some(number);
        Some(number)
    }

    /// The change ends: what is gone can't be read any more, and its number is free.
    pub fn end_change(&mut self)
        ensures { IsEnded self.old self.new }
    {
        self.come = None;
        if let Some(number) = self.gone {
            self.candidates.try_remove(number as usize);
            self.gone = None;
        }
    }

    /// Takes out all facts, as if none had ever been there, and frees their memory. The joins stay.
    pub fn clear(&mut self)
        ensures { self.new ≡ record { candidates = []; gone = None; come = None; joins = self.old.joins } }
    {
        self.candidates = Slab::new(self.alloc);
        self.numbers = FactNumbers::new(self.alloc);
        self.all = Groups::new(self.alloc);
        self.gone = None;
        self.come = None;
        clear_all(self.joins.as_mut_slice());
    }
}
