//! Alpha memories by number.
ghost use Rattle.std.specs.Prelude.{◌≡◌, ◌≢◌, ◌⊎◌, ◌<◌, ◌≤◌, ℕ, [], IfOk, None, OnOk, Some, false, length};
ghost use Rattle.cb_alpha.specs.AlphaMemories.{GainsFact, GainsJoin, IsEnded, index_of, live};
ghost use Rattle.cb_alpha_network.specs.Internal.{AreNoted, IsRetracted, KeepsOtherMemories};
ghost use Rattle.cb_alpha_network.specs.Networks.{AreAtRest, IsAtRest, memory_in, no_memory};
ghost use Rattle.cb_matches.specs.Chains.{In};

use cb_alpha::{AlphaMemory, Candidate};
use cb_fit::JoinField;
use cb_forms::NoMemory;
use std::alloc::Global;
use std::marker::Model;

/// Alpha memories by number, and which of them a change concerns.
///
/// Contracts see the memories. Each call that grows is refused as `NoMemory` where memory is short.
#[derive(Drop)]
pub(crate) struct Memories {
    alloc: Global,
    all: Vec<AlphaMemory>,
    /// The numbers of those to which a fact came or from which one went in this change.
    changed: Vec<u32>,
}

impl Model for Memories {
    ghost use Rattle.cb_alpha_network.specs.Internal.{AreNoted};
    ghost use Rattle.cb_alpha_network.specs.Networks.{MemoryValues};

    ghost Value = { MemoryValues };

    ghost view = { λ m. m.all.items };

    ghost invariant = { λ m. AreNoted m.all.items m.changed.items };
}

impl Memories {
    /// No memory. It takes no memory yet.
    pub(crate) fn new(alloc: Global) -> Memories
        ensures { result ≡ [] }
    {
        Memories {
            alloc,
            all: Vec::new(alloc),
            changed: Vec::new(alloc),
        }
    }

    /// The memories.
    pub(crate) fn as_slice(&self) -> &[AlphaMemory]
        ensures { result.now ≡ self.now }
    {
        self.all.as_slice()
    }

    /// The numbers of those to which a fact came or from which one went in this change.
    pub(crate) fn changed(&self) -> &[u32]
        ensures { AreNoted self.now result.now }
    {
        self.changed.as_slice()
    }

    /// Puts a memory under a number, in place of what is there.
    pub(crate) fn put(&mut self, number: u32, memory: AlphaMemory) -> Result<(), NoMemory>
        requires { IsAtRest memory }
        ensures at { OnOk result (memory_in self.new number ≡ memory) }
        ensures others { KeepsOtherMemories number self.old self.new }
        ensures within { OnOk result (number < length self.new) }
        ensures long { length self.old ≤ length self.new }
    {
        reach(self.alloc, &mut self.all, number)?;
        replace(&mut self.all, number, memory);
        Ok(())
    }

    /// Puts an empty memory under a number, in place of what is there.
    pub(crate) fn reset(&mut self, number: u32)
        ensures at { memory_in self.new number ≡ no_memory }
        ensures others { KeepsOtherMemories number self.old self.new }
        ensures long { length self.new ≡ length self.old }
    {
        let memory = AlphaMemory::new(self.alloc);
        replace(&mut self.all, number, memory);
    }

    /// Finds the facts of a memory by the values of these fields too, and keeps them in order if `is_ordered`. The answer is the number of
    /// the join.
    pub(crate) fn add_join(
        &mut self,
        number: u32,
        fields: Vec<JoinField>,
        is_ordered: bool,
    ) -> Result<usize, NoMemory>
        requires within { number < length self.old }
        requires rest { IsAtRest (memory_in self.old number) }
        ensures ok { IfOk result (λ join. GainsJoin (memory_in self.old number) (memory_in self.new number) join fields.items) }
        ensures others { KeepsOtherMemories number self.old self.new }
        ensures long { length self.new ≡ length self.old }
    {
        join_at(&mut self.all, number, fields, is_ordered)
    }

    /// Adds a fact to a memory to which none came in this change, and which has none with its index. The answer is its number there.
    pub(crate) fn add(&mut self, number: u32, fact: Candidate) -> Result<u32, NoMemory>
        requires within { number < length self.old }
        requires none_come { (memory_in self.old number).come ≡ None }
        requires absent { (i : ℕ) → index_of (live (memory_in self.old number) i) ≢ Some fact.0 }
        ensures ok { IfOk result (λ i. GainsFact (memory_in self.old number) (memory_in self.new number) i fact) }
        ensures others { KeepsOtherMemories number self.old self.new }
        ensures long { length self.new ≡ length self.old }
    {
        self.changed.push(number)?;
        add_at(&mut self.all, number, fact)
    }

    /// Takes the fact with an index out of a memory from which none went in this change, if it is there.
    pub(crate) fn remove(&mut self, number: u32, index: u64) -> Result<(), NoMemory>
        requires { (memory_in self.old number).gone ≡ None }
        ensures ok { OnOk result (IsRetracted index (memory_in self.old number) (memory_in self.new number)) }
        ensures others { KeepsOtherMemories number self.old self.new }
        ensures long { length self.new ≡ length self.old }
    {
        if !has(&self.all, number, index) {
            return Ok(());
        }
        self.changed.push(number)?;
        remove_at(&mut self.all, number, index);
        Ok(())
    }

    /// The change ends: what is gone can't be read any more, and nothing went or came.
    pub(crate) fn end_change(&mut self)
        ensures ended { (n : ℕ) → IsEnded (memory_in self.old n) (memory_in self.new n) }
        ensures long { length self.new ≡ length self.old }
    {
        end_those(&mut self.all, self.changed.as_slice());
        self.changed.clear();
    }

    /// Takes out all facts. The joins stay.
    pub(crate) fn clear(&mut self)
        ensures cleared { (n : ℕ) → memory_in self.new n ≡ record no_memory { joins = (memory_in self.old n).joins } }
        ensures long { length self.new ≡ length self.old }
    {
        clear_all(&mut self.all);
        self.changed.clear();
    }
}

/// Adds empty memories up to the one with a number.
fn reach(alloc: Global, all: &mut Vec<AlphaMemory>, number: u32) -> Result<(), NoMemory>
    ensures same { (n : ℕ) → memory_in all.new.items n ≡ memory_in all.old.items n }
    ensures within { OnOk result (number < length all.new.items) }
    ensures long { length all.old.items ≤ length all.new.items }
{
    for _turn in all.len()..number as usize + 1 {
        all.push(AlphaMemory::new(alloc))?;
    }
    Ok(())
}

/// Puts a memory in place of the one with a number, if there is one.
fn replace(all: &mut Vec<AlphaMemory>, number: u32, memory: AlphaMemory)
    ensures at { number < length all.old.items → memory_in all.new.items number ≡ memory }
    ensures beyond { length all.old.items ≤ number → memory_in all.new.items number ≡ no_memory }
    ensures others { KeepsOtherMemories number all.old.items all.new.items }
    ensures long { length all.new.items ≡ length all.old.items }
{
    if let Some(place) = all.get_mut(number as usize) {
        *place = memory;
    }
}

/// Finds the facts of the memory with a number by the values of these fields too, and keeps them in order if `is_ordered`.
fn join_at(
    all: &mut Vec<AlphaMemory>,
    number: u32,
    fields: Vec<JoinField>,
    is_ordered: bool,
) -> Result<usize, NoMemory>
    requires within { number < length all.old.items }
    requires rest { IsAtRest (memory_in all.old.items number) }
    ensures ok { IfOk result (λ join. GainsJoin (memory_in all.old.items number) (memory_in all.new.items number) join fields.items) }
    ensures rest { IsAtRest (memory_in all.new.items number) }
    ensures others { KeepsOtherMemories number all.old.items all.new.items }
    ensures long { length all.new.items ≡ length all.old.items }
{
    let memory = &mut all[number as usize];
    memory.add_join(fields, is_ordered)
}

/// Adds a fact to the memory with a number.
fn add_at(all: &mut Vec<AlphaMemory>, number: u32, fact: Candidate) -> Result<u32, NoMemory>
    requires within { number < length all.old.items }
    requires none_come { (memory_in all.old.items number).come ≡ None }
    requires absent { (i : ℕ) → index_of (live (memory_in all.old.items number) i) ≢ Some fact.0 }
    ensures ok { IfOk result (λ i. GainsFact (memory_in all.old.items number) (memory_in all.new.items number) i fact) }
    ensures others { KeepsOtherMemories number all.old.items all.new.items }
    ensures long { length all.new.items ≡ length all.old.items }
{
    let memory = &mut all[number as usize];
    memory.add(fact)
}

/// Whether the memory with a number has a fact with an index.
fn has(all: &Vec<AlphaMemory>, number: u32, index: u64) -> bool
    ensures { result ≡ false → (i : ℕ) → index_of (live (memory_in all.now.items number) i) ≢ Some index }
{
    match all.get(number as usize) {
        Some(memory) => memory.number(index).is_some(),
        None => false,
    }
}

/// Takes the fact with an index out of the memory with a number, if it is there.
fn remove_at(all: &mut Vec<AlphaMemory>, number: u32, index: u64)
    requires { (memory_in all.old.items number).gone ≡ None }
    ensures ok { IsRetracted index (memory_in all.old.items number) (memory_in all.new.items number) }
    ensures others { KeepsOtherMemories number all.old.items all.new.items }
    ensures long { length all.new.items ≡ length all.old.items }
{
    if let Some(memory) = all.get_mut(number as usize) {
        memory.remove(index);
    }
}

/// The change ends in each memory with one of these numbers, and the others stay.
fn end_those(all: &mut Vec<AlphaMemory>, numbers: &[u32])
    ensures ended { (n : ℕ) → In n numbers.now → IsEnded (memory_in all.old.items n) (memory_in all.new.items n) }
    ensures others { (n : ℕ) → (memory_in all.new.items n ≡ memory_in all.old.items n)
        ⊎ IsEnded (memory_in all.old.items n) (memory_in all.new.items n) }
    ensures long { length all.new.items ≡ length all.old.items }
{
    for number in numbers {
        end_at(all, *number);
    }
}

/// The change ends in the memory with a number.
fn end_at(all: &mut Vec<AlphaMemory>, number: u32)
    ensures at { IsEnded (memory_in all.old.items number) (memory_in all.new.items number) }
    ensures others { KeepsOtherMemories number all.old.items all.new.items }
    ensures long { length all.new.items ≡ length all.old.items }
{
    if let Some(memory) = all.get_mut(number as usize) {
        memory.end_change();
    }
}

/// Takes all facts out of each memory.
fn clear_all(all: &mut Vec<AlphaMemory>)
    ensures cleared { (n : ℕ) → memory_in all.new.items n ≡ record no_memory { joins = (memory_in all.old.items n).joins } }
    ensures long { length all.new.items ≡ length all.old.items }
{
    for memory in all.iter_mut() {
        memory.clear();
    }
}
