//! The facts of an alpha memory by the values of join fields.
ghost use Rattle.std.specs.Prelude.{◌≡◌, ◌<◌, ◌++◌, [], ◌∷◌, ℕ, All, IfSome, List, None, OnErr, OnOk, Option, Some, length, map, option_copied, slice_get, true};
ghost use Rattle.cb_alpha.specs.AlphaMemories.{AreSameFields, candidate_in};
ghost use Rattle.cb_alpha.specs.Buckets.{AreFirstWithin, AreLastWithin, AreSameFilings, AreWithValues, Refiles, values_at};
ghost use Rattle.cb_alpha.specs.Internal.Joined.{AreSmall, IsFiled, IsFiledBut, fields_of};
ghost use Rattle.cb_alpha.specs.JoinValues.{field_values};
ghost use Rattle.cb_facts.specs.Facts.{FactValue};
ghost use Rattle.cb_fit.specs.declared.join_fields.JoinField.{JoinField as Field};

use crate::buckets::Buckets;
use crate::candidate::Candidate;
use crate::fact_values::values_of_fact;
use crate::join_values::JoinValues;
use cb_facts::Fact;
use cb_fit::JoinField;
use cb_forms::NoMemory;
use slab::Slab;
use std::alloc::Global;
use std::marker::Model;

/// The facts of an alpha memory that have these fields, by their values.
#[derive(Drop)]
pub(crate) struct JoinIndex {
    alloc: Global,
    fields: Vec<JoinField>,
    /// Whether facts are kept in the order of values.
    is_ordered: bool,
    facts: Buckets,
}

impl Model for JoinIndex {
    ghost use Rattle.cb_alpha.specs.Internal.Joined.{JoinIndexValue};

    ghost Value = { JoinIndexValue };

    ghost view = { λ j. record { fields = j.fields.items; facts = j.facts } };
}

impl JoinIndex {
    /// No fact is filed, and facts are kept in the order of values or not. It takes no memory besides that of the fields.
    pub(crate) fn new(alloc: Global, fields: Vec<JoinField>, is_ordered: bool) -> JoinIndex
        ensures fields { result.fields ≡ fields.items }
        ensures none { (n : ℕ) → values_at result.facts n ≡ None }
    {
        JoinIndex {
            alloc,
            fields,
            is_ordered,
            facts: Buckets::with_order(alloc, is_ordered),
        }
    }

    /// The fields.
    pub(crate) fn fields(&self) -> &[JoinField]
        ensures { result.now ≡ self.now.fields }
    {
        self.fields.as_slice()
    }

    /// Whether facts are kept in order, if that is asked for.
    fn serves(&self, is_ordered: bool) -> bool {
        self.is_ordered || !is_ordered
    }

    /// Files a fact that isn't filed, if it has the fields. Growth is refused as `NoMemory`, and then nothing has changed.
    pub(crate) fn add(&mut self, number: u32, fact: &Fact) -> Result<(), NoMemory>
        requires { values_at self.old.facts number ≡ None }
        ensures fields { self.new.fields ≡ self.old.fields }
        ensures ok { OnOk result (Refiles self.old.facts self.new.facts number (field_values self.old.fields fact.now.content)) }
        ensures err { OnErr result (AreSameFilings self.old.facts self.new.facts) }
    {
        match values_of_fact(self.alloc, self.fields.as_slice(), fact)? {
            Some(values) => self.facts.add(number, values),
            None => Ok(()),
        }
    }

    /// Takes a fact out, if it is filed.
    pub(crate) fn remove(&mut self, number: u32)
        ensures fields { self.new.fields ≡ self.old.fields }
        ensures facts { Refiles self.old.facts self.new.facts number None }
    {
        self.facts.remove(number);
    }

    /// Takes all facts out, and frees their memory.
    pub(crate) fn clear(&mut self)
        ensures fields { self.new.fields ≡ self.old.fields }
        ensures none { (n : ℕ) → values_at self.new.facts n ≡ None }
    {
        self.facts = Buckets::with_order(self.alloc, self.is_ordered);
    }

    /// The values of a fact, if it is filed.
    pub(crate) fn values_of(&self, number: u32) -> Option<&JoinValues>
        ensures { option_copied result ≡ values_at self.now.facts number }
    {
        self.facts.values_of(number)
    }

    /// The numbers of the facts with these values.
    pub(crate) fn facts_with(&self, values: &JoinValues) -> &[u32]
        ensures { AreWithValues self.now.facts values.now result.now }
    {
        self.facts.members_with(values)
    }

    /// The least values from the first on, before the second, that a fact has, if one has such.
    pub(crate) fn first_within(&self, low: &JoinValues, high: &JoinValues) -> Option<&JoinValues>
        ensures { AreFirstWithin self.now.facts low.now high.now (option_copied result) }
    {
        self.facts.first_within(low, high)
    }

    /// The greatest of them.
    pub(crate) fn last_within(&self, low: &JoinValues, high: &JoinValues) -> Option<&JoinValues>
        ensures { AreLastWithin self.now.facts low.now high.now (option_copied result) }
    {
        self.facts.last_within(low, high)
    }
}

/// Files a fact in each of these, in which it isn't filed. Growth is refused as `NoMemory`, and then it may be filed in some.
pub(crate) fn add_to_all(joins: &mut [JoinIndex], number: u32, fact: &Fact) -> Result<(), NoMemory>
    requires { All (λ j. values_at j.facts number ≡ None) joins.old }
    ensures fields { map fields_of joins.new ≡ map fields_of joins.old }
    ensures ok { OnOk result ((found : ℕ → Option (ℕ × FactValue)) (index : ℕ) → found number ≡ Some (index, fact.now)
        → All (IsFiledBut number found) joins.old → All (IsFiled found) joins.new) }
    ensures others { (found : ℕ → Option (ℕ × FactValue))
        → All (IsFiledBut number found) joins.old → All (IsFiledBut number found) joins.new }
{
    for join in joins.iter_mut() {
        join.add(number, fact)?;
    }
    Ok(())
}

/// Takes a fact out of each of these.
pub(crate) fn remove_from_all(joins: &mut [JoinIndex], number: u32)
    ensures fields { map fields_of joins.new ≡ map fields_of joins.old }
    ensures facts { (found : ℕ → Option (ℕ × FactValue)) → found number ≡ None
        → All (IsFiledBut number found) joins.old → All (IsFiled found) joins.new }
{
    for join in joins.iter_mut() {
        join.remove(number);
    }
}

/// Takes all facts out of each of these, and frees their memory.
pub(crate) fn clear_all(joins: &mut [JoinIndex])
    ensures fields { map fields_of joins.new ≡ map fields_of joins.old }
    ensures none { All (IsFiled (λ n. None)) joins.new }
{
    for join in joins.iter_mut() {
        join.clear();
    }
}

/// Files all facts in a join in which none is filed. Growth is refused as `NoMemory`, and then some may be filed.
pub(crate) fn fill(candidates: &Slab<Candidate>, join: &mut JoinIndex) -> Result<(), NoMemory>
    requires small { AreSmall candidates.now.slots }
    requires none { (n : ℕ) → values_at join.old.facts n ≡ None }
    ensures fields { join.new.fields ≡ join.old.fields }
    ensures filed { OnOk result (IsFiled (candidate_in candidates.now.slots) join.new) }
{
    for key in 0..candidates.capacity() {
        if let Some(candidate) = candidates.get(key) {
            join.add(key as u32, &candidate.fact)?;
        }
    }
    Ok(())
}

/// Adds a join behind the others. Most memories have one, so the first takes room for itself alone. Growth is refused as `NoMemory`, and
/// then nothing has changed.
pub(crate) fn push_join(joins: &mut Vec<JoinIndex>, join: JoinIndex) -> Result<(), NoMemory>
    ensures ok { OnOk result (joins.new.items ≡ joins.old.items ++ join ∷ []) }
    ensures err { OnErr result (joins.new.items ≡ joins.old.items) }
{
    if joins.is_empty() {
        joins.reserve_exact(1)?;
    }
    joins.push(join)?;
    Ok(())
}

/// The place of one of these by fields with the same values in every fact, if there is one: of one that keeps facts in order, if that is
/// asked for.
pub(crate) fn find_join(
    joins: &[JoinIndex],
    fields: &[JoinField],
    is_ordered: bool,
) -> Option<usize>
    ensures within { IfSome result (λ k. k < length joins.now) }
    ensures fields { (k : ℕ) (fs : List Field) → result ≡ Some k → slice_get (map fields_of joins.now) k ≡ Some fs → AreSameFields fs fields.now }
{
    let mut at = 0;
    for join in joins {
        if join.serves(is_ordered) && are_at_same_places(join.fields(), fields) {
            return Some(at);
        }
        at += 1;
    }
    None
}

/// Whether fields are at the same places of a fact.
fn are_at_same_places(some: &[JoinField], others: &[JoinField]) -> bool
    ensures { result ≡ true → AreSameFields some.now others.now }
{
    if some.len() != others.len() {
        return false;
    }
    let mut at = 0;
    while at < some.len() {
        if !are_at_one_place(&some[at], &others[at]) {
            return false;
        }
        at += 1;
    }
    true
}

/// The same of two fields.
fn are_at_one_place(one: &JoinField, other: &JoinField) -> bool
    ensures slot { result ≡ true → one.now.slot ≡ other.now.slot }
    ensures field { result ≡ true → one.now.field ≡ other.now.field }
{
    one.slot == other.slot && one.field == other.field
}
