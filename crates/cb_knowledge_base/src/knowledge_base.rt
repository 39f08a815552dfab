//! The knowledge base.
ghost use Rattle.std.specs.Prelude.{◌≡◌, ◌<◌, ◌≤◌, ◌+◌, IfOk, IsSome, OnOk, Some, None, if◌then◌else◌, false, is_err, nat_lt, option_copied};
ghost use Rattle.std.specs.List.{list_any};
ghost use Rattle.std.specs.Str.{bytes_eq};
ghost use Rattle.cb_facts.specs.FactLists.{IsAbsent, IsFactBase, fact_at};
ghost use Rattle.cb_knowledge_base.specs.Internal.WorkingMemories.{IsLessBy, without_rules};
ghost use Rattle.cb_knowledge_base.specs.KnowledgeBase.{AssertTells, Asserts, RetractTells, Retracts, cleared, empty_memory, greatest_index, put_back, restarted, with_next_rule, without_one_rule};
ghost use Rattle.cb_rules.specs.Elements.{branches_of};
ghost use Rattle.cb_matches.specs.Changes.{HaveNumbers, IsDelta, IsNumber, IsRestart, TellsNumbers};
ghost use Rattle.cb_matches.specs.Networks.{bindings_of, empty_network};

use crate::asserted::Asserted;
use crate::mark::Mark;
use cb_exprs::Env;
use cb_facts::{Fact, FactList, Name, RelationCounts};
use cb_fit::Meter;
use cb_forms::NoMemory;
use cb_matches::{Delta, Key, Matcher};
use cb_rules::Ce;
use std::alloc::Global;
use std::collections::BTreeSet;
use std::marker::Model;

/// The greatest index that a fact may have, and the greatest number that a rule may have.
const GREATEST_INDEX: u64 = 9_223_372_036_854_775_807;

/// Rules and facts, and the numbers that were given last.
///
/// Contracts see these as the memory, and the numbers that the matches have by the matcher.
///
/// After `NoMemory` it may be any.
#[derive(Drop)]
pub struct KnowledgeBase<M: Matcher<Mark>> {
    alloc: Global,
    matcher: M,
    /// Counts the tests of patterns that assertions and retractions make.
    meter: Meter<Mark>,
    /// Counts the others.
    other_meter: Meter<Mark>,
    /// How many facts name each relation.
    counts: RelationCounts,
    /// The numbers of the rules.
    rule_numbers: BTreeSet<u64>,
    last: u64,
    last_rule: u64,
}

impl<M: Matcher<Mark>> Model for KnowledgeBase<M> {
    ghost use Rattle.std.specs.Prelude.{◌≡◌, false};
    ghost use Rattle.std.specs.Coded.{codes};
    ghost use Rattle.cb_knowledge_base.specs.Internal.WorkingMemories.{AreKept, base_code};
    ghost use Rattle.cb_knowledge_base.specs.KnowledgeBase.{KnowledgeBaseValue};

    ghost Value = { KnowledgeBaseValue };

    ghost coded = { base_code (Prim.hlevel codes) (Prim.hlevel codes) (Prim.hlevel codes) (Prim.hlevel codes) };

    ghost view = { λ m. record { memory = record { network = M.network m.matcher; last = m.last; last_rule = m.last_rule }; numbers = M.numbers m.matcher } };

    ghost invariant = { λ m. M.is_failed m.matcher ≡ false → AreKept m.counts m.rule_numbers.keys m.last m.last_rule (M.network m.matcher) };
}

impl<M: Matcher<Mark>> KnowledgeBase<M> {
    /// The rules and facts of a matcher that has none. The next index is 1, and so is the number of the next rule. It takes no
    /// memory yet.
    pub fn new(alloc: Global, matcher: M) -> KnowledgeBase<M>
        requires { M.network matcher ≡ empty_network }
        ensures memory { result.memory ≡ empty_memory }
        ensures numbers { result.numbers ≡ M.numbers matcher }
    {
        KnowledgeBase::starting_at(alloc, matcher, 0, 0)
    }

    /// The same, but as if this index and this number of a rule had been given already: the next ones are one more. Each is at
    /// most 2^63 - 1.
    pub fn starting_at(alloc: Global, matcher: M, index: u64, rule: u64) -> KnowledgeBase<M>
        requires none { M.network matcher ≡ empty_network }
        requires index { index ≤ greatest_index }
        requires rule { rule ≤ greatest_index }
        ensures memory { result.memory ≡ record empty_memory { last = index; last_rule = rule } }
        ensures numbers { result.numbers ≡ M.numbers matcher }
    {
        KnowledgeBase {
            alloc,
            matcher,
            meter: Meter::new(Mark),
            other_meter: Meter::new(Mark),
            counts: RelationCounts::new(alloc),
            rule_numbers: BTreeSet::new(alloc),
            last: index,
            last_rule: rule,
        }
    }

    /// How many tests of patterns assertions and retractions have made, all together, or 2^64 - 1 if there were more. Contracts
    /// say nothing of it here. How many one assertion or retraction may make is a clause of the matcher's `assert` and `retract`.
    pub fn probes(&self) -> u64 {
        self.meter.probes()
    }

    /// The facts.
    pub fn facts(&self) -> &FactList
        ensures { result.now ≡ self.now.memory.network.facts }
    {
        self.matcher.facts()
    }

    /// Whether a fact names a relation. It takes logarithmic time, whatever the relations are.
    pub fn mentions(&self, relation: &Name) -> Result<bool, NoMemory>
        ensures { IfOk result (λ it. it ≡ list_any
            (λ entry. bytes_eq entry.1.relation relation.now) self.now.memory.network.facts) }
    {
        if self.matcher.failed() {
            return Err(NoMemory);
        }
        Ok(self.counts.count(relation) > 0)
    }

    /// What variables have by the match with this key.
    pub fn bindings(&self, key: &Key) -> Result<Env, NoMemory>
        ensures { IfOk result (λ env. env ≡ bindings_of self.now.memory.network key.now) }
    {
        self.matcher.bindings(key)
    }

    /// Asserts a fact.
    pub fn assert_one(&mut self, fact: Fact) -> Result<Asserted, NoMemory>
        ensures asserts { IfOk result (Asserts self.old.memory fact self.new.memory) }
        ensures numbers { IfOk result (AssertTells self.old.numbers self.new.numbers) }
        ensures rising { self.old.memory.last_rule ≤ self.new.memory.last_rule }
    {
        if self.matcher.failed() {
            return Err(NoMemory);
        }
        let _count = self.matcher.facts().len();
        if let Some(ix) = self.matcher.facts().find(&fact) {
            return Ok(Asserted::There(ix));
        }
        if self.last >= GREATEST_INDEX {
            return Ok(Asserted::NoIndex);
        }
        let relation = fact.relation_name().clone()?;
        self.counts.add(&relation)?;
        let ix = self.last + 1;
        let delta = self.matcher.assert(ix, fact, &mut self.meter)?;
        self.last = ix;
        Ok(Asserted::Added(ix, delta))
    }

    /// The index that the next fact gets, if one is left.
    pub fn next_index(&self) -> Option<u64>
        ensures { result ≡ (if nat_lt self.now.memory.last greatest_index
            then Some (self.now.memory.last + 1) else None) }
    {
        if self.last >= GREATEST_INDEX {
            return None;
        }
        Some(self.last + 1)
    }

    /// Retracts the fact with an index, and returns what went and came. Where there is none, nothing changes.
    pub fn retract_one(&mut self, ix: u64) -> Result<Option<Delta>, NoMemory>
        ensures retracts { IfOk result (Retracts self.old.memory ix self.new.memory) }
        ensures numbers { IfOk result (RetractTells self.old.numbers self.new.numbers) }
        ensures rising { self.old.memory.last_rule ≤ self.new.memory.last_rule }
    {
        if self.matcher.failed() {
            return Err(NoMemory);
        }
        let fact = self.matcher.facts().get(ix);
        if fact.is_none() {
            return Ok(None);
        }
        discount(&mut self.counts, fact);
        let delta = self.matcher.retract(ix, &mut self.meter)?;
        Ok(Some(delta))
    }

    /// The fact with an index, if there is one. Then that index was given before.
    pub fn fact(&self, ix: u64) -> Result<Option<Fact>, NoMemory>
        ensures fact { IfOk result (λ found. found ≡ fact_at self.now.memory.network.facts ix) }
        ensures given { IfOk result (λ found. IsSome found → ix ≤ self.now.memory.last) }
        ensures base { OnOk result (IsFactBase self.now.memory.network.facts) }
    {
        if self.matcher.failed() {
            return Err(NoMemory);
        }
        let _count = self.matcher.facts().len();
        match self.matcher.facts().get(ix) {
            Some(fact) => Ok(Some(fact.clone()?)),
            None => Ok(None),
        }
    }

    /// Adds a fact under an index that was given before, and that no fact has now. It is equal to no fact that is there. The next
    /// index stays as it is.
    pub fn put_back(&mut self, ix: u64, fact: Fact) -> Result<Delta, NoMemory>
        requires given { ix ≤ self.old.memory.last }
        requires free { fact_at self.old.memory.network.facts ix ≡ None }
        requires absent { IsAbsent self.old.memory.network.facts fact }
        ensures memory { OnOk result (self.new.memory ≡ put_back ix fact self.old.memory) }
        ensures delta { IfOk result
            (IsDelta self.old.memory.network (put_back ix fact self.old.memory).network) }
        ensures numbers { IfOk result
            (TellsNumbers (IsNumber self.old.numbers) (IsNumber self.new.numbers)) }
        ensures rising { self.old.memory.last_rule ≤ self.new.memory.last_rule }
    {
        if self.matcher.failed() {
            return Err(NoMemory);
        }
        let _count = self.matcher.facts().len();
        let relation = fact.relation_name().clone()?;
        self.counts.add(&relation)?;
        let delta = self.matcher.assert(ix, fact, &mut self.meter)?;
        Ok(delta)
    }

    /// Whether a number is left for a rule.
    pub fn has_rule_number(&self) -> bool
        ensures { result ≡ nat_lt self.now.memory.last_rule greatest_index }
    {
        self.last_rule < GREATEST_INDEX
    }

    /// The number that the next rule gets.
    pub fn next_rule(&self) -> u64
        requires { self.now.memory.last_rule < greatest_index }
        ensures { result ≡ self.now.memory.last_rule + 1 }
    {
        self.last_rule + 1
    }

    /// Adds a rule, with the next number.
    pub fn add_rule(&mut self, branches: Vec<Vec<Ce<Mark>>>) -> Result<Delta, NoMemory>
        requires { self.old.memory.last_rule < greatest_index }
        ensures rule { OnOk result
            (self.new.memory ≡ with_next_rule (branches_of branches.items) self.old.memory) }
        ensures delta { IfOk result (IsDelta self.old.memory.network
            (with_next_rule (branches_of branches.items) self.old.memory).network) }
        ensures numbers { IfOk result
            (TellsNumbers (IsNumber self.old.numbers) (IsNumber self.new.numbers)) }
        ensures rising { self.old.memory.last_rule ≤ self.new.memory.last_rule }
    {
        if self.matcher.failed() {
            return Err(NoMemory);
        }
        let id = self.last_rule + 1;
        self.rule_numbers.insert(id)?;
        let delta = self.matcher.add_rule(id, branches, &mut self.other_meter)?;
        self.last_rule = id;
        Ok(delta)
    }

    /// Takes a rule away, if there is one with this number.
    pub fn drop_rule(&mut self, id: u64) -> Result<Delta, NoMemory>
        ensures rule { OnOk result (self.new.memory ≡ without_one_rule id self.old.memory) }
        ensures delta { IfOk result
            (IsDelta self.old.memory.network (without_one_rule id self.old.memory).network) }
        ensures numbers { IfOk result
            (TellsNumbers (IsNumber self.old.numbers) (IsNumber self.new.numbers)) }
        ensures rising { self.old.memory.last_rule ≤ self.new.memory.last_rule }
    {
        if self.matcher.failed() {
            return Err(NoMemory);
        }
        let delta = self.matcher.drop_rule(id)?;
        self.rule_numbers.remove(&id);
        Ok(delta)
    }

    /// Takes all facts away. The next index is 1, and the matches over no facts come anew.
    pub fn restart(&mut self) -> Result<Delta, NoMemory>
        ensures memory { OnOk result (self.new.memory ≡ restarted self.old.memory) }
        ensures delta { IfOk result (IsRestart (restarted self.old.memory).network) }
        ensures numbers { IfOk result (λ delta.
            HaveNumbers (IsNumber self.new.numbers) delta.come.items delta.come_numbers.items) }
        ensures rising { self.old.memory.last_rule ≤ self.new.memory.last_rule }
    {
        if self.matcher.failed() {
            return Err(NoMemory);
        }
        let delta = self.matcher.restart(&mut self.other_meter)?;
        self.counts = RelationCounts::new(self.alloc);
        self.last = 0;
        Ok(delta)
    }

    /// Takes all rules and all facts away. The next index is 1, and the numbers of rules go on.
    pub fn clear(&mut self) -> Result<(), NoMemory>
        ensures memory { OnOk result (self.new.memory ≡ cleared self.old.memory) }
        ensures rising { self.old.memory.last_rule ≤ self.new.memory.last_rule }
    {
        if self.matcher.failed() {
            return Err(NoMemory);
        }
        drop_rules(&mut self.matcher, &self.rule_numbers)?;
        drop(self.matcher.restart(&mut self.other_meter)?);
        self.rule_numbers = BTreeSet::new(self.alloc);
        self.counts = RelationCounts::new(self.alloc);
        self.last = 0;
        Ok(())
    }
}

/// Takes the rules with these numbers away.
fn drop_rules<M: Matcher<Mark>>(matcher: &mut M, numbers: &BTreeSet<u64>) -> Result<(), NoMemory>
    requires { M.is_failed matcher.old ≡ false }
    ensures rules { OnOk result
        (M.network matcher.new ≡ without_rules numbers.now.keys (M.network matcher.old)) }
    ensures failed { M.is_failed matcher.new ≡ is_err result }
{
    for number in numbers.iter() {
        drop(matcher.drop_rule(*number)?);
    }
    Ok(())
}

/// Counts a fact less, if there is one.
fn discount(counts: &mut RelationCounts, fact: Option<&Fact>)
    ensures { IsLessBy (option_copied fact.entry) counts.old counts.new }
{
    match fact {
        Some(fact) => counts.remove(fact.relation_name()),
        None => {}
    }
}
