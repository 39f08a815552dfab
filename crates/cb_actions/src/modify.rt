//! Facts that are modified.
ghost use Rattle.std.specs.Prelude.{◌≡◌, ◌≤◌, IfOk, IsSome, None, OnOk, Some, drop, false, take};
ghost use Rattle.cb_actions.specs.Acts.{give, give_or_fault};
ghost use Rattle.cb_actions.specs.Effects.{fact_back, fact_replaced, fact_said, index_said, modified, modified_at, replaced_if_new, shared_out, unchanged_value};
ghost use Rattle.cb_actions.specs.Internal.{IsMoved};
ghost use Rattle.cb_actions.specs.Went.{Quietly, Went};
ghost use Rattle.cb_actions.specs.Worlds.{World as State};
ghost use Rattle.cb_facts.specs.FactLists.{IsAbsent, fact_at};
ghost use Rattle.cb_knowledge_base.specs.KnowledgeBase.{put_back};
ghost use Rattle.cb_templates.specs.Building.{changed};

use crate::act::{Break, EarlyEnd};
use crate::change::tell_change;
use crate::rescheduled::{Rescheduled, reschedule};
use crate::retract::index_named;
use crate::world::World;
use cb_exprs::{ModifiedSlot, ModifiedSlots};
use cb_facts::{Fact, Value};
use cb_forms::{Fault, NoMemory, Out, Sink};
use cb_knowledge_base::Mark;
use cb_knowledge_base::laws::a_fact_is_found_at_its_index;
use cb_matches::Matcher;
use cb_templates::{GivenSlot, change_fact};
use std::alloc::Global;

impl<M: Matcher<Mark>> World<M> {
    /// Gives slots of a fact new values. The first value says which fact, and the others are for the slots.
    pub(crate) fn modify<K: Sink>(
        &mut self,
        slots: &ModifiedSlots,
        values: &[Value],
        out: &mut Out<K>,
    ) -> Result<Option<Value>, Break>
        requires { out.old.fault ≡ false }
        ensures went { Went K.writes out.old out.new self.new result
            (modified slots.now values.now self.old) }
        ensures fine { OnOk result (out.new.fault ≡ false) }
    {
        let Some((first, rest)) = values.split_first() else {
            return Err(Break::Ended(EarlyEnd::Fault(Fault::WrongType)));
        };
        let ix = index_said(first)?;
        let given = share_out(self.alloc, slots.as_slice(), rest)?;
        self.modify_at(ix, given, out)
    }

    /// Gives slots of the fact with an index these values.
    fn modify_at<K: Sink>(
        &mut self,
        ix: u64,
        given: Vec<GivenSlot>,
        out: &mut Out<K>,
    ) -> Result<Option<Value>, Break>
        requires { out.old.fault ≡ false }
        ensures { Went K.writes out.old out.new self.new result
            (modified_at given.items ix self.old) }
    {
        let old = self.fact_said(ix)?;
        let fact = self.changed(&old, given)?;
        self.replace_unless_there(ix, fact, out)
    }

    /// The fact with an index, which is to be there.
    fn fact_said(&self, ix: u64) -> Result<Fact, Break>
        ensures fact { Quietly self.now result (fact_said ix self.now) }
        ensures there { OnOk result (IsSome (fact_at self.now.memory.network.facts ix)) }
        ensures given { OnOk result (ix ≤ self.now.memory.last) }
    {
        match self.memory.fact(ix)? {
            Some(fact) => Ok(fact),
            None => Err(Break::Ended(EarlyEnd::Fault(Fault::NoSuchFact))),
        }
    }

    /// The fact that a fact becomes where these slots are given new values.
    fn changed(&self, old: &Fact, given: Vec<GivenSlot>) -> Result<Fact, Break>
        ensures { Quietly self.now result
            (give_or_fault (changed self.now.templates old.now given.items) self.now) }
    {
        let fact = change_fact(self.alloc, &self.relations, old, given)?;
        Ok(fact)
    }

    /// Puts a fact in the place of the one with an index, unless an equal one is there. The answer is its address, or FALSE where
    /// another fact is equal.
    pub(crate) fn replace_unless_there<K: Sink>(
        &mut self,
        ix: u64,
        fact: Fact,
        out: &mut Out<K>,
    ) -> Result<Option<Value>, Break>
        requires fine { out.old.fault ≡ false }
        requires there { IsSome (fact_at self.old.memory.network.facts ix) }
        requires given { ix ≤ self.old.memory.last }
        ensures { Went K.writes out.old out.new self.new result
            (replaced_if_new ix fact self.old) }
    {
        a_fact_is_found_at_its_index();
        let _count = self.memory.facts().len();
        match self.memory.facts().find(&fact) {
            Some(there) => self.unchanged(ix, there),
            None => self.replace(ix, fact, out),
        }
    }

    /// The value where a fact equal to the new one is there.
    fn unchanged(&mut self, ix: u64, there: u64) -> Result<Option<Value>, Break>
        ensures { Quietly self.new result (give (Some (unchanged_value ix there)) self.old) }
    {
        if ix == there {
            return Ok(Some(Value::Fact(ix)));
        }
        Ok(Some(self.no()?))
    }

    /// Puts a fact in the place of the one with an index. The answer is its address.
    fn replace<K: Sink>(
        &mut self,
        ix: u64,
        fact: Fact,
        out: &mut Out<K>,
    ) -> Result<Option<Value>, Break>
        requires fine { out.old.fault ≡ false }
        requires there { IsSome (fact_at self.old.memory.network.facts ix) }
        requires given { ix ≤ self.old.memory.last }
        requires absent { IsAbsent self.old.memory.network.facts fact }
        ensures { Went K.writes out.old out.new self.new result (fact_replaced ix fact self.old) }
    {
        let _count = self.memory.facts().len();
        self.drop_fact(ix, out)?;
        self.put_back(ix, fact, out)?;
        Ok(Some(Value::Fact(ix)))
    }

    /// Adds a fact under an index that a fact had before.
    fn put_back<K: Sink>(&mut self, ix: u64, fact: Fact, out: &mut Out<K>) -> Result<(), Break>
        requires fine { out.old.fault ≡ false }
        requires given { ix ≤ self.old.memory.last }
        requires free { fact_at self.old.memory.network.facts ix ≡ None }
        requires absent { IsAbsent self.old.memory.network.facts fact }
        ensures { Went K.writes out.old out.new self.new result (fact_back ix fact self.old) }
    {
        let line = self.come_line(ix, &fact)?;
        let done = self.recall(ix, fact)?;
        tell_change(line.as_slice(), &done, out)
    }

    /// Gives the knowledge base a fact under an index that it gave before, and the agenda what came of it.
    fn recall(&mut self, ix: u64, fact: Fact) -> Result<Rescheduled, NoMemory>
        requires given { ix ≤ self.old.memory.last }
        requires free { fact_at self.old.memory.network.facts ix ≡ None }
        requires absent { IsAbsent self.old.memory.network.facts fact }
        ensures { IfOk result (IsMoved (put_back ix fact self.old.memory) self.old self.new) }
    {
        let in_step = self.in_step;
        self.in_step = false;
        let delta = self.memory.put_back(ix, fact)?;
        let done = reschedule(
            self.alloc,
            &mut self.agenda,
            &self.rules,
            self.watched.activations,
            in_step,
            &delta,
        )?;
        self.in_step = done.keeps_step(in_step);
        Ok(done)
    }
}

/// The index that a value says: that of an address, or a number.
fn index_said(value: &Value) -> Result<u64, Break>
    ensures { (s : State) → Quietly s result (give_or_fault (index_said value.now) s) }
{
    match value {
        Value::Fact(ix) => Ok(*ix),
        Value::Int(number) => match index_named(*number) {
            Some(ix) => Ok(ix),
            None => Err(Break::Ended(EarlyEnd::Fault(Fault::NoSuchFact))),
        },
        _ => Err(Break::Ended(EarlyEnd::Fault(Fault::WrongType))),
    }
}

/// The slots, each with as many of the values as it has expressions.
fn share_out(
    alloc: Global,
    slots: &[ModifiedSlot],
    values: &[Value],
) -> Result<Vec<GivenSlot>, NoMemory>
    ensures { IfOk result (λ given. given.items ≡ shared_out slots.now values.now) }
{
    let mut given = Vec::with_capacity(alloc, slots.len())?;
    let mut rest = values;
    for slot in slots {
        let (own, others) = split_values(rest, slot.count());
        given.push(GivenSlot::new(slot.name().clone()?, own.to_vec(alloc)?))?;
        rest = others;
    }
    Ok(given)
}

/// The first so many of these values, and the others.
fn split_values(values: &[Value], count: usize) -> (&[Value], &[Value])
    ensures own { result.0.now ≡ take count values.now }
    ensures others { result.1.now ≡ drop count values.now }
{
    if values.len() < count {
        return (values, &[]);
    }
    values.split_at(count)
}
