//! Facts that are retracted.
ghost use Rattle.std.specs.Prelude.{◌≡◌, IfOk, OnOk, false};
ghost use Rattle.std.specs.List.{list_all};
ghost use Rattle.std.specs.Map.{keys_of};
ghost use Rattle.cb_actions.specs.Acts.{each};
ghost use Rattle.cb_actions.specs.Changes.{gone_line};
ghost use Rattle.cb_actions.specs.Effects.{fact_gone, fact_taken, index_named, is_retractable, retracted, retracted_one, taken_by};
ghost use Rattle.cb_actions.specs.Internal.{IsForgotten};
ghost use Rattle.cb_actions.specs.Went.{Went};
ghost use Rattle.cb_facts.specs.FactLists.{fact_at};

use crate::act::{Break, EarlyEnd};
use crate::change::tell_change;
use crate::rescheduled::{Rescheduled, reschedule};
use crate::world::World;
use cb_facts::{FactList, Value};
use cb_forms::{Fault, NoMemory, Out, Sink};
use cb_knowledge_base::Mark;
use cb_lines::add_fact_line;
use cb_matches::Matcher;
use std::alloc::Global;

impl<M: Matcher<Mark>> World<M> {
    /// Retracts the facts that values name.
    pub(crate) fn retract<K: Sink>(
        &mut self,
        values: &[Value],
        out: &mut Out<K>,
    ) -> Result<Option<Value>, Break>
        requires { out.old.fault ≡ false }
        ensures went { Went K.writes out.old out.new self.new result (retracted values.now self.old) }
        ensures fine { OnOk result (out.new.fault ≡ false) }
    {
        if !are_retractable(values) {
            return Err(Break::Ended(EarlyEnd::Fault(Fault::WrongType)));
        }
        self.retract_each(values, out)?;
        Ok(None)
    }

    fn retract_each<K: Sink>(&mut self, values: &[Value], out: &mut Out<K>) -> Result<(), Break>
        requires { out.old.fault ≡ false }
        ensures { Went K.writes out.old out.new self.new result
            (each retracted_one values.now self.old) }
    {
        for value in values {
            self.retract_one(value, out)?;
        }
        Ok(())
    }

    /// Retracts what a value says.
    fn retract_one<K: Sink>(&mut self, value: &Value, out: &mut Out<K>) -> Result<(), Break>
        requires { out.old.fault ≡ false }
        ensures { Went K.writes out.old out.new self.new result (retracted_one value.now self.old) }
    {
        match value {
            Value::Fact(ix) => self.drop_fact(*ix, out),
            Value::Int(number) => self.take_fact(*number, out),
            _ => self.drop_facts(out),
        }
    }

    /// Retracts the fact whose index is this number.
    fn take_fact<K: Sink>(&mut self, number: i64, out: &mut Out<K>) -> Result<(), Break>
        requires { out.old.fault ≡ false }
        ensures { Went K.writes out.old out.new self.new result
            (taken_by (index_named number) self.old) }
    {
        match index_named(number) {
            Some(ix) => self.take_index(ix, out),
            None => Err(Break::Ended(EarlyEnd::Fault(Fault::NoSuchFact))),
        }
    }

    /// Retracts the fact with an index.
    fn take_index<K: Sink>(&mut self, ix: u64, out: &mut Out<K>) -> Result<(), Break>
        requires { out.old.fault ≡ false }
        ensures { Went K.writes out.old out.new self.new result (fact_taken ix self.old) }
    {
        if self.memory.facts().get(ix).is_none() {
            return Err(Break::Ended(EarlyEnd::Fault(Fault::NoSuchFact)));
        }
        self.drop_fact(ix, out)
    }

    /// Retracts all facts, in the order of their indices.
    fn drop_facts<K: Sink>(&mut self, out: &mut Out<K>) -> Result<(), Break>
        requires { out.old.fault ≡ false }
        ensures { Went K.writes out.old out.new self.new result
            (each fact_gone (keys_of self.old.memory.network.facts) self.old) }
    {
        let indices = indices(self.alloc, self.memory.facts())?;
        self.drop_each(indices.as_slice(), out)
    }

    fn drop_each<K: Sink>(&mut self, indices: &[u64], out: &mut Out<K>) -> Result<(), Break>
        requires { out.old.fault ≡ false }
        ensures { Went K.writes out.old out.new self.new result (each fact_gone indices.now self.old) }
    {
        for ix in indices {
            self.drop_fact(*ix, out)?;
        }
        Ok(())
    }

    /// Retracts the fact with an index, if there is one.
    pub(crate) fn drop_fact<K: Sink>(&mut self, ix: u64, out: &mut Out<K>) -> Result<(), Break>
        requires { out.old.fault ≡ false }
        ensures { Went K.writes out.old out.new self.new result (fact_gone ix self.old) }
    {
        let line = self.gone_line(ix)?;
        match self.forget(ix)? {
            Some(done) => tell_change(line.as_slice(), &done, out),
            None => Ok(()),
        }
    }

    /// The line of the fact with an index, which goes, if there is one and it is watched.
    fn gone_line(&self, ix: u64) -> Result<Vec<u8>, NoMemory>
        ensures { IfOk result (λ line. line.items
            ≡ gone_line self.now ix (fact_at self.now.memory.network.facts ix)) }
    {
        let mut line = Vec::new(self.alloc);
        if let Some(fact) = self.memory.facts().get(ix) {
            if self.watched.facts {
                line.extend_from_slice(b"<== ")?;
                add_fact_line(self.alloc, &mut line, ix, fact)?;
            }
        }
        Ok(line)
    }

    /// Takes the fact with an index from the knowledge base, if there is one, and gives the agenda what came of it.
    fn forget(&mut self, ix: u64) -> Result<Option<Rescheduled>, NoMemory>
        ensures { IfOk result (IsForgotten ix self.old self.new) }
    {
        let in_step = self.in_step;
        self.in_step = false;
        match self.memory.retract_one(ix)? {
            None => {
                self.in_step = in_step;
                Ok(None)
            }
            Some(delta) => {
                let done = reschedule(
                    self.alloc,
                    &mut self.agenda,
                    &self.rules,
                    self.watched.activations,
                    in_step,
                    &delta,
                )?;
                self.in_step = done.keeps_step(in_step);
                Ok(Some(done))
            }
        }
    }
}

/// Whether values say which facts to retract.
fn are_retractable(values: &[Value]) -> bool
    ensures { result ≡ list_all is_retractable values.now }
{
    values.iter().all(is_retractable)
}

fn is_retractable(value: &Value) -> bool
    ensures { result ≡ is_retractable value.now }
{
    match value {
        Value::Fact(_) | Value::Int(_) => true,
        Value::Symbol(name) => name.as_slice() == b"*".as_slice(),
        _ => false,
    }
}

/// The index that a number is.
pub(crate) fn index_named(number: i64) -> Option<u64>
    ensures { result ≡ index_named number }
{
    match u64::try_from(number) {
        Ok(ix) => Some(ix),
        Err(_) => None,
    }
}

/// The indices of facts.
fn indices(alloc: Global, facts: &FactList) -> Result<Vec<u64>, NoMemory>
    ensures { IfOk result (λ all. all.items ≡ keys_of facts.now) }
{
    let mut all = Vec::new(alloc);
    for (ix, _fact) in facts.iter() {
        all.push(*ix)?;
    }
    Ok(all)
}
