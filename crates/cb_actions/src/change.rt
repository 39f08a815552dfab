//! Facts that are asserted, and what is told of a change of the facts or the rules.
ghost use Rattle.std.specs.Prelude.{◌≡◌, ◌<◌, ◌+◌, Ok, IfOk, false};
ghost use Rattle.cb_actions.specs.Changes.{come_line, tell};
ghost use Rattle.cb_actions.specs.Effects.{fact_added};
ghost use Rattle.cb_actions.specs.Internal.{IsMemorized, told_so};
ghost use Rattle.cb_knowledge_base.specs.KnowledgeBase.{greatest_index};
ghost use Rattle.cb_actions.specs.Went.{Went};
ghost use Rattle.cb_actions.specs.Worlds.{World as State};

use crate::act::{Break, EarlyEnd, Limit};
use crate::rescheduled::{Rescheduled, reschedule};
use crate::world::World;
use cb_facts::{Fact, Value};
use cb_forms::{NoMemory, Out, Sink};
use cb_io::put;
use cb_knowledge_base::{Asserted, Mark};
use cb_lines::add_fact_line;
use cb_matches::Matcher;

/// What came of a fact that the knowledge base was given.
#[derive(Drop)]
pub(crate) enum Memorized {
    /// An equal fact is there, with this index.
    There(u64),
    /// The fact has this index, and this is left to do.
    Added(u64, Rescheduled),
    /// No index was left.
    NoIndex,
}

impl<M: Matcher<Mark>> World<M> {
    /// Asserts a fact. The answer is its address, or that of an equal one that is there.
    pub(crate) fn add<K: Sink>(
        &mut self,
        fact: Fact,
        out: &mut Out<K>,
    ) -> Result<Option<Value>, Break>
        requires { out.old.fault ≡ false }
        ensures { Went K.writes out.old out.new self.new result (fact_added fact self.old) }
    {
        let line = self.next_line(&fact)?;
        match self.memorize(fact)? {
            Memorized::There(ix) => Ok(Some(Value::Fact(ix))),
            Memorized::NoIndex => Err(Break::Ended(EarlyEnd::Limit(Limit::Numbers))),
            Memorized::Added(ix, done) => {
                tell_change(line.as_slice(), &done, out)?;
                Ok(Some(Value::Fact(ix)))
            }
        }
    }

    /// The line of a fact that comes under the next index, if an index is left.
    fn next_line(&self, fact: &Fact) -> Result<Vec<u8>, NoMemory>
        ensures { IfOk result (λ line. self.now.memory.last < greatest_index
            → line.items ≡ come_line self.now (self.now.memory.last + 1) fact.now) }
    {
        match self.memory.next_index() {
            Some(ix) => self.come_line(ix, fact),
            None => Ok(Vec::new(self.alloc)),
        }
    }

    /// The line of a fact that comes under an index, if it is watched.
    pub(crate) fn come_line(&self, ix: u64, fact: &Fact) -> Result<Vec<u8>, NoMemory>
        ensures { IfOk result (λ line. line.items ≡ come_line self.now ix fact.now) }
    {
        let mut line = Vec::new(self.alloc);
        if self.watched.facts {
            line.extend_from_slice(b"==> ")?;
            add_fact_line(self.alloc, &mut line, ix, fact)?;
        }
        Ok(line)
    }

    /// Gives the knowledge base a fact, and the agenda what came of it.
    fn memorize(&mut self, fact: Fact) -> Result<Memorized, NoMemory>
        ensures { IfOk result (IsMemorized fact self.old self.new) }
    {
        let in_step = self.in_step;
        self.in_step = false;
        match self.memory.assert_one(fact)? {
            Asserted::There(ix) => {
                self.in_step = in_step;
                Ok(Memorized::There(ix))
            }
            Asserted::NoIndex => {
                self.in_step = in_step;
                Ok(Memorized::NoIndex)
            }
            Asserted::Added(ix, delta) => {
                let done = reschedule(
                    self.alloc,
                    &mut self.agenda,
                    &self.rules,
                    self.watched.activations,
                    in_step,
                    &delta,
                )?;
                self.in_step = done.keeps_step(in_step);
                Ok(Memorized::Added(ix, done))
            }
        }
    }
}

/// Puts the line of a change that the agenda has followed, and does what is left to do.
pub(crate) fn tell_change<K: Sink>(
    line: &[u8],
    done: &Rescheduled,
    out: &mut Out<K>,
) -> Result<(), Break>
    requires { out.old.fault ≡ false }
    ensures { (s : State) → Went K.writes out.old out.new s result (told_so line.now done.now s) }
{
    tell(line, out)?;
    done.tell_rest(out)
}

/// Puts bytes.
pub(crate) fn tell<K: Sink>(bytes: &[u8], out: &mut Out<K>) -> Result<(), Break>
    requires { out.old.fault ≡ false }
    ensures { (s : State) → Went K.writes out.old out.new s result (tell bytes.now s) }
{
    put(bytes, out)?;
    Ok(())
}
