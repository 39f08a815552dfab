//! Everything dropped: the facts alone, or the rules too.
ghost use Rattle.std.specs.Prelude.{◌≡◌, [], IfOk, OnOk, false};
ghost use Rattle.cb_actions.specs.Changes.{if_watched};
ghost use Rattle.cb_actions.specs.Internal.{left_to_do};
ghost use Rattle.cb_actions.specs.Runs.{all_gone, cleared_world, gone_lines, restarted_world, started_anew, without_all};
ghost use Rattle.cb_actions.specs.Went.{Went};

use crate::act::Break;
use crate::change::tell;
use crate::rescheduled::{Rescheduled, reschedule};
use crate::world::World;
use cb_exprs::Env;
use cb_facts::FactList;
use cb_forms::{NoMemory, Out, Sink};
use cb_knowledge_base::Mark;
use cb_lines::add_fact_line;
use cb_matches::{Delta, Matcher};
use cb_rules::RuleTable;
use cb_templates::Relations;
use std::alloc::Global;

impl<M: Matcher<Mark>> World<M> {
    /// Drops all facts. The next index is 1, and the matches over no facts come anew.
    pub fn restart<K: Sink>(&mut self, out: &mut Out<K>) -> Result<(), Break>
        requires { out.old.fault ≡ false }
        ensures { Went K.writes out.old out.new self.new result (restarted_world self.old) }
    {
        self.tell_all_gone(out)?;
        self.start_anew(out)
    }

    /// Drops all facts, rules, templates and values. The numbers of rules and stamps go on.
    pub fn clear<K: Sink>(&mut self, out: &mut Out<K>) -> Result<(), Break>
        requires { out.old.fault ≡ false }
        ensures { Went K.writes out.old out.new self.new result (cleared_world self.old) }
    {
        self.tell_all_gone(out)?;
        self.drop_all()?;
        Ok(())
    }

    /// Puts the lines of all facts, which go, if they are watched.
    fn tell_all_gone<K: Sink>(&self, out: &mut Out<K>) -> Result<(), Break>
        requires { out.old.fault ≡ false }
        ensures { Went K.writes out.old out.new self.now result (all_gone self.now) }
    {
        let lines = self.gone_lines()?;
        tell(lines.as_slice(), out)
    }

    fn gone_lines(&self) -> Result<Vec<u8>, NoMemory>
        ensures { IfOk result (λ lines. lines.items
            ≡ if_watched self.now.watched.facts (gone_lines self.now.memory.network.facts)) }
    {
        if !self.watched.facts {
            return Ok(Vec::new(self.alloc));
        }
        gone_lines(self.alloc, self.memory.facts())
    }

    fn start_anew<K: Sink>(&mut self, out: &mut Out<K>) -> Result<(), Break>
        requires { out.old.fault ≡ false }
        ensures { Went K.writes out.old out.new self.new result (started_anew self.old) }
    {
        let done = self.drop_all_facts()?;
        done.tell_rest(out)
    }

    /// Takes all facts from the knowledge base, and gives the agenda, on which nothing is due then, what came of it.
    fn drop_all_facts(&mut self) -> Result<Rescheduled, NoMemory>
        ensures { IfOk result (λ done. started_anew self.old ≡ left_to_do done self.new) }
    {
        self.in_step = false;
        let delta = self.memory.restart()?;
        self.agenda.drop_all();
        let told = only_come(self.alloc, delta);
        let done = reschedule(
            self.alloc,
            &mut self.agenda,
            &self.rules,
            self.watched.activations,
            true,
            &told,
        )?;
        self.in_step = done.keeps_step(true);
        Ok(done)
    }

    fn drop_all(&mut self) -> Result<(), NoMemory>
        ensures { OnOk result (self.new ≡ without_all self.old) }
    {
        self.agenda.drop_all();
        self.in_step = true;
        self.memory.clear()?;
        self.rules = RuleTable::new(self.alloc);
        self.relations = Relations::new(self.alloc);
        self.env = Env::new(self.alloc);
        Ok(())
    }
}

/// What came of a change, without what went.
fn only_come(alloc: Global, delta: Delta) -> Delta
    ensures gone { result.gone.items ≡ [] }
    ensures gone_numbers { result.gone_numbers.items ≡ [] }
    ensures come { result.come.items ≡ delta.come.items }
    ensures come_numbers { result.come_numbers.items ≡ delta.come_numbers.items }
{
    Delta {
        gone: Vec::new(alloc),
        come: delta.come,
        gone_numbers: Vec::new(alloc),
        come_numbers: delta.come_numbers,
    }
}

/// The lines of facts that go.
fn gone_lines(alloc: Global, facts: &FactList) -> Result<Vec<u8>, NoMemory>
    ensures { IfOk result (λ lines. lines.items ≡ gone_lines facts.now) }
{
    let mut lines = Vec::new(alloc);
    for (ix, fact) in facts.iter() {
        lines.extend_from_slice(b"<== ")?;
        add_fact_line(alloc, &mut lines, *ix, fact)?;
    }
    Ok(lines)
}
