//! Rules that are added, redefined and dropped.
ghost use Rattle.std.specs.Prelude.{◌≡◌, ◌<◌, ◌∷◌, ◌++◌, [], IfOk, IfSome, None, OnOk, false, nat_eq, not, option_map};
ghost use Rattle.std.specs.List.{filter};
ghost use Rattle.cb_actions.specs.Commands.{rule_defined};
ghost use Rattle.cb_actions.specs.Runs.{added_rule, defined_rule, dropped_rule, numbered, replaced};
ghost use Rattle.cb_actions.specs.Internal.{IsMoved};
ghost use Rattle.cb_knowledge_base.specs.KnowledgeBase.{greatest_index, with_next_rule, without_one_rule};
ghost use Rattle.cb_rules.specs.RuleTables.{rule_named};
ghost use Rattle.cb_actions.specs.Went.{Went};
ghost use Rattle.cb_rules.specs.Elements.{branches_of};
ghost use Rattle.cb_rules.specs.RuleValues.{rule_value};

use crate::act::{Break, EarlyEnd, Limit};
use crate::change::tell_change;
use crate::rescheduled::{Rescheduled, reschedule};
use crate::world::World;
use cb_facts::{Name, Value};
use cb_forms::{NoMemory, Out, Sink};
use cb_knowledge_base::Mark;
use cb_matches::Matcher;
use cb_rules::{Ce, DefinedRule, Rule, split_rule};

impl<M: Matcher<Mark>> World<M> {
    /// Defines a rule. It takes the last place, and the one with its name goes, if there is one. Returns no value.
    pub fn define<K: Sink>(
        &mut self,
        rule: Rule<Mark>,
        out: &mut Out<K>,
    ) -> Result<Option<Value>, Break>
        requires { out.old.fault ≡ false }
        ensures { Went K.writes out.old out.new self.new result
            (rule_defined (rule_value rule) self.old) }
    {
        let (defined, branches) = split_rule(self.alloc, rule)?;
        self.define_rule(defined, branches, out)?;
        Ok(None)
    }

    /// Adds a rule, with the next number, in place of the one with its name, if there is one.
    fn define_rule<K: Sink>(
        &mut self,
        rule: DefinedRule,
        branches: Vec<Vec<Ce<Mark>>>,
        out: &mut Out<K>,
    ) -> Result<(), Break>
        requires { out.old.fault ≡ false }
        ensures { Went K.writes out.old out.new self.new result
            (defined_rule rule (branches_of branches.items) self.old) }
    {
        if !self.memory.has_rule_number() {
            return Err(Break::Ended(EarlyEnd::Limit(Limit::Numbers)));
        }
        self.drop_named(&rule.name, out)?;
        self.add_rule(rule, branches, out)
    }

    /// Drops the rule with a name, if there is one.
    fn drop_named<K: Sink>(&mut self, name: &Name, out: &mut Out<K>) -> Result<(), Break>
        requires { out.old.fault ≡ false }
        ensures went { Went K.writes out.old out.new self.new result
            (replaced (option_map (λ r. r.id) (rule_named name.now self.old.rules)) self.old) }
        ensures absent { OnOk result (rule_named name.now self.new.rules ≡ None) }
    {
        match self.number_of(name) {
            Some(id) => self.drop_rule(id, out),
            None => Ok(()),
        }
    }

    /// The number of the rule with a name, if there is one.
    pub fn number_of(&self, name: &Name) -> Option<u64>
        ensures number { result ≡ option_map (λ r. r.id) (rule_named name.now self.now.rules) }
        // No other rule has the name.
        ensures only { IfSome result (λ id. rule_named name.now
            (filter (λ r. not (nat_eq id r.id)) self.now.rules) ≡ None) }
    {
        match self.rules.named(name) {
            Some(rule) => Some(rule.id),
            None => None,
        }
    }

    /// Drops a rule: its activations go, with their lines.
    pub fn drop_rule<K: Sink>(&mut self, id: u64, out: &mut Out<K>) -> Result<(), Break>
        requires { out.old.fault ≡ false }
        ensures went { Went K.writes out.old out.new self.new result (dropped_rule id self.old) }
        ensures rules { OnOk result
            (self.new.rules ≡ filter (λ r. not (nat_eq id r.id)) self.old.rules) }
    {
        let done = self.take_rule(id)?;
        tell_change(b"".as_slice(), &done, out)?;
        self.forget_rule(id);
        Ok(())
    }

    /// Takes a rule from the knowledge base, and gives the agenda what came of it.
    fn take_rule(&mut self, id: u64) -> Result<Rescheduled, NoMemory>
        ensures moved { IfOk result
            (IsMoved (without_one_rule id self.old.memory) self.old self.new) }
        ensures rules { OnOk result (self.new.rules ≡ self.old.rules) }
    {
        let in_step = self.in_step;
        self.in_step = false;
        let delta = self.memory.drop_rule(id)?;
        let done = reschedule(
            self.alloc,
            &mut self.agenda,
            &self.rules,
            self.watched.activations,
            in_step,
            &delta,
        )?;
        self.in_step = done.keeps_step(in_step);
        Ok(done)
    }

    /// Keeps nothing of a rule any more.
    fn forget_rule(&mut self, id: u64)
        ensures { self.new
            ≡ record self.old { rules = filter (λ r. not (nat_eq id r.id)) self.old.rules } }
    {
        self.rules.remove(id);
        self.agenda.forget_rule(id);
    }

    /// Adds a rule, with the next number.
    fn add_rule<K: Sink>(
        &mut self,
        rule: DefinedRule,
        branches: Vec<Vec<Ce<Mark>>>,
        out: &mut Out<K>,
    ) -> Result<(), Break>
        requires fine { out.old.fault ≡ false }
        requires absent { rule_named rule.name self.old.rules ≡ None }
        ensures { Went K.writes out.old out.new self.new result
            (added_rule rule (branches_of branches.items) self.old) }
    {
        if !self.memory.has_rule_number() {
            return Err(Break::Ended(EarlyEnd::Limit(Limit::Numbers)));
        }
        let done = self.keep_rule(rule, branches)?;
        tell_change(b"".as_slice(), &done, out)
    }

    /// Gives the knowledge base a rule, keeps the rest of it, and gives the agenda what came of it.
    fn keep_rule(
        &mut self,
        rule: DefinedRule,
        branches: Vec<Vec<Ce<Mark>>>,
    ) -> Result<Rescheduled, NoMemory>
        requires room { self.old.memory.last_rule < greatest_index }
        requires absent { rule_named rule.name self.old.rules ≡ None }
        ensures { IfOk result (IsMoved (with_next_rule (branches_of branches.items) self.old.memory)
            (record self.old { rules = self.old.rules ++ numbered self.old rule ∷ [] }) self.new) }
    {
        let in_step = self.in_step;
        self.in_step = false;
        let mut rule = rule;
        rule.id = self.memory.next_rule();
        let delta = self.memory.add_rule(branches)?;
        self.rules.push(rule)?;
        let done = reschedule(
            self.alloc,
            &mut self.agenda,
            &self.rules,
            self.watched.activations,
            in_step,
            &delta,
        )?;
        self.in_step = done.keeps_step(in_step);
        Ok(done)
    }
}
