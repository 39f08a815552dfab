//! What the commands on rules do, and `exit`.
ghost use Rattle.std.specs.Prelude.{◌≡◌, IfOk, None, OnOk, Some, false, map, option_map};
ghost use Rattle.cb_actions.specs.Acts.{Act, each};
ghost use Rattle.cb_actions.specs.Commands.{asked_by, exited, exited_with, ran_as, status_in, strategy_name, strategy_set, undefined, undefined_if, watch_set, watched_so, without_value};
ghost use Rattle.cb_actions.specs.Runs.{dropped_rule, run};
ghost use Rattle.cb_rules.specs.RuleTables.{rule_named};
ghost use Rattle.cb_actions.specs.Went.{Quietly, Went};
ghost use Rattle.cb_actions.specs.Worlds.{World as State};
ghost use Rattle.cb_exprs.specs.Terms.{term_of};

use crate::act::{Break, EarlyEnd};
use crate::watched::Watched;
use crate::world::World;
use cb_agenda::Strategy;
use cb_exprs::Expr;
use cb_facts::{Name, Value};
use cb_forms::{Fault, NoMemory, Out, Sink};
use cb_knowledge_base::Mark;
use cb_matches::Matcher;
use cb_rules::RuleTable;
use cb_words::WatchItem;
use std::alloc::Global;

impl<M: Matcher<Mark>> World<M> {
    /// Fires rules: as many as an expression says, or all that come without one or where it is negative.
    pub fn run_as<K: Sink>(
        &mut self,
        count: Option<&Expr>,
        out: &mut Out<K>,
    ) -> Result<Option<Value>, Break>
        requires { out.old.fault ≡ false }
        ensures { Went K.writes out.old out.new self.new result
            (ran_as (option_map (λ e. term_of e.now) count.entry) self.old) }
    {
        match count {
            Some(count) => self.run_counted(count, out),
            None => self.run_so(None, out),
        }
    }

    /// Fires as many rules as an expression says.
    fn run_counted<K: Sink>(
        &mut self,
        count: &Expr,
        out: &mut Out<K>,
    ) -> Result<Option<Value>, Break>
        requires { out.old.fault ≡ false }
        ensures { Went K.writes out.old out.new self.new result
            (ran_as (Some (term_of count.now)) self.old) }
    {
        let value = self.carry_value(count, out)?;
        let asked = asked_by(&value)?;
        self.run_so(asked, out)
    }

    fn run_so<K: Sink>(
        &mut self,
        asked: Option<u64>,
        out: &mut Out<K>,
    ) -> Result<Option<Value>, Break>
        requires { out.old.fault ≡ false }
        ensures { Went K.writes out.old out.new self.new result
            (without_value (run asked) self.old) }
    {
        self.run(asked, out)?;
        Ok(None)
    }

    /// Ends the script, with the status that an expression says, if there is one.
    pub fn exit<K: Sink>(
        &mut self,
        status: Option<&Expr>,
        out: &mut Out<K>,
    ) -> Result<Option<Value>, Break>
        requires { out.old.fault ≡ false }
        ensures { Went K.writes out.old out.new self.new result
            (exited (option_map (λ e. term_of e.now) status.entry) self.old) }
    {
        match status {
            Some(status) => self.exit_with(status, out),
            None => Err(Break::Ended(EarlyEnd::Exit(None))),
        }
    }

    fn exit_with<K: Sink>(
        &mut self,
        status: &Expr,
        out: &mut Out<K>,
    ) -> Result<Option<Value>, Break>
        requires { out.old.fault ≡ false }
        ensures { Went K.writes out.old out.new self.new result
            (exited (Some (term_of status.now)) self.old) }
    {
        let value = self.carry_value(status, out)?;
        end_with(&value)
    }

    /// Drops the rule with a name, or without one all rules, in the order in which they were defined.
    pub fn undefine<K: Sink>(
        &mut self,
        name: Option<&Name>,
        out: &mut Out<K>,
    ) -> Result<Option<Value>, Break>
        requires { out.old.fault ≡ false }
        ensures { Went K.writes out.old out.new self.new result
            (undefined (option_map (λ n. n.now) name.entry) self.old) }
    {
        match name {
            Some(name) => self.undefine_named(name, out),
            None => self.undefine_all(out),
        }
    }

    fn undefine_named<K: Sink>(
        &mut self,
        name: &Name,
        out: &mut Out<K>,
    ) -> Result<Option<Value>, Break>
        requires { out.old.fault ≡ false }
        ensures { Went K.writes out.old out.new self.new result (undefined (Some name.now) self.old) }
    {
        self.drop_known(name, out)?;
        Ok(None)
    }

    /// Drops the rule with a name. There must be one.
    fn drop_known<K: Sink>(&mut self, name: &Name, out: &mut Out<K>) -> Result<(), Break>
        requires { out.old.fault ≡ false }
        ensures { Went K.writes out.old out.new self.new result
            (undefined_if (option_map (λ r. r.id) (rule_named name.now self.old.rules)) self.old) }
    {
        match self.number_of(name) {
            Some(id) => self.drop_rule(id, out),
            None => Err(Break::Ended(EarlyEnd::Fault(Fault::NoSuchRule))),
        }
    }

    fn undefine_all<K: Sink>(&mut self, out: &mut Out<K>) -> Result<Option<Value>, Break>
        requires { out.old.fault ≡ false }
        ensures { Went K.writes out.old out.new self.new result (undefined None self.old) }
    {
        let ids = numbers(self.alloc, &self.rules)?;
        self.drop_rules(ids.as_slice(), out)?;
        Ok(None)
    }

    fn drop_rules<K: Sink>(&mut self, ids: &[u64], out: &mut Out<K>) -> Result<(), Break>
        requires { out.old.fault ≡ false }
        ensures { Went K.writes out.old out.new self.new result (each dropped_rule ids.now self.old) }
    {
        for id in ids {
            self.drop_rule(*id, out)?;
        }
        Ok(())
    }

    /// Watches an item from now on, or no more. Returns no value.
    pub fn watch(&mut self, item: WatchItem, on: bool) -> Result<Option<Value>, Break>
        ensures { Quietly self.new result (watch_set item on self.old) }
    {
        self.watched = watch(self.watched, item, on);
        Ok(None)
    }

    /// Takes another strategy, by which all that are on the agenda fire from now on. The value is the name of the old one.
    pub fn set_strategy(&mut self, strategy: Strategy) -> Result<Option<Value>, Break>
        ensures { Quietly self.new result (strategy_set strategy self.old) }
    {
        let old = self.agenda.set_strategy(strategy);
        let name = Name::new(self.alloc, strategy_name(old))?;
        Ok(Some(Value::Symbol(name)))
    }
}

/// How many firings a value asks for.
fn asked_by(value: &Value) -> Result<Option<u64>, Break>
    ensures { (s : State) → Quietly s result (asked_by value.now s) }
{
    match value {
        Value::Int(number) => Ok(u64::try_from(*number).ok()),
        _ => Err(Break::Ended(EarlyEnd::Fault(Fault::WrongType))),
    }
}

/// Ends the script with the status that a value is.
fn end_with(value: &Value) -> Result<Option<Value>, Break>
    ensures { (s : State) → Quietly s result (exited_with (status_in value.now) s) }
{
    match status_in(value) {
        Some(status) => Err(Break::Ended(EarlyEnd::Exit(Some(status)))),
        None => Err(Break::Ended(EarlyEnd::Fault(Fault::WrongType))),
    }
}

fn status_in(value: &Value) -> Option<u8>
    ensures { result ≡ status_in value.now }
{
    match value {
        Value::Int(number) => u8::try_from(*number).ok(),
        _ => None,
    }
}

/// The numbers of rules.
fn numbers(alloc: Global, rules: &RuleTable) -> Result<Vec<u64>, NoMemory>
    ensures { IfOk result (λ all. all.items ≡ map (λ r. r.id) rules.now) }
{
    let mut all = Vec::new(alloc);
    for rule in rules.iter() {
        all.push(rule.id)?;
    }
    Ok(all)
}

/// What is watched after an item is watched, or no more.
fn watch(watched: Watched, item: WatchItem, on: bool) -> Watched
    ensures { result ≡ watched_so item on watched }
{
    let mut watched = watched;
    match item {
        WatchItem::Facts => watched.facts = on,
        WatchItem::Rules => watched.rules = on,
        WatchItem::Activations => watched.activations = on,
        WatchItem::All => {
            watched = Watched {
                facts: on,
                rules: on,
                activations: on,
            }
        }
    }
    watched
}

fn strategy_name(strategy: Strategy) -> &'static [u8]
    ensures { result.now ≡ strategy_name strategy }
{
    match strategy {
        Strategy::Depth => b"depth",
        Strategy::Breadth => b"breadth",
    }
}
