//! Rules that fire.
ghost use Rattle.std.specs.Prelude.{◌≡◌, ◌-◌, IfOk, OnOk, Some, false, option_map};
ghost use Rattle.std.specs.Rc.{rc_value};
ghost use Rattle.cb_actions.specs.Acts.{Act};
ghost use Rattle.cb_actions.specs.Actions.{carried_all};
ghost use Rattle.cb_eval.specs.Constants.{false_symbol};
ghost use Rattle.cb_rules.specs.RuleTables.{rule_numbered};
ghost use Rattle.cb_actions.specs.Runs.{acted, actions_of, due_by, fire_line, fired, in_scope, next_due, run, spent, with_variables_of};
ghost use Rattle.cb_actions.specs.Effects.{halted};
ghost use Rattle.cb_actions.specs.Went.{Quietly, Went};
ghost use Rattle.cb_actions.specs.Worlds.{World as State};
ghost use Rattle.cb_exprs.specs.Terms.{terms_of};
ghost use Rattle.cb_matches.specs.Keys.{KeyValue};

use crate::act::{Break, EarlyEnd, Limit};
use crate::change::tell;
use crate::world::World;
use cb_exprs::{Env, Expr};
use cb_facts::Value;
use cb_forms::{NoMemory, Out, Sink};
use cb_knowledge_base::Mark;
use cb_lines::add_firing_line;
use cb_matches::{Key, Matcher};
use cb_rules::RuleTable;
use std::alloc::Global;
use std::rc::Rc;

impl<M: Matcher<Mark>> World<M> {
    /// Fires matches that are due: until none is, so many as are asked for have fired, or a `halt`, a fault or a limit ends it.
    pub fn run<K: Sink>(&mut self, asked: Option<u64>, out: &mut Out<K>) -> Result<(), Break>
        requires { out.old.fault ≡ false }
        ensures { Went K.writes out.old out.new self.new result (run asked self.old) }
    {
        self.begin_run();
        let firings = self.firings_left();
        let mut left = firings;
        let mut asked = asked;
        let mut done = 0;
        while let Some(key) = self.take_due(asked) {
            if left == 0 {
                return Err(Break::Ended(EarlyEnd::Limit(Limit::Firings)));
            }
            left -= 1;
            done += 1;
            drop(self.spend(left, done, key, out)?);
            if self.is_halted() {
                return Ok(());
            }
            asked = one_less(asked);
        }
        Ok(())
    }

    /// Ends the run after the rule that fires now. The rest of its actions is done.
    pub(crate) fn halt(&mut self) -> Result<Option<Value>, Break>
        ensures { Quietly self.new result (halted self.old) }
    {
        self.is_halted = true;
        Ok(None)
    }

    fn begin_run(&mut self)
        ensures { self.new ≡ record self.old { is_halted = false } }
    {
        self.is_halted = false;
    }

    fn firings_left(&self) -> u64
        ensures { result ≡ self.now.firings }
    {
        self.firings
    }

    fn is_halted(&self) -> bool
        ensures { result ≡ self.now.is_halted }
    {
        self.is_halted
    }

    /// Takes out the match that fires next, if one more is asked for and one is due.
    fn take_due(&mut self, asked: Option<u64>) -> Option<Key>
        ensures { (next : KeyValue → Act State (Unit {0}))
            → next_due asked next self.old ≡ due_by result next self.new }
    {
        if let Some(0) = asked {
            return None;
        }
        self.agenda.pop()
    }

    /// A match fires, and so many firings are left.
    fn spend<K: Sink>(
        &mut self,
        left: u64,
        number: u64,
        key: Key,
        out: &mut Out<K>,
    ) -> Result<Option<Value>, Break>
        requires { out.old.fault ≡ false }
        ensures went { Went K.writes out.old out.new self.new result
            (spent left number key self.old) }
        ensures fine { OnOk result (out.new.fault ≡ false) }
    {
        self.leave_firings(left);
        self.fire(number, &key, out)
    }

    fn leave_firings(&mut self, left: u64)
        ensures { self.new ≡ record self.old { firings = left } }
    {
        self.firings = left;
    }

    /// A match fires.
    fn fire<K: Sink>(
        &mut self,
        number: u64,
        key: &Key,
        out: &mut Out<K>,
    ) -> Result<Option<Value>, Break>
        requires { out.old.fault ≡ false }
        ensures went { Went K.writes out.old out.new self.new result
            (fired number key.now self.old) }
        ensures fine { OnOk result (out.new.fault ≡ false) }
    {
        let line = self.fire_line(number, key)?;
        tell(line.as_slice(), out)?;
        self.act(key, out)
    }

    /// The line of a firing, if it is watched.
    fn fire_line(&self, number: u64, key: &Key) -> Result<Vec<u8>, NoMemory>
        ensures { IfOk result (λ line. line.items ≡ fire_line number key.now self.now) }
    {
        let mut line = Vec::new(self.alloc);
        if self.watched.rules {
            add_firing_line(self.alloc, &mut line, number, &self.rules, key)?;
        }
        Ok(line)
    }

    /// The actions of the rule of a match, with the variables of the match. A fault in them is one of that rule.
    fn act<K: Sink>(&mut self, key: &Key, out: &mut Out<K>) -> Result<Option<Value>, Break>
        requires { out.old.fault ≡ false }
        ensures went { Went K.writes out.old out.new self.new result (acted key.now self.old) }
        ensures fine { OnOk result (out.new.fault ≡ false) }
    {
        let env = self.memory.bindings(key)?;
        let actions = actions_of(self.alloc, &self.rules, key)?;
        match self.act_in(env, actions.as_slice(), out) {
            Ok(value) => Ok(value),
            Err(end) => Err(end.in_rule(key.rule())),
        }
    }

    /// Actions, in which the variables have these values. Afterwards they have the ones that they had.
    fn act_in<K: Sink>(
        &mut self,
        env: Env,
        actions: &[Expr],
        out: &mut Out<K>,
    ) -> Result<Option<Value>, Break>
        requires { out.old.fault ≡ false }
        ensures went { Went K.writes out.old out.new self.new result
            (in_scope env (carried_all (Some false_symbol) (terms_of actions.now)) self.old) }
        ensures fine { OnOk result (out.new.fault ≡ false) }
    {
        let mut env = env;
        self.swap_variables(&mut env);
        let result = self.carry_all(actions, out);
        self.swap_variables(&mut env);
        result
    }

    /// Gives the variables the values of others, and those the values of the variables.
    fn swap_variables(&mut self, other: &mut Env)
        ensures here { self.new ≡ with_variables_of other.old self.old }
        ensures there { other.new ≡ record { variables = self.old.env.variables; globals = other.old.globals } }
    {
        self.env.swap_variables(other);
    }
}

/// The actions of the rule of a match.
fn actions_of(alloc: Global, rules: &RuleTable, key: &Key) -> Result<Rc<Vec<Expr>>, NoMemory>
    ensures { IfOk result (λ actions. terms_of (rc_value actions).items
        ≡ actions_of (rule_numbered key.now.rule rules.now)) }
{
    match rules.get(key.rule()) {
        Some(rule) => Ok(rule.actions.clone()?),
        None => Ok(Rc::new(alloc, Vec::new(alloc))?),
    }
}

/// One less of what is asked for.
fn one_less(asked: Option<u64>) -> Option<u64>
    ensures { result ≡ option_map (λ m. m - 1) asked }
{
    match asked {
        Some(count) => Some(count.saturating_sub(1)),
        None => None,
    }
}
