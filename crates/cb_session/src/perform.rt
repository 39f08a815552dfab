//! What each request does. A method returns the value of its request, if it has one.
ghost use Rattle.std.specs.Prelude.{◌≡◌, false, option_map};
ghost use Rattle.cb_actions.specs.Went.{Quietly, Went};
ghost use Rattle.cb_exprs.specs.Terms.{term_of};
ghost use Rattle.cb_requests.specs.Requests as asked;
ghost use Rattle.cb_requests.specs.Requests.{request_by};
ghost use Rattle.cb_rules.specs.RuleValues.{rule_value};
ghost use Rattle.cb_session.specs.Actions.{performed};

use crate::engine::Engine;
use crate::listing::{put_agenda_lines, put_fact_lines, put_rule_lines};
use crate::reset::reset_world;
use cb_actions::Break;
use cb_agenda::Strategy;
use cb_exprs::{Expr, FactExpr, GlobalExpr};
use cb_facts::{Name, Names, Value};
use cb_forms::{Out, Sink};
use cb_knowledge_base::{DeffactsTable, GlobalTable, Mark};
use cb_matches::Matcher;
use cb_requests::Request;
use cb_rules::Rule;
use cb_templates::Template;
use cb_words::WatchItem;

impl<M: Matcher<Mark>> Engine<M> {
    /// Does what a request asks for.
    pub(crate) fn perform<K: Sink>(
        &mut self,
        request: Request,
        out: &mut Out<K>,
    ) -> Result<Option<Value>, Break>
        requires { out.old.fault ≡ false }
        ensures { Went K.writes out.old out.new self.new result
            (performed (request_by request) self.old) }
    {
        match request {
            Request::Act(expr) => self.evaluate(&expr, out),
            Request::DefineTemplate(relation, template) => {
                self.define_template(relation, template)
            }
            Request::DefineDeffacts(name, facts) => self.define_deffacts(name, facts),
            Request::DefineGlobals(globals) => self.define_globals(globals),
            Request::DefineRule(rule) => self.define_rule(rule, out),
            Request::ListFacts => self.list_facts(out),
            Request::ListAgenda => self.list_agenda(out),
            Request::ListRules => self.list_rules(out),
            Request::Reset => self.reset(out),
            Request::Clear => self.clear(out),
            Request::Run(count) => self.run(count, out),
            Request::Exit(status) => self.exit(status, out),
            Request::Undefine(name) => self.undefine(name, out),
            Request::Watch(item, on) => self.watch(item, on),
            Request::SetStrategy(strategy) => self.set_strategy(strategy),
        }
    }

    /// Evaluates an expression, which may have effects.
    fn evaluate<K: Sink>(&mut self, expr: &Expr, out: &mut Out<K>) -> Result<Option<Value>, Break>
        requires { out.old.fault ≡ false }
        ensures { Went K.writes out.old out.new self.new result
            (performed (asked.act (term_of expr.now)) self.old) }
    {
        self.world.carry_out(expr, out)
    }

    /// Takes a template for the one that its relation had.
    fn define_template(
        &mut self,
        relation: Name,
        template: Template,
    ) -> Result<Option<Value>, Break>
        ensures { Quietly self.new result
            (performed (asked.define_template (relation, template)) self.old) }
    {
        self.world.define_template(relation, template)
    }

    /// Keeps facts under a name for `reset`.
    fn define_deffacts(&mut self, name: Name, facts: Vec<FactExpr>) -> Result<Option<Value>, Break>
        ensures { Quietly self.new result
            (performed (asked.define_deffacts name facts.items) self.old) }
    {
        self.deffacts.define(name, facts)?;
        Ok(None)
    }

    /// Gives globals their values, and keeps the expressions for `reset`.
    fn define_globals(&mut self, globals: Vec<GlobalExpr>) -> Result<Option<Value>, Break>
        ensures { Quietly self.new result
            (performed (asked.define_globals globals.items) self.old) }
    {
        drop(self.world.define_globals(globals.as_slice())?);
        self.globals.define_all(globals)?;
        Ok(None)
    }

    /// Adds a rule, after the one with its name is dropped, if there is one.
    fn define_rule<K: Sink>(
        &mut self,
        rule: Rule<Mark>,
        out: &mut Out<K>,
    ) -> Result<Option<Value>, Break>
        requires { out.old.fault ≡ false }
        ensures { Went K.writes out.old out.new self.new result
            (performed (asked.define_rule (rule_value rule)) self.old) }
    {
        self.world.define(rule, out)
    }

    /// Puts the lines of all facts.
    fn list_facts<K: Sink>(&mut self, out: &mut Out<K>) -> Result<Option<Value>, Break>
        requires { out.old.fault ≡ false }
        ensures { Went K.writes out.old out.new self.new result
            (performed asked.list_facts self.old) }
    {
        put_fact_lines(self.alloc, self.world.memory().facts(), out)?;
        Ok(None)
    }

    /// Puts the lines of the agenda.
    fn list_agenda<K: Sink>(&mut self, out: &mut Out<K>) -> Result<Option<Value>, Break>
        requires { out.old.fault ≡ false }
        ensures { Went K.writes out.old out.new self.new result
            (performed asked.list_agenda self.old) }
    {
        put_agenda_lines(self.alloc, self.world.rules(), self.world.agenda(), out)?;
        Ok(None)
    }

    /// Puts the lines of all rules.
    fn list_rules<K: Sink>(&mut self, out: &mut Out<K>) -> Result<Option<Value>, Break>
        requires { out.old.fault ≡ false }
        ensures { Went K.writes out.old out.new self.new result
            (performed asked.list_rules self.old) }
    {
        put_rule_lines(self.alloc, self.world.rules(), out)?;
        Ok(None)
    }

    /// Begins anew with the initial values of the globals and the facts of each `deffacts`.
    fn reset<K: Sink>(&mut self, out: &mut Out<K>) -> Result<Option<Value>, Break>
        requires { out.old.fault ≡ false }
        ensures { Went K.writes out.old out.new self.new result
            (performed asked.reset self.old) }
    {
        reset_world(
            &mut self.world,
            self.globals.as_slice(),
            &self.deffacts,
            out,
        )
    }

    /// Forgets all but what is watched, the strategy, what is left of the limits and whether a fault line was written.
    fn clear<K: Sink>(&mut self, out: &mut Out<K>) -> Result<Option<Value>, Break>
        requires { out.old.fault ≡ false }
        ensures { Went K.writes out.old out.new self.new result
            (performed asked.clear self.old) }
    {
        self.world.clear(out)?;
        self.deffacts = DeffactsTable::new(self.alloc);
        self.globals = GlobalTable::new(self.alloc);
        self.names = Names::new(self.alloc);
        Ok(None)
    }

    /// Fires rules: as many as an expression says, or all that come without one.
    fn run<K: Sink>(
        &mut self,
        count: Option<Expr>,
        out: &mut Out<K>,
    ) -> Result<Option<Value>, Break>
        requires { out.old.fault ≡ false }
        ensures { Went K.writes out.old out.new self.new result
            (performed (asked.run (option_map term_of count)) self.old) }
    {
        self.world.run_as(count.as_ref(), out)
    }

    /// Ends the script, with the code that an expression says, if there is one.
    fn exit<K: Sink>(
        &mut self,
        status: Option<Expr>,
        out: &mut Out<K>,
    ) -> Result<Option<Value>, Break>
        requires { out.old.fault ≡ false }
        ensures { Went K.writes out.old out.new self.new result
            (performed (asked.exit (option_map term_of status)) self.old) }
    {
        self.world.exit(status.as_ref(), out)
    }

    /// Drops the rule with a name, or without one all rules.
    fn undefine<K: Sink>(
        &mut self,
        name: Option<Name>,
        out: &mut Out<K>,
    ) -> Result<Option<Value>, Break>
        requires { out.old.fault ≡ false }
        ensures { Went K.writes out.old out.new self.new result
            (performed (asked.undefine name) self.old) }
    {
        self.world.undefine(name.as_ref(), out)
    }

    /// Watches an item from now on, or no more.
    fn watch(&mut self, item: WatchItem, on: bool) -> Result<Option<Value>, Break>
        ensures { Quietly self.new result (performed (asked.watch item on) self.old) }
    {
        self.world.watch(item, on)
    }

    /// Takes another strategy.
    fn set_strategy(&mut self, strategy: Strategy) -> Result<Option<Value>, Break>
        ensures { Quietly self.new result (performed (asked.set_strategy strategy) self.old) }
    {
        self.world.set_strategy(strategy)
    }
}
