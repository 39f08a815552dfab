//! What actions see and change, and what each kind of action does with the values that it is given.
ghost use Rattle.std.specs.Prelude.{◌≡◌, [], false, IfOk, OnOk, Some, ◌∷◌};
ghost use Rattle.cb_eval.specs.Constants.{false_symbol};
ghost use Rattle.cb_facts.specs.Results.{Returns};
ghost use Rattle.cb_eval.specs.Evaluation.{value_of};
ghost use Rattle.cb_exprs.specs.Terms.{term_of};
ghost use Rattle.cb_actions.specs.Acts.{give, give_or_fault, write};
ghost use Rattle.cb_actions.specs.Definitions.{template_defined};
ghost use Rattle.cb_actions.specs.Effects.{asserted, bound, called, each_given, effected, ends, global_bound, global_looked_up, joined, looked_up, parts_of, printed_line, turn};
ghost use Rattle.cb_exprs.specs.declared.effect.Effect.TheVariants as kind;
ghost use Rattle.cb_actions.specs.Printing.{printed};
ghost use Rattle.cb_actions.specs.Went.{Quietly, Went};
ghost use Rattle.cb_actions.specs.Worlds.{World as State, first_world, with_numbers, without_variables};
ghost use Rattle.cb_matches.specs.Networks.{empty_network};
ghost use Rattle.cb_templates.specs.Building.{built, part_values};

use crate::act::{Break, EarlyEnd, Limit};
use crate::numbers::Numbers;
use crate::print::{put_printed, put_values};
use crate::watched::Watched;
use cb_agenda::Agenda;
use cb_eval::{Constants, apply, decides, eval};
use cb_exprs::{Channel, Env, Expr, FactShape};
use cb_facts::{Fact, Name, Refused, Value};
use cb_forms::{Fault, NoMemory, Out, Sink};
use cb_io::put;
use cb_knowledge_base::{KnowledgeBase, Mark};
use cb_matches::Matcher;
use cb_rules::RuleTable;
use cb_templates::{GivenSlot, Parts, Relations, Template, build_fact};
use cb_words::Function;
use std::alloc::Global;
use std::marker::Model;

/// What actions see and change. After `NoMemory` it may be any.
///
/// Contracts see the record of the facts, the templates, the values, and the turns that are left.
#[derive(Drop)]
pub struct World<M: Matcher<Mark>> {
    pub(crate) alloc: Global,
    /// The symbols that functions return, made when the first is wanted.
    constants: Option<Constants>,
    pub(crate) memory: KnowledgeBase<M>,
    pub(crate) agenda: Agenda,
    /// Whether the agenda is in step with the matcher: each match that is due has the number that the matcher gave it.
    pub(crate) in_step: bool,
    pub(crate) rules: RuleTable,
    pub(crate) watched: Watched,
    pub(crate) relations: Relations,
    pub(crate) env: Env,
    turns: u64,
    pub(crate) firings: u64,
    pub(crate) is_halted: bool,
}

impl<M: Matcher<Mark>> Model for World<M> {
    ghost use Rattle.std.specs.Coded.{codes};
    ghost use Rattle.cb_actions.specs.Worlds.{World as State};
    ghost use Rattle.cb_actions.specs.Internal.{AreTied, world_code};
    ghost use Rattle.cb_knowledge_base.specs.Internal.WorkingMemories.{memory_code};

    ghost Value = { State };

    ghost coded = { world_code (memory_code (Prim.hlevel codes) (Prim.hlevel codes) (Prim.hlevel codes) (Prim.hlevel codes)) (Prim.hlevel codes) (Prim.hlevel codes) (Prim.hlevel codes) (Prim.hlevel codes) (Prim.hlevel codes) (Prim.hlevel codes) };

    ghost view = { λ w. record { memory = w.memory.memory; agenda = w.agenda.agenda; rules = w.rules; watched = w.watched; templates = w.relations; env = w.env; turns = w.turns; firings = w.firings; is_halted = w.is_halted } };

    ghost invariant = { λ w. AreTied w.memory.memory.last_rule w.rules w.in_step w.agenda.numbers w.memory.numbers };
}

impl<M: Matcher<Mark>> World<M> {
    /// No rules, no facts, no templates and no values, and this many turns for loops and firings. It takes no memory yet.
    pub fn new(alloc: Global, matcher: M, turns: u64, firings: u64) -> World<M>
        requires { M.network matcher ≡ empty_network }
        ensures { result ≡ first_world turns firings }
    {
        let numbers = Numbers {
            index: 0,
            rule: 0,
            stamp: 0,
        };
        World::starting_at(alloc, matcher, numbers, turns, firings)
    }

    /// The same, but as if these numbers had been given already.
    pub fn starting_at(
        alloc: Global,
        matcher: M,
        numbers: Numbers,
        turns: u64,
        firings: u64,
    ) -> World<M>
        requires { M.network matcher ≡ empty_network }
        ensures { result
            ≡ with_numbers numbers.index numbers.rule numbers.stamp (first_world turns firings) }
    {
        World {
            alloc,
            constants: None,
            memory: KnowledgeBase::starting_at(alloc, matcher, numbers.index, numbers.rule),
            agenda: Agenda::starting_at(alloc, numbers.stamp),
            in_step: true,
            rules: RuleTable::new(alloc),
            watched: Watched {
                facts: false,
                rules: false,
                activations: false,
            },
            relations: Relations::new(alloc),
            env: Env::new(alloc),
            turns,
            firings,
            is_halted: false,
        }
    }

    /// The allocator.
    pub(crate) fn alloc(&self) -> Global {
        self.alloc
    }

    /// The rules and the facts.
    pub fn memory(&self) -> &KnowledgeBase<M>
        ensures { result.now.memory ≡ self.now.memory }
    {
        &self.memory
    }

    /// What is kept of the rules besides their conditions, in the order of their numbers.
    pub fn rules(&self) -> &RuleTable
        ensures { result.now ≡ self.now.rules }
    {
        &self.rules
    }

    /// The agenda.
    pub fn agenda(&self) -> &Agenda
        ensures { result.now.agenda ≡ self.now.agenda }
    {
        &self.agenda
    }

    /// The templates.
    pub fn relations(&self) -> &Relations
        ensures { result.now ≡ self.now.templates }
    {
        &self.relations
    }

    /// The values of the variables and the globals.
    pub fn env(&self) -> &Env
        ensures { result.now ≡ self.now.env }
    {
        &self.env
    }

    /// Defines a template, replacing the one that the relation had, if it had one. Returns no value.
    pub fn define_template(
        &mut self,
        relation: Name,
        template: Template,
    ) -> Result<Option<Value>, Break>
        ensures { Quietly self.new result (template_defined (relation, template) self.old) }
    {
        self.relations.insert(relation, template)?;
        Ok(None)
    }

    /// Takes the values of all variables away. The globals keep theirs.
    pub fn drop_variables(&mut self)
        ensures { self.new ≡ without_variables self.old }
    {
        self.env.drop_variables(self.alloc);
    }

    /// The value of an expression without an effect, as `cb_eval::eval` returns it.
    pub fn value(&mut self, expr: &Expr) -> Result<Value, Refused>
        ensures value { Returns result (value_of (term_of expr.now) self.old.env) }
        ensures same { self.new ≡ self.old }
    {
        let constants = Constants::made(self.alloc, &mut self.constants)?;
        eval(self.alloc, constants, expr, &self.env)
    }

    /// The value of an expression without an effect, where the variables and the globals have these values.
    pub(crate) fn value_in(&mut self, expr: &Expr, env: &Env) -> Result<Value, Refused>
        ensures value { Returns result (value_of (term_of expr.now) env.now) }
        ensures same { self.new ≡ self.old }
    {
        let constants = Constants::made(self.alloc, &mut self.constants)?;
        eval(self.alloc, constants, expr, env)
    }

    /// Gives the variables and the globals these values in place of all that they have.
    pub(crate) fn replace_env(&mut self, env: Env)
        ensures { self.new ≡ record self.old { env = env } }
    {
        self.env = env;
    }

    /// The value of a variable.
    pub(crate) fn variable(&self, name: &Name) -> Result<Option<Value>, Break>
        ensures { Quietly self.now result (looked_up name.now self.now) }
    {
        match self.env.get(name) {
            Some(value) => Ok(Some(value.clone()?)),
            None => Err(Break::Ended(EarlyEnd::Fault(Fault::UnboundVariable))),
        }
    }

    /// The value of a global variable.
    pub(crate) fn global(&self, name: &Name) -> Result<Option<Value>, Break>
        ensures { Quietly self.now result (global_looked_up name.now self.now) }
    {
        match self.env.global(name) {
            Some(value) => Ok(Some(value.clone()?)),
            None => Err(Break::Ended(EarlyEnd::Fault(Fault::UnknownGlobal))),
        }
    }

    /// FALSE.
    pub(crate) fn no(&mut self) -> Result<Value, NoMemory>
        ensures value { IfOk result (λ value. value ≡ false_symbol) }
        ensures same { self.new ≡ self.old }
    {
        Constants::made(self.alloc, &mut self.constants)?.truth(false)
    }

    /// What a function without an effect returns for these values.
    pub(crate) fn call(
        &mut self,
        function: Function,
        values: &[Value],
    ) -> Result<Option<Value>, Break>
        ensures { Quietly self.new result (called function values.now self.old) }
    {
        let constants = Constants::made(self.alloc, &mut self.constants)?;
        let value = apply(self.alloc, constants, function, values)?;
        Ok(Some(value))
    }

    /// Asserts a fact of this shape with these values. The answer is its address.
    pub(crate) fn assert<K: Sink>(
        &mut self,
        shape: &FactShape,
        values: Vec<Value>,
        out: &mut Out<K>,
    ) -> Result<Option<Value>, Break>
        requires { out.old.fault ≡ false }
        ensures went { Went K.writes out.old out.new self.new result
            (asserted shape.now values.items self.old) }
        ensures fine { OnOk result (out.new.fault ≡ false) }
    {
        let fact = self.build(shape, values)?;
        self.add(fact, out)
    }

    /// The fact of this shape with these values.
    fn build(&self, shape: &FactShape, values: Vec<Value>) -> Result<Fact, Break>
        ensures { Quietly self.now result (give_or_fault
            (built self.now.templates shape.now.relation (parts_of shape.now.slots values.items)) self.now) }
    {
        let parts = parts_of(self.alloc, shape, values)?;
        let relation = shape.relation().clone()?;
        let fact = build_fact(self.alloc, &self.relations, relation, parts)?;
        Ok(fact)
    }

    /// Gives a variable a value, which is the answer.
    pub(crate) fn bind(&mut self, name: &Name, value: Value) -> Result<Option<Value>, Break>
        ensures { Quietly self.new result (bound name.now value self.old) }
    {
        let answer = value.clone()?;
        self.env.set(name, value)?;
        Ok(Some(answer))
    }

    /// Gives a global variable a value, which is the answer.
    pub(crate) fn bind_global(&mut self, name: &Name, value: Value) -> Result<Option<Value>, Break>
        ensures { Quietly self.new result (global_bound name.now value self.old) }
    {
        let answer = value.clone()?;
        self.env.set_global(name, value)?;
        Ok(Some(answer))
    }

    /// Gives a variable these values, joined to one, which is the answer.
    pub(crate) fn bind_all(
        &mut self,
        name: &Name,
        values: Vec<Value>,
    ) -> Result<Option<Value>, Break>
        ensures { Quietly self.new result (effected (kind.Bind name.now) values.items self.old) }
    {
        let value = self.join(values)?;
        self.bind(name, value)
    }

    /// The same of a global variable.
    pub(crate) fn bind_global_all(
        &mut self,
        name: &Name,
        values: Vec<Value>,
    ) -> Result<Option<Value>, Break>
        ensures { Quietly self.new result
            (effected (kind.BindGlobal name.now) values.items self.old) }
    {
        let value = self.join(values)?;
        self.bind_global(name, value)
    }

    /// One value of several: a multifield of them, as `create$` makes, unless there is one.
    fn join(&mut self, values: Vec<Value>) -> Result<Value, Break>
        ensures { Quietly self.new result (joined values.items self.old) }
    {
        let mut values = values;
        if values.len() == 1 {
            if let Some(value) = values.pop() {
                return Ok(value);
            }
        }
        let constants = Constants::made(self.alloc, &mut self.constants)?;
        Ok(apply(self.alloc, constants, Function::Create, values.as_slice())?)
    }

    /// Takes a turn from those that are left.
    pub(crate) fn take_turn(&mut self) -> Result<(), Break>
        ensures { Quietly self.new result (turn self.old) }
    {
        if self.turns == 0 {
            return Err(Break::Ended(EarlyEnd::Limit(Limit::Turns)));
        }
        self.turns -= 1;
        Ok(())
    }

    /// Prints values on a channel.
    pub(crate) fn print<K: Sink>(
        &self,
        channel: Channel,
        values: &[Value],
        out: &mut Out<K>,
    ) -> Result<Option<Value>, Break>
        requires { out.old.fault ≡ false }
        ensures { Went K.writes out.old out.new self.now result
            (write (printed channel values.now) self.now) }
    {
        put_printed(self.alloc, channel, values, out)?;
        Ok(None)
    }

    /// Prints values on a line.
    pub(crate) fn print_line<K: Sink>(
        &self,
        values: &[Value],
        out: &mut Out<K>,
    ) -> Result<Option<Value>, Break>
        requires { out.old.fault ≡ false }
        ensures { Went K.writes out.old out.new self.now result
            (write (printed_line values.now) self.now) }
    {
        put_values(self.alloc, values, out)?;
        put(b"\n", out)?;
        Ok(None)
    }
}

/// The value of a constant.
pub(crate) fn constant(value: &Value) -> Result<Option<Value>, Break>
    ensures { (s : State) → Quietly s result (give (Some value.now) s) }
{
    Ok(Some(value.clone()?))
}

/// Whether the arguments of a call of this function, if it is one, end with a value.
pub(crate) fn ends(function: Option<Function>, value: &Value) -> bool
    ensures { result ≡ ends function value.now }
{
    match function {
        Some(function) => decides(function, value),
        None => false,
    }
}

/// What a fact of this shape is given with these values.
fn parts_of(alloc: Global, shape: &FactShape, values: Vec<Value>) -> Result<Parts, NoMemory>
    ensures { IfOk result (λ parts. part_values parts ≡ parts_of shape.now.slots values.items) }
{
    match shape.slots() {
        Some(names) => Ok(Parts::Slots(give_each(alloc, names, values)?)),
        None => Ok(Parts::Fields(values)),
    }
}

/// Slots, each with the one value that it is given.
fn give_each(alloc: Global, names: &[Name], values: Vec<Value>) -> Result<Vec<GivenSlot>, NoMemory>
    ensures { IfOk result (λ given. given.items ≡ each_given names.now values.items) }
{
    let mut given = Vec::with_capacity(alloc, names.len())?;
    for value in values {
        let Some(name) = names.get(given.len()) else {
            return Ok(given);
        };
        given.push(give_one(alloc, name, value)?)?;
    }
    Ok(given)
}

fn give_one(alloc: Global, name: &Name, value: Value) -> Result<GivenSlot, NoMemory>
    ensures { IfOk result (λ slot. slot ≡ (name.now, value ∷ [])) }
{
    let mut values = Vec::with_capacity(alloc, 1)?;
    values.push(value)?;
    Ok(GivenSlot::new(name.clone()?, values))
}
