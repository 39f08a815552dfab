//! Executing items.
ghost use Rattle.std.specs.Prelude.{◌≡◌, IfSome, Ok, None, Some, Err, IfOk, OnOk, [], option_map, false, true};
ghost use Rattle.cb_actions.specs.Went.{Went};
ghost use Rattle.cb_actions.specs.Worlds.{first_world, with_numbers};
ghost use Rattle.cb_forms.specs.Trees.{atom, reading_of};
ghost use Rattle.cb_io.specs.Output.{Puts, stop_extent};
ghost use Rattle.cb_rules.specs.RuleTables.{rule_numbered};
ghost use Rattle.cb_matches.specs.Networks.{empty_network};
ghost use Rattle.cb_session.specs.Actions.{acted, shown_line};
ghost use Rattle.cb_session.specs.Internal.Executing.{Executes};
ghost use Rattle.cb_session.specs.Lines.{fault_line, value_line};
ghost use Rattle.cb_session.specs.Internal.Scripts.{cut_noted, cut_run};
ghost use Rattle.cb_session.specs.Places.{noted, noted_item};
ghost use Rattle.cb_session.specs.States.{state_of};
ghost use Rattle.cb_session.specs.Transcripts.{concluded, executed, limit_status};

use crate::line::{fault_line, limit_line, put_line, too_long_line, value_line};
use crate::places::{Place, Places};
use crate::status::Status;
use cb_actions::{Break, EarlyEnd, Numbers, World};
use cb_facts::{Name, Names, Value};
use cb_forms::{Cut, Fault, Item, NoMemory, Out, Sink, Token};
use cb_io::{Stop, put, put_text};
use cb_knowledge_base::{DeffactsTable, GlobalTable, Mark};
use cb_matches::Matcher;
use cb_requests::{Context, read_request};
use std::alloc::Global;
use std::marker::Model;

/// What is kept from item to item: what actions see and change, the facts of each `deffacts`, the initial expressions of
/// the globals, and whether a fault line was written. The names that were read are kept too, so that one that is read
/// again takes no more memory: nothing that is written depends on them.
///
/// After `NoMemory` it may be any.
#[derive(Drop)]
pub(crate) struct Engine<M: Matcher<Mark>> {
    pub(crate) alloc: Global,
    pub(crate) names: Names,
    pub(crate) world: World<M>,
    pub(crate) deffacts: DeffactsTable,
    pub(crate) globals: GlobalTable,
    is_faulted: bool,
}

impl<M: Matcher<Mark>> Model for Engine<M> {
    ghost use Rattle.std.specs.Coded.{codes};
    ghost use Rattle.cb_actions.specs.Internal.{world_code};
    ghost use Rattle.cb_knowledge_base.specs.Internal.WorkingMemories.{memory_code};
    ghost use Rattle.cb_session.specs.States.{State};
    ghost use Rattle.cb_session.specs.Internal.{state_code};

    ghost Value = { State };

    ghost coded = { state_code (world_code (memory_code (Prim.hlevel codes) (Prim.hlevel codes) (Prim.hlevel codes) (Prim.hlevel codes)) (Prim.hlevel codes) (Prim.hlevel codes) (Prim.hlevel codes) (Prim.hlevel codes) (Prim.hlevel codes) (Prim.hlevel codes)) (Prim.hlevel codes) (Prim.hlevel codes) (Prim.hlevel codes) };

    ghost view = { λ e. record { world = e.world; deffacts = e.deffacts; globals = e.globals; is_faulted = e.is_faulted } };
}

impl<M: Matcher<Mark>> Engine<M> {
    /// An engine before the first item, over a matcher without rules and facts. All loops together may take so many turns,
    /// and so many rules may fire.
    /// These numbers count as given already.
    pub(crate) fn new(
        alloc: Global,
        matcher: M,
        numbers: Numbers,
        turns: u64,
        firings: u64,
    ) -> Engine<M>
        requires { M.network matcher ≡ empty_network }
        ensures { result ≡ state_of
            (with_numbers numbers.index numbers.rule numbers.stamp (first_world turns firings)) }
    {
        Engine {
            alloc,
            names: Names::new(alloc),
            world: World::starting_at(alloc, matcher, numbers, turns, firings),
            deffacts: DeffactsTable::new(alloc),
            globals: GlobalTable::new(alloc),
            is_faulted: false,
        }
    }

    /// How many tests of patterns assertions and retractions have made.
    pub(crate) fn probes(&self) -> u64 {
        self.world.memory().probes()
    }

    /// Whether a fault line was written.
    pub(crate) fn is_faulted(&self) -> bool
        ensures { result ≡ self.now.is_faulted }
    {
        self.is_faulted
    }

    /// Executes what a byte completed: items, one after another, or the end at an item that is too long. All of them begin on
    /// this line. The answer is the status, where the script ends with it.
    pub(crate) fn execute_cut<K: Sink>(
        &mut self,
        cut: &Cut,
        line: u64,
        places: &mut Places,
        out: &mut Out<K>,
    ) -> Result<Option<Status>, Stop>
        requires { out.old.fault ≡ false }
        ensures run { Executes K.writes out.old out.new self.new result (cut_run self.old cut.now) }
        ensures places { OnOk result (places.new ≡ cut_noted self.old line cut.now places.old) }
    {
        match cut {
            Cut::More => Ok(None),
            Cut::Item(item) => self.execute(item, line, places, out),
            Cut::TwoItems(first, second) => match self.execute(first, line, places, out) {
                Ok(None) => self.execute(second, line, places, out),
                Ok(Some(status)) => Ok(Some(status)),
                Err(stop) => Err(stop),
            },
            Cut::TooLong => {
                places.end_at(line);
                end_at_limit(too_long_line(), out)
            }
        }
    }

    /// Executes an item that begins on this line, and puts what it writes. The answer is the status, where the script ends with
    /// the item.
    pub(crate) fn execute<K: Sink>(
        &mut self,
        item: &Item,
        line: u64,
        places: &mut Places,
        out: &mut Out<K>,
    ) -> Result<Option<Status>, Stop>
        requires { out.old.fault ≡ false }
        ensures run { Executes K.writes out.old out.new self.new result
            (executed self.old (reading_of item.now)) }
        ensures places { OnOk result
            (places.new ≡ noted_item line self.old (reading_of item.now) places.old) }
    {
        if let Some(name) = item_symbol(item) {
            return show_symbol(name, out);
        }
        match self.act(item, out) {
            Ok(()) => Ok(None),
            Err(Break::Ended(end)) => self.conclude(end, line, places, out),
            Err(Break::Stop(stop)) => Err(stop),
        }
    }

    /// Concludes an item that begins on this line and has ended so: notes its fault or its limit, and puts the line of it.
    fn conclude<K: Sink>(
        &mut self,
        end: EarlyEnd,
        line: u64,
        places: &mut Places,
        out: &mut Out<K>,
    ) -> Result<Option<Status>, Stop>
        requires { out.old.fault ≡ false }
        ensures run { Executes K.writes out.old out.new self.new result
            (concluded self.old [] (Err end)) }
        ensures places { OnOk result
            (places.new ≡ noted line self.old (Err end) places.old) }
    {
        self.note(end, line, places)?;
        match end {
            EarlyEnd::Fault(fault) => self.report(fault, out),
            EarlyEnd::FaultIn(fault, _) => self.report(fault, out),
            EarlyEnd::Limit(limit) => end_at_limit(limit_line(limit), out),
            EarlyEnd::Exit(code) => Ok(Some(Status::exited(code, self.is_faulted()))),
        }
    }

    /// Notes the fault or the limit by which an item has ended that begins on this line.
    fn note(&self, end: EarlyEnd, line: u64, places: &mut Places) -> Result<(), NoMemory>
        ensures { OnOk result (places.new ≡ noted line self.now (Err end) places.old) }
    {
        match end {
            EarlyEnd::Fault(_) => places.add(Place { line, rule: None }),
            EarlyEnd::FaultIn(_, number) => {
                let rule = self.rule_name(number)?;
                places.add(Place { line, rule })
            }
            EarlyEnd::Limit(_) => {
                places.end_at(line);
                Ok(())
            }
            EarlyEnd::Exit(_) => Ok(()),
        }
    }

    /// The name of the rule with this number, if there is one.
    fn rule_name(&self, number: u64) -> Result<Option<Name>, NoMemory>
        ensures { IfOk result (λ name. name
            ≡ option_map (λ r. r.name) (rule_numbered number self.now.world.rules)) }
    {
        match self.world.rules().get(number) {
            Some(rule) => Ok(Some(rule.name.clone()?)),
            None => Ok(None),
        }
    }

    /// Puts the line of a fault.
    fn report<K: Sink>(&mut self, fault: Fault, out: &mut Out<K>) -> Result<Option<Status>, Stop>
        requires { out.old.fault ≡ false }
        ensures state { self.new ≡ record self.old { is_faulted = true } }
        ensures status { IfOk result (λ status. status ≡ None) }
        ensures puts { Puts K.writes out.old out.new (stop_extent result) (fault_line fault) }
    {
        self.is_faulted = true;
        match put_text(fault_line(self.alloc, fault), out) {
            Ok(()) => Ok(None),
            Err(stop) => Err(stop),
        }
    }

    /// Reads the request that an item is, does it, and puts its value on a line.
    fn act<K: Sink>(&mut self, item: &Item, out: &mut Out<K>) -> Result<(), Break>
        requires { out.old.fault ≡ false }
        ensures { Went K.writes out.old out.new self.new result
            (acted (reading_of item.now) self.old) }
    {
        let context = Context {
            relations: self.world.relations(),
            env: self.world.env(),
            memory: self.world.memory(),
            rules: self.world.rules(),
            deffacts: &self.deffacts,
        };
        let request = match read_request(&mut self.names, &context, item) {
            Ok(request) => request,
            Err(refused) => return Err(Break::from(refused)),
        };
        let value = self.perform(request, out)?;
        show(self.alloc, value, out)?;
        Ok(())
    }
}

/// The symbol that an item is.
fn item_symbol(item: &Item) -> Option<&[u8]>
    ensures { IfSome result (λ name. reading_of item.now ≡ Ok (atom (Token.Symbol name.now))) }
{
    let Item::Form(form) = item else {
        return None;
    };
    let name = form.symbol()?;
    Some(name)
}

/// Puts the line of a symbol that is shown, which is the symbol itself: it takes no memory.
fn show_symbol<K: Sink>(name: &[u8], out: &mut Out<K>) -> Result<Option<Status>, Stop>
    requires { out.old.fault ≡ false }
    ensures status { IfOk result (λ status. status ≡ None) }
    ensures puts { Puts K.writes out.old out.new (stop_extent result)
        (value_line (Value.Symbol name.now)) }
{
    put_line(name, out)?;
    Ok(None)
}

/// Puts the line of a limit, with which the script ends.
fn end_at_limit<K: Sink>(line: &[u8], out: &mut Out<K>) -> Result<Option<Status>, Stop>
    requires { out.old.fault ≡ false }
    ensures status { IfOk result (λ status. status ≡ Some limit_status) }
    ensures puts { Puts K.writes out.old out.new (stop_extent result) line.now }
{
    match put(line, out) {
        Ok(()) => Ok(Some(Status::LIMITED)),
        Err(stop) => Err(stop),
    }
}

/// Puts a value on a line, if there is one.
fn show<K: Sink>(alloc: Global, value: Option<Value>, out: &mut Out<K>) -> Result<(), Stop>
    requires { out.old.fault ≡ false }
    ensures { Puts K.writes out.old out.new (stop_extent result) (shown_line value) }
{
    match value {
        Some(value) => put_text(value_line(alloc, &value), out),
        None => Ok(()),
    }
}
