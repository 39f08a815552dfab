//! A script carried out while it comes.
ghost use Rattle.std.specs.Prelude.{◌≡◌, ◌≤◌, List, ℕ, ◌++◌, [], ◌∷◌, Some, None, Ok, Err, IfOk, IfErr, IfSome, IsSome, OnOk, is_some, length, take, false};
ghost use Rattle.cb_forms.specs.Items.{rest};
ghost use Rattle.cb_io.specs.Output.{IsReady, OutState, Puts, extent_at, stop_extent};
ghost use Rattle.cb_session.specs.Internal.Scripts.{Ends, IsUnderWay};
ghost use Rattle.cb_session.specs.Places.{all_places, places_so_far};
ghost use Rattle.cb_session.specs.Sessions.{ArePlacesOf, flow_of, fresh_session, session_after};
ghost use Rattle.cb_session.specs.Internal.{WasFed};
ghost use Rattle.cb_session.specs.Setups.{Setup, fresh_setup, setup_of};
ghost use Rattle.cb_session.specs.Transcripts.{added, added_at_end, so_far, status_at_end, status_of};
ghost use Rattle.cb_matches.specs.Networks.{empty_network};

use crate::engine::Engine;
use crate::limits::Limits;
use crate::places::Places;
use crate::status::{Ending, Flow, Status, fault_code};
use cb_actions::Numbers;
use cb_forms::{Cutter, History, Out, Sink};
use cb_io::{Stop, with_all};
use cb_knowledge_base::Mark;
use cb_matches::Matcher;
use std::alloc::Global;
use std::marker::Model;
use std::mem;

/// Carries out a script item by item, while its bytes come, and writes its transcript.
///
/// Contracts see the limits and the numbers that it began with, the bytes fed, the status that was returned where the script has
/// ended, and the stop that was returned where it could not be carried out further.
#[derive(Drop)]
pub struct Session<M: Matcher<Mark>> {
    limits: Limits,
    numbers: Numbers,
    cutter: Cutter,
    engine: Engine<M>,
    places: Places,
    status: Option<Status>,
    stop: Option<Stop>,
    fed: History<u8>,
}

impl<M: Matcher<Mark>> Model for Session<M> {
    ghost use Rattle.std.specs.Prelude.{◌≡◌, None};
    ghost use Rattle.cb_session.specs.Internal.Scripts.{AreNoted, IsUnderWay};
    ghost use Rattle.cb_session.specs.Sessions.{SessionState};
    ghost use Rattle.cb_session.specs.Setups.{setup_of};

    ghost Value = { SessionState };

    ghost view = { λ s. record { setup = setup_of s.limits s.numbers; fed = s.fed.items; status = s.status; stop = s.stop } };

    ghost invariant = { λ s. (s.stop ≡ None → s.status ≡ None → IsUnderWay (setup_of s.limits s.numbers) s.fed.items s.cutter s.engine)
        × (s.stop ≡ None → AreNoted (setup_of s.limits s.numbers) s.fed.items s.status s.places) };
}

impl<M: Matcher<Mark>> Session<M> {
    /// A session before the first byte of a script, over a matcher without rules and facts.
    pub fn new(alloc: Global, matcher: M, limits: Limits) -> Session<M>
        requires { M.network matcher ≡ empty_network }
        ensures { result ≡ fresh_session (fresh_setup limits) }
    {
        let numbers = Numbers {
            index: 0,
            rule: 0,
            stamp: 0,
        };
        Session::starting_at(alloc, matcher, limits, numbers)
    }

    /// The same, but as if these numbers had been given already: the first fact, rule and activation get the next ones.
    pub fn starting_at(alloc: Global, matcher: M, limits: Limits, numbers: Numbers) -> Session<M>
        requires { M.network matcher ≡ empty_network }
        ensures { result ≡ fresh_session (setup_of limits numbers) }
    {
        Session {
            cutter: Cutter::new(alloc, limits.max_form),
            engine: Engine::new(
                alloc,
                matcher,
                numbers,
                limits.max_turns,
                limits.max_firings,
            ),
            places: Places::new(alloc),
            limits,
            numbers,
            status: None,
            stop: None,
            fed: History::new(),
        }
    }

    /// Takes the next bytes of the script, and carries out each item as soon as it has ended. Before it returns, all that
    /// the items write is written.
    ///
    /// `Ended` comes where the script has ended, with its status: then nothing more is carried out, and every later call
    /// returns that status. A `Stop` comes where memory or the sink fails, and every later call returns it.
    pub fn feed<K: Sink>(&mut self, bytes: &[u8], out: &mut Out<K>) -> Result<Flow, Stop>
        requires { self.old.stop ≡ None → IsReady out.old }
        // The script goes on.
        ensures puts { self.old.stop ≡ None → self.old.status ≡ None
            → Puts K.writes out.old out.new (stop_extent result)
            (added self.old.setup self.old.fed bytes.now) }
        ensures fed { OnOk result (self.old.status ≡ None
            → self.new ≡ session_after self.old.setup (self.old.fed ++ bytes.now)
            (so_far self.old.setup (self.old.fed ++ bytes.now)).status) }
        ensures flow { IfOk result (λ flow. self.old.status ≡ None
            → flow ≡ flow_of (so_far self.old.setup (self.old.fed ++ bytes.now)).status) }
        ensures ready { OnOk result (IsReady out.new) }

        // It stops.
        ensures stop { IfErr result (λ stop. self.new.stop ≡ Some stop) }
        ensures halted { result ≡ Err Stop.NoMemory → self.old.stop ≡ None → IsReady out.new }

        // It has ended, or has stopped.
        ensures ended { self.old.stop ≡ None → IfSome self.old.status (λ status.
            (result ≡ Ok (Flow.Ended status)) × (self.new ≡ self.old) × (out.new ≡ out.old)) }
        ensures stopped { IfSome self.old.stop (λ stop.
            (result ≡ Err stop) × (self.new ≡ self.old) × (out.new ≡ out.old)) }
    {
        if let Some(stop) = self.stop {
            return Err(stop);
        }
        if let Some(status) = self.status {
            return Ok(Flow::Ended(status));
        }
        match self.feed_all(bytes, out) {
            Ok(()) => match flush(out) {
                Ok(()) => Ok(flow(self.status)),
                Err(stop) => {
                    self.stop = Some(stop);
                    Err(stop)
                }
            },
            Err(stop) => {
                let stop = halt(stop, out);
                self.stop = Some(stop);
                Err(stop)
            }
        }
    }

    /// Feeds bytes one after another, those that complete nothing in runs. What is put may be left to flush.
    fn feed_all<K: Sink>(&mut self, bytes: &[u8], out: &mut Out<K>) -> Result<(), Stop>
        requires on { self.old.stop ≡ None }
        requires goes { self.old.status ≡ (so_far self.old.setup self.old.fed).status }
        requires fine { out.old.fault ≡ false }
        ensures fed { WasFed self.old bytes.now self.new result }
        ensures puts { Puts K.writes out.old out.new (stop_extent result)
            (added self.old.setup self.old.fed bytes.now) }
    {
        let mut done = 0;
        while done < bytes.len() {
            done += self.feed_run(&bytes[done..])?;
            if done < bytes.len() {
                self.feed_byte(bytes[done], out)?;
                done += 1;
            }
        }
        Ok(())
    }

    /// Feeds a beginning of the next bytes that completes nothing, and returns how many bytes that is. Nothing is written
    /// for it. After the script's end all bytes are such.
    fn feed_run(&mut self, bytes: &[u8]) -> Result<usize, Stop>
        requires on { self.old.stop ≡ None }
        requires goes { self.old.status ≡ (so_far self.old.setup self.old.fed).status }
        ensures within { IfOk result (λ n. n ≤ length bytes.now) }
        ensures fed { IfOk result (λ n. WasFed self.old (take n bytes.now) self.new result) }
        ensures adds { IfOk result
            (λ n. added self.old.setup self.old.fed (take n bytes.now) ≡ []) }
        ensures err { IfErr result (λ stop. stop ≡ Stop.NoMemory) }
    {
        if let Some(_) = self.status {
            self.fed = with_all(&self.fed, bytes);
            return Ok(bytes.len());
        }
        self.stop = Some(Stop::NoMemory);
        let n = self.cutter.step_run(bytes)?;
        let (run, _) = bytes.split_at(n);
        self.fed = with_all(&self.fed, run);
        self.stop = None;
        Ok(n)
    }

    /// Feeds the next byte, and executes what it completes. After the script's end a byte does nothing.
    fn feed_byte<K: Sink>(&mut self, byte: u8, out: &mut Out<K>) -> Result<(), Stop>
        requires on { self.old.stop ≡ None }
        requires goes { self.old.status ≡ (so_far self.old.setup self.old.fed).status }
        requires fine { out.old.fault ≡ false }
        ensures fed { WasFed self.old (byte ∷ []) self.new result }
        ensures puts { Puts K.writes out.old out.new (stop_extent result)
            (added self.old.setup self.old.fed (byte ∷ [])) }
    {
        if self.status.is_some() {
            self.fed = self.fed.and(&byte);
            return Ok(());
        }
        self.stop = Some(Stop::NoMemory);
        let line = self.cutter.line();
        let cut = self.cutter.step(byte)?;
        let status = self.engine.execute_cut(&cut, line, &mut self.places, out)?;
        self.fed = self.fed.and(&byte);
        self.status = status;
        self.stop = None;
        Ok(())
    }

    /// Ends the script, after its last byte: carries out the item that is open there, and gives the status. Later calls
    /// return that status and write nothing.
    ///
    /// A `Stop` comes as in `feed`.
    pub fn finish<K: Sink>(&mut self, out: &mut Out<K>) -> Result<Status, Stop>
        requires { self.old.stop ≡ None → IsReady out.old }
        // The script ends.
        ensures puts { self.old.stop ≡ None → self.old.status ≡ None
            → Puts K.writes out.old out.new (stop_extent result)
            (added_at_end self.old.setup self.old.fed) }
        ensures ended_now { IfOk result (λ status. self.old.status ≡ None
            → self.new ≡ session_after self.old.setup self.old.fed (Some status)) }
        ensures status { IfOk result (λ status. self.old.status ≡ None
            → status ≡ status_of self.old.setup self.old.fed) }
        ensures ready { OnOk result (IsReady out.new) }

        // It stops.
        ensures stop { IfErr result (λ stop. self.new.stop ≡ Some stop) }
        ensures halted { result ≡ Err Stop.NoMemory → self.old.stop ≡ None → IsReady out.new }

        // It had ended, or had stopped.
        ensures ended { self.old.stop ≡ None → IfSome self.old.status (λ status.
            (result ≡ Ok status) × (self.new ≡ self.old) × (out.new ≡ out.old)) }
        ensures stopped { IfSome self.old.stop (λ stop.
            (result ≡ Err stop) × (self.new ≡ self.old) × (out.new ≡ out.old)) }
    {
        if let Some(stop) = self.stop {
            return Err(stop);
        }
        if let Some(status) = self.status {
            return Ok(status);
        }
        match self.end(out) {
            Ok(status) => match flush(out) {
                Ok(()) => Ok(status),
                Err(stop) => {
                    self.stop = Some(stop);
                    Err(stop)
                }
            },
            Err(stop) => {
                let stop = halt(stop, out);
                self.stop = Some(stop);
                Err(stop)
            }
        }
    }

    /// Ends the script: carries out the item that is open.
    fn end<K: Sink>(&mut self, out: &mut Out<K>) -> Result<Status, Stop>
        requires on { self.old.stop ≡ None }
        requires goes { self.old.status ≡ None }
        requires fine { out.old.fault ≡ false }
        ensures ended { IfOk result
            (λ status. self.new ≡ session_after self.old.setup self.old.fed (Some status)) }
        ensures status { IfOk result (λ status. status ≡ status_of self.old.setup self.old.fed) }
        ensures puts { Puts K.writes out.old out.new (stop_extent result)
            (added_at_end self.old.setup self.old.fed) }
    {
        self.stop = Some(Stop::NoMemory);
        let status = execute_last(&mut self.cutter, &mut self.engine, &mut self.places, out)?;
        let status = status_at_end(status, self.engine.is_faulted());
        self.status = Some(status);
        self.stop = None;
        Ok(status)
    }

    /// The bytes of the item that is open, none after the script has ended. After a `Stop` they may be any.
    pub fn held(&self) -> &[u8]
        ensures rest { self.now.stop ≡ None → self.now.status ≡ None
            → result.now ≡ rest self.now.fed }
        ensures ended { self.now.stop ≡ None → IsSome self.now.status → result.now ≡ [] }
        ensures within { self.now.stop ≡ None → length result.now ≤ self.now.setup.max_form }
    {
        match self.status {
            Some(_) => &[],
            None => self.cutter.held(),
        }
    }

    /// How many tests of patterns the assertions and retractions of the script have made, all together, or 2^64 - 1 if there
    /// were more. No other tests count. Contracts say nothing of it here: how many one assertion or retraction may make is a
    /// clause of the matcher's `assert` and `retract`.
    pub fn probes(&self) -> u64 {
        self.engine.probes()
    }

    /// Where the faults arose of the items that have ended, and the limit at which the script ended, if it did. After a `Stop` they
    /// may be any.
    pub fn places(&self) -> &Places
        ensures { ArePlacesOf self.now result.now }
    {
        &self.places
    }

    /// Whether a call has returned a `Stop`.
    pub fn failed(&self) -> bool
        ensures { result ≡ is_some self.now.stop }
    {
        self.stop.is_some()
    }
}

impl<M: Matcher<Mark> + Drop> Session<M> {
    /// What `places` gives, where the session is done with.
    pub fn into_places(self) -> Places
        ensures { ArePlacesOf self result }
    {
        self.places
    }

    /// The same, but all else that the session keeps isn't freed: for a program that ends with it, since the system takes it back at
    /// once then.
    pub fn leave_places(self) -> Places
        ensures { ArePlacesOf self result }
    {
        mem::forget(self.cutter);
        mem::forget(self.engine);
        self.places
    }
}

/// Executes the item that is open at the end of a script, if there is one. The answer is the status, where the script
/// ends with it.
fn execute_last<M: Matcher<Mark>, K: Sink>(
    cutter: &mut Cutter,
    engine: &mut Engine<M>,
    places: &mut Places,
    out: &mut Out<K>,
) -> Result<Option<Status>, Stop>
    requires { out.old.fault ≡ false }
    ensures run { (setup : Setup) (fed : List ℕ) → IsUnderWay setup fed cutter.old engine.old
        → Ends K.writes out.old out.new setup fed engine.new result }
    ensures places { (setup : Setup) (fed : List ℕ) → IsUnderWay setup fed cutter.old engine.old
        → places.old ≡ places_so_far setup fed
        → OnOk result (places.new ≡ all_places setup fed) }
{
    let line = cutter.line();
    match cutter.end() {
        Ok(Some(item)) => engine.execute(&item, line, places, out),
        Ok(None) => Ok(None),
        Err(_) => Err(Stop::NoMemory),
    }
}

/// Writes all that was put.
fn flush<K: Sink>(out: &mut Out<K>) -> Result<(), Stop>
    requires { out.old.fault ≡ false }
    ensures puts { Puts K.writes out.old out.new (stop_extent result) [] }
    ensures ready { OnOk result (IsReady out.new) }
    ensures err { IfErr result (λ stop. stop ≡ Stop.WriteFault) }
{
    match out.flush() {
        Ok(()) => Ok(()),
        Err(_) => Err(Stop::WriteFault),
    }
}

/// The stop, after all that was put is written; `WriteFault` if writing fails.
fn halt<K: Sink>(stop: Stop, out: &mut Out<K>) -> Stop
    requires { stop ≡ Stop.NoMemory → out.old.fault ≡ false }
    ensures puts { (o : OutState K) (bytes : List ℕ)
        → Puts K.writes o out.old (extent_at stop) bytes
        → Puts K.writes o out.new (extent_at result) bytes }
    ensures ready { result ≡ Stop.NoMemory → IsReady out.new }
{
    match stop {
        Stop::WriteFault => Stop::WriteFault,
        Stop::NoMemory => match out.flush() {
            Ok(()) => Stop::NoMemory,
            Err(_) => Stop::WriteFault,
        },
    }
}

/// What the script leads to, where it ends with this status or goes on.
fn flow(status: Option<Status>) -> Flow
    ensures { result ≡ flow_of status }
{
    match status {
        Some(status) => Flow::Ended(status),
        None => Flow::GoOn,
    }
}

/// How a script ends at its end, unless it has ended before.
fn status_at_end(status: Option<Status>, is_faulted: bool) -> Status
    ensures { result ≡ status_at_end status is_faulted }
{
    match status {
        Some(status) => status,
        None => Status {
            code: fault_code(is_faulted),
            ending: Ending::Done,
        },
    }
}
