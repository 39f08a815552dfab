//! A whole script, from a source to a sink.
ghost use Rattle.std.specs.Prelude.{◌≡◌};
ghost use Rattle.cb_io.specs.Output.{IsReady};
ghost use Rattle.cb_script.specs.Ran.{Ran, RanFrom};
ghost use Rattle.cb_session.specs.Places.{FaultPlaces};
ghost use Rattle.cb_session.specs.Sessions.{ArePlacesOf, fresh_session};

use crate::outcome::{Cause, Outcome, Report};
use cb_forms::{Out, ReadFault, Sink, Source};
use cb_matches::Matcher;
use cb_rete::Joins;
use cb_session::{Flow, Limits, Mark, Session};
use std::alloc::Global;

/// Carries out the script that the source gives, and writes its transcript.
///
/// It reads at most 4096 bytes at a time, and carries out and writes what they hold before it reads on. After the
/// script's end at most the rest of those 4096 bytes has been read. After a read that failed nothing more is carried out
/// or written. A source that gives no end in 18,446,744,073,709,551,615 reads counts as one that failed. The record `RanFrom`
/// has a field for each promise, and `Ran` is that of a run whose numbers begin at 1.
pub fn run<S: Source, K: Sink>(
    alloc: Global,
    source: &mut S,
    out: &mut Out<K>,
    limits: Limits,
) -> Report
    requires { IsReady out.old }
    ensures { Ran limits result.outcome result.places
        (S.left source.old) (S.left source.new) (S.reads source.old) (S.reads source.new)
        (K.writes out.old.sink) (K.writes out.new.sink) }
{
    let mut session = Session::new(alloc, Joins::new(alloc), limits);
    let outcome = follow(&mut session, source, out);
    Report {
        outcome,
        places: session.into_places(),
    }
}

/// The same for a program that ends with the script: what the session keeps isn't freed, but left to the system, which takes it back
/// at once when the program ends.
pub fn run_once<S: Source, K: Sink>(
    alloc: Global,
    source: &mut S,
    out: &mut Out<K>,
    limits: Limits,
) -> Report
    requires { IsReady out.old }
    ensures { Ran limits result.outcome result.places
        (S.left source.old) (S.left source.new) (S.reads source.old) (S.reads source.new)
        (K.writes out.old.sink) (K.writes out.new.sink) }
{
    let mut session = Session::new(alloc, Joins::new(alloc), limits);
    let outcome = follow(&mut session, source, out);
    Report {
        outcome,
        places: session.leave_places(),
    }
}

// Feeds the session, which is new, until the script ends or something fails.
fn follow<M: Matcher<Mark>, S: Source, K: Sink>(
    session: &mut Session<M>,
    source: &mut S,
    out: &mut Out<K>,
) -> Outcome
    requires fresh { session.old ≡ fresh_session session.old.setup }
    requires ready { IsReady out.old }
    ensures { (places : FaultPlaces) → ArePlacesOf session.new places
        → RanFrom session.old.setup result places
        (S.left source.old) (S.left source.new) (S.reads source.old) (S.reads source.new)
        (K.writes out.old.sink) (K.writes out.new.sink) }
{
    let mut block = [0u8; 4096];
    for _turn in 0..u64::MAX {
        let n = match source.read(&mut block) {
            Ok(n) => n,
            Err(ReadFault) => return Outcome::failed(Cause::ReadFault),
        };
        if n == 0 {
            return match session.finish(out) {
                Ok(status) => Outcome::ended(status),
                Err(stop) => Outcome::stopped(stop),
            };
        }
        match session.feed(&block[..n], out) {
            Ok(Flow::GoOn) => {}
            Ok(Flow::Ended(status)) => return Outcome::ended(status),
            Err(stop) => return Outcome::stopped(stop),
        }
    }
    Outcome::failed(Cause::ReadFault)
}
