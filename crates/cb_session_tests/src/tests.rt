ghost use Rattle.std.specs.Prelude.{◌≡◌, None};
ghost use Rattle.cb_io.specs.Output.{IsReady};

use cb_forms::{MemSink, Out};
use cb_matches::Matcher;
use cb_rematch::Rematch;
use cb_session::{Ending, Flow, Limits, Mark, Session, Status, Stop};
use std::alloc::Global;

mod calls;
mod commands;
mod facts;
mod faults;
mod globals;
mod groups;
mod heads;
mod loops;
mod modify;
mod printout;
mod retract;
mod rules;
mod templates;

const CB06: &[u8] = b"[CB06] unknown function\n";

const CB07: &[u8] = b"[CB07] wrong arguments\n";

const CB08: &[u8] = b"[CB08] malformed form\n";

const CB09: &[u8] = b"[CB09] fact does not fit its template\n";

const CB10: &[u8] = b"[CB10] value not allowed in slot\n";

const CB11: &[u8] = b"[CB11] unbound variable\n";

const CB12: &[u8] = b"[CB12] unknown global variable\n";

const CB13: &[u8] = b"[CB13] not allowed on a left side\n";

const CB14: &[u8] = b"[CB14] not in this profile\n";

const CB16: &[u8] = b"[CB16] bad salience\n";

const CB17: &[u8] = b"[CB17] wrong type\n";

const CB19: &[u8] = b"[CB19] division by zero\n";

const CB20: &[u8] = b"[CB20] no such fact\n";

const CB21: &[u8] = b"[CB21] no such rule\n";

const CB23: &[u8] = b"[CB23] template in use\n";

/// A piece of a script, and what is written once its last byte has come.
type Step = (&'static [u8], &'static [u8]);

/// A script in steps, and how it ends. Its end writes nothing.
struct Row {
    steps: &'static [Step],
    status: Status,
}

/// A script that goes to its end without a fault.
const DONE: Status = Status {
    code: 0,
    ending: Ending::Done,
};

/// A script that goes to its end and reports a fault.
const FAULTY: Status = Status {
    code: 1,
    ending: Ending::Done,
};

const LIMITS: Limits = Limits {
    max_form: 64,
    max_firings: 6,
    max_turns: 3,
};

/// The first of these scripts that doesn't go so.
fn first_wrong(alloc: Global, rows: &[Row]) -> Option<usize> {
    rows.iter().position(|row| !goes(alloc, row))
}

/// Whether a script goes so.
fn goes(alloc: Global, row: &Row) -> bool {
    match MemSink::new(alloc, 1000, 1000, None) {
        Ok(sink) => goes_with(alloc, sink, row),
        Err(_) => false,
    }
}

/// Whether it goes so in a session that writes to this sink.
fn goes_with(alloc: Global, sink: MemSink, row: &Row) -> bool {
    let mut out = Out::new(sink);
    let mut session = Session::new(alloc, Rematch::new(alloc), LIMITS);
    writes(&mut session, &mut out, row)
}

/// Whether the session writes what it should, and ends so.
fn writes<M: Matcher<Mark>>(session: &mut Session<M>, out: &mut Out<MemSink>, row: &Row) -> bool
    requires { session.old.stop ≡ None → IsReady out.old }
{
    for step in row.steps {
        if !takes(session, out, step) {
            return false;
        }
    }
    ends(session, out, row.status)
}

/// Whether the session takes a step, and writes what it should.
fn takes<M: Matcher<Mark>>(session: &mut Session<M>, out: &mut Out<MemSink>, step: &Step) -> bool
    requires { session.old.stop ≡ None → IsReady out.old }
    ensures { session.new.stop ≡ None → IsReady out.new }
{
    let (piece, writes) = *step;
    let place = out.sink().bytes().len();
    feeds(session, out, piece, Ok(Flow::GoOn)) && has_from(out, place, writes)
}

/// Whether the session ends with this status, and writes nothing more.
fn ends<M: Matcher<Mark>>(session: &mut Session<M>, out: &mut Out<MemSink>, status: Status) -> bool
    requires { session.old.stop ≡ None → IsReady out.old }
{
    let place = out.sink().bytes().len();
    finishes(session, out, Ok(status)) && has_from(out, place, b"")
}

/// Whether the session answers so where it is fed these bytes.
fn feeds<M: Matcher<Mark>>(
    session: &mut Session<M>,
    out: &mut Out<MemSink>,
    piece: &[u8],
    answer: Result<Flow, Stop>,
) -> bool
    requires { session.old.stop ≡ None → IsReady out.old }
    ensures { session.new.stop ≡ None → IsReady out.new }
{
    is_flow(session.feed(piece, out), answer)
}

/// Whether the answer of a `feed` is this one.
fn is_flow(got: Result<Flow, Stop>, answer: Result<Flow, Stop>) -> bool {
    got == answer
}

/// Whether the answer of a `finish` is this one.
fn is_status(got: Result<Status, Stop>, answer: Result<Status, Stop>) -> bool {
    got == answer
}

/// Whether the session answers so where the script ends.
fn finishes<M: Matcher<Mark>>(
    session: &mut Session<M>,
    out: &mut Out<MemSink>,
    answer: Result<Status, Stop>,
) -> bool
    requires { session.old.stop ≡ None → IsReady out.old }
    ensures { session.new.stop ≡ None → IsReady out.new }
{
    is_status(session.finish(out), answer)
}

/// Whether this is what the sink has from a place on.
fn has_from(out: &Out<MemSink>, place: usize, bytes: &[u8]) -> bool {
    match out.sink().bytes().get(place..) {
        Some(rest) => rest == bytes,
        None => false,
    }
}
