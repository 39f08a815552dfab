//! How often a session over `Joins` tests patterns.
ghost use Rattle.std.specs.Prelude.{◌≡◌, None};
ghost use Rattle.cb_io.specs.Output.{IsReady};

use cb_forms::{MemSink, NoMemory, Out};
use cb_matches::Matcher;
use cb_rete::Joins;
use cb_session::{Flow, Limits, Mark, Session};
use std::alloc::Global;

/// How often patterns may have been tested up to the end of a piece.
#[derive(Clone, Copy)]
enum Tests {
    /// At least and at most so often.
    Between(u64, u64),
    /// As often as before the piece.
    Same,
}

/// A piece of a script, and how often patterns may have been tested up to its end.
struct Piece {
    bytes: &'static [u8],
    tests: Tests,
}

/// A script by its pieces, and what it writes.
struct Row {
    pieces: &'static [Piece],
    written: &'static [u8],
}

const ROWS: [Row; 6] = [
    // what is tested against an earlier pattern
    Row {
        pieces: &[Piece {
            bytes: b"(watch activations)(defrule w (a ?x) (b ?y&:(> ?x ?y)) =>)(assert (b 1))(assert (a 2))",
            tests: Tests::Between(1, 100),
        }],
        written: b"<Fact-1>\n==> Activation 0      w: f-2,f-1\n<Fact-2>\n",
    },
    // two patterns joined
    Row {
        pieces: &[
            Piece {
                bytes: b"(defrule j (a ?x) (b ?x) =>)(assert (a 1) (a 2) (a 3))",
                tests: Tests::Between(0, 9),
            },
            Piece {
                bytes: b"(assert (b 2))",
                tests: Tests::Between(1, 14),
            },
            Piece {
                bytes: b"(retract 4)",
                tests: Tests::Same,
            },
        ],
        written: b"<Fact-3>\n<Fact-4>\n",
    },
    // a `not` that a retraction opens
    Row {
        pieces: &[
            Piece {
                bytes: b"(watch activations)(defrule m (a ?x) (not (b ?x)) (c ?x) =>)(assert (b 1) (c 1) (c 2) (a 1))",
                tests: Tests::Between(1, 14),
            },
            Piece {
                bytes: b"(retract 1)",
                tests: Tests::Between(1, 16),
            },
        ],
        written: b"<Fact-4>\n==> Activation 0      m: f-4,*,f-2\n",
    },
    // a `not` and an `exists`, and a pattern behind them
    Row {
        pieces: &[Piece {
            bytes: b"(watch activations)(defrule z (a ?x) (not (c ?x)) (exists (c ?)) (c ?y) =>)(assert (a 1) (a 2))(assert (c 1))(assert (c 2))(retract 3)",
            tests: Tests::Between(1, 100),
        }],
        written: b"<Fact-2>\n==> Activation 0      z: f-2,*,*,f-3\n<Fact-3>\n<== Activation 0      z: f-2,*,*,f-3\n<Fact-4>\n==> Activation 0      z: f-1,*,*,f-4\n",
    },
    // a fact that fits the pattern of a `not` in two ways
    Row {
        pieces: &[Piece {
            bytes: b"(defrule v (not (d $? x $?)) => (printout t none crlf))(assert (d x x) (d x))(retract 1)(run)(retract 2)(run)",
            tests: Tests::Between(1, 100),
        }],
        written: b"<Fact-2>\nnone\n",
    },
    // a group in a group
    Row {
        pieces: &[
            Piece {
                bytes: b"(watch activations)(defrule g (p ?x) (not (and (q ?x ?y) (not (r ?y)))) =>)(assert (p 1))(assert (q 1 5))(assert (r 5))",
                tests: Tests::Between(1, 12),
            },
            Piece {
                bytes: b"(retract 2)",
                tests: Tests::Same,
            },
        ],
        written: b"==> Activation 0      g: f-1,*\n<Fact-1>\n<== Activation 0      g: f-1,*\n<Fact-2>\n==> Activation 0      g: f-1,*\n<Fact-3>\n",
    },
];

/// Whether so many tests are as they should be after `before`.
fn fits(tests: Tests, before: u64, now: u64) -> bool {
    match tests {
        Tests::Between(least, most) => least <= now && now <= most,
        Tests::Same => now == before,
    }
}

/// Whether the session goes on after this piece, with as many tests as it may have made.
fn takes<M: Matcher<Mark>>(session: &mut Session<M>, out: &mut Out<MemSink>, piece: &Piece) -> bool
    requires { session.old.stop ≡ None → IsReady out.old }
    ensures { session.new.stop ≡ None → IsReady out.new }
{
    let before = session.probes();
    let flow = session.feed(piece.bytes, out);
    flow == Ok(Flow::GoOn) && fits(piece.tests, before, session.probes())
}

/// Whether the session goes on after each of these pieces.
fn takes_all<M: Matcher<Mark>>(
    session: &mut Session<M>,
    out: &mut Out<MemSink>,
    pieces: &[Piece],
) -> bool
    requires { session.old.stop ≡ None → IsReady out.old }
{
    for piece in pieces {
        if !takes(session, out, piece) {
            return false;
        }
    }
    true
}

/// Whether the script makes as many tests as it may, and writes what it should.
fn keeps(alloc: Global, row: &Row) -> Result<bool, NoMemory> {
    let limits = Limits {
        max_form: 1000,
        max_firings: 1000,
        max_turns: 1000,
    };
    let mut session = Session::new(alloc, Joins::new(alloc), limits);
    let mut out = Out::new(MemSink::new(alloc, 1000, 1000, None)?);
    Ok(takes_all(&mut session, &mut out, row.pieces) && out.sink().bytes() == row.written)
}

/// The first of these scripts that doesn't.
fn wrong_row(alloc: Global) -> Result<Option<usize>, NoMemory> {
    for (i, row) in ROWS.iter().enumerate() {
        if !keeps(alloc, row)? {
            return Ok(Some(i));
        }
    }
    Ok(None)
}

#[test]
fn sessions_keep_within_their_tests(rt: HostRuntime) -> Result<(), NoMemory> {
    let wrong = wrong_row(rt.alloc())?;
    assert!(rt; wrong.is_none(), "{wrong:?}");
    Ok(())
}
