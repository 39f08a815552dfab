//! Calls of a session, one after another.
ghost use Rattle.std.specs.Prelude.{◌≡◌, None};
ghost use Rattle.cb_io.specs.Output.{IsReady};

use super::*;

/// A script that ends at a limit.
const LIMITED: Status = Status {
    code: 4,
    ending: Ending::Limit,
};

/// Scripts that end by `exit`: with a status of their own, and without a fault.
const EXITED: Status = Status {
    code: 7,
    ending: Ending::Exit,
};

const LEFT: Status = Status {
    code: 0,
    ending: Ending::Exit,
};

/// A call, and what it answers.
enum Call {
    Feed(&'static [u8], Result<Flow, Stop>),
    Finish(Result<Status, Stop>),
}

/// A call, and what the session shows and the sink has after it. What it shows after a `Stop` may be any.
struct Turn {
    call: Call,
    held: &'static [u8],
    written: &'static [u8],
}

/// Calls of a session over a sink that fails at this write.
struct Talk {
    fail_at: Option<u64>,
    turns: &'static [Turn],
}

const TALKS: [Talk; 9] = [
    // An item is carried out as soon as it has ended, and an open string is a fault.
    Talk {
        fail_at: None,
        turns: &[
            Turn {
                call: Call::Feed(b"", Ok(Flow::GoOn)),
                held: b"",
                written: b"",
            },
            Turn {
                call: Call::Feed(b"(assert (a)) \"b", Ok(Flow::GoOn)),
                held: b"\"b",
                written: b"<Fact-1>\n",
            },
            Turn {
                call: Call::Feed(b" c)", Ok(Flow::GoOn)),
                held: b"\"b c)",
                written: b"<Fact-1>\n",
            },
            Turn {
                call: Call::Finish(Ok(FAULTY)),
                held: b"",
                written: b"<Fact-1>\n[CB01] form not closed\n",
            },
        ],
    },
    // An open word is read at the end.
    Talk {
        fail_at: None,
        turns: &[
            Turn {
                call: Call::Feed(b"-", Ok(Flow::GoOn)),
                held: b"-",
                written: b"",
            },
            Turn {
                call: Call::Feed(b"0", Ok(Flow::GoOn)),
                held: b"-0",
                written: b"",
            },
            Turn {
                call: Call::Finish(Ok(DONE)),
                held: b"",
                written: b"0\n",
            },
        ],
    },
    // A session that has ended answers its status again and writes nothing more.
    Talk {
        fail_at: None,
        turns: &[
            Turn {
                call: Call::Finish(Ok(DONE)),
                held: b"",
                written: b"",
            },
            Turn {
                call: Call::Feed(b" x ", Ok(Flow::Ended(DONE))),
                held: b"",
                written: b"",
            },
            Turn {
                call: Call::Finish(Ok(DONE)),
                held: b"",
                written: b"",
            },
        ],
    },
    // The same at a limit, which ends the script at once.
    Talk {
        fail_at: None,
        turns: &[
            Turn {
                call: Call::Feed(
                    b"ab x123456789abcdef0123456789abcdef0123456789abcdef0123456789abcdef",
                    Ok(Flow::GoOn),
                ),
                held: b"x123456789abcdef0123456789abcdef0123456789abcdef0123456789abcdef",
                written: b"ab\n",
            },
            Turn {
                call: Call::Feed(b"0 (facts 1) ", Ok(Flow::Ended(LIMITED))),
                held: b"",
                written: b"ab\n[CB91] form too long\n",
            },
            Turn {
                call: Call::Feed(b" x ", Ok(Flow::Ended(LIMITED))),
                held: b"",
                written: b"ab\n[CB91] form too long\n",
            },
            Turn {
                call: Call::Finish(Ok(LIMITED)),
                held: b"",
                written: b"ab\n[CB91] form too long\n",
            },
        ],
    },
    // The same where a rule is due and no firing is left.
    Talk {
        fail_at: None,
        turns: &[
            Turn {
                call: Call::Feed(
                    b"(assert (a 1))(defrule r (a ?x) => (assert (a (+ ?x 1))))(run 6)",
                    Ok(Flow::GoOn),
                ),
                held: b"",
                written: b"<Fact-1>\n",
            },
            Turn {
                call: Call::Feed(b"(run 0)(run 1)(facts)", Ok(Flow::Ended(LIMITED))),
                held: b"",
                written: b"<Fact-1>\n[CB92] firing limit reached\n",
            },
            Turn {
                call: Call::Finish(Ok(LIMITED)),
                held: b"",
                written: b"<Fact-1>\n[CB92] firing limit reached\n",
            },
        ],
    },
    // The same by `exit`.
    Talk {
        fail_at: None,
        turns: &[
            Turn {
                call: Call::Feed(b"(exit -1)(exit 7)(run)", Ok(Flow::Ended(EXITED))),
                held: b"",
                written: b"[CB17] wrong type\n",
            },
            Turn {
                call: Call::Feed(b" x ", Ok(Flow::Ended(EXITED))),
                held: b"",
                written: b"[CB17] wrong type\n",
            },
            Turn {
                call: Call::Finish(Ok(EXITED)),
                held: b"",
                written: b"[CB17] wrong type\n",
            },
        ],
    },
    Talk {
        fail_at: None,
        turns: &[
            Turn {
                call: Call::Feed(b"(exit)", Ok(Flow::Ended(LEFT))),
                held: b"",
                written: b"",
            },
            Turn {
                call: Call::Finish(Ok(LEFT)),
                held: b"",
                written: b"",
            },
        ],
    },
    // A write that fails is answered by each later call.
    Talk {
        fail_at: Some(1),
        turns: &[
            Turn {
                call: Call::Feed(b"(assert (a))", Err(Stop::WriteFault)),
                held: b"",
                written: b"",
            },
            Turn {
                call: Call::Feed(b" x ", Err(Stop::WriteFault)),
                held: b"",
                written: b"",
            },
            Turn {
                call: Call::Finish(Err(Stop::WriteFault)),
                held: b"",
                written: b"",
            },
        ],
    },
    // The same at the end.
    Talk {
        fail_at: Some(2),
        turns: &[
            Turn {
                call: Call::Feed(b"a b", Ok(Flow::GoOn)),
                held: b"b",
                written: b"a\n",
            },
            Turn {
                call: Call::Finish(Err(Stop::WriteFault)),
                held: b"",
                written: b"a\n",
            },
            Turn {
                call: Call::Feed(b" x ", Err(Stop::WriteFault)),
                held: b"",
                written: b"a\n",
            },
            Turn {
                call: Call::Finish(Err(Stop::WriteFault)),
                held: b"",
                written: b"a\n",
            },
        ],
    },
];

/// The first of these talks that doesn't go so.
fn first_wrong_talk(alloc: Global, talks: &[Talk]) -> Option<usize> {
    talks.iter().position(|talk| !is_answered(alloc, talk))
}

/// Whether a talk goes so.
fn is_answered(alloc: Global, talk: &Talk) -> bool {
    match MemSink::new(alloc, 1000, 1000, talk.fail_at) {
        Ok(sink) => all_go_with(alloc, sink, talk.turns),
        Err(_) => false,
    }
}

/// Whether each turn goes so in a session that writes to this sink.
fn all_go_with(alloc: Global, sink: MemSink, turns: &[Turn]) -> bool {
    let mut out = Out::new(sink);
    let mut session = Session::new(alloc, Rematch::new(alloc), LIMITS);
    all_go(&mut session, &mut out, turns)
}

/// Whether each turn goes so.
fn all_go<M: Matcher<Mark>>(
    session: &mut Session<M>,
    out: &mut Out<MemSink>,
    turns: &[Turn],
) -> bool
    requires { session.old.stop ≡ None → IsReady out.old }
{
    for turn in turns {
        if !answers(session, out, &turn.call) || !shows(session, out, turn) {
            return false;
        }
    }
    true
}

/// Whether the call answers what it should.
fn answers<M: Matcher<Mark>>(session: &mut Session<M>, out: &mut Out<MemSink>, call: &Call) -> bool
    requires { session.old.stop ≡ None → IsReady out.old }
    ensures { session.new.stop ≡ None → IsReady out.new }
{
    match call {
        Call::Feed(piece, answer) => feeds(session, out, piece, *answer),
        Call::Finish(answer) => finishes(session, out, *answer),
    }
}

/// Whether the session shows, and the sink has, what they should.
fn shows<M: Matcher<Mark>>(session: &Session<M>, out: &Out<MemSink>, turn: &Turn) -> bool {
    let is_held = session.failed() || session.held() == turn.held;
    is_held && session.failed() == is_stop(&turn.call) && out.sink().bytes() == turn.written
}

/// Whether the call should answer a `Stop`.
fn is_stop(call: &Call) -> bool {
    match call {
        Call::Feed(_, answer) => answer.is_err(),
        Call::Finish(answer) => answer.is_err(),
    }
}

#[test]
fn answers_calls(rt: HostRuntime) {
    assert_eq!(rt; first_wrong_talk(rt.alloc(), &TALKS), None);
}
