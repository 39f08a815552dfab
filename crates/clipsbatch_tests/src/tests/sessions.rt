//! Sessions, call by call.
ghost use Rattle.std.specs.Prelude.{◌≡◌, None};
ghost use Rattle.cb_io.specs.Output.{IsReady};

use cb_forms::{MemSink, NoMemory, Out};
use cb_matches::Matcher;
use cb_rematch::Rematch;
use cb_session::{Ending, Flow, Limits, Mark, Numbers, Session, Status, Stop};
use std::alloc::Global;

/// A call, and what it answers.
enum Call {
    Feed(&'static [u8], Result<Flow, Stop>),
    Finish(Result<Status, Stop>),
}

/// A call, and what the session shows and the sink has after it. After a `Stop` nothing is said of what it shows.
struct Turn {
    call: Call,
    held: &'static [u8],
    written: &'static [u8],
}

/// The calls of a session that begins after these numbers, and whose sink may fail at a write.
struct Talk {
    name: &'static str,
    numbers: Numbers,
    fail_at: Option<u64>,
    turns: &'static [Turn],
}

const CLEAN: Status = Status {
    code: 0,
    ending: Ending::Done,
};

const FAULTY: Status = Status {
    code: 1,
    ending: Ending::Done,
};

const LIMITED: Status = Status {
    code: 4,
    ending: Ending::Limit,
};

const NONE: Numbers = Numbers {
    index: 0,
    rule: 0,
    stamp: 0,
};

const TALKS: [Talk; 8] = [
    Talk {
        name: "it shows what is open",
        numbers: NONE,
        fail_at: None,
        turns: &[
            Turn {
                call: Call::Feed(b"(assert (a)) \"b", Ok(Flow::GoOn)),
                held: b"\"b",
                written: b"<Fact-1>\n",
            },
            Turn {
                call: Call::Feed(b" c)", Ok(Flow::GoOn)),
                held: b"\"b c)",
                written: b"<Fact-1>\n",
            },
        ],
    },
    Talk {
        name: "it ends an open string",
        numbers: NONE,
        fail_at: None,
        turns: &[
            Turn {
                call: Call::Feed(b"\"b c)", Ok(Flow::GoOn)),
                held: b"\"b c)",
                written: b"",
            },
            Turn {
                call: Call::Finish(Ok(FAULTY)),
                held: b"",
                written: b"[CB01] form not closed\n",
            },
        ],
    },
    Talk {
        name: "it ends an open word",
        numbers: NONE,
        fail_at: None,
        turns: &[
            Turn {
                call: Call::Feed(b"-0", Ok(Flow::GoOn)),
                held: b"-0",
                written: b"",
            },
            Turn {
                call: Call::Finish(Ok(CLEAN)),
                held: b"",
                written: b"0\n",
            },
        ],
    },
    Talk {
        name: "it stays ended",
        numbers: NONE,
        fail_at: None,
        turns: &[
            Turn {
                call: Call::Finish(Ok(CLEAN)),
                held: b"",
                written: b"",
            },
            Turn {
                call: Call::Feed(b" x ", Ok(Flow::Ended(CLEAN))),
                held: b"",
                written: b"",
            },
            Turn {
                call: Call::Finish(Ok(CLEAN)),
                held: b"",
                written: b"",
            },
        ],
    },
    Talk {
        name: "it stays stopped",
        numbers: NONE,
        fail_at: Some(1),
        turns: &[
            Turn {
                call: Call::Feed(b"(assert (a))", Err(Stop::WriteFault)),
                held: b"",
                written: b"",
            },
            Turn {
                call: Call::Feed(b" x ", Err(Stop::WriteFault)),
                held: b"",
                written: b"",
            },
            Turn {
                call: Call::Finish(Err(Stop::WriteFault)),
                held: b"",
                written: b"",
            },
        ],
    },
    Talk {
        name: "it ends after the last index",
        numbers: Numbers {
            index: 9_223_372_036_854_775_806,
            rule: 0,
            stamp: 0,
        },
        fail_at: None,
        turns: &[
            Turn {
                call: Call::Feed(b"(assert (a))(assert (b))", Ok(Flow::Ended(LIMITED))),
                held: b"",
                written: b"<Fact-9223372036854775807>\n[CB94] numbers exhausted\n",
            },
            Turn {
                call: Call::Finish(Ok(LIMITED)),
                held: b"",
                written: b"<Fact-9223372036854775807>\n[CB94] numbers exhausted\n",
            },
        ],
    },
    Talk {
        name: "it ends after the last stamp",
        numbers: Numbers {
            index: 0,
            rule: 0,
            stamp: 9_223_372_036_854_775_807,
        },
        fail_at: None,
        turns: &[
            Turn {
                call: Call::Feed(
                    b"(watch all)(defrule r (a) =>)(assert (a))",
                    Ok(Flow::Ended(LIMITED)),
                ),
                held: b"",
                written: b"==> f-1     (a)\n[CB94] numbers exhausted\n",
            },
            Turn {
                call: Call::Finish(Ok(LIMITED)),
                held: b"",
                written: b"==> f-1     (a)\n[CB94] numbers exhausted\n",
            },
        ],
    },
    Talk {
        name: "it ends after the last number of a rule",
        numbers: Numbers {
            index: 0,
            rule: 9_223_372_036_854_775_807,
            stamp: 0,
        },
        fail_at: None,
        turns: &[
            Turn {
                call: Call::Feed(b"(defrule r (a) =>)", Ok(Flow::Ended(LIMITED))),
                held: b"",
                written: b"[CB94] numbers exhausted\n",
            },
            Turn {
                call: Call::Finish(Ok(LIMITED)),
                held: b"",
                written: b"[CB94] numbers exhausted\n",
            },
        ],
    },
];

/// Facts that are modified while numbers run out.
const MODIFY_TALKS: [Talk; 3] = [
    Talk {
        name: "it modifies the fact with the last index",
        numbers: Numbers {
            index: 9_223_372_036_854_775_806,
            rule: 0,
            stamp: 0,
        },
        fail_at: None,
        turns: &[
            Turn {
                call: Call::Feed(
                    b"(deftemplate c (slot n))(assert (c (n 1)))",
                    Ok(Flow::GoOn),
                ),
                held: b"",
                written: b"<Fact-9223372036854775807>\n",
            },
            Turn {
                call: Call::Feed(b"(modify 9223372036854775807 (n 2))", Ok(Flow::GoOn)),
                held: b"",
                written: b"<Fact-9223372036854775807>\n<Fact-9223372036854775807>\n",
            },
            Turn {
                call: Call::Feed(b"(facts)", Ok(Flow::GoOn)),
                held: b"",
                written: b"<Fact-9223372036854775807>\n<Fact-9223372036854775807>\nf-9223372036854775807 (c (n 2))\nFor a total of 1 fact.\n",
            },
            Turn {
                call: Call::Feed(b"(assert (c (n 1)))", Ok(Flow::Ended(LIMITED))),
                held: b"",
                written: b"<Fact-9223372036854775807>\n<Fact-9223372036854775807>\nf-9223372036854775807 (c (n 2))\nFor a total of 1 fact.\n[CB94] numbers exhausted\n",
            },
            Turn {
                call: Call::Finish(Ok(LIMITED)),
                held: b"",
                written: b"<Fact-9223372036854775807>\n<Fact-9223372036854775807>\nf-9223372036854775807 (c (n 2))\nFor a total of 1 fact.\n[CB94] numbers exhausted\n",
            },
        ],
    },
    Talk {
        name: "it modifies with the last stamp, and ends after it",
        numbers: Numbers {
            index: 0,
            rule: 0,
            stamp: 9_223_372_036_854_775_806,
        },
        fail_at: None,
        turns: &[
            Turn {
                call: Call::Feed(
                    b"(deftemplate c (slot n))(watch all)(defrule r (c (n ?x)) =>)",
                    Ok(Flow::GoOn),
                ),
                held: b"",
                written: b"",
            },
            Turn {
                call: Call::Feed(b"(assert (c (n 1)))", Ok(Flow::GoOn)),
                held: b"",
                written: b"==> f-1     (c (n 1))\n==> Activation 0      r: f-1\n<Fact-1>\n",
            },
            Turn {
                call: Call::Feed(b"(modify 1 (n 2))", Ok(Flow::Ended(LIMITED))),
                held: b"",
                written: b"==> f-1     (c (n 1))\n==> Activation 0      r: f-1\n<Fact-1>\n<== f-1     (c (n 1))\n<== Activation 0      r: f-1\n==> f-1     (c (n 2))\n[CB94] numbers exhausted\n",
            },
            Turn {
                call: Call::Finish(Ok(LIMITED)),
                held: b"",
                written: b"==> f-1     (c (n 1))\n==> Activation 0      r: f-1\n<Fact-1>\n<== f-1     (c (n 1))\n<== Activation 0      r: f-1\n==> f-1     (c (n 2))\n[CB94] numbers exhausted\n",
            },
        ],
    },
    Talk {
        name: "it modifies while the last stamp is left",
        numbers: Numbers {
            index: 0,
            rule: 0,
            stamp: 9_223_372_036_854_775_805,
        },
        fail_at: None,
        turns: &[
            Turn {
                call: Call::Feed(
                    b"(deftemplate c (slot n))(watch all)(defrule r (c (n ?x)) =>)",
                    Ok(Flow::GoOn),
                ),
                held: b"",
                written: b"",
            },
            Turn {
                call: Call::Feed(b"(assert (c (n 1)))", Ok(Flow::GoOn)),
                held: b"",
                written: b"==> f-1     (c (n 1))\n==> Activation 0      r: f-1\n<Fact-1>\n",
            },
            Turn {
                call: Call::Feed(b"(modify 1 (n 2))", Ok(Flow::GoOn)),
                held: b"",
                written: b"==> f-1     (c (n 1))\n==> Activation 0      r: f-1\n<Fact-1>\n<== f-1     (c (n 1))\n<== Activation 0      r: f-1\n==> f-1     (c (n 2))\n==> Activation 0      r: f-1\n<Fact-1>\n",
            },
            Turn {
                call: Call::Finish(Ok(CLEAN)),
                held: b"",
                written: b"==> f-1     (c (n 1))\n==> Activation 0      r: f-1\n<Fact-1>\n<== f-1     (c (n 1))\n<== Activation 0      r: f-1\n==> f-1     (c (n 2))\n==> Activation 0      r: f-1\n<Fact-1>\n",
            },
        ],
    },
];

/// Facts that are modified, and groups in groups, over the matcher that the program doesn't have.
const MATCHER_TALKS: [Talk; 3] = [
    Talk {
        name: "it modifies over the other matcher",
        numbers: NONE,
        fail_at: None,
        turns: &[
            Turn {
                call: Call::Feed(
                    b"(deftemplate c (slot n (default 0)) (multislot t))(assert (c) (c (n 1)))(modify 1 (n 5) (t x y))(modify 1 (n 5))(modify 2 (n 5) (t x y))(modify 9)(facts)",
                    Ok(Flow::GoOn),
                ),
                held: b"",
                written: b"<Fact-2>\n<Fact-1>\n<Fact-1>\nFALSE\n[CB20] no such fact\nf-1     (c (n 5) (t x y))\nf-2     (c (n 1) (t))\nFor a total of 2 facts.\n",
            },
            Turn {
                call: Call::Finish(Ok(FAULTY)),
                held: b"",
                written: b"<Fact-2>\n<Fact-1>\n<Fact-1>\nFALSE\n[CB20] no such fact\nf-1     (c (n 5) (t x y))\nf-2     (c (n 1) (t))\nFor a total of 2 facts.\n",
            },
        ],
    },
    Talk {
        name: "it runs a rule that modifies its fact over the other matcher",
        numbers: NONE,
        fail_at: None,
        turns: &[
            Turn {
                call: Call::Feed(
                    b"(deftemplate c (slot n))(defrule l ?f <- (c (n ?x&:(< ?x 3))) => (modify ?f (n (+ ?x 1))) (printout t ?x crlf))(assert (c (n 0)))(run)(facts)",
                    Ok(Flow::GoOn),
                ),
                held: b"",
                written: b"<Fact-1>\n0\n1\n2\nf-1     (c (n 3))\nFor a total of 1 fact.\n",
            },
            Turn {
                call: Call::Finish(Ok(CLEAN)),
                held: b"",
                written: b"<Fact-1>\n0\n1\n2\nf-1     (c (n 3))\nFor a total of 1 fact.\n",
            },
        ],
    },
    Talk {
        name: "it has groups in groups over the other matcher",
        numbers: NONE,
        fail_at: None,
        turns: &[
            Turn {
                call: Call::Feed(
                    b"(watch activations)(defrule g (p ?x) (not (and (q ?x ?y) (not (r ?y)))) =>)(assert (p 1))(assert (q 1 5))(assert (r 5))(retract 2)",
                    Ok(Flow::GoOn),
                ),
                held: b"",
                written: b"==> Activation 0      g: f-1,*\n<Fact-1>\n<== Activation 0      g: f-1,*\n<Fact-2>\n==> Activation 0      g: f-1,*\n<Fact-3>\n",
            },
            Turn {
                call: Call::Feed(
                    b"(defrule f (forall (task ?t) (done ?t)) => (printout t all crlf))(run)(assert (task 1))(assert (done 1))(run)",
                    Ok(Flow::GoOn),
                ),
                held: b"",
                written: b"==> Activation 0      g: f-1,*\n<Fact-1>\n<== Activation 0      g: f-1,*\n<Fact-2>\n==> Activation 0      g: f-1,*\n<Fact-3>\n==> Activation 0      f: *\nall\n<Fact-4>\n==> Activation 0      f: *\n<Fact-5>\nall\n",
            },
            Turn {
                call: Call::Finish(Ok(CLEAN)),
                held: b"",
                written: b"==> Activation 0      g: f-1,*\n<Fact-1>\n<== Activation 0      g: f-1,*\n<Fact-2>\n==> Activation 0      g: f-1,*\n<Fact-3>\n==> Activation 0      f: *\nall\n<Fact-4>\n==> Activation 0      f: *\n<Fact-5>\nall\n",
            },
        ],
    },
];

/// Whether these bytes lead there.
fn feeds<M: Matcher<Mark>>(
    session: &mut Session<M>,
    out: &mut Out<MemSink>,
    bytes: &[u8],
    want: Result<Flow, Stop>,
) -> bool
    requires { session.old.stop ≡ None → IsReady out.old }
    ensures { session.new.stop ≡ None → IsReady out.new }
{
    session.feed(bytes, out) == want
}

/// Whether the script's end leads there.
fn finishes<M: Matcher<Mark>>(
    session: &mut Session<M>,
    out: &mut Out<MemSink>,
    want: Result<Status, Stop>,
) -> bool
    requires { session.old.stop ≡ None → IsReady out.old }
    ensures { session.new.stop ≡ None → IsReady out.new }
{
    session.finish(out) == want
}

/// Whether the call answers what it should.
fn answers<M: Matcher<Mark>>(session: &mut Session<M>, out: &mut Out<MemSink>, call: &Call) -> bool
    requires { session.old.stop ≡ None → IsReady out.old }
    ensures { session.new.stop ≡ None → IsReady out.new }
{
    match call {
        Call::Feed(bytes, want) => feeds(session, out, bytes, *want),
        Call::Finish(want) => finishes(session, out, *want),
    }
}

/// Whether the call should answer a `Stop`.
fn is_stop(call: &Call) -> bool {
    match call {
        Call::Feed(_, want) => want.is_err(),
        Call::Finish(want) => want.is_err(),
    }
}

/// Whether the session is stopped after a call that should answer a `Stop`, and after no other.
fn stops<M: Matcher<Mark>>(session: &Session<M>, call: &Call) -> bool {
    session.failed() == is_stop(call)
}

/// How many fault lines were written.
fn faults_in(written: &[u8]) -> u64 {
    let mut count = 0u64;
    for window in written.windows(4) {
        if window.starts_with(b"[CB") && !window.ends_with(b"9") {
            count = count.saturating_add(1);
        }
    }
    count
}

/// Whether the session shows what is open and knows so many faults.
fn knows<M: Matcher<Mark>>(session: &Session<M>, held: &[u8], faults: u64) -> bool {
    session.held() == held && session.places().count() == faults
}

/// Whether the session shows what is open after this turn and knows of the faults, and the sink has what was written.
fn shows<M: Matcher<Mark>>(session: &Session<M>, out: &Out<MemSink>, turn: &Turn) -> bool {
    (session.failed() || knows(session, turn.held, faults_in(turn.written)))
        && out.sink().bytes() == turn.written
}

/// Whether these turns go so, one after another.
fn go_so<M: Matcher<Mark>>(session: &mut Session<M>, out: &mut Out<MemSink>, turns: &[Turn]) -> bool
    requires { session.old.stop ≡ None → IsReady out.old }
{
    for turn in turns {
        if !answers(session, out, &turn.call)
            || !stops(session, &turn.call)
            || !shows(session, out, turn)
        {
            return false;
        }
    }
    true
}

/// Whether a session goes so from its start.
fn goes_so(alloc: Global, talk: &Talk) -> Result<bool, NoMemory> {
    let limits = Limits {
        max_form: 1000,
        max_firings: 1000,
        max_turns: 1000,
    };
    let mut session = Session::starting_at(alloc, Rematch::new(alloc), limits, talk.numbers);
    let mut out = Out::new(MemSink::new(alloc, 1000, 1000, talk.fail_at)?);
    Ok(go_so(&mut session, &mut out, talk.turns))
}

/// The name of the first of these sessions that doesn't go so.
fn first_wrong(alloc: Global, talks: &[Talk]) -> Result<Option<&'static str>, NoMemory> {
    for talk in talks {
        if !goes_so(alloc, talk)? {
            return Ok(Some(talk.name));
        }
    }
    Ok(None)
}

#[test]
fn sessions_answer_and_show(rt: HostRuntime) -> Result<(), NoMemory> {
    assert_eq!(rt; first_wrong(rt.alloc(), &TALKS)?, None);
    Ok(())
}

#[test]
fn sessions_modify_to_the_last_number(rt: HostRuntime) -> Result<(), NoMemory> {
    assert_eq!(rt; first_wrong(rt.alloc(), &MODIFY_TALKS)?, None);
    Ok(())
}

#[test]
fn sessions_agree_over_the_other_matcher(rt: HostRuntime) -> Result<(), NoMemory> {
    assert_eq!(rt; first_wrong(rt.alloc(), &MATCHER_TALKS)?, None);
    Ok(())
}
