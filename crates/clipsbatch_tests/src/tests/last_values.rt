//! Limits at their last value. Turns and firings have rows of their own (`calc_rows.rt`, `rule_rows.rt`).
use super::one_run::{Want, goes_in_blocks};
use super::rows::{AT_A_LIMIT, CB93, WITH_A_FAULT, WITHOUT_FAULT};
use cb_command_line::Outcome;
use cb_forms::NoMemory;
use std::alloc::Global;

/// A script, its limits, and how it goes.
struct Last {
    name: &'static str,
    script: &'static [u8],
    max_form: usize,
    max_firings: u64,
    max_turns: u64,
    written: &'static [u8],
    outcome: Outcome,
}

const PLAIN: Last = Last {
    name: "nothing",
    script: b"",
    max_form: 1000,
    max_firings: 1000,
    max_turns: 1000,
    written: b"",
    outcome: WITHOUT_FAULT,
};

const LASTS: [Last; 8] = [
    Last {
        name: "a word of the most bytes, and one of one more",
        script: b"abc abcd",
        max_form: 3,
        written: b"abc\n[CB91] form too long\n",
        outcome: AT_A_LIMIT,
        ..PLAIN
    },
    Last {
        name: "a word of the most bytes, and the next one",
        script: b"abc d",
        max_form: 3,
        written: b"abc\nd\n",
        ..PLAIN
    },
    // A comment between items belongs to none.
    Last {
        name: "a comment longer than an item may be",
        script: b"; a long comment\na",
        max_form: 3,
        written: b"a\n",
        ..PLAIN
    },
    Last {
        name: "the most branches",
        script: b"(defrule o (or (a) (b)) (or (a) (b)) (or (a) (b)) (or (a) (b)) (or (a) (b)) (or (a) (b)) => (print x))
(assert (a) (b))(run)",
        max_firings: 64,
        written: b"<Fact-2>\nxxxxxxxxxxxxxxxxxxxxxxxxxxxxxxxxxxxxxxxxxxxxxxxxxxxxxxxxxxxxxxxx",
        ..PLAIN
    },
    Last {
        name: "more branches than a rule may have",
        script: b"(defrule o (or (a) (b)) (or (a) (b)) (or (a) (b)) (or (a) (b)) (or (a) (b)) (or (a) (b)) (or (a) (b)) =>)",
        written: b"[CB15] too many branches\n",
        outcome: WITH_A_FAULT,
        ..PLAIN
    },
    // Three segments cut 20 fields in 231 ways.
    Last {
        name: "as many firings as there are ways",
        script: b"(defrule c (l $? $? $?) =>)(assert (l 1 2 3 4 5 6 7 8 9 10 11 12 13 14 15 16 17 18 19 20))(run)",
        max_firings: 231,
        written: b"<Fact-1>\n",
        ..PLAIN
    },
    Last {
        name: "one firing fewer than there are ways",
        script: b"(defrule c (l $? $? $?) =>)(assert (l 1 2 3 4 5 6 7 8 9 10 11 12 13 14 15 16 17 18 19 20))(run)",
        max_firings: 230,
        written: b"<Fact-1>\n[CB92] firing limit reached\n",
        outcome: AT_A_LIMIT,
        ..PLAIN
    },
    Last {
        name: "the turn after the last",
        script: b"(while TRUE do (halt))",
        max_turns: 3,
        written: CB93,
        outcome: AT_A_LIMIT,
        ..PLAIN
    },
];

/// The name of the first script that doesn't go as it should.
fn first_wrong(alloc: Global) -> Result<Option<&'static str>, NoMemory> {
    for last in &LASTS {
        let want = Want {
            max_form: last.max_form,
            max_firings: last.max_firings,
            max_turns: last.max_turns,
            written: last.written,
            outcome: last.outcome,
        };
        if !goes_in_blocks(alloc, last.script, 100, want)? {
            return Ok(Some(last.name));
        }
    }
    Ok(None)
}

#[test]
fn the_last_value_is_had_and_the_next_is_refused(rt: HostRuntime) -> Result<(), NoMemory> {
    assert_eq!(rt; first_wrong(rt.alloc())?, None);
    Ok(())
}

/// So many calls of `+` within each other, and so many of them closed.
fn nested(alloc: Global, open: usize, closed: usize) -> Result<Vec<u8>, NoMemory> {
    let mut script = Vec::new(alloc);
    for _ in 0..open {
        script.extend_from_slice(b"(+ 1 ")?;
    }
    script.extend_from_slice(b"1")?;
    for _ in 0..closed {
        script.extend_from_slice(b")")?;
    }
    Ok(script)
}

/// Whether such a script goes so.
fn nests_so(
    alloc: Global,
    open: usize,
    closed: usize,
    written: &[u8],
    outcome: Outcome,
) -> Result<bool, NoMemory> {
    let script = nested(alloc, open, closed)?;
    let want = Want {
        max_form: 2000,
        max_firings: 0,
        max_turns: 0,
        written,
        outcome,
    };
    goes_in_blocks(alloc, script.as_slice(), 100, want)
}

#[test]
fn lists_nest_to_the_last_depth(rt: HostRuntime) -> Result<(), NoMemory> {
    let alloc = rt.alloc();
    assert!(rt; nests_so(alloc, 200, 200, b"201\n", WITHOUT_FAULT)?);
    assert!(rt; nests_so(alloc, 201, 201, b"[CB03] nesting too deep\n", WITH_A_FAULT)?);
    assert!(rt; nests_so(alloc, 201, 200, b"[CB01] form not closed\n", WITH_A_FAULT)?);
    Ok(())
}
