//! The program's words: the limits that they set, and what they lead to.
use super::rows::{AT_A_LIMIT, WITH_A_FAULT};
use cb_command_line::{Cause, Outcome, read_words, run_words};
use cb_forms::{MemSink, MemSource, NoMemory, Out};
use clap::error::ErrorKind;
use std::alloc::Global;

/// Words, and the limits that they set.
struct Setting {
    words: &'static [&'static str],
    max_form: usize,
    max_firings: u64,
    max_turns: u64,
}

const SETTINGS: [Setting; 3] = [
    // The defaults.
    Setting {
        words: &["clipsbatch"],
        max_form: 1_048_576,
        max_firings: 1_000_000,
        max_turns: 10_000_000,
    },
    // The ends of the ranges.
    Setting {
        words: &[
            "clipsbatch",
            "--max-form",
            "1",
            "--max-firings=0",
            "--max-turns",
            "0",
        ],
        max_form: 1,
        max_firings: 0,
        max_turns: 0,
    },
    Setting {
        words: &[
            "clipsbatch",
            "--max-turns=1000000000000",
            "--max-firings",
            "1000000000000",
            "--max-form=16777216",
        ],
        max_form: 16_777_216,
        max_firings: 1_000_000_000_000,
        max_turns: 1_000_000_000_000,
    },
];

/// Whether these words set their limits.
fn sets(alloc: Global, setting: &Setting) -> bool {
    match read_words(alloc, setting.words) {
        Ok(limits) => {
            limits.max_form == setting.max_form
                && limits.max_firings == setting.max_firings
                && limits.max_turns == setting.max_turns
        }
        Err(_) => false,
    }
}

/// The first words that don't set their limits.
fn first_unset(alloc: Global) -> Option<&'static [&'static str]> {
    for setting in &SETTINGS {
        if !sets(alloc, setting) {
            return Some(setting.words);
        }
    }
    None
}

#[test]
fn words_set_limits(rt: HostRuntime) {
    assert!(rt; first_unset(rt.alloc()).is_none());
}

/// Words, and what they make of the script `(a b)`, which is an item of five bytes.
struct Request {
    words: &'static [&'static str],
    ends: Result<Outcome, ErrorKind>,
    written: &'static [u8],
}

const REQUESTS: [Request; 14] = [
    Request {
        words: &["clipsbatch"],
        ends: Ok(WITH_A_FAULT),
        written: b"[CB06] unknown function\n",
    },
    Request {
        words: &["clipsbatch", "--max-form", "5"],
        ends: Ok(WITH_A_FAULT),
        written: b"[CB06] unknown function\n",
    },
    Request {
        words: &["clipsbatch", "--max-form=4"],
        ends: Ok(AT_A_LIMIT),
        written: b"[CB91] form too long\n",
    },
    // The numbers are out of their ranges, or no numbers.
    Request {
        words: &["clipsbatch", "--max-form", "0"],
        ends: Err(ErrorKind::ValueValidation),
        written: b"",
    },
    Request {
        words: &["clipsbatch", "--max-form", "16777217"],
        ends: Err(ErrorKind::ValueValidation),
        written: b"",
    },
    Request {
        words: &["clipsbatch", "--max-firings", "1000000000001"],
        ends: Err(ErrorKind::ValueValidation),
        written: b"",
    },
    Request {
        words: &["clipsbatch", "--max-turns", "many"],
        ends: Err(ErrorKind::ValueValidation),
        written: b"",
    },
    // A word that begins with a hyphen is an option and no number.
    Request {
        words: &["clipsbatch", "--max-turns", "-1"],
        ends: Err(ErrorKind::UnknownArgument),
        written: b"",
    },
    // There is no number.
    Request {
        words: &["clipsbatch", "--max-turns"],
        ends: Err(ErrorKind::InvalidValue),
        written: b"",
    },
    // An option is given twice.
    Request {
        words: &["clipsbatch", "--max-form", "5", "--max-form", "6"],
        ends: Err(ErrorKind::ArgumentConflict),
        written: b"",
    },
    // The words are not the program's.
    Request {
        words: &["clipsbatch", "script.clp"],
        ends: Err(ErrorKind::UnknownArgument),
        written: b"",
    },
    Request {
        words: &["clipsbatch", "--max-items", "9"],
        ends: Err(ErrorKind::UnknownArgument),
        written: b"",
    },
    // The words ask for help.
    Request {
        words: &["clipsbatch", "-h"],
        ends: Err(ErrorKind::DisplayHelp),
        written: b"",
    },
    Request {
        words: &["clipsbatch", "--max-form", "5", "--help"],
        ends: Err(ErrorKind::DisplayHelp),
        written: b"",
    },
];

/// Whether these words lead there.
fn lead_there(alloc: Global, request: &Request) -> Result<bool, NoMemory> {
    let mut out = Out::new(MemSink::new(alloc, 100, 100, None)?);
    let mut source = MemSource::new(b"(a b)", 1, None);
    let ends = match run_words(alloc, request.words, &mut source, &mut out) {
        Ok(report) => Ok(report.outcome),
        Err(error) => Err(error.kind()),
    };
    Ok(ends == request.ends && out.sink().bytes() == request.written)
}

/// The first words that lead elsewhere.
fn first_astray(alloc: Global) -> Result<Option<&'static [&'static str]>, NoMemory> {
    for request in &REQUESTS {
        if !lead_there(alloc, request)? {
            return Ok(Some(request.words));
        }
    }
    Ok(None)
}

#[test]
fn words_are_taken_or_refused(rt: HostRuntime) -> Result<(), NoMemory> {
    assert!(rt; first_astray(rt.alloc())?.is_none());
    Ok(())
}

/// How a run ended, and what the program says of it.
const LINES: [(Cause, &str); 6] = [
    (Cause::Done, ""),
    (Cause::Exit, ""),
    (Cause::Limit, ""),
    (Cause::ReadFault, "clipsbatch: read failed"),
    (Cause::WriteFault, "clipsbatch: write failed"),
    (Cause::NoMemory, "clipsbatch: out of memory"),
];

/// The first of these runs of which the program says something else.
fn first_unsaid() -> Option<Cause> {
    for (cause, line) in &LINES {
        if Outcome::failed(*cause).line() != *line {
            return Some(*cause);
        }
    }
    None
}

#[test]
fn failed_runs_have_a_line(rt: HostRuntime) {
    assert!(rt; first_unsaid().is_none());
}
