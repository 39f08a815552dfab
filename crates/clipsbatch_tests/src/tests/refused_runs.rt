//! Runs for which memory may be refused.
use super::one_run::{Want, is_as_wanted, outcome_of, want_of};
use super::pieces::joined;
use super::rows::Row;
use super::runs::{SUBJECTS, rows_about};
use cb_command_line::{Cause, Outcome};
use cb_forms::{MemSink, MemSource, NoMemory, Out};
use std::alloc::Global;

const NO_MEMORY: Outcome = Outcome {
    status: 3,
    cause: Cause::NoMemory,
};

/// How a run ended for which memory may be refused.
#[derive(Clone, Copy, PartialEq, Eq)]
enum End {
    AsWanted,
    Refused,
    Otherwise,
}

/// How a run over this script ended: where memory was refused, what it wrote has to be a beginning of what it should write.
fn end_of_run(alloc: Global, script: &[u8], sink: MemSink, want: Want<'_>) -> End {
    let mut out = Out::new(sink);
    let mut source = MemSource::new(script, 7, None);
    let outcome = outcome_of(alloc, &mut source, &mut out, want);
    end_by(outcome, out.sink().bytes(), want)
}

/// What a run that ended so and wrote this is.
fn end_by(outcome: Outcome, written: &[u8], want: Want<'_>) -> End {
    if is_as_wanted(outcome, written, want) {
        End::AsWanted
    } else if outcome == NO_MEMORY && want.written.starts_with(written) {
        End::Refused
    } else {
        End::Otherwise
    }
}

/// How a run over the script of a row ended. What the test itself needs may be refused, too.
fn end_of_row(alloc: Global, row: &Row) -> Result<End, NoMemory> {
    let whole = joined(alloc, row)?;
    let want = want_of(row, &whole);
    let sink = MemSink::new(alloc, 1000, 1000, None)?;
    Ok(end_of_run(alloc, whole.script.as_slice(), sink, want))
}

/// How many of these rows had memory refused, or `None` where a run ended otherwise.
fn refused_of(alloc: Global, rows: &[Row]) -> Option<usize> {
    let mut refused = 0usize;
    for row in rows {
        match end_of_row(alloc, row) {
            Ok(End::AsWanted) => {}
            Ok(End::Otherwise) => return None,
            Ok(End::Refused) | Err(NoMemory) => refused = refused.saturating_add(1),
        }
    }
    Some(refused)
}

/// Whether all rows but one at most go as they should, and that one has memory refused.
fn one_is_refused_at_most(alloc: Global) -> bool {
    let mut all = 0usize;
    for subject in SUBJECTS {
        match refused_of(alloc, rows_about(subject)) {
            Some(refused) => all = all.saturating_add(refused),
            None => return false,
        }
    }
    all <= 1
}

// `rt try --test --fail-alloc N` refuses the Nth growth of each test, and the other tests of these scripts fail then. Here
// one script is the worse for it, and the others go on.
#[test]
fn a_refused_growth_gives_a_true_beginning(rt: HostRuntime) {
    assert!(rt; one_is_refused_at_most(rt.alloc()));
}
