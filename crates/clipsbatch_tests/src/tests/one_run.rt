//! One run over memory, and whether it goes as it should.
ghost use Rattle.std.specs.Prelude.{◌≤◌};
ghost use Rattle.cb_io.specs.Output.{IsReady};

use super::pieces::Whole;
use super::rows::Row;
use cb_command_line::{Outcome, run};
use cb_forms::{MemSink, MemSource, NoMemory, Out, PlannedSink, Sink, Source, WriteStep};
use cb_session::Limits;
use std::alloc::Global;

/// This number, if an item may have so many bytes.
fn form_limit(max_form: usize) -> usize
    ensures least { 1 ≤ result }
    ensures greatest { result ≤ 16777216 }
{
    if max_form == 0 || max_form > 16_777_216 {
        return 1;
    }
    max_form
}

/// This number, if rules may fire so often, and loops may take so many turns.
fn count_limit(count: u64) -> u64
    ensures { result ≤ 1000000000000 }
{
    count.min(1_000_000_000_000)
}

/// The limits of a run that should go so.
fn limits(want: Want<'_>) -> Limits {
    let max_form = form_limit(want.max_form);
    let max_firings = count_limit(want.max_firings);
    let max_turns = count_limit(want.max_turns);
    Limits {
        max_form,
        max_firings,
        max_turns,
    }
}

/// What comes of a run over this source: what it should write, and how it should end.
#[derive(Clone, Copy)]
pub(super) struct Want<'a> {
    pub(super) max_form: usize,
    pub(super) max_firings: u64,
    pub(super) max_turns: u64,
    pub(super) written: &'a [u8],
    pub(super) outcome: Outcome,
}

/// What comes of the whole script of a row.
pub(super) fn want_of<'a>(row: &Row, whole: &'a Whole) -> Want<'a> {
    Want {
        max_form: row.max_form,
        max_firings: row.max_firings,
        max_turns: row.max_turns,
        written: whole.written.as_slice(),
        outcome: row.outcome,
    }
}

/// How a run over these ends.
pub(super) fn outcome_of<S: Source, K: Sink>(
    alloc: Global,
    source: &mut S,
    out: &mut Out<K>,
    want: Want<'_>,
) -> Outcome
    requires { IsReady out.old }
{
    run(alloc, source, out, limits(want)).outcome
}

/// Whether a run that ended so and wrote this is as it should be.
pub(super) fn is_as_wanted(outcome: Outcome, written: &[u8], want: Want<'_>) -> bool {
    outcome == want.outcome && written == want.written
}

/// Whether a run over these ends goes so.
pub(super) fn goes<S: Source>(
    alloc: Global,
    source: &mut S,
    sink: MemSink,
    want: Want<'_>,
) -> bool {
    let mut out = Out::new(sink);
    let outcome = outcome_of(alloc, source, &mut out, want);
    is_as_wanted(outcome, out.sink().bytes(), want)
}

/// Whether a run over this source goes so where the sink's writes go by this plan.
pub(super) fn goes_by<S: Source>(
    alloc: Global,
    source: &mut S,
    writes: &[WriteStep],
    want: Want<'_>,
) -> Result<bool, NoMemory> {
    let mut out = Out::new(PlannedSink::new(alloc, 1000, writes)?);
    let outcome = outcome_of(alloc, source, &mut out, want);
    Ok(is_as_wanted(outcome, out.sink().bytes(), want))
}

/// Whether it goes so with so many bytes a read, and with all that is written taken at once.
pub(super) fn goes_in_blocks(
    alloc: Global,
    script: &[u8],
    block: usize,
    want: Want<'_>,
) -> Result<bool, NoMemory> {
    let sink = MemSink::new(alloc, 1000, 1000, None)?;
    let mut source = MemSource::new(script, block.max(1), None);
    Ok(goes(alloc, &mut source, sink, want))
}
