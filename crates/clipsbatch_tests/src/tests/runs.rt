//! Each row however its script comes, and with each write and each read failing in turn.
ghost use Rattle.std.specs.Prelude.{◌<◌};

use super::agenda_rows::agenda_rows;
use super::calc_rows::{calc_rows, global_rows, loop_rows};
use super::fault_rows::{fact_fault_rows, template_fault_rows};
use super::first_rows::{command_rows, item_rows};
use super::group_rows::{group_changes, group_rows};
use super::modify_rows::modify_rows;
use super::one_run::{Want, goes, goes_by, goes_in_blocks, want_of};
use super::pieces::{Whole, joined, steps_in, written_by};
use super::rows::{AT_A_LIMIT, Row};
use super::rule_rows::{firing_rows, rule_rows};
use super::template_rows::{fact_rows, template_rows};
use cb_command_line::{Cause, Outcome};
use cb_forms::{MemSink, MemSource, NoMemory, PlannedSource, ReadStep, WriteStep};
use std::alloc::Global;

/// What rows are about.
#[derive(Clone, Copy)]
pub(super) enum Subject {
    Items,
    Commands,
    Templates,
    Facts,
    TemplateFaults,
    FactFaults,
    Computing,
    Loops,
    Globals,
    Firings,
    Rules,
    Groups,
    GroupChanges,
    Agenda,
    Modifying,
}

/// All subjects.
pub(super) const SUBJECTS: [Subject; 15] = [
    Subject::Items,
    Subject::Commands,
    Subject::Templates,
    Subject::Facts,
    Subject::TemplateFaults,
    Subject::FactFaults,
    Subject::Computing,
    Subject::Loops,
    Subject::Globals,
    Subject::Firings,
    Subject::Rules,
    Subject::Groups,
    Subject::GroupChanges,
    Subject::Agenda,
    Subject::Modifying,
];

/// The rows about a subject.
pub(super) fn rows_about(subject: Subject) -> &'static [Row] {
    match subject {
        Subject::Items => item_rows(),
        Subject::Commands => command_rows(),
        Subject::Templates => template_rows(),
        Subject::Facts => fact_rows(),
        Subject::TemplateFaults => template_fault_rows(),
        Subject::FactFaults => fact_fault_rows(),
        Subject::Computing => calc_rows(),
        Subject::Loops => loop_rows(),
        Subject::Globals => global_rows(),
        Subject::Firings => firing_rows(),
        Subject::Rules => rule_rows(),
        Subject::Groups => group_rows(),
        Subject::GroupChanges => group_changes(),
        Subject::Agenda => agenda_rows(),
        Subject::Modifying => modify_rows(),
    }
}

/// What is done with each row.
#[derive(Clone, Copy)]
enum Trial {
    /// It comes in blocks of every length, and cut in two at each byte.
    Pieces,
    /// Each write fails in turn.
    Writes,
    /// Each read fails in turn.
    Reads,
}

const WRITE_FAULT: Outcome = Outcome {
    status: 3,
    cause: Cause::WriteFault,
};

const READ_FAULT: Outcome = Outcome {
    status: 3,
    cause: Cause::ReadFault,
};

/// Whether it goes so cut in two, with seven bytes a write.
fn goes_in_two(
    alloc: Global,
    script: &[u8],
    place: usize,
    want: Want<'_>,
) -> Result<bool, NoMemory> {
    let sink = MemSink::new(alloc, 1000, 7, None)?;
    let plan = [ReadStep::Take(place)];
    Ok(goes(alloc, &mut PlannedSource::new(script, &plan), sink, want))
}

/// Whether the script goes so however it comes: in blocks of every length, or cut in two at each byte.
fn comes_in_pieces(alloc: Global, row: &Row, whole: &Whole) -> Result<bool, NoMemory> {
    let script = whole.script.as_slice();
    let want = want_of(row, whole);
    for place in 0..=script.len() {
        let block = place.saturating_add(1);
        if !goes_in_blocks(alloc, script, block, want)?
            || !goes_in_two(alloc, script, place, want)?
        {
            return Ok(false);
        }
    }
    Ok(true)
}

/// So many writes of one byte, and then this one.
fn byte_writes(alloc: Global, taken: usize, last: WriteStep) -> Result<Vec<WriteStep>, NoMemory> {
    let mut plan = Vec::new(alloc);
    for _ in 0..taken {
        plan.push(WriteStep::Take(1))?;
    }
    plan.push(last)?;
    Ok(plan)
}

/// Whether a run goes so where the sink takes a byte in each of so many writes, and the write after these goes so.
fn goes_to_write(
    alloc: Global,
    script: &[u8],
    taken: usize,
    last: WriteStep,
    want: Want<'_>,
) -> Result<bool, NoMemory> {
    let plan = byte_writes(alloc, taken, last)?;
    let mut source = MemSource::new(script, 5, None);
    goes_by(alloc, &mut source, plan.as_slice(), want)
}

/// Whether a run stops so where the sink takes a byte a write and has this room.
fn stops_at_room(
    alloc: Global,
    script: &[u8],
    room: usize,
    want: Want<'_>,
) -> Result<bool, NoMemory> {
    let sink = MemSink::new(alloc, room, 1, None)?;
    let mut source = MemSource::new(script, 5, None);
    Ok(goes(alloc, &mut source, sink, want))
}

/// Whether each write of one byte stops the run where it fails, where it takes nothing, and where there is no more room. A write
/// that would fail after the last doesn't come.
fn stops_at_each_write(alloc: Global, row: &Row, whole: &Whole) -> Result<bool, NoMemory> {
    let script = whole.script.as_slice();
    for taken in 0..whole.written.len() {
        let want = Want {
            max_form: row.max_form,
            max_firings: row.max_firings,
            max_turns: row.max_turns,
            written: &whole.written[..taken],
            outcome: WRITE_FAULT,
        };
        if !goes_to_write(alloc, script, taken, WriteStep::Fail, want)?
            || !goes_to_write(alloc, script, taken, WriteStep::Zero, want)?
            || !stops_at_room(alloc, script, taken, want)?
        {
            return Ok(false);
        }
    }
    let want = want_of(row, whole);
    goes_to_write(alloc, script, whole.written.len(), WriteStep::Fail, want)
}

/// Whether a run that ends so reads no further.
fn ends_before_the_script(cause: Cause) -> bool {
    cause == Cause::Limit || cause == Cause::Exit
}

/// What is written once so many bytes have come and before the script's end is known, and how a run ends whose next read fails.
fn stopped_after(alloc: Global, row: &Row, came: usize) -> Result<(Vec<u8>, Outcome), NoMemory> {
    let steps = steps_in(row, came);
    let written = written_by(alloc, row, steps)?;
    // A limit ends the run with the byte that passes it, and an `exit` with its last byte.
    let has_ended = steps == row.steps.len() && ends_before_the_script(row.outcome.cause);
    Ok((written, if has_ended { row.outcome } else { READ_FAULT }))
}

/// So many reads of a block, and then one that fails.
fn block_reads(alloc: Global, blocks: usize, block: usize) -> Result<Vec<ReadStep>, NoMemory> {
    let mut plan = Vec::new(alloc);
    for _ in 0..blocks {
        plan.push(ReadStep::Take(block))?;
    }
    plan.push(ReadStep::Fail)?;
    Ok(plan)
}

/// Whether a run goes so where the source gives so many blocks, and the read after these fails.
fn goes_to_read(
    alloc: Global,
    script: &[u8],
    blocks: usize,
    block: usize,
    want: Want<'_>,
) -> Result<bool, NoMemory> {
    let sink = MemSink::new(alloc, 1000, 1000, None)?;
    let plan = block_reads(alloc, blocks, block)?;
    let mut source = PlannedSource::new(script, plan.as_slice());
    Ok(goes(alloc, &mut source, sink, want))
}

/// Whether the read after so many blocks stops the run where it fails: exactly what the bytes before it write is written, and
/// the item that is open then is not carried out.
fn stops_after_blocks(
    alloc: Global,
    row: &Row,
    script: &[u8],
    block: usize,
    blocks: usize,
) -> Result<bool, NoMemory> {
    let (written, outcome) = stopped_after(alloc, row, blocks.saturating_mul(block))?;
    let want = Want {
        max_form: row.max_form,
        max_firings: row.max_firings,
        max_turns: row.max_turns,
        written: written.as_slice(),
        outcome,
    };
    goes_to_read(alloc, script, blocks, block, want)
}

/// Whether each read of so many bytes stops the run where it fails, that of the script's end among them.
fn stops_at_each_read(
    alloc: Global,
    row: &Row,
    script: &[u8],
    block: usize,
) -> Result<bool, NoMemory>
    requires { 0 < block }
{
    for blocks in 0..=script.len().div_ceil(block) {
        if !stops_after_blocks(alloc, row, script, block, blocks)? {
            return Ok(false);
        }
    }
    Ok(true)
}

/// Whether the run goes to its end where a read would fail after the one that reports the script's end: that read does not come.
fn ends_before_a_read(
    alloc: Global,
    row: &Row,
    whole: &Whole,
    block: usize,
) -> Result<bool, NoMemory>
    requires { 0 < block }
{
    let script = whole.script.as_slice();
    let reads = script.len().div_ceil(block).saturating_add(1);
    goes_to_read(alloc, script, reads, block, want_of(row, whole))
}

/// Whether each read stops the run where it fails, for reads of one byte, of a few, and of some more.
fn stops_at_all_reads(alloc: Global, row: &Row, whole: &Whole) -> Result<bool, NoMemory> {
    let script = whole.script.as_slice();
    for block in [1, 3, 7] {
        if !stops_at_each_read(alloc, row, script, block)?
            || !ends_before_a_read(alloc, row, whole, block)?
        {
            return Ok(false);
        }
    }
    Ok(true)
}

/// Whether this row passes this trial.
fn passes(alloc: Global, row: &Row, trial: Trial) -> Result<bool, NoMemory> {
    let whole = joined(alloc, row)?;
    match trial {
        Trial::Pieces => comes_in_pieces(alloc, row, &whole),
        Trial::Writes => stops_at_each_write(alloc, row, &whole),
        Trial::Reads => stops_at_all_reads(alloc, row, &whole),
    }
}

/// The name of the first of these rows that doesn't pass this trial.
fn first_wrong(
    alloc: Global,
    rows: &[Row],
    trial: Trial,
) -> Result<Option<&'static str>, NoMemory> {
    for row in rows {
        if !passes(alloc, row, trial)? {
            return Ok(Some(row.name));
        }
    }
    Ok(None)
}

/// The name of the first of all rows that doesn't pass this trial.
fn first_wrong_of_all(alloc: Global, trial: Trial) -> Result<Option<&'static str>, NoMemory> {
    for subject in SUBJECTS {
        let wrong = first_wrong(alloc, rows_about(subject), trial)?;
        if wrong.is_some() {
            return Ok(wrong);
        }
    }
    Ok(None)
}

#[test]
fn carries_scripts_out(rt: HostRuntime) -> Result<(), NoMemory> {
    assert_eq!(rt; first_wrong_of_all(rt.alloc(), Trial::Pieces)?, None);
    Ok(())
}

#[test]
fn stops_at_a_failed_write(rt: HostRuntime) -> Result<(), NoMemory> {
    assert_eq!(rt; first_wrong_of_all(rt.alloc(), Trial::Writes)?, None);
    Ok(())
}

#[test]
fn stops_at_a_failed_read(rt: HostRuntime) -> Result<(), NoMemory> {
    assert_eq!(rt; first_wrong_of_all(rt.alloc(), Trial::Reads)?, None);
    Ok(())
}

/// Whether a word that is too long with its fourth byte ends the run before the next read, which would fail.
fn ends_at_a_limit_without_reading_on(alloc: Global) -> Result<bool, NoMemory> {
    let want = Want {
        max_form: 3,
        max_firings: 0,
        max_turns: 0,
        written: b"[CB91] form too long\n",
        outcome: AT_A_LIMIT,
    };
    goes_to_read(alloc, b"abcd (assert (a))", 1, 4, want)
}

const EXIT_7: Outcome = Outcome {
    status: 7,
    cause: Cause::Exit,
};

/// Whether a script with an `exit` at its fifteenth byte ends so where each read gives a byte, and the one after so many fails.
fn exits_so(alloc: Global, reads: usize, outcome: Outcome) -> Result<bool, NoMemory> {
    let want = Want {
        max_form: 1000,
        max_firings: 0,
        max_turns: 0,
        written: b"[CB06] unknown function\n",
        outcome,
    };
    goes_to_read(alloc, b"(bogus)(exit 7)(assert (a))", reads, 1, want)
}

// A read that fails shows which reads are made.
#[test]
fn reads_no_further_than_it_has_to(rt: HostRuntime) -> Result<(), NoMemory> {
    assert!(rt; ends_at_a_limit_without_reading_on(rt.alloc())?);
    assert!(rt; exits_so(rt.alloc(), 14, READ_FAULT)?);
    assert!(rt; exits_so(rt.alloc(), 15, EXIT_7)?);
    Ok(())
}
