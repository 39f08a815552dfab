//! What is reported outside the transcript, and the exit status that goes with it.
ghost use Rattle.std.specs.Prelude.{◌≡◌, OnErr, OnOk};
ghost use Rattle.clap.specs.Words.{kind_of};
ghost use Rattle.cb_command_line.specs.Statuses.{IsStatusFor};

use crate::places::places_line;
use cb_script::{Cause, Outcome};
use cb_session::Places;
use clap::Error;
use clap::error::ErrorKind;
use std::io::{self, Eprint, Print};

/// Reports why the words are refused, or the help that they ask for; its exit status.
pub(crate) fn refused<R: Print + Eprint>(rt: &R, error: Error) -> u8
    ensures { IsStatusFor (kind_of error) result }
{
    if error.kind() == ErrorKind::OutOfMemory {
        return no_memory(rt);
    }
    let printed = error.print(rt);
    if error.use_stderr() {
        return 2;
    }
    helped(rt, printed)
}

/// Reports that the help could not be written, where it could not; the exit status.
fn helped<R: Eprint>(rt: &R, printed: io::Result<()>) -> u8
    ensures ok { OnOk printed (result ≡ 0) }
    ensures err { OnErr printed (result ≡ 3) }
{
    match printed {
        Ok(()) => 0,
        Err(_) => ended(rt, Outcome::failed(Cause::WriteFault)),
    }
}

/// What is reported of a word that isn't UTF-8, as `clap` words it.
static NOT_TEXT: &str = "error: invalid UTF-8 was detected in one or more arguments\n\n\
                         Usage: clipsbatch [OPTIONS]\n\n\
                         For more information, try '--help'.";

/// Reports that a word isn't UTF-8; its exit status.
pub(crate) fn not_text<R: Eprint>(rt: &R) -> u8
    ensures { result ≡ 2 }
{
    let _ = eprintln!(rt; "{NOT_TEXT}");
    2
}

/// Reports that memory was refused; its exit status.
pub(crate) fn no_memory<R: Eprint>(rt: &R) -> u8
    ensures { result ≡ 3 }
{
    ended(rt, Outcome::failed(Cause::NoMemory))
}

/// Reports where faults arose, where there is something to report. Where memory for that is refused, or standard error takes nothing,
/// it isn't reported.
pub(crate) fn faulted<R: AllocGlobal + Eprint>(rt: &R, places: &Places) {
    let Ok(line) = places_line(rt.alloc(), places) else {
        return;
    };
    if line.is_empty() {
        return;
    }
    if let Ok(text) = String::from_utf8_lossy(rt.alloc(), line.as_slice()) {
        let _ = eprintln!(rt; "{text}");
    }
}

/// Reports how a run ended, where there is something to report; its exit status.
pub(crate) fn ended<R: Eprint>(rt: &R, outcome: Outcome) -> u8
    ensures { result ≡ outcome.status }
{
    let line = outcome.line();
    if !line.is_empty() {
        let _ = eprintln!(rt; "{line}");
    }
    outcome.status
}
