//! The whole program, but for where its words and its bytes come from and go to.
ghost use Rattle.std.specs.Prelude.{◌≡◌, IfOk, IfErr, OnErr, map, true};
ghost use Rattle.clap.specs.Words.{FailsBy, fault_of, kind_of, takes};
ghost use Rattle.cb_io.specs.Output.{IsReady};
ghost use Rattle.cb_command_line.specs.Commands.{limits_app};
ghost use Rattle.cb_command_line.specs.RanBy.{RanBy};

use crate::words::read_words;
use cb_forms::{Out, Sink, Source};
use cb_script::{Report, run_once};
use clap::Error;
use clap::error::ErrorKind;
use std::alloc::Global;

/// Runs the script with the options on the command line, the program's name first, and returns how the run went and where its faults arose.
///
/// An error comes as in `read_words`. Then nothing was read of the script, and nothing written. As after `run_once`, what the script built
/// is left to the system.
pub fn run_words<'a, S: Source, K: Sink>(
    alloc: Global,
    words: &'a [&'a str],
    source: &mut S,
    out: &mut Out<K>,
) -> Result<Report, Error>
    requires { IsReady out.old }
    // All that `run` promises, with the limits that the words give.
    ensures ran { IfOk result (λ report. RanBy (map (λ w. w.now) words.entry.now) report.outcome report.places
        (S.left source.old) (S.left source.new) (S.reads source.old) (S.reads source.new)
        (K.writes out.old.sink) (K.writes out.new.sink)) }

    // The words are refused, or ask for help.
    ensures refused { IfErr result (λ e. takes limits_app (map (λ w. w.now) words.entry.now) ≡ true
        → kind_of e ≡ ErrorKind.OutOfMemory) }
    ensures kinds { FailsBy (fault_of limits_app (map (λ w. w.now) words.entry.now)) result }
    ensures unread { OnErr result (source.new ≡ source.old) }
    ensures unwritten { OnErr result (out.new ≡ out.old) }
{
    let limits = match read_words(alloc, words) {
        Ok(limits) => limits,
        Err(error) => return Err(error),
    };
    Ok(run_once(alloc, source, out, limits))
}
