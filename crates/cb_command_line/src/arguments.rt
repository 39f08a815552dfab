//! The whole program, with the words that the system has for it.
ghost use Rattle.std.specs.Prelude.{◌≡◌, ◌⊎◌, List, IfOk, IfErr, map};
ghost use Rattle.std.specs.String.{string_bytes};
ghost use Rattle.clap.specs.Words.{Text};
ghost use Rattle.cb_io.specs.Output.{IsReady};
ghost use Rattle.cb_command_line.specs.Statuses.{EndedBefore, EndedByRun, HadNoWords};

use crate::program::run_words;
use crate::reports::{ended, faulted, no_memory, not_text, refused};
use cb_forms::{NoMemory, Out, Sink, Source};
use std::alloc::Global;
use std::env::{self, Env};
use std::io::{self, Eprint, Print};

/// Runs the script with the options on the command line and returns the exit status. What there is to report goes to
/// standard error.
pub fn run_program<R: AllocGlobal + Env + Print + Eprint, S: Source, K: Sink>(
    rt: &R,
    source: &mut S,
    out: &mut Out<K>,
) -> u8
    requires { IsReady out.old }
    // By some words; that they are those that the system has is not said. Or they could not be had.
    ensures { ((words : List Text) × (EndedByRun words result
        (S.left source.old) (S.left source.new) (S.reads source.old) (S.reads source.new)
        (K.writes out.old.sink) (K.writes out.new.sink)
        ⊎ EndedBefore words result
        (S.left source.old) (S.left source.new) (S.reads source.old) (S.reads source.new)
        (K.writes out.old.sink) (K.writes out.new.sink)))
        ⊎ HadNoWords result
        (S.left source.old) (S.left source.new) (S.reads source.old) (S.reads source.new)
        (K.writes out.old.sink) (K.writes out.new.sink) }
{
    match given_words(rt) {
        Ok(given) => run_and_report(rt, given.as_slice(), source, out),
        Err(status) => status,
    }
}

/// The program's words, its name first. Where they can't be had, that is reported, and this is the exit status.
fn given_words<R: AllocGlobal + Env + Eprint>(rt: &R) -> Result<Vec<String>, u8>
    ensures { IfErr result (λ status. (status ≡ 2) ⊎ (status ≡ 3)) }
{
    let args = match env::args(rt) {
        Ok(args) => args,
        Err(error) if error.kind() == io::ErrorKind::OutOfMemory => return Err(no_memory(rt)),
        Err(_) => return Err(not_text(rt)),
    };
    match args.collect::<Vec<String>>(rt.alloc()) {
        Ok(given) => Ok(given),
        Err(_) => Err(no_memory(rt)),
    }
}

/// Carries the script out as these words ask, and reports what there is to report; its exit status.
pub fn run_and_report<R: AllocGlobal + Print + Eprint, S: Source, K: Sink>(
    rt: &R,
    given: &[String],
    source: &mut S,
    out: &mut Out<K>,
) -> u8
    requires { IsReady out.old }
    ensures { EndedByRun (map string_bytes given.now) result
        (S.left source.old) (S.left source.new) (S.reads source.old) (S.reads source.new)
        (K.writes out.old.sink) (K.writes out.new.sink)
        ⊎ EndedBefore (map string_bytes given.now) result
        (S.left source.old) (S.left source.new) (S.reads source.old) (S.reads source.new)
        (K.writes out.old.sink) (K.writes out.new.sink) }
{
    let words = match borrowed(rt.alloc(), given) {
        Ok(words) => words,
        Err(_) => return no_memory(rt),
    };
    match run_words(rt.alloc(), words.as_slice(), source, out) {
        Ok(report) => {
            faulted(rt, &report.places);
            ended(rt, report.outcome)
        }
        Err(error) => refused(rt, error),
    }
}

/// These words, borrowed.
fn borrowed<'a>(alloc: Global, given: &'a [String]) -> Result<Vec<&'a str>, NoMemory>
    ensures { IfOk result (λ words. map (λ w. w.now) words.items ≡ map string_bytes given.now) }
{
    let mut words = Vec::new(alloc);
    for word in given {
        words.push(word.as_str())?;
    }
    Ok(words)
}
