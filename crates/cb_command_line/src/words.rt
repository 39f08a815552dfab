//! The limits, read from the program's words.
ghost use Rattle.std.specs.Prelude.{◌≡◌, ◌≤◌, Some, IfOk, IfErr, map, true, false, codes};
ghost use Rattle.clap.specs.Words.{FailsBy, IsPlainArg, fault_of, found_of, kind_of, rule_of, takes};
ghost use Rattle.cb_command_line.specs.Commands.{limit_of, limits_app, number_rule};
ghost use Rattle.cb_command_line.specs.Internal.{AreLimitsIn, HaveNumbers, IsNumberOption, TakesTheLimits, option_or};

use cb_session::Limits;
use clap::builder::ValueParser;
use clap::error::ErrorKind;
use clap::{Arg, ArgAction, ArgMatches, Command, Error};
use std::alloc::{AllocError, Global};

/// Reads the limits from the program's words, its name first. An option that isn't given has its default: 1,048,576 bytes
/// an item, 1,000,000 firings, 10,000,000 turns.
///
/// An error comes where the words ask for help, where they aren't the program's, and where memory was refused; its kind
/// says which. It has the text to print.
pub fn read_words<'a>(alloc: Global, words: &'a [&'a str]) -> Result<Limits, Error>
    ensures max_form { IfOk result
        (λ l. l.max_form ≡ limit_of (codes "max-form") 1048576 (map (λ w. w.now) words.entry.now)) }
    ensures max_firings { IfOk result
        (λ l. l.max_firings ≡ limit_of (codes "max-firings") 1000000 (map (λ w. w.now) words.entry.now)) }
    ensures max_turns { IfOk result
        (λ l. l.max_turns ≡ limit_of (codes "max-turns") 10000000 (map (λ w. w.now) words.entry.now)) }

    // Words that the command takes are refused only where memory runs out.
    ensures refused { IfErr result (λ e. takes limits_app (map (λ w. w.now) words.entry.now) ≡ true
        → kind_of e ≡ ErrorKind.OutOfMemory) }

    // Words that `clap` refuses are refused, by an error of its kind.
    ensures kinds { FailsBy (fault_of limits_app (map (λ w. w.now) words.entry.now)) result }
{
    let command = limits_command(alloc)?;
    match command.try_get_matches_from(words) {
        Ok(matches) => Ok(found_limits(&matches)),
        Err(error) => Err(error),
    }
}

// The program's command, with an option for each limit.
fn limits_command<'a>(alloc: Global) -> Result<Command<'a>, AllocError>
    ensures { IfOk result TakesTheLimits }
{
    let command = Command::new(alloc, "clipsbatch")
        .about(ABOUT)
        .arg(number(alloc, "max-form", FORM_HELP, 1, 16_777_216))?
        .arg(number(alloc, "max-firings", FIRINGS_HELP, 0, 1_000_000_000_000))?
        .arg(number(alloc, "max-turns", TURNS_HELP, 0, 1_000_000_000_000))?;
    Ok(command)
}

// The limits that the options give, or their defaults.
fn found_limits(matches: &ArgMatches<'_>) -> Limits
    requires { HaveNumbers (found_of matches.now) }
    ensures { AreLimitsIn (found_of matches.now) result }
{
    let max_form = limit(matches, "max-form", 1_048_576, 1, 16_777_216);
    let max_firings = limit(matches, "max-firings", 1_000_000, 0, 1_000_000_000_000);
    let max_turns = limit(matches, "max-turns", 10_000_000, 0, 1_000_000_000_000);
    Limits {
        max_form: max_form as usize,
        max_firings,
        max_turns,
    }
}

static ABOUT: &str =
    "Runs a CLIPS script from standard input and writes its transcript to standard output";

static FORM_HELP: &str =
    "The most bytes that an item of the script may have, 1 to 16777216 [default: 1048576]";

static FIRINGS_HELP: &str =
    "The most firings of all rules together, 0 to 1000000000000 [default: 1000000]";

static TURNS_HELP: &str =
    "The most turns that all loops together may take, 0 to 1000000000000 [default: 10000000]";

// An option with a number in a range.
fn number<'a>(alloc: Global, id: &'a str, help: &'a str, min: u64, max: u64) -> Arg<'a>
    ensures id { result.id ≡ id.entry }
    ensures rule { rule_of result ≡ number_rule id.entry.now min max }
    ensures local { result.global ≡ false }
    ensures plain { IsPlainArg result }
    ensures parser { result.value_parser ≡ Some (ValueParser.Unsigned min max) }
{
    Arg::new(alloc, id)
        .long(id)
        .action(ArgAction::Set)
        .value_name("N")
        .value_parser(ValueParser::unsigned(min, max))
        .help(help)
}

// The number that this option has, or the default.
fn limit(matches: &ArgMatches<'_>, id: &str, default: u64, min: u64, max: u64) -> u64
    requires number { IsNumberOption (found_of matches.now) id.now min max }
    requires default_in_range { (min ≤ default) × (default ≤ max) }
    ensures value { result ≡ option_or (found_of matches.now) id.now default }
    ensures above { min ≤ result }
    ensures below { result ≤ max }
{
    let _ = (min, max);
    matches.get_one(id).unwrap_or(default)
}
