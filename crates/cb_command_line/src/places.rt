//! The line that says where the faults of a script arose.
ghost use Rattle.std.specs.Prelude.{◌≡◌, ◌++◌, IfOk, OnOk, codes};
ghost use Rattle.std.specs.Fmt.{decimal};
ghost use Rattle.cb_command_line.specs.PlaceTexts.{faults_text, limit_mark, limit_text, listed_places, fault_noun, more_mark, place_text, places_text, some_faults_text};

use cb_facts::Name;
use cb_forms::NoMemory;
use cb_session::{Place, Places};
use itoa::Buffer;
use std::alloc::Global;

/// The line on standard error that says where faults arose and where the limit, if there was one, without its line feed; empty where
/// there is nothing to say. Growth is refused as `NoMemory`.
pub fn places_line(alloc: Global, places: &Places) -> Result<Vec<u8>, NoMemory>
    ensures { IfOk result (λ line. line.items ≡ places_text places.now) }
{
    let mut line = Vec::new(alloc);
    let count = places.count();
    add_faults(&mut line, count, places.first())?;
    add_limit(&mut line, count, places.limit())?;
    Ok(line)
}

/// Adds how many faults there were, and these first places.
fn add_faults(line: &mut Vec<u8>, count: u64, first: &[Place]) -> Result<(), NoMemory>
    ensures { OnOk result (line.new.items ≡ line.old.items ++ faults_text count first.now) }
{
    if count == 0 {
        return Ok(());
    }
    add_some_faults(line, count, first)
}

/// The same where there were some.
fn add_some_faults(line: &mut Vec<u8>, count: u64, first: &[Place]) -> Result<(), NoMemory>
    ensures { OnOk result (line.new.items ≡ line.old.items ++ some_faults_text count first.now) }
{
    line.extend_from_slice(b"clipsbatch: ")?;
    add_number(line, count)?;
    line.extend_from_slice(fault_noun(count))?;
    add_places(line, b": ", first)?;
    line.extend_from_slice(more_mark(count))?;
    Ok(())
}

/// What follows the number of faults.
fn fault_noun(count: u64) -> &'static [u8]
    ensures { result.now ≡ fault_noun count }
{
    if count == 1 { b" fault" } else { b" faults" }
}

/// What follows the places that are kept.
fn more_mark(count: u64) -> &'static [u8]
    ensures { result.now ≡ more_mark count }
{
    if count > 8 { b", .." } else { b"" }
}

/// Adds places, the first after this mark and each other after a comma. It calls itself for the others: there are at most eight.
fn add_places(line: &mut Vec<u8>, mark: &[u8], places: &[Place]) -> Result<(), NoMemory>
    ensures { OnOk result (line.new.items ≡ line.old.items ++ listed_places mark.now places.now) }
{
    let Some((place, others)) = places.split_first() else {
        return Ok(());
    };
    line.extend_from_slice(mark)?;
    add_place(line, place)?;
    add_places(line, b", ", others)
}

/// Adds the line of a fault, and its rule.
fn add_place(line: &mut Vec<u8>, place: &Place) -> Result<(), NoMemory>
    ensures { OnOk result (line.new.items ≡ line.old.items ++ place_text place.now) }
{
    line.extend_from_slice(b"line ")?;
    add_number(line, place.line)?;
    if let Some(rule) = &place.rule {
        add_rule(line, rule)?;
    }
    Ok(())
}

/// Adds the rule in which a fault arose.
fn add_rule(line: &mut Vec<u8>, rule: &Name) -> Result<(), NoMemory>
    ensures { OnOk result (line.new.items ≡ line.old.items ++ (codes " in rule " ++ rule.now)) }
{
    line.extend_from_slice(b" in rule ")?;
    line.extend_from_slice(rule.as_slice())?;
    Ok(())
}

/// Adds the line of the limit, if there was one.
fn add_limit(line: &mut Vec<u8>, count: u64, limit: Option<u64>) -> Result<(), NoMemory>
    ensures { OnOk result (line.new.items ≡ line.old.items ++ limit_text count limit) }
{
    let Some(at) = limit else {
        return Ok(());
    };
    line.extend_from_slice(limit_mark(count))?;
    add_number(line, at)
}

/// What stands before the line of the limit.
fn limit_mark(count: u64) -> &'static [u8]
    ensures { result.now ≡ limit_mark count }
{
    if count == 0 {
        b"clipsbatch: limit at line "
    } else {
        b"; limit at line "
    }
}

/// Adds a number.
fn add_number(line: &mut Vec<u8>, number: u64) -> Result<(), NoMemory>
    ensures { OnOk result (line.new.items ≡ line.old.items ++ decimal number) }
{
    let mut buffer = Buffer::new();
    line.extend_from_slice(buffer.format(number).as_bytes())?;
    Ok(())
}
