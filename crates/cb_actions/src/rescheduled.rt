//! What a change of the facts or the rules does to the agenda, and the lines of activations that go and come.
ghost use Rattle.std.specs.Prelude.{◌≡◌, ◌++◌, [], IfErr, IfOk, IfSome, OnOk, codes, false, flat_map, length, true, if◌then◌else◌};
ghost use Rattle.std.specs.List.{filter};
ghost use Rattle.cb_actions.specs.Changes.{saliences};
ghost use Rattle.cb_actions.specs.Internal.{AreFiled, AreKnown, FirstHave, IsItsNumber, IsSplit, Reschedules, Schedules, left_to_do, lines_by};
ghost use Rattle.cb_actions.specs.Went.{Went};
ghost use Rattle.cb_actions.specs.Worlds.{World as State};
ghost use Rattle.cb_agenda.specs.Agendas.{changed, has_stamps, is_due};
ghost use Rattle.cb_lines.specs.Lines.{activation_line};

use crate::act::{Break, EarlyEnd, Limit};
use crate::change::tell;
use crate::rules::saliences;
use cb_agenda::{Agenda, ApplyFault};
use cb_forms::{NoMemory, Out, Sink};
use cb_lines::add_activation_line;
use cb_matches::{Delta, Key};
use cb_rules::RuleTable;
use std::alloc::Global;

/// What is left to do after a change that the agenda has followed.
#[derive(Drop)]
pub(crate) struct Rescheduled {
    /// The lines of the activations that went and came, if they are watched.
    pub lines: Vec<u8>,
    /// Whether there were stamps left for those that came. If not, the agenda is as it was, and the script ends.
    pub fits: bool,
}

impl Rescheduled {
    /// Puts the lines, or ends the script.
    pub(crate) fn tell_rest<K: Sink>(&self, out: &mut Out<K>) -> Result<(), Break>
        requires { out.old.fault ≡ false }
        ensures { (s : State) → Went K.writes out.old out.new s result (left_to_do self.now s) }
    {
        if !self.fits {
            return Err(Break::Ended(EarlyEnd::Limit(Limit::Numbers)));
        }
        tell(self.lines.as_slice(), out)
    }

    /// Whether the agenda is in step with the matcher now, if it was before the change.
    pub(crate) fn keeps_step(&self, was: bool) -> bool
        ensures { result ≡ true → (was ≡ true) × (self.now.fits ≡ true) }
    {
        was && self.fits
    }
}

/// Takes the matches that went out of the agenda, and puts those that came on it. In step with the matcher, the agenda finds them by
/// the numbers that the matcher told, else by their keys.
pub(crate) fn reschedule(
    alloc: Global,
    agenda: &mut Agenda,
    rules: &RuleTable,
    watched: bool,
    in_step: bool,
    delta: &Delta,
) -> Result<Rescheduled, NoMemory>
    requires { in_step ≡ true → AreKnown agenda.old.numbers delta.now }
    ensures done { IfOk result (Reschedules watched rules.now agenda.old.agenda agenda.new.agenda
        delta.now.gone.items delta.now.come.items) }
    ensures filed { IfOk result (λ done. in_step ≡ true → done.fits ≡ true
        → AreFiled agenda.old.numbers delta.now agenda.new.numbers) }
{
    let lines = lines_of(alloc, agenda, rules, watched, in_step, delta)?;
    let fits = schedule(alloc, agenda, rules, in_step, delta)?;
    Ok(Rescheduled { lines, fits })
}

/// The lines of what went and what came, if they are watched.
fn lines_of(
    alloc: Global,
    agenda: &Agenda,
    rules: &RuleTable,
    watched: bool,
    in_step: bool,
    delta: &Delta,
) -> Result<Vec<u8>, NoMemory>
    requires { in_step ≡ true → AreKnown agenda.now.numbers delta.now }
    ensures { IfOk result (λ lines. lines.items ≡ lines_by watched rules.now agenda.now.agenda
        delta.now.gone.items delta.now.come.items) }
{
    let mut lines = Vec::new(alloc);
    if watched {
        let numbers = known_numbers(in_step, delta);
        add_gone_lines(
            alloc,
            &mut lines,
            rules,
            agenda,
            delta.gone.as_slice(),
            numbers,
        )?;
        add_come_lines(alloc, &mut lines, rules, delta.come.as_slice())?;
    }
    Ok(lines)
}

/// The numbers of the matches that went, or none where the agenda isn't in step.
fn known_numbers(in_step: bool, delta: &Delta) -> &[u32]
    ensures { result.now ≡ (if in_step then delta.now.gone_numbers.items else []) }
{
    if in_step {
        delta.gone_numbers.as_slice()
    } else {
        &[]
    }
}

/// The lines of activations that go: of these keys those that are due. The first keys have these numbers, if they are due.
fn add_gone_lines(
    alloc: Global,
    lines: &mut Vec<u8>,
    rules: &RuleTable,
    agenda: &Agenda,
    keys: &[Key],
    numbers: &[u32],
) -> Result<(), NoMemory>
    requires { FirstHave (IsItsNumber agenda.now.numbers) numbers.now keys.now }
    ensures { OnOk result (lines.new.items ≡ lines.old.items
        ++ flat_map (activation_line (codes "<== ") rules.now)
        (filter (is_due agenda.now.agenda) keys.now)) }
{
    let mut left = numbers;
    for key in keys {
        let (number, more) = split_number(left);
        if is_due(agenda, key, number) {
            add_activation_line(alloc, lines, b"<== ", rules, key)?;
        }
        left = more;
    }
    Ok(())
}

/// The first of these numbers, if there is one, and those after it.
fn split_number(numbers: &[u32]) -> (Option<u32>, &[u32])
    ensures { IsSplit numbers.now result.0 result.1.now }
{
    match numbers.split_first() {
        Some((number, more)) => (Some(*number), more),
        None => (None, numbers),
    }
}

/// Whether a match is due, by its number if that is known, else by its key alone.
fn is_due(agenda: &Agenda, key: &Key, number: Option<u32>) -> bool
    requires { IfSome number (IsItsNumber agenda.now.numbers key.now) }
    ensures { result ≡ is_due agenda.now.agenda key.now }
{
    match number {
        Some(number) => agenda.has(key, number),
        None => agenda.has_key(key),
    }
}

/// The lines of activations that come.
fn add_come_lines(
    alloc: Global,
    lines: &mut Vec<u8>,
    rules: &RuleTable,
    keys: &[Key],
) -> Result<(), NoMemory>
    ensures { OnOk result (lines.new.items ≡ lines.old.items
        ++ flat_map (activation_line (codes "==> ") rules.now) keys.now) }
{
    for key in keys {
        add_activation_line(alloc, lines, b"==> ", rules, key)?;
    }
    Ok(())
}

/// Applies what went and what came to the agenda. The answer is whether there were stamps left; if not, nothing has changed.
fn schedule(
    alloc: Global,
    agenda: &mut Agenda,
    rules: &RuleTable,
    in_step: bool,
    delta: &Delta,
) -> Result<bool, NoMemory>
    requires { in_step ≡ true → AreKnown agenda.old.numbers delta.now }
    ensures agenda { IfOk result (Schedules agenda.old.agenda agenda.new.agenda
        delta.now.gone.items delta.now.come.items (saliences rules.now delta.now.come.items)) }
    ensures filed { IfOk result (λ fits. in_step ≡ true → fits ≡ true
        → AreFiled agenda.old.numbers delta.now agenda.new.numbers) }
{
    let saliences = saliences(alloc, rules, delta.come.as_slice())?;
    match apply(agenda, in_step, delta, saliences.as_slice()) {
        Ok(()) => Ok(true),
        Err(ApplyFault::Exhausted) => Ok(false),
        Err(ApplyFault::NoMemory) => Err(NoMemory),
    }
}

/// Applies what went and what came, by numbers where the agenda is in step, else by keys.
fn apply(
    agenda: &mut Agenda,
    in_step: bool,
    delta: &Delta,
    saliences: &[i64],
) -> Result<(), ApplyFault>
    requires { in_step ≡ true → AreKnown agenda.old.numbers delta.now }
    ensures changed { OnOk result (agenda.new.agenda ≡ changed agenda.old.agenda
        delta.now.gone.items delta.now.come.items saliences.now) }
    ensures stamps { OnOk result
        (has_stamps agenda.old.agenda (length delta.now.come.items) ≡ true) }
    ensures exhausted { IfErr result (λ e. e ≡ ApplyFault.Exhausted
        → (has_stamps agenda.old.agenda (length delta.now.come.items) ≡ false)
        × (agenda.new.agenda ≡ agenda.old.agenda)) }
    ensures filed { OnOk result (in_step ≡ true
        → AreFiled agenda.old.numbers delta.now agenda.new.numbers) }
{
    if in_step {
        agenda.apply(delta, saliences)
    } else {
        agenda.apply_by_key(delta, saliences)
    }
}
