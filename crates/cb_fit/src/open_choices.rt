//! The choices that are open.
ghost use Rattle.std.specs.Prelude.{◌≡◌, ◌++◌, ◌+◌, ◌≤◌, ℕ, List, IfSome, OnOk};
ghost use Rattle.cb_fit.specs.Internal.Choices.{AreOpen, AreUpTo, IsChoice, IsOpen, cuts_before, constraint_number, tries_after, tries_if, tries_left, ways_after, ways_if, ways_left};
ghost use Rattle.cb_fit.specs.Internal.Searches.{SearchValue};

use crate::choice::Choice;
use cb_forms::NoMemory;
use smallvec::SmallVec;

/// Choices that are open; that which was opened last is at the end. Eight of them take no memory. They are in a vector, since a
/// pattern may have more segments than a stack has room for calls. Each is an `Option`, since a free place of the vector holds
/// one too.
pub(crate) type OpenChoices<'a> = SmallVec<Option<Choice<'a>>, 8>;

/// Opens the choice of the ends after one.
pub(crate) fn open_others<'a>(
    choice: Choice<'a>,
    to: usize,
    choices: &mut OpenChoices<'a>,
) -> Result<(), NoMemory>
    requires open { IsChoice choice }
    requires order { choice.to ≤ to }
    requires last { to ≤ choice.last }
    ensures open { OnOk result ((s : SearchValue) (cuts : List ℕ) → IsOpen s cuts choice.entry
        → AreUpTo choice.entry.number choices.old.items
        → AreOpen s cuts choices.old.items → AreOpen s cuts choices.new.items) }
    ensures order { OnOk result (AreUpTo choice.entry.number choices.old.items
        → AreUpTo choice.entry.number choices.new.items) }
    ensures ways { OnOk result ((s : SearchValue) (cuts : List ℕ)
        → ways_left s cuts choices.new.items
        ≡ ways_after s (cuts_before choice.entry cuts) choice.entry to
        ++ ways_left s cuts choices.old.items) }
    ensures tries { OnOk result (tries_left choices.new.items
        ≤ tries_after choice.entry to + tries_left choices.old.items) }
{
    if to >= choice.last {
        return Ok(());
    }
    let mut others = choice;
    others.to = to + 1;
    choices.push(Some(others))?;
    Ok(())
}

/// Opens a choice, if there is one.
pub(crate) fn open_next<'a>(
    next: Option<Choice<'a>>,
    choices: &mut OpenChoices<'a>,
) -> Result<(), NoMemory>
    ensures open { OnOk result ((s : SearchValue) (cuts : List ℕ)
        → IfSome next.entry (IsOpen s cuts)
        → IfSome next.entry (λ c. AreUpTo c.number choices.old.items)
        → AreOpen s cuts choices.old.items → AreOpen s cuts choices.new.items) }
    ensures ways { OnOk result ((s : SearchValue) (cuts : List ℕ)
        → ways_left s cuts choices.new.items
        ≡ ways_if s cuts next.entry ++ ways_left s cuts choices.old.items) }
    ensures tries { OnOk result (tries_left choices.new.items
        ≡ tries_if next.entry + tries_left choices.old.items) }
{
    if next.is_some() {
        choices.push(next)?;
    }
    Ok(())
}
