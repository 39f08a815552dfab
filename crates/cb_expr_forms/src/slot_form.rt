//! Facts and their slots as they are written.
ghost use Rattle.std.specs.Prelude.{◌≡◌, MatchResult};
ghost use Rattle.cb_expr_forms.specs.Internal.{IsFact, IsFactFault, IsFilling, IsFillingFault, IsSlot, IsSlotFault, slot_of};
ghost use Rattle.cb_facts.specs.Results.{Reports};
ghost use Rattle.cb_forms.specs.Members.{members};
ghost use Rattle.cb_forms.specs.Trees.{tree_of};

use crate::name_list::NameList;
use cb_facts::{Name, Names, Refused};
use cb_forms::{Fault, Form};
use cb_templates::{Slot, Template};
use cb_words::is_reserved;

/// The relation that a fact begins with, and what follows it, or its first fault before those of what follows.
pub(crate) fn split_fact<'a>(form: &'a Form) -> Result<(&'a [u8], &'a [Form]), Refused>
    ensures { MatchResult result
        (λ split. IsFact (tree_of form.now) split.0.now (members split.1.now))
        (λ r. Reports r (IsFactFault (tree_of form.now))) }
{
    let Some((relation, forms)) = form.call() else {
        return Err(Refused::Fault(Fault::FactDoesNotFit));
    };
    if is_reserved(relation) {
        return Err(Refused::Fault(Fault::FactDoesNotFit));
    }
    Ok((relation, forms))
}

/// A slot that a fact gives, by what of it is read next.
#[derive(Clone, Copy)]
pub(crate) enum SlotForm<'a> {
    /// The one value of a slot.
    One(&'a Slot, &'a Form),
    /// The values of a multislot.
    Several(&'a Slot, &'a [Form]),
}

impl SlotForm<'_> {
    /// The slot's name.
    pub(crate) fn name(&self) -> &Name
        ensures { result.now ≡ slot_of self.now }
    {
        match self {
            SlotForm::One(slot, _) | SlotForm::Several(slot, _) => slot.name(),
        }
    }
}

/// The slot that a form gives, after those with these names, or its first fault before those of its values.
pub(crate) fn split_slot<'a>(
    names: &mut Names,
    template: &'a Template,
    given: &NameList,
    form: &'a Form,
) -> Result<SlotForm<'a>, Refused>
    ensures { MatchResult result (IsSlot template.now given.now (tree_of form.now))
        (λ r. Reports r (IsSlotFault template.now given.now (tree_of form.now))) }
{
    let Some((name, forms)) = form.call() else {
        return Err(Refused::Fault(Fault::FactDoesNotFit));
    };
    let Some(slot) = template.find(&names.name(name)?) else {
        return Err(Refused::Fault(Fault::FactDoesNotFit));
    };
    split_values(slot, given.has(slot.name()), forms)
}

/// The same by the slot, whether it is among these names, and the values that the form gives it.
fn split_values<'a>(
    slot: &'a Slot,
    is_given: bool,
    forms: &'a [Form],
) -> Result<SlotForm<'a>, Refused>
    ensures { MatchResult result (IsFilling slot.now is_given (members forms.now))
        (λ r. Reports r (IsFillingFault slot.now is_given (members forms.now))) }
{
    if is_given {
        return Err(Refused::Fault(Fault::FactDoesNotFit));
    }
    if slot.multi() {
        return Ok(SlotForm::Several(slot, forms));
    }
    let Some((form, following)) = forms.split_first() else {
        return Err(Refused::Fault(Fault::FactDoesNotFit));
    };
    match following.split_first() {
        None => Ok(SlotForm::One(slot, form)),
        Some(_) => Err(Refused::Fault(Fault::FactDoesNotFit)),
    }
}
