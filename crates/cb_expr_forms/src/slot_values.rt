//! The slots that a fact gives.
ghost use Rattle.std.specs.Prelude.{◌≡◌, ◌++◌, ◌∷◌, ℕ, List, [], MatchResult, OnOk, map};
ghost use Rattle.cb_expr_forms.specs.ExprFaults.{are_filled};
ghost use Rattle.cb_expr_forms.specs.ExprForms.{slot_name};
ghost use Rattle.cb_expr_forms.specs.Internal.{IsSlot, IsSlotFault};
ghost use Rattle.cb_exprs.specs.Terms.{Term, term_of};
ghost use Rattle.cb_facts.specs.Results.{Reports};
ghost use Rattle.cb_forms.specs.Trees.{tree_of};
ghost use Rattle.cb_facts.specs.FaultLists.{ReadsAs, unless};

use crate::name_list::NameList;
use crate::slot_form::{SlotForm, split_slot};
use cb_exprs::Expr;
use cb_facts::{Name, Names, Refused};
use cb_forms::{Fault, Form};
use cb_templates::{Slot, Template};
use std::alloc::Global;

/// The names of slots that a fact gives, and the expression of the value of each.
#[derive(Drop)]
pub(crate) struct SlotValues {
    pub(crate) names: NameList,
    pub(crate) values: Vec<Expr>,
}

impl SlotValues {
    /// None, with room for the values of so many.
    pub(crate) fn new(alloc: Global, count: usize) -> Result<SlotValues, Refused>
        ensures { ReadsAs {V = List (List ℕ) × List Term}
            (λ g. (g.names, map term_of g.values.items)) result [] ([], []) }
    {
        Ok(SlotValues {
            names: NameList::new(alloc),
            values: Vec::with_capacity(alloc, count)?,
        })
    }

    /// The slot that a form gives next, or its first fault before those of its values. Its name is added, its value is not.
    pub(crate) fn next<'a>(
        &mut self,
        names: &mut Names,
        template: &'a Template,
        form: &'a Form,
    ) -> Result<SlotForm<'a>, Refused>
        ensures slot { MatchResult result (IsSlot template.now self.old.names (tree_of form.now))
            (λ r. Reports r (IsSlotFault template.now self.old.names (tree_of form.now))) }
        ensures name { OnOk result
            (self.new.names ≡ self.old.names ++ slot_name (tree_of form.now) ∷ []) }
        ensures values { self.new.values ≡ self.old.values }
    {
        let slot = split_slot(names, template, &self.names, form)?;
        self.names.push(slot.name())?;
        Ok(slot)
    }

    /// Adds the value of the slot whose name was added last.
    pub(crate) fn add(&mut self, value: Expr) -> Result<(), Refused>
        ensures { ReadsAs {V = List (List ℕ) × List Term}
            (λ _. (self.new.names, map term_of self.new.values.items)) result []
            (self.old.names, map term_of self.old.values.items ++ term_of value ∷ []) }
    {
        self.values.push(value)?;
        Ok(())
    }

    /// The names and the values, where each of these slots is given or has a default.
    pub(crate) fn filled(self, slots: &[Slot]) -> Result<(Vec<Name>, Vec<Expr>), Refused>
        ensures { ReadsAs {V = List (List ℕ) × List Term}
            (λ r. (r.0.items, map term_of r.1.items)) result
            (unless (are_filled slots.now self.names) Fault.FactDoesNotFit)
            (self.names, map term_of self.values.items) }
    {
        if !are_filled(slots, &self.names) {
            return Err(Refused::Fault(Fault::FactDoesNotFit));
        }
        Ok((self.names.into_vec(), self.values))
    }
}

/// Whether each slot is given or has a default.
fn are_filled(slots: &[Slot], given: &NameList) -> bool
    ensures { result ≡ are_filled slots.now given.now }
{
    slots
        .iter()
        .all(|slot| given.has(slot.name()) || slot.default().is_some())
}
