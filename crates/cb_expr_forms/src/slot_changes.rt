//! The slots that a `modify` names.
ghost use Rattle.std.specs.Prelude.{◌≡◌, ◌++◌, ◌∷◌, ℕ, List, [], MatchResult, OnOk, map};
ghost use Rattle.cb_expr_forms.specs.ExprForms.{slot_count, slot_name};
ghost use Rattle.cb_expr_forms.specs.Internal.{IsChange, IsChangeFault};
ghost use Rattle.cb_exprs.specs.Shapes.{SlotCounts};
ghost use Rattle.cb_exprs.specs.Terms.{Term, effect, term_of, terms};
ghost use Rattle.cb_exprs.specs.declared.effect.Effect.TheVariants as kind;
ghost use Rattle.cb_facts.specs.FaultLists.{ReadsAs};
ghost use Rattle.cb_facts.specs.Results.{Reports};
ghost use Rattle.cb_forms.specs.Members.{members};
ghost use Rattle.cb_forms.specs.Trees.{tree_of};

use crate::name_list::NameList;
use cb_exprs::{Effect, Expr, ModifiedSlot, ModifiedSlots};
use cb_facts::{Name, Names, Refused};
use cb_forms::{Fault, Form};
use std::alloc::Global;

/// The slots that a `modify` names, and its arguments: the expression that says which fact, and those of the slots.
#[derive(Drop)]
pub(crate) struct SlotChanges {
    pub(crate) names: NameList,
    pub(crate) slots: Vec<ModifiedSlot>,
    pub(crate) values: Vec<Expr>,
}

impl SlotChanges {
    /// No slots yet, of the fact that an expression says.
    pub(crate) fn of(alloc: Global, fact: Expr) -> Result<SlotChanges, Refused>
        ensures { ReadsAs {V = List (List ℕ) × SlotCounts × List Term}
            (λ c. (c.names, c.slots.items, map term_of c.values.items)) result []
            ([], [], term_of fact ∷ []) }
    {
        let mut values = Vec::new(alloc);
        values.push(fact)?;
        Ok(SlotChanges {
            names: NameList::new(alloc),
            slots: Vec::new(alloc),
            values,
        })
    }

    /// The expressions of the slot that a form names next, or its first fault before those of them. The slot is added, and they
    /// are not.
    pub(crate) fn next<'a>(
        &mut self,
        names: &mut Names,
        form: &'a Form,
    ) -> Result<&'a [Form], Refused>
        ensures slot { MatchResult result
            (λ forms. IsChange self.old.names (tree_of form.now) (slot_name (tree_of form.now)) (members forms.now))
            (λ r. Reports r (IsChangeFault self.old.names (tree_of form.now))) }
        ensures name { OnOk result
            (self.new.names ≡ self.old.names ++ slot_name (tree_of form.now) ∷ []) }
        ensures count { OnOk result
            (self.new.slots.items ≡ self.old.slots.items ++ slot_count (tree_of form.now) ∷ []) }
        ensures values { self.new.values ≡ self.old.values }
    {
        let (name, forms) = split_change(names, &self.names, form)?;
        self.names.push(&name)?;
        self.slots.push(ModifiedSlot::new(name, forms.len()))?;
        Ok(forms)
    }

    /// Adds expressions after the others.
    pub(crate) fn add(&mut self, values: Vec<Expr>) -> Result<(), Refused>
        ensures { ReadsAs {V = List (List ℕ) × SlotCounts × List Term}
            (λ _. (self.new.names, self.new.slots.items, map term_of self.new.values.items)) result []
            (self.old.names, self.old.slots.items, map term_of self.old.values.items ++ map term_of values.items) }
    {
        let mut values = values;
        self.values.append(&mut values)?;
        Ok(())
    }

    /// The `modify`.
    pub(crate) fn into_expr(self, alloc: Global) -> Result<Expr, Refused>
        ensures { ReadsAs term_of result []
            (effect (kind.Modify self.slots.items) (terms (map term_of self.values.items))) }
    {
        let slots = ModifiedSlots::new(alloc, self.slots)?;
        Ok(Expr::Effect(Effect::Modify(slots), self.values))
    }
}

/// The name of the slot that a form is, after those with these names, and what follows it; or its first fault before those of that.
fn split_change<'a>(
    names: &mut Names,
    given: &NameList,
    form: &'a Form,
) -> Result<(Name, &'a [Form]), Refused>
    ensures { MatchResult result
        (λ split. IsChange given.now (tree_of form.now) split.0 (members split.1.now))
        (λ r. Reports r (IsChangeFault given.now (tree_of form.now))) }
{
    let Some((name, forms)) = form.call() else {
        return Err(Refused::Fault(Fault::FactDoesNotFit));
    };
    let name = names.name(name)?;
    if given.has(&name) {
        return Err(Refused::Fault(Fault::FactDoesNotFit));
    }
    Ok((name, forms))
}
