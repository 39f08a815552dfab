//! Patterns as they are written.
ghost use Rattle.std.specs.Prelude.{◌≡◌, [], map};
ghost use Rattle.cb_constraints.specs.Constraints.{constraint_of};
ghost use Rattle.cb_constraints.specs.PartValues.{asked_slot};
ghost use Rattle.cb_facts.specs.FaultLists.{ReadsAs};
ghost use Rattle.cb_forms.specs.Members.{members};
ghost use Rattle.cb_forms.specs.Trees.{tree_of};
ghost use Rattle.cb_rule_forms.specs.PatternFaults.{slot_row_faults, pattern_faults, pattern_slot_faults, pattern_slots_faults, take_one};
ghost use Rattle.cb_rule_forms.specs.Members.{members_in};
ghost use Rattle.cb_rule_forms.specs.Rows.{row_in};
ghost use Rattle.cb_rule_forms.specs.Patterns.{pattern_of, pattern_value, slot_in, slots_in};

use crate::row::read_row;
use cb_constraints::{Constraint, PatternParts, Row, SlotRow};
use cb_expr_forms::{NameList, Scope};
use cb_facts::{Name, Names, Refused};
use cb_forms::{Fault, Form};
use cb_templates::Template;

/// The pattern that a relation and the forms after it are in this scope, or its first fault (`docs/LANGUAGE.md`,
/// "Patterns"): its relation, and what it asks of the content of a fact.
///
/// The relation may be any name, and so may the variables: the caller has to see whether it is a reserved word, and whether
/// they are bound where they need a value. A global as a check is CB13.
pub(crate) fn read_pattern(
    names: &mut Names,
    scope: &Scope<'_>,
    relation: &[u8],
    forms: &[Form],
) -> Result<(Name, PatternParts), Refused>
    ensures { ReadsAs pattern_value result
        (pattern_faults scope.now relation.now (members forms.now))
        (pattern_of scope.now.templates relation.now (members forms.now)) }
{
    let relation = names.name(relation)?;
    match scope.relations.template(&relation) {
        None => {
            let constraints = read_row(names, scope, forms)?;
            Ok((relation, PatternParts::Fields(Row::new(constraints))))
        }
        Some(template) => {
            let slots = read_slots(names, scope, template, forms)?;
            Ok((relation, PatternParts::Slots(slots)))
        }
    }
}

/// The slots that a pattern writes, of a template.
fn read_slots(
    names: &mut Names,
    scope: &Scope<'_>,
    template: &Template,
    forms: &[Form],
) -> Result<Vec<SlotRow>, Refused>
    ensures { ReadsAs (λ slots. map asked_slot slots.items) result
        (pattern_slots_faults scope.now template.now [] (members forms.now))
        (slots_in scope.now.templates template.now (members forms.now)) }
{
    let mut given = NameList::new(names.alloc());
    let mut slots = Vec::with_capacity(names.alloc(), forms.len())?;
    for form in forms {
        let slot = read_slot(names, scope, template, &given, form)?;
        given.push(&slot.name)?;
        slots.push(slot)?;
    }
    Ok(slots)
}

/// The slot that a form is, after those with these names.
fn read_slot(
    names: &mut Names,
    scope: &Scope<'_>,
    template: &Template,
    given: &NameList,
    form: &Form,
) -> Result<SlotRow, Refused>
    ensures { ReadsAs asked_slot result
        (pattern_slot_faults scope.now template.now given.now (tree_of form.now))
        (slot_in scope.now.templates template.now (tree_of form.now)) }
{
    let Some((name, forms)) = form.call() else {
        return Err(Refused::Fault(Fault::FactDoesNotFit));
    };
    let name = names.name(name)?;
    let Some(slot) = template.find(&name) else {
        return Err(Refused::Fault(Fault::FactDoesNotFit));
    };
    let Some(place) = template.place(&name) else {
        return Err(Refused::Fault(Fault::FactDoesNotFit));
    };
    if given.has(&name) {
        return Err(Refused::Fault(Fault::FactDoesNotFit));
    }
    let row = read_filling(names, scope, slot.multi(), forms)?;
    Ok(SlotRow { name, place, row })
}

/// The constraints for a slot, which may be a multislot.
fn read_filling(
    names: &mut Names,
    scope: &Scope<'_>,
    is_multi: bool,
    forms: &[Form],
) -> Result<Row, Refused>
    ensures { ReadsAs (λ row. row) result
        (slot_row_faults scope.now is_multi (members forms.now))
        (row_in scope.now.templates (members_in (members forms.now))) }
{
    let constraints = read_row(names, scope, forms)?;
    if !is_multi && !take_one(constraints.as_slice()) {
        return Err(Refused::Fault(Fault::FactDoesNotFit));
    }
    Ok(Row::new(constraints))
}

/// Whether the constraints are one, which takes one field.
fn take_one(constraints: &[Constraint]) -> bool
    ensures { result ≡ take_one (map constraint_of constraints.now) }
{
    match constraints {
        [constraint] => !constraint.takes_segment,
        _ => false,
    }
}
