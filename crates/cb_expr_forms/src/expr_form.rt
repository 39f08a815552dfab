//! Expressions and facts as they are written.
ghost use Rattle.std.specs.Prelude.{◌≡◌, ◌++◌, ◌∷◌, ℕ, List, [], map};
ghost use Rattle.std.specs.Option.{option_and_then};
ghost use Rattle.cb_expr_forms.specs.ExprFaults.{all_faults, change_faults, changes_faults, fact_faults, facts_faults, faults_of, list_faults, slot_faults, slots_faults, values_faults};
ghost use Rattle.cb_expr_forms.specs.ExprForms.{assertions, change_exprs, expr_of, exprs_in_slot, exprs_of, fact_of, given_slot, list_expr, slot_count, slot_counts, slot_exprs, slot_name, slot_names};
ghost use Rattle.cb_facts.specs.FaultLists.{ReadsAs};
ghost use Rattle.cb_expr_forms.specs.Internal.{binding, bound_faults, filling_expr, filling_faults, if_expr, if_faults, modify_expr, plan_expr, plan_faults, value_faults, what_modify_faults, while_expr, while_faults};
ghost use Rattle.cb_exprs.specs.Shapes.{SlotCounts};
ghost use Rattle.cb_exprs.specs.Terms.{Term, effect as effect_of, term_of, terms};
ghost use Rattle.cb_forms.specs.Members.{members};
ghost use Rattle.cb_forms.specs.Trees.{tree_of};

use crate::action_form::{ActionForm, Bound};
use crate::build::{add, boxed, build_if, build_while, know_bound};
use crate::call_form::{CallForm, split_call};
use crate::scope::Scope;
use crate::slot_changes::SlotChanges;
use crate::slot_form::{SlotForm, split_fact};
use crate::slot_values::SlotValues;
use crate::token_form::read_token;
use crate::value_form::{check_equals, fit_type};
use cb_exprs::{Effect, Expr, FactExpr, FactShape};
use cb_facts::{Name, Names, Refused};
use cb_forms::Form;
use cb_templates::{Slot, Template};
use cb_words::Function;

/// The expression that a form is in this scope, or its first fault (`docs/LANGUAGE.md`, "Expressions").
#[cycle(reading)]
pub fn read_expr(names: &mut Names, scope: &Scope<'_>, form: &Form) -> Result<Expr, Refused>
    ensures { ReadsAs term_of result (faults_of scope.now (tree_of form.now))
        (expr_of scope.now.templates (tree_of form.now)) }
{
    match form {
        Form::Atom(token) => read_token(names, scope, token),
        Form::List(forms) => read_list(names, scope, forms),
    }
}

#[cycle(reading)]
fn read_list(names: &mut Names, scope: &Scope<'_>, forms: &[Form]) -> Result<Expr, Refused>
    ensures { ReadsAs term_of result (list_faults scope.now (members forms.now))
        (list_expr scope.now.templates (members forms.now)) }
{
    match split_call(scope.side, forms)? {
        CallForm::Function(function, args) => {
            Ok(Expr::Call(function, read_exprs(names, scope, args)?))
        }
        CallForm::Assert(facts) => Ok(Expr::Actions(read_facts(names, scope, facts)?)),
        CallForm::Modify(fact, slots) => read_modify(names, scope, fact, slots),
        CallForm::Action(action) => read_action(names, scope, action),
    }
}

#[cycle(reading)]
fn read_action(
    names: &mut Names,
    scope: &Scope<'_>,
    action: ActionForm<'_>,
) -> Result<Expr, Refused>
    ensures { ReadsAs term_of result (plan_faults scope.now action.entry)
        (plan_expr scope.now.templates action.entry) }
{
    match action {
        ActionForm::Of(effect, values) => read_effect(names, scope, effect, values),
        ActionForm::Bind(bound, values) => read_bind(names, scope, bound, values),
        ActionForm::If(test, yes, no) => read_if(names, scope, test, yes, no),
        ActionForm::While(test, actions) => read_while(names, scope, test, actions),
    }
}

/// A call with an effect of these values.
#[cycle(reading)]
fn read_effect(
    names: &mut Names,
    scope: &Scope<'_>,
    effect: Effect,
    values: &[Form],
) -> Result<Expr, Refused>
    ensures { ReadsAs term_of result (all_faults scope.now (members values.now))
        (effect_of effect (terms (exprs_of scope.now.templates (members values.now)))) }
{
    Ok(Expr::Effect(effect, read_exprs(names, scope, values)?))
}

/// A `bind` of these values.
#[cycle(reading)]
fn read_bind(
    names: &mut Names,
    scope: &Scope<'_>,
    bound: Bound<'_>,
    values: &[Form],
) -> Result<Expr, Refused>
    ensures { ReadsAs term_of result
        (bound_faults scope.now bound.entry ++ all_faults scope.now (members values.now))
        (effect_of (binding bound.entry) (terms (exprs_of scope.now.templates (members values.now)))) }
{
    let effect = know_bound(names, scope, bound)?;
    read_effect(names, scope, effect, values)
}

/// The expression that a form is, in a box.
#[cycle(reading)]
pub fn read_boxed(names: &mut Names, scope: &Scope<'_>, form: &Form) -> Result<Box<Expr>, Refused>
    ensures { ReadsAs (λ e. term_of e.value) result (faults_of scope.now (tree_of form.now))
        (expr_of scope.now.templates (tree_of form.now)) }
{
    let expr = read_expr(names, scope, form)?;
    boxed(names.alloc(), expr)
}

#[cycle(reading)]
fn read_if(
    names: &mut Names,
    scope: &Scope<'_>,
    test: &Form,
    yes: &[Form],
    no: &[Form],
) -> Result<Expr, Refused>
    ensures { ReadsAs term_of result
        (if_faults scope.now (tree_of test.now) (members yes.now) (members no.now))
        (if_expr scope.now.templates (tree_of test.now) (members yes.now) (members no.now)) }
{
    let test = read_boxed(names, scope, test)?;
    let yes = read_exprs(names, scope, yes)?;
    let no = read_exprs(names, scope, no)?;
    build_if(names.alloc(), test, yes, no)
}

#[cycle(reading)]
fn read_while(
    names: &mut Names,
    scope: &Scope<'_>,
    test: &Form,
    actions: &[Form],
) -> Result<Expr, Refused>
    ensures { ReadsAs term_of result
        (while_faults scope.now (tree_of test.now) (members actions.now))
        (while_expr scope.now.templates (tree_of test.now) (members actions.now)) }
{
    let test = read_boxed(names, scope, test)?;
    let actions = read_exprs(names, scope, actions)?;
    build_while(names.alloc(), test, actions)
}

/// A `modify` of the fact that a form says, with the slots that forms are.
#[cycle(reading)]
fn read_modify(
    names: &mut Names,
    scope: &Scope<'_>,
    fact: &Form,
    slots: &[Form],
) -> Result<Expr, Refused>
    ensures { ReadsAs term_of result
        (what_modify_faults scope.now (tree_of fact.now) (members slots.now))
        (modify_expr scope.now.templates (tree_of fact.now) (members slots.now)) }
{
    let fact = read_expr(names, scope, fact)?;
    let mut changes = SlotChanges::of(names.alloc(), fact)?;
    read_changes(names, scope, &mut changes, slots)?;
    changes.into_expr(names.alloc())
}

/// Adds the slots that forms are to a `modify`, and their expressions.
#[cycle(reading)]
fn read_changes(
    names: &mut Names,
    scope: &Scope<'_>,
    changes: &mut SlotChanges,
    forms: &[Form],
) -> Result<(), Refused>
    ensures { ReadsAs {V = SlotCounts × List Term}
        (λ _. (changes.new.slots.items, map term_of changes.new.values.items)) result
        (changes_faults scope.now changes.old.names (members forms.now)) (
          changes.old.slots.items ++ slot_counts (members forms.now),
          map term_of changes.old.values.items
              ++ change_exprs scope.now.templates (members forms.now),
        ) }
{
    for form in forms {
        read_change(names, scope, changes, form)?;
    }
    Ok(())
}

/// Adds the slot that a form is, and its expressions.
#[cycle(reading)]
fn read_change(
    names: &mut Names,
    scope: &Scope<'_>,
    changes: &mut SlotChanges,
    form: &Form,
) -> Result<(), Refused>
    ensures { ReadsAs {V = List (List ℕ) × SlotCounts × List Term}
        (λ _. (changes.new.names, changes.new.slots.items, map term_of changes.new.values.items))
        result (change_faults scope.now changes.old.names (tree_of form.now)) (
          changes.old.names ++ slot_name (tree_of form.now) ∷ [],
          changes.old.slots.items ++ slot_count (tree_of form.now) ∷ [],
          map term_of changes.old.values.items
              ++ exprs_in_slot scope.now.templates (tree_of form.now),
        ) }
{
    let forms = changes.next(names, form)?;
    let values = read_values(names, scope, None, forms)?;
    changes.add(values)
}

/// The expressions that forms are in this scope, or the first fault.
#[cycle(reading)]
pub fn read_exprs(
    names: &mut Names,
    scope: &Scope<'_>,
    forms: &[Form],
) -> Result<Vec<Expr>, Refused>
    ensures { ReadsAs (λ es. map term_of es.items) result (all_faults scope.now (members forms.now))
        (exprs_of scope.now.templates (members forms.now)) }
{
    let mut exprs = Vec::with_capacity(names.alloc(), forms.len())?;
    for form in forms {
        add(&mut exprs, read_expr(names, scope, form)?)?;
    }
    Ok(exprs)
}

/// To assert the facts that forms are, or the first fault.
#[cycle(reading)]
fn read_facts(names: &mut Names, scope: &Scope<'_>, forms: &[Form]) -> Result<Vec<Expr>, Refused>
    ensures { ReadsAs (λ es. map term_of es.items) result
        (facts_faults scope.now (members forms.now))
        (assertions scope.now.templates (members forms.now)) }
{
    let mut facts = Vec::with_capacity(names.alloc(), forms.len())?;
    for form in forms {
        add(&mut facts, read_fact(names, scope, form)?.into_expr())?;
    }
    Ok(facts)
}

/// The fact that a form is in this scope, or its first fault (`docs/LANGUAGE.md`, "Facts").
#[cycle(reading)]
pub fn read_fact(names: &mut Names, scope: &Scope<'_>, form: &Form) -> Result<FactExpr, Refused>
    ensures { ReadsAs (λ f. f) result (fact_faults scope.now (tree_of form.now))
        (fact_of scope.now.templates (tree_of form.now)) }
{
    let (relation, forms) = split_fact(form)?;
    let relation = names.name(relation)?;
    match scope.relations.template(&relation) {
        None => {
            let values = read_values(names, scope, None, forms)?;
            Ok(FactExpr::new(FactShape::ordered(relation), values))
        }
        Some(template) => {
            let (slots, values) = read_slots(names, scope, template, forms)?;
            let shape = FactShape::with_slots(names.alloc(), relation, slots)?;
            Ok(FactExpr::new(shape, values))
        }
    }
}

/// The slots that a fact gives, of a template, and the expression of the value of each.
#[cycle(reading)]
fn read_slots(
    names: &mut Names,
    scope: &Scope<'_>,
    template: &Template,
    forms: &[Form],
) -> Result<(Vec<Name>, Vec<Expr>), Refused>
    ensures { ReadsAs {V = List (List ℕ) × List Term}
        (λ r. (r.0.items, map term_of r.1.items)) result
        (slots_faults scope.now template.now [] (members forms.now)) (
          slot_names (members forms.now),
          slot_exprs scope.now.templates template.now (members forms.now),
        ) }
{
    let mut given = SlotValues::new(names.alloc(), forms.len())?;
    for form in forms {
        read_given(names, scope, template, &mut given, form)?;
    }
    given.filled(template.slots())
}

/// Adds the slot that a form gives, and the expression of its value.
#[cycle(reading)]
fn read_given(
    names: &mut Names,
    scope: &Scope<'_>,
    template: &Template,
    given: &mut SlotValues,
    form: &Form,
) -> Result<(), Refused>
    ensures { ReadsAs {V = List (List ℕ) × List Term}
        (λ _. (given.new.names, map term_of given.new.values.items)) result
        (slot_faults scope.now template.now given.old.names (tree_of form.now)) (
          given.old.names ++ slot_name (tree_of form.now) ∷ [],
          map term_of given.old.values.items
              ++ given_slot scope.now.templates template.now (tree_of form.now) ∷ [],
        ) }
{
    let slot = given.next(names, template, form)?;
    let value = read_slot(names, scope, slot)?;
    given.add(value)
}

/// The value of a slot.
#[cycle(reading)]
fn read_slot(names: &mut Names, scope: &Scope<'_>, slot: SlotForm<'_>) -> Result<Expr, Refused>
    ensures { ReadsAs term_of result (filling_faults scope.now slot.entry)
        (filling_expr scope.now.templates slot.entry) }
{
    match slot {
        SlotForm::One(slot, form) => read_value(names, scope, Some(slot), form, &[]),
        SlotForm::Several(slot, forms) => {
            let values = read_values(names, scope, Some(slot), forms)?;
            Ok(Expr::Call(Function::Create, values))
        }
    }
}

/// The fields of an ordered fact, or the values of a slot, each of its types.
#[cycle(reading)]
fn read_values(
    names: &mut Names,
    scope: &Scope<'_>,
    slot: Option<&Slot>,
    forms: &[Form],
) -> Result<Vec<Expr>, Refused>
    ensures { ReadsAs (λ es. map term_of es.items) result
        (values_faults scope.now (option_and_then (λ s. s.now.types) slot.entry) (members forms.now))
        (exprs_of scope.now.templates (members forms.now)) }
{
    let mut values = Vec::with_capacity(names.alloc(), forms.len())?;
    let mut rest = forms;
    while let Some((first, following)) = rest.split_first() {
        add(
            &mut values,
            read_value(names, scope, slot, first, following)?,
        )?;
        rest = following;
    }
    Ok(values)
}

/// One of them, before those that follow it.
#[cycle(reading)]
fn read_value(
    names: &mut Names,
    scope: &Scope<'_>,
    slot: Option<&Slot>,
    form: &Form,
    following: &[Form],
) -> Result<Expr, Refused>
    ensures { ReadsAs term_of result
        (value_faults scope.now (option_and_then (λ s. s.now.types) slot.entry) (tree_of form.now) (members following.now))
        (expr_of scope.now.templates (tree_of form.now)) }
{
    check_equals(form, following)?;
    let value = read_expr(names, scope, form)?;
    fit_type(slot, value)
}
