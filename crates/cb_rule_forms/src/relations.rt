//! The relations that a rule names.
ghost use Rattle.std.specs.Prelude.{◌≡◌, ◌∷◌, [], IfOk, OnOk, map};
ghost use Rattle.std.specs.List.{flat_map};
ghost use Rattle.cb_exprs.specs.Terms.{term_of, terms_of};
ghost use Rattle.cb_rule_forms.specs.Internal.{branches_read, form_value, with_names};
ghost use Rattle.cb_rule_forms.specs.Relations.{asserted_by, asserted_in, asserted_with, pattern_relations, patterns_relations, relations_of};
ghost use Rattle.cb_rules.specs.Elements.{elements};

use crate::element::ElementForm;
use crate::mentions::add_name;
use cb_expr_forms::NameList;
use cb_exprs::{Effect, Expr};
use cb_facts::Name;
use cb_forms::NoMemory;
use std::alloc::Global;

/// The relations that a rule names: those of the patterns of its branches, then those of the facts that its actions assert,
/// each once.
#[tactic(auto, using(crate::proofs::NameLaws::all_once))]
pub(crate) fn find_relations(
    alloc: Global,
    branches: &[Vec<ElementForm>],
    actions: &[Expr],
) -> Result<Vec<Name>, NoMemory>
    ensures { IfOk result (λ found. found.items
        ≡ relations_of (branches_read branches.now) (map term_of actions.now)) }
{
    let mut found = NameList::new(alloc);
    add_branches(&mut found, branches)?;
    add_each_asserted(&mut found, actions)?;
    Ok(found.into_vec())
}

/// Adds the relations of the patterns of branches, those that are not among the names.
fn add_branches(found: &mut NameList, branches: &[Vec<ElementForm>]) -> Result<(), NoMemory>
    ensures { OnOk result (found.new
        ≡ with_names found.old (flat_map patterns_relations (branches_read branches.now))) }
{
    for branch in branches {
        add_relations(found, branch.as_slice())?;
    }
    Ok(())
}

/// Adds the relations of the patterns of elements, those that are not among the names.
#[cycle(naming)]
fn add_relations(found: &mut NameList, branch: &[ElementForm]) -> Result<(), NoMemory>
    ensures { OnOk result (found.new
        ≡ with_names found.old (patterns_relations (elements (map form_value branch.now)))) }
{
    for element in branch {
        add_relation(found, element)?;
    }
    Ok(())
}

/// Adds the relations of the patterns of an element, those that are not among the names.
///
/// It calls itself as deep as groups are nested.
#[cycle(naming)]
fn add_relation(found: &mut NameList, element: &ElementForm) -> Result<(), NoMemory>
    ensures { OnOk result (found.new
        ≡ with_names found.old (pattern_relations (form_value element.now))) }
{
    match element {
        ElementForm::Pattern(form) => add_name(found, &form.relation),
        ElementForm::Test(_) => Ok(()),
        ElementForm::Group(_, inner) => add_relations(found, inner.as_slice()),
    }
}

/// Adds the relations of the facts that an expression asserts, those that are not among the names.
///
/// It calls itself as deep as the expression is nested.
#[cycle(asserted)]
fn add_asserted(found: &mut NameList, expr: &Expr) -> Result<(), NoMemory>
    ensures { OnOk result (found.new ≡ with_names found.old (asserted_by (term_of expr.now))) }
{
    match expr {
        Expr::Constant(_) | Expr::Variable(_) | Expr::Global(_) => Ok(()),
        Expr::Call(_, exprs) | Expr::Actions(exprs) => add_each_asserted(found, exprs),
        Expr::Effect(effect, exprs) => {
            add_own(found, effect)?;
            add_each_asserted(found, exprs)
        }
        Expr::If(test, yes, no) => {
            add_asserted(found, test)?;
            add_asserted(found, yes)?;
            add_asserted(found, no)
        }
        Expr::While(test, actions) => {
            add_asserted(found, test)?;
            add_asserted(found, actions)
        }
    }
}

/// The same of several expressions, one after another.
#[cycle(asserted)]
fn add_each_asserted(found: &mut NameList, exprs: &[Expr]) -> Result<(), NoMemory>
    ensures { OnOk result (found.new ≡ with_names found.old (asserted_in (terms_of exprs.now))) }
{
    for expr in exprs {
        add_asserted(found, expr)?;
    }
    Ok(())
}

/// Adds the relation of the fact that a call with an effect asserts, if it asserts one and it is not among the names.
fn add_own(found: &mut NameList, effect: &Effect) -> Result<(), NoMemory>
    ensures { OnOk result (found.new ≡ with_names found.old (asserted_with effect.now)) }
{
    match effect {
        Effect::Assert(shape) => add_name(found, shape.relation()),
        _ => Ok(()),
    }
}
