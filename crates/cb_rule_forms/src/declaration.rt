//! The salience that a rule declares.
ghost use Rattle.std.specs.Prelude.{◌≡◌, [], None, Ok, Some, MatchOption, pos};
ghost use Rattle.std.specs.Option.{option_and_then, unwrap_or};
ghost use Rattle.cb_facts.specs.FaultLists.{ReadsAs};
ghost use Rattle.cb_eval.specs.Evaluation.{value_of};
ghost use Rattle.cb_expr_forms.specs.ExprFaults.{faults_of};
ghost use Rattle.cb_expr_forms.specs.ExprForms.{expr_of};
ghost use Rattle.cb_expr_forms.specs.Scopes.{plain_scope};
ghost use Rattle.cb_exprs.specs.Terms.{term_of};
ghost use Rattle.cb_forms.specs.Members.{call_of, members};
ghost use Rattle.cb_forms.specs.Trees.{tree_of};
ghost use Rattle.cb_rule_forms.specs.Declarations.{declaration_faults, has_other, is_other, salience_by, salience_faults, salience_form};
ghost use Rattle.cb_rule_forms.specs.Internal.{IsSalience};

use crate::sections::{members_after, only_of};
use cb_eval::{Constants, eval};
use cb_expr_forms::{NameList, Scope, Side, read_expr};
use cb_exprs::{Env, Expr};
use cb_facts::{Names, Refused, Value};
use cb_forms::{Fault, Form};
use cb_templates::Relations;
use std::alloc::Global;

// The salience of a rule is from -10000 to 10000.
const GREATEST_SALIENCE: i64 = 10_000;

const LEAST_SALIENCE: i64 = -10_000;

/// The salience that the members of a declaration give, or their first fault.
pub(crate) fn read_declaration(
    names: &mut Names,
    constants: &Constants,
    relations: &Relations,
    env: &Env,
    forms: &[Form],
) -> Result<i64, Refused>
    ensures { ReadsAs (λ n. n) result (declaration_faults relations.now env.now (members forms.now))
        (unwrap_or (option_and_then (salience_by relations.now env.now)
        (salience_form (members forms.now))) (pos 0)) }
{
    if has_other(forms) {
        return Err(Refused::Fault(Fault::NotInProfile));
    }
    match find_salience(forms) {
        Some(form) => read_salience(names, constants, relations, env, form),
        None => Err(Refused::Fault(Fault::MalformedForm)),
    }
}

/// Whether one of the members declares something other than the salience.
fn has_other(forms: &[Form]) -> bool
    ensures { result ≡ has_other (members forms.now) }
{
    for form in forms {
        if is_other(form) {
            return true;
        }
    }
    false
}

/// Whether a form is a list that begins with a word other than `salience`.
fn is_other(form: &Form) -> bool
    ensures { result ≡ is_other (call_of (tree_of form.now)) }
{
    match form.call() {
        Some((word, _)) => word != b"salience".as_slice(),
        None => false,
    }
}

/// The expression, where the declaration is `(salience expression)` alone.
fn find_salience(forms: &[Form]) -> Option<&Form>
    ensures { MatchOption result (salience_form (members forms.now) ≡ None)
        (λ form. salience_form (members forms.now) ≡ Some (tree_of form.now)) }
{
    only_of(members_after(only_of(forms)?, b"salience")?)
}

/// The salience that an expression has, or its first fault.
fn read_salience(
    names: &mut Names,
    constants: &Constants,
    relations: &Relations,
    env: &Env,
    form: &Form,
) -> Result<i64, Refused>
    ensures { ReadsAs (λ n. n) result
        (salience_faults relations.now env.now (Some (tree_of form.now)))
        (unwrap_or (salience_by relations.now env.now (tree_of form.now)) (pos 0)) }
{
    let expr = read_plain(names, relations, env, form)?;
    eval_salience(names.alloc(), constants, env, &expr)
}

/// The expression of a salience, which may name globals and no variable, or its first fault.
fn read_plain(
    names: &mut Names,
    relations: &Relations,
    env: &Env,
    form: &Form,
) -> Result<Expr, Refused>
    ensures { ReadsAs term_of result
        (faults_of (plain_scope relations.now env.now []) (tree_of form.now))
        (expr_of relations.now (tree_of form.now)) }
{
    let none = NameList::new(names.alloc());
    let scope = Scope {
        side: Side::Plain,
        env,
        bound: &none,
        given: &none,
        relations,
    };
    read_expr(names, &scope, form)
}

/// The salience that an expression has, or the fault where it has none.
fn eval_salience(
    alloc: Global,
    constants: &Constants,
    env: &Env,
    expr: &Expr,
) -> Result<i64, Refused>
    ensures { IsSalience result (value_of (term_of expr.now) env.now) }
{
    match eval(alloc, constants, expr, env) {
        Ok(value) => check_salience(value),
        Err(Refused::NoMemory) => Err(Refused::NoMemory),
        Err(Refused::Fault(_)) => Err(Refused::Fault(Fault::BadSalience)),
    }
}

/// The salience that a value is, or the fault where it is none.
fn check_salience(value: Value) -> Result<i64, Refused>
    ensures { IsSalience result (Ok value) }
{
    match value {
        Value::Int(number) if LEAST_SALIENCE <= number && number <= GREATEST_SALIENCE => Ok(number),
        _ => Err(Refused::Fault(Fault::BadSalience)),
    }
}
