//! Expressions, built of their parts.
ghost use Rattle.std.specs.Prelude.{◌≡◌, ◌++◌, ◌∷◌, [], map};
ghost use Rattle.cb_expr_forms.specs.Internal.{binding, bound_faults};
ghost use Rattle.cb_exprs.specs.Terms.{Term, actions, choose, repeat, term_of, terms};
ghost use Rattle.cb_facts.specs.FaultLists.{ReadsAs};

use crate::action_form::Bound;
use crate::scope::Scope;
use crate::token_form::{known_global, known_variable};
use cb_exprs::{Effect, Expr};
use cb_facts::{Names, Refused};
use std::alloc::Global;

/// To give a value to a variable or a global that may stand there, or the fault of that.
pub(crate) fn know_bound(
    names: &mut Names,
    scope: &Scope<'_>,
    bound: Bound<'_>,
) -> Result<Effect, Refused>
    ensures { ReadsAs (λ e. e) result (bound_faults scope.now bound.entry) (binding bound.entry) }
{
    match bound {
        Bound::Variable(name) => Ok(Effect::Bind(known_variable(names, scope, name)?)),
        Bound::Global(name) => Ok(Effect::BindGlobal(known_global(names, scope, name)?)),
    }
}

/// An `if`, by its test and the actions of both branches.
pub(crate) fn build_if(
    alloc: Global,
    test: Box<Expr>,
    yes: Vec<Expr>,
    no: Vec<Expr>,
) -> Result<Expr, Refused>
    ensures { ReadsAs term_of result [] (choose (term_of test.value)
        (actions (terms (map term_of yes.items))) (actions (terms (map term_of no.items)))) }
{
    let yes = Box::new(alloc, Expr::Actions(yes))?;
    let no = Box::new(alloc, Expr::Actions(no))?;
    Ok(Expr::If(test, yes, no))
}

/// A `while`, by its test and its actions.
pub(crate) fn build_while(alloc: Global, test: Box<Expr>, body: Vec<Expr>) -> Result<Expr, Refused>
    ensures { ReadsAs term_of result []
        (repeat (term_of test.value) (actions (terms (map term_of body.items)))) }
{
    let body = Box::new(alloc, Expr::Actions(body))?;
    Ok(Expr::While(test, body))
}

/// An expression in a box.
pub(crate) fn boxed(alloc: Global, expr: Expr) -> Result<Box<Expr>, Refused>
    ensures { ReadsAs (λ e. term_of e.value) result [] (term_of expr) }
{
    Ok(Box::new(alloc, expr)?)
}

/// Adds an expression after the others.
pub(crate) fn add(exprs: &mut Vec<Expr>, expr: Expr) -> Result<(), Refused>
    ensures { ReadsAs (λ _. map term_of exprs.new.items) result []
        (map term_of exprs.old.items ++ term_of expr ∷ []) }
{
    exprs.push(expr)?;
    Ok(())
}
