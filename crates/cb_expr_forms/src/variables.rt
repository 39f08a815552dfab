//! The variables of an expression.
ghost use Rattle.std.specs.Prelude.{◌≡◌};
ghost use Rattle.std.specs.List.{list_all};
ghost use Rattle.cb_expr_forms.specs.Scopes.{is_known};
ghost use Rattle.cb_expr_forms.specs.Variables.{bound_by, variables_in, variables_of};
ghost use Rattle.cb_exprs.specs.Terms.{term_of, terms_of};

use crate::name_list::NameList;
use cb_exprs::{Effect, Expr};

/// Whether each variable of an expression is among these names, also one that it only binds.
///
/// It calls itself as deep as the expression is nested.
#[cycle(knowing)]
pub fn knows_all(known: &NameList, expr: &Expr) -> bool
    ensures { result ≡ list_all (is_known known.now) (variables_of (term_of expr.now)) }
{
    match expr {
        Expr::Constant(_) | Expr::Global(_) => true,
        Expr::Variable(name) => known.has(name),
        Expr::Call(_, exprs) | Expr::Actions(exprs) => knows_each(known, exprs),
        Expr::Effect(effect, exprs) => knows_bound(known, effect) && knows_each(known, exprs),
        Expr::If(test, yes, no) => {
            knows_all(known, test) && knows_all(known, yes) && knows_all(known, no)
        }
        Expr::While(test, actions) => knows_all(known, test) && knows_all(known, actions),
    }
}

/// The same of several expressions.
#[cycle(knowing)]
fn knows_each(known: &NameList, exprs: &[Expr]) -> bool
    ensures { result ≡ list_all (is_known known.now) (variables_in (terms_of exprs.now)) }
{
    for expr in exprs {
        if !knows_all(known, expr) {
            return false;
        }
    }
    true
}

/// Whether the variable that a call with an effect binds, if it binds one, is among these names.
fn knows_bound(known: &NameList, effect: &Effect) -> bool
    ensures { result ≡ list_all (is_known known.now) (bound_by effect.now) }
{
    match effect {
        Effect::Bind(name) => known.has(name),
        _ => true,
    }
}
