//! Copies of expressions without an effect.
ghost use Rattle.std.specs.Prelude.{◌≡◌, IfOk, IfSome, map};
ghost use Rattle.cb_exprs.specs.Terms.{term_of, terms_of};
ghost use Rattle.cb_fit.specs.Decisions.{terms_at};

use cb_exprs::Expr;
use cb_forms::NoMemory;
use std::alloc::Global;

/// Copies of these expressions, or `None` where one has an effect. Growth is refused as `NoMemory`, and so is a count of sharers that is
/// full.
pub(crate) fn copy_all(alloc: Global, exprs: &[&Expr]) -> Result<Option<Vec<Expr>>, NoMemory>
    ensures { IfOk result (λ found. IfSome found (λ copies. map term_of copies.items
        ≡ terms_at exprs.now)) }
{
    let mut copies = Vec::new(alloc);
    for expr in exprs {
        match copy_of(alloc, expr)? {
            Some(copy) => copies.push(copy)?,
            None => return Ok(None),
        }
    }
    Ok(Some(copies))
}

/// A copy of an expression, or `None` where it has an effect.
///
/// It calls itself as deep as the expression is nested.
#[cycle(copying)]
fn copy_of(alloc: Global, expr: &Expr) -> Result<Option<Expr>, NoMemory>
    ensures { IfOk result (λ found. IfSome found (λ copy. term_of copy ≡ term_of expr.now)) }
{
    match expr {
        Expr::Constant(value) => Ok(Some(Expr::Constant(value.clone()?))),
        Expr::Variable(name) => Ok(Some(Expr::Variable(name.clone()?))),
        Expr::Global(name) => Ok(Some(Expr::Global(name.clone()?))),
        Expr::Call(function, args) => match copy_each(alloc, args.as_slice())? {
            Some(copies) => Ok(Some(Expr::Call(*function, copies))),
            None => Ok(None),
        },
        Expr::Effect(_, _) | Expr::If(_, _, _) | Expr::While(_, _) | Expr::Actions(_) => Ok(None),
    }
}

/// Copies of several expressions.
#[cycle(copying)]
fn copy_each(alloc: Global, exprs: &[Expr]) -> Result<Option<Vec<Expr>>, NoMemory>
    ensures { IfOk result (λ found. IfSome found (λ copies. terms_of copies.items
        ≡ terms_of exprs.now)) }
{
    let mut copies = Vec::new(alloc);
    for expr in exprs {
        match copy_of(alloc, expr)? {
            Some(copy) => copies.push(copy)?,
            None => return Ok(None),
        }
    }
    Ok(Some(copies))
}
