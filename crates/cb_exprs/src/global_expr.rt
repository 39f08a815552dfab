//! Global variables that were read, each with its initial expression.
ghost use Rattle.std.specs.Prelude.{◌≡◌};
ghost use Rattle.cb_exprs.specs.Terms.{term_of};

use crate::expr::Expr;
use cb_facts::Name;
use std::marker::Model;

/// A global variable that was read: its name, and its initial expression. `defglobal` keeps it for each `reset`.
///
/// Contracts see the pair of the name and the term of the expression.
#[derive(Drop)]
pub struct GlobalExpr {
    name: Name,
    expr: Expr,
}

impl Model for GlobalExpr {
    ghost use Rattle.std.specs.Coded.{codes};
    ghost use Rattle.cb_exprs.specs.GlobalTerms.{GlobalTerm};
    ghost use Rattle.cb_exprs.specs.Internal.{global_code};
    ghost use Rattle.cb_exprs.specs.Terms.{term_of};

    ghost Value = { GlobalTerm };

    ghost coded = { global_code (Prim.hlevel codes) (Prim.hlevel codes) };

    ghost view = { λ g. (g.name, term_of g.expr) };
}

impl GlobalExpr {
    /// A global variable with this initial expression.
    pub fn new(name: Name, expr: Expr) -> GlobalExpr
        ensures { result ≡ (name, term_of expr) }
    {
        GlobalExpr { name, expr }
    }

    /// Its name, without the stars.
    pub fn name(&self) -> &Name
        ensures { result.now ≡ self.now.0 }
    {
        &self.name
    }

    /// Its initial expression.
    pub fn expr(&self) -> &Expr
        ensures { term_of result.now ≡ self.now.1 }
    {
        &self.expr
    }
}
