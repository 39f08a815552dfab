//! Facts that were read and are not asserted yet.
ghost use Rattle.std.specs.Prelude.{◌≡◌};
ghost use Rattle.cb_exprs.specs.Terms.{effect, term_of, terms_of};
ghost use Rattle.cb_exprs.specs.declared.effect.Effect.TheVariants as kind;

use crate::effect::Effect;
use crate::expr::Expr;
use crate::fact_shape::FactShape;
use std::marker::Model;

/// A fact that was read: its shape, and the expressions of its fields or of the values of its slots. `deffacts` keeps it
/// for each `reset`.
///
/// Contracts see the shape and the terms of the expressions.
#[derive(Drop)]
pub struct FactExpr {
    shape: FactShape,
    values: Vec<Expr>,
}

impl Model for FactExpr {
    ghost use Rattle.std.specs.Coded.{codes};
    ghost use Rattle.cb_exprs.specs.FactTerms.{FactTerm};
    ghost use Rattle.cb_exprs.specs.Internal.{fact_code};

    ghost Value = { FactTerm };

    ghost coded = { fact_code (Prim.hlevel codes) (Prim.hlevel codes) };

    ghost use Rattle.cb_exprs.specs.Terms.{terms_of};

    ghost view = { λ f. record { shape = f.shape; values = terms_of f.values.items } };
}

impl FactExpr {
    /// A fact of this shape with these expressions, one for each slot that the shape names.
    pub fn new(shape: FactShape, values: Vec<Expr>) -> FactExpr
        ensures { result ≡ record { shape = shape; values = terms_of values.items } }
    {
        FactExpr { shape, values }
    }

    /// Its shape.
    pub fn shape(&self) -> &FactShape
        ensures { result.now ≡ self.now.shape }
    {
        &self.shape
    }

    /// The expressions of its fields, or of the values of its slots.
    pub fn values(&self) -> &[Expr]
        ensures { terms_of result.now ≡ self.now.values }
    {
        self.values.as_slice()
    }

    /// The expression that asserts it.
    pub fn into_expr(self) -> Expr
        ensures { term_of result ≡ effect (kind.Assert self.shape) self.values }
    {
        Expr::Effect(Effect::Assert(self.shape), self.values)
    }
}
