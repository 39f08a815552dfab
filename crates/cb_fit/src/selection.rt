//! What a pattern asks of a fact alone.
ghost use Rattle.std.specs.Prelude.{◌≡◌, IfOk};
ghost use Rattle.cb_exprs.specs.Bindings.{no_bindings};
ghost use Rattle.cb_fit.specs.Meters.{one_test_more};
ghost use Rattle.cb_fit.specs.ShapeKeys.{key_of};
ghost use Rattle.cb_fit.specs.Shapes.{has_way, selects};
ghost use Rattle.cb_fit.specs.Ways.{ways};

use crate::fitting::fits;
use crate::meter::Meter;
use crate::own_field::{OwnField, all_hold};
use crate::pattern::Pattern;
use crate::plain_parts::plain_fits;
use crate::shape::Shape;
use cb_eval::Constants;
use cb_exprs::Env;
use cb_facts::Fact;
use cb_forms::NoMemory;
use std::alloc::Global;
use std::marker::Model;

/// What a pattern asks of a fact alone, whatever values variables have: that the fact has the pattern's shape, and that the fields that
/// the pattern compares with constants and with one another compare so.
///
/// Contracts see the pattern without variables and these fields.
#[derive(Drop)]
pub struct Selection<T> {
    shape: Pattern<T>,
    own: Vec<OwnField>,
    is_plain: bool, // of the shape: whether it fits is seen with no search
}

impl<T> Model for Selection<T> {
    ghost use Rattle.std.specs.Coded.{codes};
    ghost use Rattle.std.specs.Prelude.{◌≡◌};
    ghost use Rattle.cb_constraints.specs.Internal.Codes.{pattern_code};
    ghost use Rattle.cb_fit.specs.Internal.Codes.{selection_code};
    ghost use Rattle.cb_fit.specs.Internal.PlainParts.{are_plain};
    ghost use Rattle.cb_fit.specs.Shapes.{SelectionValue};

    ghost Value = { SelectionValue };

    ghost coded = { selection_code (pattern_code (Prim.hlevel codes) (Prim.hlevel codes) (Prim.hlevel codes)) (Prim.hlevel codes) };

    ghost view = { λ s. record { shape = s.shape; own = s.own.items } };

    ghost invariant = { λ s. s.is_plain ≡ are_plain s.shape.parts };
}

impl<T> Selection<T> {
    /// The facts that this pattern, which has no variables, fits, and in which these fields compare so.
    pub(crate) fn new(shape: Pattern<T>, own: Vec<OwnField>) -> Selection<T>
        ensures { result ≡ record { shape = shape; own = own.items } }
    {
        let is_plain = shape.is_plain();
        Selection {
            shape,
            own,
            is_plain,
        }
    }

    /// The pattern without its variables and expressions.
    pub fn shape(&self) -> &Pattern<T>
        ensures { result.now ≡ self.now.shape }
    {
        &self.shape
    }

    /// Its key: the shape of the pattern, and which fields it compares. Growth is refused as `NoMemory`, and so is a count of sharers
    /// that is full.
    pub fn key(&self, alloc: Global) -> Result<Shape, NoMemory>
        ensures { IfOk result (λ k. k ≡ key_of self.now) }
    {
        self.shape.shape_with(alloc, self.own.as_slice())
    }

    /// Whether it selects a fact. It tests the pattern once, so the meter goes up by one. Growth is refused as `NoMemory`, and so is a
    /// count of sharers that is full; the meter has gone up then too.
    pub fn selects(
        &self,
        alloc: Global,
        constants: &Constants,
        fact: &Fact,
        meter: &mut Meter<T>,
    ) -> Result<bool, NoMemory>
        ensures selects { IfOk result (λ yes. yes ≡ selects self.now fact.now) }
        ensures counted { meter.new ≡ one_test_more meter.old }
    {
        if !self.has_shape(alloc, constants, fact, meter)? {
            return Ok(false);
        }
        all_hold(self.own.as_slice(), fact)
    }

    /// Whether a fact has its shape. It tests the pattern once, and searches only where the shape isn't plain. Growth is refused as
    /// `NoMemory`, and so is a count of sharers that is full; the meter has gone up then too.
    fn has_shape(
        &self,
        alloc: Global,
        constants: &Constants,
        fact: &Fact,
        meter: &mut Meter<T>,
    ) -> Result<bool, NoMemory>
        ensures fits { IfOk result (λ fits. fits ≡ has_way (ways self.now.shape fact.now no_bindings)) }
        ensures counted { meter.new ≡ one_test_more meter.old }
    {
        if self.is_plain {
            return Ok(plain_fits(&self.shape, fact, meter));
        }
        let env = Env::new(alloc);
        fits(alloc, constants, &self.shape, fact, &env, meter)
    }
}
