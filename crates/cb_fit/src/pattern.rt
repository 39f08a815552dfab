//! Patterns.
ghost use Rattle.std.specs.Prelude.{◌≡◌, IfOk, option_map};
ghost use Rattle.cb_constraints.specs.Binders.{constraints_in};
ghost use Rattle.cb_constraints.specs.PartValues.{asked_parts};
ghost use Rattle.cb_fit.specs.Comparisons.{decision};
ghost use Rattle.cb_fit.specs.ConstantFields.{constant_fields};
ghost use Rattle.cb_fit.specs.Decided.{ones};
ghost use Rattle.cb_fit.specs.Decisions.{decision_of};
ghost use Rattle.cb_fit.specs.Internal.PlainParts.{are_plain};
ghost use Rattle.cb_fit.specs.JoinFields.{giving_fields, join_fields};
ghost use Rattle.cb_fit.specs.Meters.{one_test_more};
ghost use Rattle.cb_fit.specs.Plain.{bound_names};
ghost use Rattle.cb_fit.specs.ShapeKeys.{pieces_of, shape_of};
ghost use Rattle.cb_fit.specs.Shapes.{loose, selection};
ghost use Rattle.cb_fit.specs.StandsAlone.{stands_alone};

use crate::constant_fields::{ConstantField, constants_of_parts};
use crate::cuts::Cuts;
use crate::decision::{Decision, decide_parts, names_in, ones_in};
use crate::join_fields::{JoinField, fields_of_parts, giving_of_parts};
use crate::loose::loose_parts;
use crate::meter::Meter;
use crate::own_field::OwnField;
use crate::own_fields::own_of_parts;
use crate::plain_parts::are_plain;
use crate::selection::Selection;
use crate::shape::{Shape, shape_in};
use crate::standing_alone::parts_alone;
use cb_constraints::{Body, PatternParts};
use cb_facts::Name;
use cb_forms::NoMemory;
use std::alloc::Global;
use std::marker::{Model, PhantomData};

/// A pattern: the relation of the facts that it is for, and what it asks of them (`docs/LANGUAGE.md`, "Patterns").
///
/// What it asks can't be read from it: only `fit` tests it, with a meter of the same type, which goes up by one each time.
/// So code without a meter can't test a pattern, and what a meter says is how often patterns were tested.
///
/// Contracts see the relation and the parts.
#[derive(Drop)]
pub struct Pattern<T> {
    relation: Name,
    body: Body,
    mark: PhantomData<T>,
}

impl<T> Model for Pattern<T> {
    ghost use Rattle.std.specs.Coded.{codes};
    ghost use Rattle.cb_constraints.specs.Internal.Codes.{pattern_code};
    ghost use Rattle.cb_constraints.specs.PatternValues.{PatternValue};

    ghost Value = { PatternValue };

    ghost coded = { pattern_code (Prim.hlevel codes) (Prim.hlevel codes) (Prim.hlevel codes) };

    ghost view = { λ p. record { relation = p.relation; parts = p.body } };
}

impl<T> Pattern<T> {
    /// A pattern for the facts of a relation, which asks these parts of their content: a row for the fields of ordered facts,
    /// or rows for slots of the relation's template. Growth is refused as `NoMemory`.
    pub fn new(alloc: Global, relation: Name, parts: PatternParts) -> Result<Pattern<T>, NoMemory>
        ensures { IfOk result (λ p. p ≡ record { relation = relation; parts = asked_parts parts }) }
    {
        Ok(Pattern {
            relation,
            body: Body::new(alloc, parts)?,
            mark: PhantomData,
        })
    }

    /// The pattern without its variables and expressions: it keeps lengths and constants, so it fits just the facts that have the
    /// pattern's shape. Growth is refused as `NoMemory`, and so is a count of sharers that is full.
    pub fn loose(&self, alloc: Global) -> Result<Pattern<T>, NoMemory>
        ensures { IfOk result (λ q. q ≡ loose self.now) }
    {
        let parts = loose_parts(alloc, self.body.parts())?;
        Pattern::new(alloc, self.relation.clone()?, parts)
    }

    /// What it asks of a fact alone: that the fact has its shape, and that the fields that it compares with one another compare so.
    /// Growth is refused as `NoMemory`, and so is a count of sharers that is full.
    pub fn selection(&self, alloc: Global) -> Result<Selection<T>, NoMemory>
        ensures { IfOk result (λ s. s ≡ selection self.now) }
    {
        let own = own_of_parts(alloc, self.body.parts())?;
        Ok(Selection::new(self.loose(alloc)?, own))
    }

    /// Its shape. Growth is refused as `NoMemory`, and so is a count of sharers that is full.
    pub fn shape(&self, alloc: Global) -> Result<Shape, NoMemory>
        ensures { IfOk result (λ s. s ≡ shape_of self.now) }
    {
        let own = own_of_parts(alloc, self.body.parts())?;
        self.shape_with(alloc, own.as_slice())
    }

    /// The shape that it has with these fields that are compared with one another.
    pub(crate) fn shape_with(&self, alloc: Global, own: &[OwnField]) -> Result<Shape, NoMemory>
        ensures { IfOk result (λ s. s ≡ record {
          relation = self.now.relation;
          own = own.now;
          pieces = pieces_of self.now.parts;
        }) }
    {
        shape_in(alloc, &self.relation, own, self.body.parts())
    }

    /// Whether it asks by constants and lengths alone: no constraint has a variable or an expression. Then whether it fits a fact doesn't
    /// depend on what variables have, and it gives none a value.
    pub fn stands_alone(&self) -> bool
        ensures { result ≡ stands_alone self.now }
    {
        parts_alone(self.body.parts())
    }

    /// Whether it asks each field for constants alone: it stands alone, and no constraint takes a segment.
    pub(crate) fn is_plain(&self) -> bool
        ensures { result ≡ are_plain self.now.parts }
    {
        are_plain(self.body.parts())
    }

    /// The fields of a fact that have to be equal to variables, whatever else the pattern asks: where one of these variables has a
    /// value and the field is not equal to it, the pattern doesn't fit. Growth is refused as `NoMemory`, and so is a count of
    /// sharers that is full.
    pub fn join_fields(&self, alloc: Global) -> Result<Vec<JoinField>, NoMemory>
        ensures { IfOk result (λ all. all.items ≡ join_fields self.now.parts) }
    {
        fields_of_parts(alloc, self.body.parts())
    }

    /// The fields of a fact that may give variables their values: of those that have to be equal to variables the first with each
    /// variable. Growth is refused as `NoMemory`, and so is a count of sharers that is full.
    pub fn giving_fields(&self, alloc: Global) -> Result<Vec<JoinField>, NoMemory>
        ensures { IfOk result (λ all. all.items ≡ giving_fields self.now.parts) }
    {
        giving_of_parts(alloc, self.body.parts())
    }

    /// The fields of a fact that have to be equal to constants, whatever else the pattern asks: where one of these fields is not equal
    /// to its constant, the pattern doesn't fit. Growth is refused as `NoMemory`, and so is a count of sharers that is full.
    pub fn constant_fields(&self, alloc: Global) -> Result<Vec<ConstantField>, NoMemory>
        ensures { IfOk result (λ all. all.items ≡ constant_fields self.now.parts) }
    {
        constants_of_parts(alloc, self.body.parts())
    }

    /// What decides whether it fits, beside a fact's shape and the fields that have to be equal to variables; `None` where it isn't decided
    /// by values: where a constraint takes a segment, a predicate has `~` before it, an expression is asked by `=`, alternatives are more
    /// than constants or variables alone, or a condition, the expression of a predicate that is no comparison, has a variable that the
    /// pattern may give a value behind it alone, as ?y in `(p ?x&:(oddp (+ ?x ?y)) ?y)`. Growth is refused as `NoMemory`, and so is a count of sharers that is full.
    pub fn decide(&self, alloc: Global) -> Result<Option<Decision<'_>>, NoMemory>
        ensures { IfOk result (λ d. option_map decision_of d ≡ decision self.now.parts) }
    {
        decide_parts(alloc, self.body.parts())
    }

    /// The variables to which it may give values, each as often as it may. Growth is refused as `NoMemory`, and so is a count of sharers
    /// that is full.
    pub fn bound_names(&self, alloc: Global) -> Result<Vec<Name>, NoMemory>
        ensures { IfOk result (λ all. all.items ≡ bound_names self.now) }
    {
        names_in(alloc, self.body.parts())
    }

    /// One field for each constraint: the lengths of the only way in which it can fit, if it is decided by values. Growth is refused as
    /// `NoMemory`.
    pub fn ones(&self, alloc: Global) -> Result<Cuts, NoMemory>
        ensures { IfOk result (λ cuts. cuts ≡ ones (constraints_in self.now.parts)) }
    {
        ones_in(alloc, self.body.parts())
    }

    /// The relation of the facts that it is for.
    pub fn relation(&self) -> &Name
        ensures { result.now ≡ self.now.relation }
    {
        &self.relation
    }

    /// What it asks of a fact, for one test of the pattern: the meter goes up by one.
    pub(crate) fn open(&self, meter: &mut Meter<T>) -> &Body
        ensures body { result.now ≡ self.now.parts }
        ensures counted { meter.new ≡ one_test_more meter.old }
    {
        meter.count();
        &self.body
    }
}
