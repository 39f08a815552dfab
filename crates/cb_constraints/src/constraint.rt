//! What a pattern asks of a field, or of a segment of fields.
use cb_exprs::Expr;
use cb_facts::{Name, Value};

/// What is asked of a value. An expression has a block of its own, so that a constant and a variable have no place for it.
#[derive(Drop)]
pub enum Test {
    /// A constant: the value is equal to it.
    Constant(Value),
    /// `?name` or `$?name`: the value is equal to the variable's.
    Variable(Name),
    /// `:(function value ..)`, a predicate constraint: the expression's value is not FALSE.
    Predicate(Box<Expr>),
    /// `=(function value ..)`, a return value constraint: the expression's value is equal to it.
    ReturnValue(Box<Expr>),
}

/// A test, or with `~` its opposite.
#[derive(Drop)]
pub struct Check {
    /// Whether `~` stands before it.
    pub is_negated: bool,
    /// The test.
    pub test: Test,
}

/// What a constraint asks of the value in its place.
#[derive(Drop)]
pub enum Demand {
    /// `?` or `$?`, a wildcard: nothing.
    Nothing,
    /// Checks joined by `&`: each holds, from left to right. A variable without a value takes this one.
    Each(Vec<Check>),
    /// Alternatives joined by `|`, each of checks joined by `&`: one alternative holds. A variable that stands first and is
    /// followed by `&` is set apart: it has or takes the value, and then an alternative holds.
    Either(Option<Name>, Vec<Vec<Check>>),
}

/// A constraint: what stands in a pattern in the place of a field, or of a segment of fields.
#[derive(Drop)]
pub struct Constraint {
    /// Whether it takes a segment of none or more fields, as `$?` and a constraint with a `$?name` do, and not one field.
    pub takes_segment: bool,
    /// What it asks of the field, or of the multifield of the segment.
    pub demand: Demand,
}
