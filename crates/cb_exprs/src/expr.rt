//! Expressions.
use crate::effect::Effect;
use cb_facts::{Name, Value};
use cb_words::Function;

/// An expression, as it was read (`docs/LANGUAGE.md`, "Expressions").
#[derive(Drop)]
pub enum Expr {
    /// A constant: its value.
    Constant(Value),
    /// `?name` or `$?name`: the value of a variable.
    Variable(Name),
    /// `?*name*`: the value of a global variable.
    Global(Name),
    /// `(function value ..)`, a call without an effect.
    Call(Function, Vec<Expr>),
    /// A call that does this with the values of its arguments, such as `(println value ..)`.
    Effect(Effect, Vec<Expr>),
    /// `(if test then action .. else action ..)`
    If(Box<Expr>, Box<Expr>, Box<Expr>),
    /// `(while test do action ..)`
    While(Box<Expr>, Box<Expr>),
    /// Actions, one after another. The value is that of the last, and FALSE where there are none.
    Actions(Vec<Expr>),
}
