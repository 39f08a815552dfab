//! How a pattern that is decided by values is joined.
use cb_beta::TakenFields;
use cb_exprs::Expr;
use cb_fit::ComparedField;
use std::rc::Rc;

/// How a pattern that is decided by values is joined with partial matches in which the same variables have values: without a test of it.
#[derive(Drop)]
pub struct ByValues {
    /// The fields that give variables their values, as these have none before, and the lengths of the segments of the only way: each
    /// is 1. All tokens share them.
    pub taken: Rc<TakenFields>,
    /// The fields that are compared with variables.
    pub compared: Vec<ComparedField>,
    /// The conditions: expressions that are to hold where variables have their values behind the pattern.
    pub conditions: Vec<Expr>,
}
