//! Expressions: the words of the language, what expressions are, how they are read, and their values.
//!
//! It only re-exports, from `cb_words`, `cb_eval`, `cb_exprs`, `cb_expr_forms` and `cb_eval`.
#![tactic(auto)]

pub use cb_eval::{Constants, apply, decides, eval, is_true};
pub use cb_expr_forms::{
    NameList, Scope, Side, begins_with_list, bound_in_all, bound_variables, is_symbol, knows_all,
    read_expr, read_fact,
};
pub use cb_exprs::{Channel, Env, Expr, FactExpr, FactShape, GlobalExpr};
pub use cb_words::{Action, Arity, Command, Construct, Function, Head, read_head};
