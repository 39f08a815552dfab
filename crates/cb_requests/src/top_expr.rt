//! Expressions at the top level.
ghost use Rattle.cb_exprs.specs.Terms.{term_of};
ghost use Rattle.cb_facts.specs.Results.{Settles};
ghost use Rattle.cb_forms.specs.Trees.{tree_of};
ghost use Rattle.cb_requests.specs.Reads.{expr_in, top_scope};

use cb_expr_forms::{NameList, Scope, Side, bound_variables, read_expr};
use cb_exprs::{Env, Expr};
use cb_facts::{Names, Refused};
use cb_forms::Form;
use cb_templates::Relations;

/// The expression that a form is, or its first fault, in a whole form at the top level: a variable that the whole form binds
/// is known.
pub(crate) fn read_top(
    names: &mut Names,
    relations: &Relations,
    env: &Env,
    whole: &Form,
    form: &Form,
) -> Result<Expr, Refused>
    ensures { Settles term_of result
        (expr_in (top_scope relations.now env.now (tree_of whole.now)) (tree_of form.now)) }
{
    let bound = bound_variables(names, whole)?;
    let given = NameList::new(names.alloc());
    let scope = Scope {
        side: Side::Top,
        env,
        bound: &bound,
        given: &given,
        relations,
    };
    read_expr(names, &scope, form)
}
