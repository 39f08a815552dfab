//! The actions of a rule.
ghost use Rattle.std.specs.Prelude.{◌≡◌, ◌++◌, OnOk, map};
ghost use Rattle.cb_expr_forms.specs.Bound.{bound_in_all};
ghost use Rattle.cb_expr_forms.specs.ExprFaults.{all_faults};
ghost use Rattle.cb_expr_forms.specs.ExprForms.{exprs_of};
ghost use Rattle.cb_facts.specs.FaultLists.{ReadsAs};
ghost use Rattle.cb_exprs.specs.Terms.{term_of};
ghost use Rattle.cb_forms.specs.Members.{members};
ghost use Rattle.cb_rule_forms.specs.Rules.{action_scope};

use cb_expr_forms::{NameList, Scope, Side, bound_in_all, read_exprs};
use cb_exprs::{Env, Expr};
use cb_facts::{Names, Refused};
use cb_forms::{Form, NoMemory};
use cb_templates::Relations;

/// The expressions that the actions are, or the first fault. These variables have values, and those that a `bind` names.
pub(crate) fn read_actions(
    names: &mut Names,
    relations: &Relations,
    env: &Env,
    known: NameList,
    forms: &[Form],
) -> Result<Vec<Expr>, Refused>
    ensures { ReadsAs (λ es. map term_of es.items) result
        (all_faults (action_scope relations.now env.now known (members forms.now))
        (members forms.now))
        (exprs_of relations.now (members forms.now)) }
{
    let mut known = known;
    add_bound(names, &mut known, forms)?;
    let none = NameList::new(names.alloc());
    let scope = Scope {
        side: Side::Actions,
        env,
        bound: &known,
        given: &none,
        relations,
    };
    read_exprs(names, &scope, forms)
}

/// Adds the variables that a `bind` of the forms names.
fn add_bound(names: &mut Names, known: &mut NameList, forms: &[Form]) -> Result<(), NoMemory>
    ensures { OnOk result (known.new ≡ known.old ++ bound_in_all (members forms.now)) }
{
    let bound = bound_in_all(names, forms)?.into_vec();
    for name in &bound {
        known.push(name)?;
    }
    Ok(())
}
