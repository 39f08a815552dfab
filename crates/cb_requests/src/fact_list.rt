//! The facts of a `deffacts`.
ghost use Rattle.std.specs.Prelude.{[]};
ghost use Rattle.cb_facts.specs.Results.{Returns, Settles};
ghost use Rattle.cb_forms.specs.Members.{members};
ghost use Rattle.cb_forms.specs.Trees.{tree_of};
ghost use Rattle.cb_expr_forms.specs.Scopes.{plain_scope};
ghost use Rattle.cb_requests.specs.Reads.{fact_in, facts_in};

use cb_expr_forms::{NameList, Scope, Side, read_fact};
use cb_exprs::{Env, FactExpr};
use cb_facts::{Names, Refused};
use cb_forms::Form;
use cb_templates::Relations;

/// The facts that the forms of a `deffacts` are, by the templates of their relations, or the first fault.
pub(crate) fn read_kept_facts(
    names: &mut Names,
    relations: &Relations,
    env: &Env,
    forms: &[Form],
) -> Result<Vec<FactExpr>, Refused>
    ensures { Settles (λ facts. facts.items) result
        (facts_in (plain_scope relations.now env.now []) (members forms.now)) }
{
    let none = NameList::new(names.alloc());
    let scope = Scope {
        side: Side::Plain,
        env,
        bound: &none,
        given: &none,
        relations,
    };
    read_facts(names, &scope, forms)
}

/// The same in any scope.
fn read_facts(
    names: &mut Names,
    scope: &Scope<'_>,
    forms: &[Form],
) -> Result<Vec<FactExpr>, Refused>
    ensures { Settles (λ facts. facts.items) result (facts_in scope.now (members forms.now)) }
{
    let mut facts = Vec::with_capacity(names.alloc(), forms.len())?;
    for form in forms {
        facts.push(read_one(names, scope, form)?)?;
    }
    Ok(facts)
}

fn read_one(names: &mut Names, scope: &Scope<'_>, form: &Form) -> Result<FactExpr, Refused>
    ensures { Returns result (fact_in scope.now (tree_of form.now)) }
{
    read_fact(names, scope, form)
}
