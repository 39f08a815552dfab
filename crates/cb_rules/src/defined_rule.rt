//! Rules that are defined.
ghost use Rattle.std.specs.Prelude.{◌≡◌, IfOk};
ghost use Rattle.cb_rules.specs.Elements.{branches_of};
ghost use Rattle.cb_rules.specs.RuleInfos.{info_of};
ghost use Rattle.cb_rules.specs.RuleValues.{rule_value};

use crate::ce::Ce;
use crate::layout::Layout;
use crate::rule::Rule;
use cb_exprs::Expr;
use cb_facts::Name;
use cb_forms::NoMemory;
use std::alloc::Global;
use std::marker::Model;
use std::rc::Rc;

/// What is kept of a rule besides its conditions, which a matcher has.
///
/// Contracts see a record of it.
#[derive(Drop)]
pub struct DefinedRule {
    /// Its number; 0 before it has one.
    pub id: u64,
    /// Its name.
    pub name: Name,
    /// Its salience.
    pub salience: i64,
    /// The relations that it names.
    pub relations: Vec<Name>,
    /// The layout of each branch.
    pub layouts: Vec<Layout>,
    /// Its actions. A firing shares them.
    pub actions: Rc<Vec<Expr>>,
}

impl Model for DefinedRule {
    ghost use Rattle.std.specs.Coded.{codes};
    ghost use Rattle.std.specs.Rc.{rc_value};
    ghost use Rattle.cb_exprs.specs.Terms.{terms_of};
    ghost use Rattle.cb_rules.specs.Internal.Codes.{rule_code};
    ghost use Rattle.cb_rules.specs.RuleInfos.{RuleInfo};

    ghost Value = { RuleInfo };

    ghost coded = { rule_code (Prim.hlevel codes) (Prim.hlevel codes) };

    ghost view = { λ r. record { id = r.id; name = r.name; salience = r.salience; relations = r.relations.items; layouts = r.layouts.items; actions = terms_of (rc_value r.actions).items } };
}

/// The conditions of a rule, branch by branch, and what is kept of it besides.
pub fn split_rule<T>(
    alloc: Global,
    rule: Rule<T>,
) -> Result<(DefinedRule, Vec<Vec<Ce<T>>>), NoMemory>
    ensures info { IfOk result (λ parts. parts.0 ≡ info_of (rule_value rule)) }
    ensures branches { IfOk result
        (λ parts. branches_of parts.1.items ≡ (rule_value rule).branches) }
{
    let actions = Rc::new(alloc, rule.actions)?;
    let defined = DefinedRule {
        id: 0,
        name: rule.name,
        salience: rule.salience,
        relations: rule.relations,
        layouts: rule.layouts,
        actions,
    };
    Ok((defined, rule.branches))
}
