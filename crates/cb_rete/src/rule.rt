//! A rule.
ghost use Rattle.std.specs.Prelude.{◌≡◌, IfOk};
ghost use Rattle.std.specs.List.{All};
ghost use Rattle.cb_branch.specs.Branches.{CanBeFilled, branch_elements};
ghost use Rattle.cb_rete.specs.Rules.{CanRuleBeFilled, kept_branches, kept_rule};
ghost use Rattle.cb_rules.specs.Elements.{branches_of};

use cb_branch::Branch;
use cb_forms::NoMemory;
use cb_rules::Ce;
use std::alloc::Global;

/// A rule's number and its branches.
#[derive(Drop)]
pub(crate) struct Rule<T> {
    pub(crate) id: u64,
    pub(crate) branches: Vec<Branch<T>>,
}

/// What is to be kept for a rule with this number, before anything is found.
pub(crate) fn plan_rule<T>(
    alloc: Global,
    id: u64,
    branches: Vec<Vec<Ce<T>>>,
) -> Result<Rule<T>, NoMemory>
    ensures rule { IfOk result (λ rule. kept_rule rule ≡ (id, branches_of branches.items)) }
    ensures plans { IfOk result CanRuleBeFilled }
{
    let branches = plan_branches(alloc, branches)?;
    Ok(Rule { id, branches })
}

/// The same for its branches.
fn plan_branches<T>(alloc: Global, branches: Vec<Vec<Ce<T>>>) -> Result<Vec<Branch<T>>, NoMemory>
    ensures elements { IfOk result (λ all. kept_branches all.items ≡ branches_of branches.items) }
    ensures plans { IfOk result (λ all. All CanBeFilled all.items) }
{
    let mut all = Vec::new(alloc);
    for branch in branches {
        all.push(Branch::plan(alloc, branch)?)?;
    }
    all.shrink_to_fit();
    Ok(all)
}
