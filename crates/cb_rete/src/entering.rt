//! Rules in the alpha network.
ghost use Rattle.std.specs.Prelude.{◌≡◌, All, OnOk};
ghost use Rattle.cb_alpha_network.specs.Networks.{AreAlphas, AreAtRest};
ghost use Rattle.cb_branch.specs.Branches.{CanBeFilled};
ghost use Rattle.cb_branch.specs.Entries.{GainsPatterns};
ghost use Rattle.cb_branch.specs.Patterns.{branch_patterns};
ghost use Rattle.cb_facts.specs.FactLists.{IndexedFacts};
ghost use Rattle.cb_rete.specs.Entering.{IsRuleLeft};
ghost use Rattle.cb_rete.specs.Rules.{AreBranchesEntered, CanRuleBeFilled, kept_branches, kept_rule};
ghost use Rattle.cb_rule_keys.specs.Sums.{branches_sum};

use crate::rule::Rule;
use cb_alpha_network::AlphaNetwork;
use cb_branch::Branch;
use cb_eval::Constants;
use cb_facts::FactList;
use cb_fit::Meter;
use cb_forms::NoMemory;
use std::alloc::Global;

/// Enters the patterns of a rule in the alpha network.
pub(crate) fn enter_rule<T>(
    alloc: Global,
    constants: &Constants,
    facts: &FactList,
    rule: &mut Rule<T>,
    network: &mut AlphaNetwork<T>,
    meter: &mut Meter<T>,
) -> Result<(), NoMemory>
    requires plans { CanRuleBeFilled rule.old }
    requires rest { AreAtRest network.old.memories }
    ensures stay { OnOk result (kept_rule rule.new ≡ kept_rule rule.old) }
    ensures plans { OnOk result (CanRuleBeFilled rule.new) }
    ensures entered { OnOk result (AreBranchesEntered network.new rule.new.id rule.new.branches.items) }
    ensures network { OnOk result (GainsPatterns facts.now (branches_sum branch_patterns (kept_rule rule.old).1)
        network.old network.new) }
{
    enter_branches(
        alloc,
        constants,
        facts,
        rule.id,
        rule.branches.as_mut_slice(),
        network,
        meter,
    )
}

/// The same of the branches of the rule with this number.
fn enter_branches<T>(
    alloc: Global,
    constants: &Constants,
    facts: &FactList,
    rule: u64,
    branches: &mut [Branch<T>],
    network: &mut AlphaNetwork<T>,
    meter: &mut Meter<T>,
) -> Result<(), NoMemory>
    requires plans { All CanBeFilled branches.old }
    requires rest { AreAtRest network.old.memories }
    ensures stay { OnOk result (kept_branches branches.new ≡ kept_branches branches.old) }
    ensures plans { OnOk result (All CanBeFilled branches.new) }
    ensures entered { OnOk result (AreBranchesEntered network.new rule branches.new) }
    ensures network { OnOk result (GainsPatterns facts.now (branches_sum branch_patterns (kept_branches branches.old))
        network.old network.new) }
{
    let mut number = 0;
    for branch in branches.iter_mut() {
        branch.enter(alloc, constants, facts, rule, number, network, meter)?;
        number += 1;
    }
    Ok(())
}

/// Takes the patterns of the branches of the rule with this number out of the alpha network.
pub(crate) fn leave_branches<T>(
    alloc: Global,
    rule: u64,
    branches: &[Branch<T>],
    network: &mut AlphaNetwork<T>,
) -> Result<(), NoMemory>
    ensures left { OnOk result (All CanBeFilled branches.now
        → AreBranchesEntered network.old rule branches.now
        → IsRuleLeft rule (branches_sum branch_patterns (kept_branches branches.now)) network.old network.new) }
    ensures alphas { OnOk result ((fs : IndexedFacts) → AreAlphas network.old fs → AreAlphas network.new fs) }
{
    let mut number = 0;
    for branch in branches {
        branch.leave(alloc, rule, number, network)?;
        number += 1;
    }
    Ok(())
}
