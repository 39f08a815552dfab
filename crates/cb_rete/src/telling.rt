//! The keys of a rule's matches, and their numbers.
ghost use Rattle.std.specs.Prelude.{◌≡◌, ◌++◌, OnOk};
ghost use Rattle.cb_branch.specs.Alphas.{Facts};
ghost use Rattle.cb_facts.specs.FactLists.{IndexedFacts};
ghost use Rattle.cb_matches.specs.Changes.{AddsNumbers};
ghost use Rattle.cb_matches.specs.Order.{IsRising};
ghost use Rattle.cb_rete.specs.Numbers.{IsNumberInBranches};
ghost use Rattle.cb_rete.specs.Rules.{AreBranchesOver, kept_branches};
ghost use Rattle.cb_rule_keys.specs.Keys.{branch_keys};

use cb_branch::Branch;
use cb_eval::Constants;
use cb_forms::NoMemory;
use cb_matches::Key;
use std::alloc::Global;

/// Tells the keys of the matches of the branches of the rule with this number, in their order, and their numbers, behind those that are
/// told of before.
pub(crate) fn tell_branches<T>(
    alloc: Global,
    constants: &Constants,
    rule: u64,
    branches: &[Branch<T>],
    keys: &mut Vec<Key>,
    numbers: &mut Vec<u32>,
) -> Result<(), NoMemory>
    ensures told { OnOk result ((facts : Facts) (fs : IndexedFacts) → IsRising fs
        → AreBranchesOver facts fs branches.now
        → keys.new.items ≡ keys.old.items ++ branch_keys rule 0 (kept_branches branches.now) fs) }
    ensures numbers { OnOk result ((facts : Facts) (fs : IndexedFacts) → AreBranchesOver facts fs branches.now
        → AddsNumbers (IsNumberInBranches rule branches.now) keys.old.items keys.new.items numbers.old.items numbers.new.items) }
{
    let mut number = 0;
    for branch in branches {
        branch.tell(alloc, constants, rule, number, keys, numbers)?;
        number += 1;
    }
    Ok(())
}
