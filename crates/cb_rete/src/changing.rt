//! A change of the facts, rule by rule and branch by branch.
ghost use Rattle.std.specs.Prelude.{◌≡◌, ◌≤◌, List, OnOk, Some, length, slice_get};
ghost use Rattle.std.specs.BTreeMap.{get};
ghost use Rattle.std.specs.List.Sorted.{IsStrictlySortedBy};
ghost use Rattle.std.specs.Ordering.{nat_cmp};
ghost use Rattle.cb_alpha_network.specs.Places.{place_cmp};
ghost use Rattle.cb_alpha_network.specs.declared.node_place.NodePlace.{NodePlace as Place};
ghost use Rattle.cb_branch.specs.declared.branch.Branch.{Branch};
ghost use Rattle.cb_rete.specs.Changing.{AreBranchesChanged, AreBranchesReady, AreRulesChanged, AreRulesReady, IsBranchChangedAt, IsBranchReady, IsRuleChangedAt, IsRuleReady, IsRuleTurned, IsTurn, TurnValue};
ghost use Rattle.cb_rete.specs.Found.{AreAllOfRule};
ghost use Rattle.cb_rete.specs.declared.rule.Rule.{Rule as Kept};

use crate::places::{end_of_branch, end_of_rule};
use crate::rule::Rule;
use crate::setting::Setting;
use cb_alpha_network::NodePlace;
use cb_branch::Branch;
use cb_branch::laws::{what_is_kept_stays, what_no_pattern_takes_changes_nothing};
use cb_fit::Meter;
use cb_forms::NoMemory;
use cb_matches::Delta;
use std::collections::BTreeMap;

/// Changes the rules of which places are found, where the alpha memories have changed already. The keys of the matches that go and
/// come stand behind those that are told of before, in their order, and so do their numbers.
pub(crate) fn change_rules<T>(
    setting: &Setting<'_>,
    found: &[NodePlace],
    rules: &mut BTreeMap<u64, Rule<T>>,
    delta: &mut Delta,
    meter: &mut Meter<T>,
) -> Result<(), NoMemory>
    requires { IsStrictlySortedBy place_cmp found.now }
    ensures { OnOk result ((turn : TurnValue) → IsTurn turn setting.now.alphas.now found.now
        → AreRulesReady turn rules.old.entries
        → AreRulesChanged turn rules.old rules.new delta.old delta.new meter.old meter.new) }
{
    what_is_kept_stays::<T>();
    what_no_pattern_takes_changes_nothing::<T>();
    let _count = rules.len();
    let mut at = 0;
    while at < found.len() {
        let end = end_of_rule(found, at);
        change_found(setting, found, found[at].rule, at, end, rules, delta, meter)?;
        at = end;
    }
    Ok(())
}

/// The same of the rule with this number, if there is one. Its places are those from one on and before an end.
fn change_found<T>(
    setting: &Setting<'_>,
    found: &[NodePlace],
    id: u64,
    from: usize,
    end: usize,
    rules: &mut BTreeMap<u64, Rule<T>>,
    delta: &mut Delta,
    meter: &mut Meter<T>,
) -> Result<(), NoMemory>
    requires ordered { IsStrictlySortedBy place_cmp found.now }
    requires ends { end ≤ length found.now }
    ensures { OnOk result ((turn : TurnValue) → IsTurn turn setting.now.alphas.now found.now
        → AreAllOfRule found.now from end id
        → ((r : Kept T) → get nat_cmp rules.old id ≡ Some r → (r.id ≡ id) × IsRuleReady turn r)
        → IsRuleChangedAt turn id rules.old rules.new delta.old delta.new meter.old meter.new) }
{
    match rules.get_mut(&id) {
        Some(rule) => change_rule(setting, found, from, end, rule, delta, meter),
        None => Ok(()),
    }
}

/// The same of one rule.
fn change_rule<T>(
    setting: &Setting<'_>,
    found: &[NodePlace],
    from: usize,
    end: usize,
    rule: &mut Rule<T>,
    delta: &mut Delta,
    meter: &mut Meter<T>,
) -> Result<(), NoMemory>
    requires ordered { IsStrictlySortedBy place_cmp found.now }
    requires ends { end ≤ length found.now }
    ensures { OnOk result ((turn : TurnValue) → IsTurn turn setting.now.alphas.now found.now
        → AreAllOfRule found.now from end rule.old.id → IsRuleReady turn rule.old
        → IsRuleTurned turn rule.old rule.new delta.old delta.new meter.old meter.new) }
{
    change_branches(
        setting,
        found,
        rule.id,
        from,
        end,
        rule.branches.as_mut_slice(),
        delta,
        meter,
    )
}

/// The same of the branches of a rule.
fn change_branches<T>(
    setting: &Setting<'_>,
    found: &[NodePlace],
    rule: u64,
    from: usize,
    end: usize,
    branches: &mut [Branch<T>],
    delta: &mut Delta,
    meter: &mut Meter<T>,
) -> Result<(), NoMemory>
    requires ordered { IsStrictlySortedBy place_cmp found.now }
    requires ends { end ≤ length found.now }
    ensures { OnOk result ((turn : TurnValue) → IsTurn turn setting.now.alphas.now found.now
        → AreAllOfRule found.now from end rule → AreBranchesReady turn rule branches.old
        → AreBranchesChanged turn rule branches.old branches.new delta.old delta.new meter.old meter.new) }
{
    what_is_kept_stays::<T>();
    what_no_pattern_takes_changes_nothing::<T>();
    let mut at = from;
    while at < end {
        change_branch(setting, rule, found[at].branch, branches, delta, meter)?;
        at = end_of_branch(found, at, end);
    }
    Ok(())
}

/// The same of the branch at a place, if there is one.
fn change_branch<T>(
    setting: &Setting<'_>,
    rule: u64,
    number: u64,
    branches: &mut [Branch<T>],
    delta: &mut Delta,
    meter: &mut Meter<T>,
) -> Result<(), NoMemory>
    ensures { OnOk result ((turn : TurnValue) (found : List Place) → IsTurn turn setting.now.alphas.now found
        → ((b : Branch T) → slice_get branches.old number ≡ Some b → IsBranchReady turn rule number b)
        → IsBranchChangedAt turn rule number branches.old branches.new delta.old delta.new meter.old meter.new) }
{
    let place = number as usize;
    if place >= branches.len() {
        return Ok(());
    }
    branches[place].change(
        setting.alloc,
        setting.constants,
        setting.alphas,
        rule,
        number,
        delta,
        meter,
    )
}
