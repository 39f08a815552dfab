//! Rules over all facts.
ghost use Rattle.std.specs.Prelude.{◌≡◌, All, OnOk};
ghost use Rattle.std.specs.BTreeMap.{values};
ghost use Rattle.cb_alpha_network.specs.Networks.{AlphaNetworkValue};
ghost use Rattle.cb_branch.specs.Branches.{CanBeFilled};
ghost use Rattle.cb_facts.specs.FactLists.{IndexedFacts};
ghost use Rattle.cb_rete.specs.Filling.{AreBranchesFilled, AreRulesFilled, IsFilling};
ghost use Rattle.cb_rete.specs.Rules.{AreBranchesEntered, AreRulesEntered, CanRuleBeFilled, kept_branches, kept_rule, kept_rules};
ghost use Rattle.cb_rule_keys.specs.Numbers.{AreNamed};

use crate::rule::Rule;
use crate::setting::Setting;
use cb_branch::Branch;
use cb_fit::Meter;
use cb_forms::NoMemory;
use cb_matches::Key;
use std::collections::BTreeMap;
use std::mem;

/// Finds all matches of rules, and what is kept for them, in place of what was. Their keys stand behind those that are told of before,
/// in their order, and so do their numbers.
pub(crate) fn fill_rules<T>(
    setting: &Setting<'_>,
    rules: &mut BTreeMap<u64, Rule<T>>,
    come: &mut Vec<Key>,
    come_numbers: &mut Vec<u32>,
    meter: &mut Meter<T>,
) -> Result<(), NoMemory>
    requires named { AreNamed kept_rule rules.old.entries }
    requires plans { All CanRuleBeFilled (values rules.old) }
    ensures stay { OnOk result (kept_rules (values rules.new) ≡ kept_rules (values rules.old)) }
    ensures named { OnOk result (AreNamed kept_rule rules.new.entries) }
    ensures filled { OnOk result ((v : AlphaNetworkValue) (fs : IndexedFacts) → IsFilling v fs setting.now.alphas.now
        → AreRulesEntered v rules.old.entries
        → AreRulesFilled v fs rules.old rules.new come.old.items come.new.items come_numbers.old.items come_numbers.new.items) }
{
    let _count = rules.len();
    let mut filled = BTreeMap::new(setting.alloc);
    for (id, mut rule) in mem::replace(rules, BTreeMap::new(setting.alloc)) {
        fill_rule(setting, &mut rule, come, come_numbers, meter)?;
        filled.insert(id, rule)?;
    }
    *rules = filled;
    Ok(())
}

/// The same of one rule.
pub(crate) fn fill_rule<T>(
    setting: &Setting<'_>,
    rule: &mut Rule<T>,
    come: &mut Vec<Key>,
    come_numbers: &mut Vec<u32>,
    meter: &mut Meter<T>,
) -> Result<(), NoMemory>
    requires { CanRuleBeFilled rule.old }
    ensures stay { OnOk result (kept_rule rule.new ≡ kept_rule rule.old) }
    ensures filled { OnOk result ((v : AlphaNetworkValue) (fs : IndexedFacts) → IsFilling v fs setting.now.alphas.now
        → AreBranchesEntered v rule.old.id rule.old.branches.items
        → AreBranchesFilled v fs rule.old.id (kept_rule rule.old).1 rule.new.branches.items come.old.items come.new.items come_numbers.old.items come_numbers.new.items) }
{
    fill_branches(
        setting,
        rule.id,
        rule.branches.as_mut_slice(),
        come,
        come_numbers,
        meter,
    )
}

/// The same of the branches of a rule.
fn fill_branches<T>(
    setting: &Setting<'_>,
    rule: u64,
    branches: &mut [Branch<T>],
    come: &mut Vec<Key>,
    come_numbers: &mut Vec<u32>,
    meter: &mut Meter<T>,
) -> Result<(), NoMemory>
    requires { All CanBeFilled branches.old }
    ensures stay { OnOk result (kept_branches branches.new ≡ kept_branches branches.old) }
    ensures filled { OnOk result ((v : AlphaNetworkValue) (fs : IndexedFacts) → IsFilling v fs setting.now.alphas.now
        → AreBranchesEntered v rule branches.old
        → AreBranchesFilled v fs rule (kept_branches branches.old) branches.new come.old.items come.new.items come_numbers.old.items come_numbers.new.items) }
{
    let mut number = 0;
    for branch in branches.iter_mut() {
        branch.fill(
            setting.alloc,
            setting.constants,
            setting.alphas,
            rule,
            number,
            come,
            come_numbers,
            meter,
        )?;
        number += 1;
    }
    Ok(())
}
