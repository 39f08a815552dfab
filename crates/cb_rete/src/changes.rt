//! What each call of the matcher does to its rules and facts.
ghost use Rattle.std.specs.Prelude.{◌≡◌, ◌≤◌, ◌+◌, ◌++◌, ◌∷◌, ℕ, [], None, Some, IfOk, IsSome, OnOk, if◌then◌else◌, nat_eq, not};
ghost use Rattle.std.specs.BTreeMap.{is_at, values};
ghost use Rattle.std.specs.List.{All, filter, flat_map};
ghost use Rattle.std.specs.Map.{remove_entry};
ghost use Rattle.std.specs.Ordering.{nat_cmp};
ghost use Rattle.cb_alpha_network.specs.Networks.{AreAlphas, use_count};
ghost use Rattle.cb_branch.specs.Branches.{CanBeFilled};
ghost use Rattle.cb_branch.specs.Alphas.{Facts};
ghost use Rattle.cb_branch.specs.Patterns.{branch_patterns};
ghost use Rattle.cb_facts.specs.FactLists.{IndexedFacts, IsAbsent, fact_at, with_fact, without_fact};
ghost use Rattle.cb_matches.specs.Changes.{AddsNumbers, HaveNumbers, IsAbove, IsDelta, IsNumber, TellsNumbers};
ghost use Rattle.cb_matches.specs.Order.{IsRising};
ghost use Rattle.cb_matches.specs.Probes.{rules_probes};
ghost use Rattle.cb_rete.specs.Changing.{AreRulesReady, AreRulesTurned, IsTurning, TurnValue};
ghost use Rattle.cb_rete.specs.Entering.{IsRuleLeft};
ghost use Rattle.cb_rete.specs.Numbers.{IsNumberInBranches, IsNumberInRules, kept_numbers};
ghost use Rattle.cb_rete.specs.Rules.{AreBranchesEntered, AreBranchesOver, CanRuleBeFilled, IsKeeping, kept_branches, kept_rule, kept_rules};
ghost use Rattle.cb_rule_keys.specs.Keys.{branch_keys, rule_keys};
ghost use Rattle.cb_rule_keys.specs.Numbers.{AreNamed};
ghost use Rattle.cb_rule_keys.specs.Sums.{branches_sum};

use crate::changing::change_rules;
use crate::entering::{enter_rule, leave_branches};
use crate::filling::{fill_rule, fill_rules};
use crate::rule::Rule;
use crate::setting::Setting;
use crate::telling::tell_branches;
use cb_alpha_network::{AlphaNetwork, NodePlace};
use cb_branch::Branch;
use cb_branch::laws::{
    a_match_has_one_number, a_number_is_that_of_a_match, each_pattern_may_be_tested,
    what_is_kept_can_be_filled, what_is_kept_stays,
};
use cb_eval::Constants;
use cb_facts::{Fact, FactList};
use cb_fit::Meter;
use cb_forms::NoMemory;
use cb_matches::{Delta, Key};
use std::alloc::Global;
use std::collections::BTreeMap;

/// Adds a fact.
pub(crate) fn assert_fact<T>(
    alloc: Global,
    constants: &mut Option<Constants>,
    alphas: &mut AlphaNetwork<T>,
    found: &mut Vec<NodePlace>,
    rules: &mut BTreeMap<u64, Rule<T>>,
    facts: &mut FactList,
    ix: u64,
    fact: Fact,
    meter: &mut Meter<T>,
) -> Result<Delta, NoMemory>
    requires keeping { IsKeeping alphas.old facts.old rules.old }
    requires free { fact_at facts.old ix ≡ None }
    requires absent { IsAbsent facts.old fact }
    ensures facts { OnOk result (facts.new ≡ with_fact facts.old ix fact) }
    ensures rules { OnOk result (kept_rules (values rules.new) ≡ kept_rules (values rules.old)) }
    ensures keeping { OnOk result (IsKeeping alphas.new (with_fact facts.old ix fact) rules.new) }
    ensures delta { IfOk result (IsDelta
        (record { rules = kept_rules (values rules.old); facts = facts.old })
        (record { rules = kept_rules (values rules.old); facts = with_fact facts.old ix fact })) }
    ensures numbers { IfOk result
        (TellsNumbers (IsNumber (kept_numbers (values rules.old))) (IsNumber (kept_numbers (values rules.new)))) }
    ensures probes { OnOk result
        (meter.new ≤ meter.old + rules_probes (Some fact) facts.old
        (with_fact facts.old ix fact) (kept_rules (values rules.old))) }
{
    each_pattern_may_be_tested();
    what_is_kept_stays::<T>();
    let _count = facts.len();
    let constants = Constants::made(alloc, constants)?;
    alphas.assert(alloc, constants, ix, &fact, meter)?;
    facts.add(ix, fact)?;
    change_facts(alloc, constants, alphas, found, rules, meter)
}

/// Takes the fact with this index out.
pub(crate) fn retract_fact<T>(
    alloc: Global,
    constants: &mut Option<Constants>,
    alphas: &mut AlphaNetwork<T>,
    found: &mut Vec<NodePlace>,
    rules: &mut BTreeMap<u64, Rule<T>>,
    facts: &mut FactList,
    ix: u64,
    meter: &mut Meter<T>,
) -> Result<Delta, NoMemory>
    requires keeping { IsKeeping alphas.old facts.old rules.old }
    requires there { IsSome (fact_at facts.old ix) }
    ensures facts { OnOk result (facts.new ≡ without_fact facts.old ix) }
    ensures rules { OnOk result (kept_rules (values rules.new) ≡ kept_rules (values rules.old)) }
    ensures keeping { OnOk result (IsKeeping alphas.new (without_fact facts.old ix) rules.new) }
    ensures delta { IfOk result (IsDelta
        (record { rules = kept_rules (values rules.old); facts = facts.old })
        (record { rules = kept_rules (values rules.old); facts = without_fact facts.old ix })) }
    ensures numbers { IfOk result
        (TellsNumbers (IsNumber (kept_numbers (values rules.old))) (IsNumber (kept_numbers (values rules.new)))) }
    ensures probes { OnOk result
        (meter.new ≤ meter.old + rules_probes None facts.old
        (without_fact facts.old ix) (kept_rules (values rules.old))) }
{
    each_pattern_may_be_tested();
    what_is_kept_stays::<T>();
    let _count = facts.len();
    let constants = Constants::made(alloc, constants)?;
    let Some(fact) = facts.get(ix) else {
        unreachable!()
    };
    alphas.retract(alloc, ix, fact)?;
    facts.remove(ix);
    change_facts(alloc, constants, alphas, found, rules, meter)
}

/// Changes the rules of which an alpha memory has changed, and ends the change.
fn change_facts<T>(
    alloc: Global,
    constants: &Constants,
    alphas: &mut AlphaNetwork<T>,
    found: &mut Vec<NodePlace>,
    rules: &mut BTreeMap<u64, Rule<T>>,
    meter: &mut Meter<T>,
) -> Result<Delta, NoMemory>
    ensures turned { IfOk result (λ delta. (turn : TurnValue) → turn.network ≡ alphas.old → IsTurning turn
        → AreRulesReady turn rules.old.entries
        → AreRulesTurned turn alphas.new rules.old rules.new delta meter.old meter.new) }
    ensures count { OnOk result (use_count alphas.new ≡ use_count alphas.old) }
{
    what_is_kept_stays::<T>();
    a_match_has_one_number::<T>();
    let _count = rules.len();
    alphas.places_changed(found)?;
    let setting = Setting {
        alloc,
        constants,
        alphas: alphas.memories(),
    };
    let mut delta = no_delta(alloc);
    change_rules(&setting, found.as_slice(), rules, &mut delta, meter)?;
    let _changed = rules.len();
    alphas.end_change();
    Ok(delta)
}

/// Nothing went or came.
fn no_delta(alloc: Global) -> Delta
    ensures gone { result.gone.items ≡ [] }
    ensures come { result.come.items ≡ [] }
    ensures gone_numbers { result.gone_numbers.items ≡ [] }
    ensures come_numbers { result.come_numbers.items ≡ [] }
{
    Delta {
        gone: Vec::new(alloc),
        come: Vec::new(alloc),
        gone_numbers: Vec::new(alloc),
        come_numbers: Vec::new(alloc),
    }
}

/// Adds a rule, before anything is found for it: its patterns are entered, and its matches found. The answer is their keys and
/// their numbers.
pub(crate) fn add_planned<T>(
    alloc: Global,
    constants: &mut Option<Constants>,
    alphas: &mut AlphaNetwork<T>,
    rules: &mut BTreeMap<u64, Rule<T>>,
    facts: &FactList,
    mut rule: Rule<T>,
    meter: &mut Meter<T>,
) -> Result<Delta, NoMemory>
    requires keeping { IsKeeping alphas.old facts.now rules.old }
    requires above { IsAbove rule.id (kept_rules (values rules.old)) }
    requires plans { CanRuleBeFilled rule }
    ensures rules { OnOk result (kept_rules (values rules.new)
        ≡ kept_rules (values rules.old) ++ kept_rule rule ∷ []) }
    ensures keeping { OnOk result (IsKeeping alphas.new facts.now rules.new) }
    ensures delta { IfOk result (IsDelta
        (record { rules = kept_rules (values rules.old); facts = facts.now })
        (record {
          rules = kept_rules (values rules.old) ++ kept_rule rule ∷ [];
          facts = facts.now;
        })) }
    ensures numbers { IfOk result
        (TellsNumbers (IsNumber (kept_numbers (values rules.old))) (IsNumber (kept_numbers (values rules.new)))) }
{
    what_is_kept_stays::<T>();
    a_match_has_one_number::<T>();
    let _count = facts.len();
    let _rules = rules.len();
    let constants = Constants::made(alloc, constants)?;
    enter_rule(alloc, constants, facts, &mut rule, alphas, meter)?;
    let setting = Setting {
        alloc,
        constants,
        alphas: alphas.memories(),
    };
    let mut delta = no_delta(alloc);
    fill_rule(
        &setting,
        &mut rule,
        &mut delta.come,
        &mut delta.come_numbers,
        meter,
    )?;
    rules.insert(rule.id, rule)?;
    let _with = rules.len();
    Ok(delta)
}

/// Takes the rule with this number away, if there is one.
pub(crate) fn drop_rule<T>(
    alloc: Global,
    constants: &mut Option<Constants>,
    alphas: &mut AlphaNetwork<T>,
    rules: &mut BTreeMap<u64, Rule<T>>,
    facts: &FactList,
    id: u64,
) -> Result<Delta, NoMemory>
    requires keeping { IsKeeping alphas.old facts.now rules.old }
    ensures rules { OnOk result (kept_rules (values rules.new)
        ≡ filter (λ r. not (nat_eq id r.0)) (kept_rules (values rules.old))) }
    ensures keeping { OnOk result (IsKeeping alphas.new facts.now rules.new) }
    ensures delta { IfOk result (IsDelta
        (record { rules = kept_rules (values rules.old); facts = facts.now })
        (record {
          rules = filter (λ r. not (nat_eq id r.0))
              (kept_rules (values rules.old));
          facts = facts.now;
        })) }
    ensures numbers { IfOk result
        (TellsNumbers (IsNumber (kept_numbers (values rules.old))) (IsNumber (kept_numbers (values rules.new)))) }
{
    a_match_has_one_number::<T>();
    a_number_is_that_of_a_match::<T>();
    let _count = facts.len();
    let _rules = rules.len();
    let constants = Constants::made(alloc, constants)?;
    let mut delta = no_delta(alloc);
    drop_numbered(
        alloc,
        constants,
        alphas,
        rules,
        id,
        &mut delta.gone,
        &mut delta.gone_numbers,
    )?;
    let _left = rules.len();
    Ok(delta)
}

/// The same. The keys of its matches stand behind those that are told of before, in their order, and so do their numbers.
fn drop_numbered<T>(
    alloc: Global,
    constants: &Constants,
    alphas: &mut AlphaNetwork<T>,
    rules: &mut BTreeMap<u64, Rule<T>>,
    id: u64,
    gone: &mut Vec<Key>,
    gone_numbers: &mut Vec<u32>,
) -> Result<(), NoMemory>
    requires { AreNamed kept_rule rules.old.entries }
    ensures entries { OnOk result (rules.new.entries ≡ remove_entry (is_at (nat_cmp id)) rules.old.entries) }
    ensures stay { OnOk result (kept_rules (values rules.new)
        ≡ filter (λ r. not (nat_eq id r.0)) (kept_rules (values rules.old))) }
    ensures keeping { OnOk result ((fs : IndexedFacts) → IsKeeping alphas.old fs rules.old
        → IsKeeping alphas.new fs rules.new) }
    ensures gone { OnOk result ((fs : IndexedFacts) → IsRising fs → IsKeeping alphas.old fs rules.old
        → gone.new.items ≡ gone.old.items ++ flat_map
        (λ r. if nat_eq id r.0 then branch_keys r.0 0 r.1 fs else []) (kept_rules (values rules.old))) }
    ensures numbers { OnOk result ((fs : IndexedFacts) → IsKeeping alphas.old fs rules.old
        → AddsNumbers (IsNumberInRules rules.old.entries) gone.old.items gone.new.items gone_numbers.old.items gone_numbers.new.items) }
{
    what_is_kept_stays::<T>();
    what_is_kept_can_be_filled::<T>();
    let _count = rules.len();
    match rules.remove(&id) {
        Some(rule) => drop_branches(
            alloc,
            constants,
            rule.id,
            rule.branches.as_slice(),
            alphas,
            gone,
            gone_numbers,
        ),
        None => Ok(()),
    }
}

/// Takes the patterns of the branches of the rule with this number out of the alpha network, and tells the keys of their matches and
/// their numbers.
fn drop_branches<T>(
    alloc: Global,
    constants: &Constants,
    rule: u64,
    branches: &[Branch<T>],
    alphas: &mut AlphaNetwork<T>,
    gone: &mut Vec<Key>,
    gone_numbers: &mut Vec<u32>,
) -> Result<(), NoMemory>
    ensures left { OnOk result (All CanBeFilled branches.now
        → AreBranchesEntered alphas.old rule branches.now
        → IsRuleLeft rule (branches_sum branch_patterns (kept_branches branches.now)) alphas.old alphas.new) }
    ensures alphas { OnOk result ((fs : IndexedFacts) → AreAlphas alphas.old fs → AreAlphas alphas.new fs) }
    ensures gone { OnOk result ((facts : Facts) (fs : IndexedFacts) → IsRising fs
        → AreBranchesOver facts fs branches.now
        → gone.new.items ≡ gone.old.items ++ branch_keys rule 0 (kept_branches branches.now) fs) }
    ensures numbers { OnOk result ((facts : Facts) (fs : IndexedFacts) → AreBranchesOver facts fs branches.now
        → AddsNumbers (IsNumberInBranches rule branches.now) gone.old.items gone.new.items gone_numbers.old.items gone_numbers.new.items) }
{
    leave_branches(alloc, rule, branches, alphas)?;
    tell_branches(alloc, constants, rule, branches, gone, gone_numbers)
}

/// Takes all facts out of the alpha network, and finds all matches. The answer is their keys and their numbers, as what comes.
pub(crate) fn fill_anew<T>(
    alloc: Global,
    constants: &mut Option<Constants>,
    alphas: &mut AlphaNetwork<T>,
    rules: &mut BTreeMap<u64, Rule<T>>,
    meter: &mut Meter<T>,
) -> Result<Delta, NoMemory>
    requires { (fs : IndexedFacts) × IsKeeping alphas.old fs rules.old }
    ensures rules { OnOk result (kept_rules (values rules.new) ≡ kept_rules (values rules.old)) }
    ensures keeping { OnOk result (IsKeeping alphas.new [] rules.new) }
    ensures gone { IfOk result (λ delta. delta.gone.items ≡ []) }
    ensures come { IfOk result (λ delta. delta.come.items ≡ rule_keys (kept_rules (values rules.old)) []) }
    ensures numbers { IfOk result (λ delta. HaveNumbers (IsNumber (kept_numbers (values rules.new)))
        delta.come.items delta.come_numbers.items) }
{
    what_is_kept_can_be_filled::<T>();
    let constants = Constants::made(alloc, constants)?;
    alphas.clear();
    let setting = Setting {
        alloc,
        constants,
        alphas: alphas.memories(),
    };
    let mut delta = no_delta(alloc);
    fill_rules(
        &setting,
        rules,
        &mut delta.come,
        &mut delta.come_numbers,
        meter,
    )?;
    Ok(delta)
}
