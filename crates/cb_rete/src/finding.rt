//! The match with a key.
ghost use Rattle.std.specs.Prelude.{◌≡◌, IfOk};
ghost use Rattle.std.specs.BTreeMap.{values};
ghost use Rattle.cb_branch.specs.Alphas.{Facts};
ghost use Rattle.cb_facts.specs.FactLists.{IndexedFacts};
ghost use Rattle.cb_matches.specs.Networks.{bindings_of};
ghost use Rattle.cb_matches.specs.Order.{IsRising};
ghost use Rattle.cb_rete.specs.Rules.{AreRulesOver, kept_rule, kept_rules};
ghost use Rattle.cb_rule_keys.specs.Numbers.{AreNamed};

use crate::rule::Rule;
use cb_eval::Constants;
use cb_exprs::Env;
use cb_forms::NoMemory;
use cb_matches::Key;
use std::alloc::Global;
use std::collections::BTreeMap;

/// What variables have by the match with this key, nothing where none has it.
pub(crate) fn find_env<T>(
    alloc: Global,
    constants: &Constants,
    rules: &BTreeMap<u64, Rule<T>>,
    key: &Key,
) -> Result<Env, NoMemory>
    ensures { IfOk result (λ env. (facts : Facts) (fs : IndexedFacts) → IsRising fs
        → AreNamed kept_rule rules.now.entries → AreRulesOver facts fs rules.now.entries
        → env ≡ bindings_of (record { rules = kept_rules (values rules.now); facts = fs }) key.now) }
{
    let _count = rules.len();
    let Some(rule) = rules.get(&key.rule()) else {
        return Ok(Env::new(alloc));
    };
    let Some(branch) = rule.branches.get(key.branch() as usize) else {
        return Ok(Env::new(alloc));
    };
    branch.env(alloc, constants, key)
}
