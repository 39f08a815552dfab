//! The rules that are defined, by their numbers and by their names.
ghost use Rattle.std.specs.Prelude.{◌≡◌, ◌<◌, ◌++◌, ◌∷◌, [], IfSome, None, OnOk, OnErr, length, nat_eq, not, option_copied};
ghost use Rattle.std.specs.List.{All, filter};
ghost use Rattle.cb_rules.specs.RuleTables.{rule_named, rule_numbered};

use crate::defined_rule::DefinedRule;
use cb_facts::Name;
use cb_forms::NoMemory;
use std::alloc::Global;
use std::collections::BTreeMap;
use std::collections::btree_map::Values;
use std::marker::Model;

/// The rules that are defined, in the order of their numbers, no two with one name.
///
/// A rule is found, added and taken out in logarithmic time, whatever the names are.
///
/// Contracts see the list of what is kept of the rules.
#[derive(Drop)]
pub struct RuleTable {
    rules: BTreeMap<u64, DefinedRule>,
    numbers: BTreeMap<Name, u64>,
}

impl Model for RuleTable {
    ghost use Rattle.std.specs.Prelude.{List};
    ghost use Rattle.std.specs.BTreeMap.{get};
    ghost use Rattle.std.specs.Cmp.Lexicographic.{slice_cmp};
    ghost use Rattle.std.specs.Coded.{codes, coded_list};
    ghost use Rattle.std.specs.Map.{values_of};
    ghost use Rattle.std.specs.Ordering.{nat_cmp};
    ghost use Rattle.cb_rules.specs.Internal.Codes.{rule_code};
    ghost use Rattle.cb_rules.specs.Internal.{IsTable};
    ghost use Rattle.cb_rules.specs.RuleInfos.{RuleInfo};

    ghost Value = { List RuleInfo };

    ghost coded = { coded_list (rule_code (Prim.hlevel codes) (Prim.hlevel codes)) };

    ghost view = { λ t. values_of t.rules.entries };

    ghost invariant = { λ t. IsTable t.rules.entries (get (slice_cmp nat_cmp) t.numbers) };
}

impl RuleTable {
    /// No rules. It takes no memory yet.
    pub fn new(alloc: Global) -> RuleTable
        ensures { result ≡ [] }
    {
        RuleTable {
            rules: BTreeMap::new(alloc),
            numbers: BTreeMap::new(alloc),
        }
    }

    /// How many there are.
    pub fn len(&self) -> usize
        ensures { result ≡ length self.now }
    {
        self.rules.len()
    }

    /// The rules, in the order of their numbers.
    pub fn iter(&self) -> Values<'_, u64, DefinedRule>
        ensures { result ≡ self.now }
    {
        self.rules.values()
    }

    /// The rule with a number, if there is one.
    pub fn get(&self, id: u64) -> Option<&DefinedRule>
        ensures { option_copied result ≡ rule_numbered id self.now }
    {
        self.rules.get(&id)
    }

    /// The rule with a name, if there is one.
    pub fn named(&self, name: &Name) -> Option<&DefinedRule>
        ensures value { option_copied result ≡ rule_named name.now self.now }
        // No other has the name.
        ensures only { IfSome result (λ r. rule_named name.now
            (filter (λ q. not (nat_eq r.now.id q.id)) self.now) ≡ None) }
    {
        let number = self.numbers.get(name)?;
        self.rules.get(number)
    }

    /// Adds a rule after the others. Its number is greater than theirs, and its name is none of theirs. Growth is refused as
    /// `NoMemory`, and then nothing has changed.
    pub fn push(&mut self, rule: DefinedRule) -> Result<(), NoMemory>
        requires number { All (λ r. r.id < rule.id) self.old }
        requires name { rule_named rule.name self.old ≡ None }
        ensures ok { OnOk result (self.new ≡ self.old ++ rule ∷ []) }
        ensures err { OnErr result (self.new ≡ self.old) }
    {
        let number = rule.id;
        let shared = rule.name.clone()?;
        self.numbers.insert(shared, number)?;
        match self.rules.insert(number, rule) {
            Ok(_) => Ok(()),
            Err(refused) => {
                let (_, rule) = refused.value;
                self.numbers.remove(&rule.name);
                Err(NoMemory)
            }
        }
    }

    /// Takes the rule with a number out, if there is one.
    pub fn remove(&mut self, id: u64)
        ensures { self.new ≡ filter (λ r. not (nat_eq id r.id)) self.old }
    {
        let Some(rule) = self.rules.remove(&id) else {
            return;
        };
        self.numbers.remove(&rule.name);
    }
}
