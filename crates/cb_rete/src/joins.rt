//! The matcher.
ghost use Rattle.std.specs.Prelude.{◌≡◌, ◌≤◌, ◌+◌, None, Some, IfOk, IsErr, IsSome, OnOk, is_err, true};
ghost use Rattle.cb_facts.specs.FactLists.{IsAbsent, fact_at, with_fact, without_fact};
ghost use Rattle.cb_matches.specs.Changes.{IsAbove, IsDelta, IsNumber, IsRestart, TellsNumbers};
ghost use Rattle.cb_matches.specs.Matchers.{new_matcher};
ghost use Rattle.cb_matches.specs.Networks.{bindings_of, with_one, with_rule, without_one, without_rule};
ghost use Rattle.cb_matches.specs.Probes.{rules_probes};
ghost use Rattle.cb_rules.specs.Elements.{branches_of};

use crate::changes::{add_planned, assert_fact, drop_rule, fill_anew, retract_fact};
use crate::finding::find_env;
use crate::rule::{Rule, plan_rule};
use cb_alpha_network::{AlphaNetwork, NodePlace};
use cb_eval::Constants;
use cb_exprs::Env;
use cb_facts::{Fact, FactList};
use cb_fit::Meter;
use cb_forms::NoMemory;
use cb_matches::{Delta, Key, Matcher};
use cb_rules::Ce;
use std::alloc::Global;
use std::collections::BTreeMap;
use std::marker::Model;

/// A matcher that keeps partial matches, and goes on from what changed alone.
#[derive(Drop)]
pub struct Joins<T> {
    alloc: Global,
    /// The symbols that functions return, made when the first is wanted.
    constants: Option<Constants>,
    /// Each under its number.
    rules: BTreeMap<u64, Rule<T>>,
    /// The alpha memories of their patterns.
    alphas: AlphaNetwork<T>,
    /// The places of the patterns that the last change was for, kept for its memory.
    found: Vec<NodePlace>,
    facts: FactList,
    failed: bool,
}

impl<T> Model for Joins<T> {
    ghost use Rattle.std.specs.Prelude.{◌≡◌, false};
    ghost use Rattle.std.specs.BTreeMap.{values};
    ghost use Rattle.std.specs.Coded.{codes};
    ghost use Rattle.cb_matches.specs.Internal.{matcher_code};
    ghost use Rattle.cb_matches.specs.Matchers.{MatcherValue};
    ghost use Rattle.cb_rete.specs.Numbers.{kept_numbers};
    ghost use Rattle.cb_rete.specs.Rules.{IsKeeping, kept_rules};

    ghost Value = { MatcherValue };

    ghost coded = { matcher_code (Prim.hlevel codes) (Prim.hlevel codes) (Prim.hlevel codes) (Prim.hlevel codes) };

    ghost view = { λ m. record { network = record { rules = kept_rules (values m.rules); facts = m.facts }; numbers = kept_numbers (values m.rules); is_failed = m.failed } };

    ghost invariant = { λ m. m.failed ≡ false → IsKeeping m.alphas m.facts m.rules };
}

impl<T> Joins<T> {
    /// A matcher without rules and facts. It takes no memory yet.
    pub fn new(alloc: Global) -> Joins<T>
        ensures { result ≡ new_matcher }
    {
        Joins {
            alloc,
            constants: None,
            rules: BTreeMap::new(alloc),
            alphas: AlphaNetwork::new(alloc),
            found: Vec::new(alloc),
            facts: FactList::new(alloc),
            failed: false,
        }
    }
}

impl<T> Matcher<T> for Joins<T> {
    ghost network = { λ m. m.network };

    ghost numbers = { λ m. m.numbers };

    ghost is_failed = { λ m. m.is_failed };

    fn add_rule(
        &mut self,
        id: u64,
        branches: Vec<Vec<Ce<T>>>,
        meter: &mut Meter<T>,
    ) -> Result<Delta, NoMemory>
        requires { IsAbove id self.old.network.rules }
        ensures network { OnOk result
            (self.new.network ≡ with_rule id (branches_of branches.items) self.old.network) }
        ensures delta { IfOk result
            (IsDelta self.old.network (with_rule id (branches_of branches.items) self.old.network)) }
        ensures numbers { IfOk result (TellsNumbers (IsNumber self.old.numbers) (IsNumber self.new.numbers)) }
        ensures failed { self.new.is_failed ≡ is_err result }
        ensures once { self.old.is_failed ≡ true → IsErr result }
    {
        if self.failed {
            return Err(NoMemory);
        }
        self.failed = true;
        let rule = plan_rule(self.alloc, id, branches)?;
        let delta = add_planned(
            self.alloc,
            &mut self.constants,
            &mut self.alphas,
            &mut self.rules,
            &self.facts,
            rule,
            meter,
        )?;
        self.failed = false;
        Ok(delta)
    }

    fn drop_rule(&mut self, id: u64) -> Result<Delta, NoMemory> {
        if self.failed {
            return Err(NoMemory);
        }
        self.failed = true;
        let delta = drop_rule(
            self.alloc,
            &mut self.constants,
            &mut self.alphas,
            &mut self.rules,
            &self.facts,
            id,
        )?;
        self.failed = false;
        Ok(delta)
    }

    fn assert(&mut self, ix: u64, fact: Fact, meter: &mut Meter<T>) -> Result<Delta, NoMemory>
        requires free { fact_at self.old.network.facts ix ≡ None }
        requires absent { IsAbsent self.old.network.facts fact }
        ensures network { OnOk result (self.new.network ≡ with_one ix fact self.old.network) }
        ensures delta { IfOk result
            (IsDelta self.old.network (with_one ix fact self.old.network)) }
        ensures numbers { IfOk result (TellsNumbers (IsNumber self.old.numbers) (IsNumber self.new.numbers)) }
        ensures failed { self.new.is_failed ≡ is_err result }
        ensures once { self.old.is_failed ≡ true → IsErr result }
        ensures probes { OnOk result
            (meter.new ≤ meter.old + rules_probes (Some fact) self.old.network.facts
            (with_fact self.old.network.facts ix fact) self.old.network.rules) }
    {
        if self.failed {
            return Err(NoMemory);
        }
        self.failed = true;
        let delta = assert_fact(
            self.alloc,
            &mut self.constants,
            &mut self.alphas,
            &mut self.found,
            &mut self.rules,
            &mut self.facts,
            ix,
            fact,
            meter,
        )?;
        self.failed = false;
        Ok(delta)
    }

    fn retract(&mut self, ix: u64, meter: &mut Meter<T>) -> Result<Delta, NoMemory>
        requires { IsSome (fact_at self.old.network.facts ix) }
        ensures network { OnOk result (self.new.network ≡ without_one ix self.old.network) }
        ensures delta { IfOk result
            (IsDelta self.old.network (without_one ix self.old.network)) }
        ensures numbers { IfOk result (TellsNumbers (IsNumber self.old.numbers) (IsNumber self.new.numbers)) }
        ensures failed { self.new.is_failed ≡ is_err result }
        ensures once { self.old.is_failed ≡ true → IsErr result }
        ensures probes { OnOk result
            (meter.new ≤ meter.old + rules_probes None self.old.network.facts
            (without_fact self.old.network.facts ix) self.old.network.rules) }
    {
        if self.failed {
            return Err(NoMemory);
        }
        self.failed = true;
        let delta = retract_fact(
            self.alloc,
            &mut self.constants,
            &mut self.alphas,
            &mut self.found,
            &mut self.rules,
            &mut self.facts,
            ix,
            meter,
        )?;
        self.failed = false;
        Ok(delta)
    }

    #[tactic(auto, unfolding(cb_matches::specs::Networks::all_keys, cb_matches::specs::Networks::all_matches))]
    fn restart(&mut self, meter: &mut Meter<T>) -> Result<Delta, NoMemory> {
        if self.failed {
            return Err(NoMemory);
        }
        self.failed = true;
        self.facts = FactList::new(self.alloc);
        let delta = fill_anew(
            self.alloc,
            &mut self.constants,
            &mut self.alphas,
            &mut self.rules,
            meter,
        )?;
        self.failed = false;
        Ok(delta)
    }

    fn bindings(&self, key: &Key) -> Result<Env, NoMemory> {
        if self.failed {
            return Err(NoMemory);
        }
        let _facts = self.facts.len();
        match &self.constants {
            Some(constants) => find_env(self.alloc, constants, &self.rules, key),
            None => find_env(self.alloc, &Constants::new(self.alloc)?, &self.rules, key),
        }
    }

    fn facts(&self) -> &FactList {
        &self.facts
    }

    fn failed(&self) -> bool {
        self.failed
    }
}
