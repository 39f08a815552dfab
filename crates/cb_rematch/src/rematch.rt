//! The matcher.
ghost use Rattle.std.specs.Prelude.{◌≡◌, IfOk, IsErr, OnOk, is_err, nat_eq, not, replicate, true};
ghost use Rattle.std.specs.List.{filter};
ghost use Rattle.std.specs.Map.{keys_of, lookup};
ghost use Rattle.std.specs.Option.{option_map_or};
ghost use Rattle.cb_rules.specs.Elements.{branches_of};
ghost use Rattle.cb_exprs.specs.Bindings.{no_bindings};
ghost use Rattle.cb_matches.specs.Changes.{IsAbove, IsDelta, IsNumber, TellsNumbers};
ghost use Rattle.cb_matches.specs.Keys.{key_eq};
ghost use Rattle.cb_matches.specs.Networks.{Network, all_matches, with_rule};
ghost use Rattle.cb_matches.specs.Matchers.{new_matcher};
ghost use Rattle.cb_rematch.specs.Numbering.{zero_numbers};

use crate::branch::Match;
use crate::come::keys_come;
use crate::matching::{NumberedRule, match_rules};
use crate::setting::Setting;
use cb_eval::Constants;
use cb_exprs::Env;
use cb_facts::{Fact, FactList};
use cb_fit::Meter;
use cb_forms::NoMemory;
use cb_matches::{Delta, Key, Matcher};
use cb_rules::Ce;
use std::alloc::Global;
use std::marker::Model;
use std::mem;

/// A matcher that finds all matches anew at each change, and keeps them with what variables have by each. Each match has the number 0.
#[derive(Drop)]
pub struct Rematch<T> {
    alloc: Global,
    /// The symbols that functions return, made when the first is wanted.
    constants: Option<Constants>,
    rules: Vec<NumberedRule<T>>,
    facts: FactList,
    matches: Vec<Match>,
    failed: bool,
}

impl<T> Model for Rematch<T> {
    ghost use Rattle.std.specs.Prelude.{◌≡◌, false};
    ghost use Rattle.std.specs.Coded.{codes};
    ghost use Rattle.cb_matches.specs.Networks.{all_matches};
    ghost use Rattle.cb_matches.specs.Internal.{matcher_code};
    ghost use Rattle.cb_matches.specs.Matchers.{MatcherValue};
    ghost use Rattle.cb_rematch.specs.Numbering.{zero_numbers};

    ghost Value = { MatcherValue };

    ghost coded = { matcher_code (Prim.hlevel codes) (Prim.hlevel codes) (Prim.hlevel codes) (Prim.hlevel codes) };

    ghost view = { λ m. record { network = record { rules = m.rules.items; facts = m.facts }; numbers = zero_numbers (record { rules = m.rules.items; facts = m.facts }); is_failed = m.failed } };

    ghost invariant = { λ m. m.failed ≡ false → m.matches.items ≡ all_matches (record { rules = m.rules.items; facts = m.facts }) };
}

impl<T> Rematch<T> {
    /// A matcher without rules and facts. It takes no memory yet.
    #[tactic(auto, unfolding(cb_matches::specs::Networks::all_keys, cb_matches::specs::Networks::all_matches))]
    pub fn new(alloc: Global) -> Rematch<T>
        ensures { result ≡ new_matcher }
    {
        Rematch {
            alloc,
            constants: None,
            rules: Vec::new(alloc),
            facts: FactList::new(alloc),
            matches: Vec::new(alloc),
            failed: false,
        }
    }
}

impl<T> Matcher<T> for Rematch<T> {
    ghost network = { λ m. m.network };

    ghost numbers = { λ m. m.numbers };

    ghost is_failed = { λ m. m.is_failed };

    fn add_rule(
        &mut self,
        id: u64,
        branches: Vec<Vec<Ce<T>>>,
        meter: &mut Meter<T>,
    ) -> Result<Delta, NoMemory>
        requires { IsAbove id self.old.network.rules }
        ensures network { OnOk result
            (self.new.network ≡ with_rule id (branches_of branches.items) self.old.network) }
        ensures delta { IfOk result
            (IsDelta self.old.network (with_rule id (branches_of branches.items) self.old.network)) }
        ensures numbers { IfOk result
            (TellsNumbers (IsNumber self.old.numbers) (IsNumber self.new.numbers)) }
        ensures failed { self.new.is_failed ≡ is_err result }
        ensures once { self.old.is_failed ≡ true → IsErr result }
    {
        if self.failed {
            return Err(NoMemory);
        }
        self.failed = true;
        self.rules.push(NumberedRule { id, branches })?;
        let delta = find_anew(
            self.alloc,
            &mut self.constants,
            self.rules.as_slice(),
            &self.facts,
            &mut self.matches,
            meter,
        )?;
        self.failed = false;
        Ok(delta)
    }

    fn drop_rule(&mut self, id: u64) -> Result<Delta, NoMemory> {
        if self.failed {
            return Err(NoMemory);
        }
        self.failed = true;
        drop_numbered(self.alloc, &mut self.rules, id)?;
        let kept = keep_others(self.alloc, self.matches.as_slice(), id)?;
        let delta = replace_matches(self.alloc, &mut self.matches, kept)?;
        self.failed = false;
        Ok(delta)
    }

    fn assert(&mut self, ix: u64, fact: Fact, meter: &mut Meter<T>) -> Result<Delta, NoMemory> {
        if self.failed {
            return Err(NoMemory);
        }
        self.failed = true;
        self.facts.add(ix, fact)?;
        let delta = find_anew(
            self.alloc,
            &mut self.constants,
            self.rules.as_slice(),
            &self.facts,
            &mut self.matches,
            meter,
        )?;
        self.failed = false;
        Ok(delta)
    }

    fn retract(&mut self, ix: u64, meter: &mut Meter<T>) -> Result<Delta, NoMemory> {
        if self.failed {
            return Err(NoMemory);
        }
        self.failed = true;
        self.facts.remove(ix);
        let delta = find_anew(
            self.alloc,
            &mut self.constants,
            self.rules.as_slice(),
            &self.facts,
            &mut self.matches,
            meter,
        )?;
        self.failed = false;
        Ok(delta)
    }

    #[tactic(auto, unfolding(cb_matches::specs::Networks::all_keys))]
    fn restart(&mut self, meter: &mut Meter<T>) -> Result<Delta, NoMemory> {
        if self.failed {
            return Err(NoMemory);
        }
        self.failed = true;
        self.facts = FactList::new(self.alloc);
        drop(find_anew(
            self.alloc,
            &mut self.constants,
            self.rules.as_slice(),
            &self.facts,
            &mut self.matches,
            meter,
        )?);
        let come = copy_keys(self.alloc, self.matches.as_slice())?;
        let come_numbers = zeros(self.alloc, come.len())?;
        self.failed = false;
        Ok(Delta {
            gone: Vec::new(self.alloc),
            come,
            gone_numbers: Vec::new(self.alloc),
            come_numbers,
        })
    }

    #[tactic(auto, unfolding(cb_matches::specs::Networks::bindings_of))]
    fn bindings(&self, key: &Key) -> Result<Env, NoMemory> {
        if self.failed {
            return Err(NoMemory);
        }
        find_env(self.alloc, self.matches.as_slice(), key)
    }

    fn facts(&self) -> &FactList {
        &self.facts
    }

    fn failed(&self) -> bool {
        self.failed
    }
}

/// Finds all matches of these rules, in place of those that there were. The answer is which of them came and which went.
fn find_anew<T>(
    alloc: Global,
    constants: &mut Option<Constants>,
    rules: &[NumberedRule<T>],
    facts: &FactList,
    matches: &mut Vec<Match>,
    meter: &mut Meter<T>,
) -> Result<Delta, NoMemory>
    ensures matches { OnOk result (matches.new.items
        ≡ all_matches (record { rules = rules.now; facts = facts.now })) }
    ensures delta { (old : Network) → matches.old.items ≡ all_matches old
        → IfOk result (IsDelta old (record { rules = rules.now; facts = facts.now })) }
    ensures numbers { (old : Network) → matches.old.items ≡ all_matches old
        → IfOk result (TellsNumbers (IsNumber (zero_numbers old))
        (IsNumber (zero_numbers (record { rules = rules.now; facts = facts.now })))) }
{
    let setting = Setting {
        alloc,
        constants: Constants::made(alloc, constants)?,
        facts,
    };
    let found = match_rules(&setting, rules, meter)?;
    replace_matches(alloc, matches, found)
}

/// Takes these matches for those that there were. The answer is which came and which went.
#[tactic(auto, unfolding(cb_matches::specs::Changes::keys_come, cb_matches::specs::Changes::keys_gone, cb_matches::specs::Networks::all_keys))]
fn replace_matches(
    alloc: Global,
    matches: &mut Vec<Match>,
    found: Vec<Match>,
) -> Result<Delta, NoMemory>
    ensures matches { OnOk result (matches.new.items ≡ found.items) }
    ensures delta { (old new : Network) → matches.old.items ≡ all_matches old
        → found.items ≡ all_matches new → IfOk result (IsDelta old new) }
    ensures numbers { (old new : Network) → matches.old.items ≡ all_matches old
        → found.items ≡ all_matches new
        → IfOk result (TellsNumbers (IsNumber (zero_numbers old)) (IsNumber (zero_numbers new))) }
{
    let gone = keys_come(alloc, found.as_slice(), matches.as_slice())?;
    let come = keys_come(alloc, matches.as_slice(), found.as_slice())?;
    let gone_numbers = zeros(alloc, gone.len())?;
    let come_numbers = zeros(alloc, come.len())?;
    *matches = found;
    Ok(Delta {
        gone,
        come,
        gone_numbers,
        come_numbers,
    })
}

/// The numbers of so many matches.
fn zeros(alloc: Global, count: usize) -> Result<Vec<u32>, NoMemory>
    ensures { IfOk result (λ numbers. numbers.items ≡ replicate count 0) }
{
    Ok(vec![in alloc; 0; count]?)
}

/// The matches of all rules but the one with this number.
fn keep_others(alloc: Global, matches: &[Match], id: u64) -> Result<Vec<Match>, NoMemory>
    ensures { IfOk result (λ kept. kept.items
        ≡ filter (λ m. not (nat_eq id m.0.rule)) matches.now) }
{
    let mut kept = Vec::new(alloc);
    for found in matches {
        if id != found.key.rule() {
            let key = found.key.clone()?;
            let env = found.env.clone()?;
            kept.push(Match { key, env })?;
        }
    }
    Ok(kept)
}

/// Takes the rule with this number away.
fn drop_numbered<T>(
    alloc: Global,
    rules: &mut Vec<NumberedRule<T>>,
    id: u64,
) -> Result<(), NoMemory>
    ensures { OnOk result (rules.new.items
        ≡ filter (λ r. not (nat_eq id r.0)) rules.old.items) }
{
    let mut kept = Vec::new(alloc);
    for rule in mem::replace(rules, Vec::new(alloc)) {
        if id != rule.id {
            kept.push(rule)?;
        }
    }
    *rules = kept;
    Ok(())
}

/// The keys of these matches.
fn copy_keys(alloc: Global, matches: &[Match]) -> Result<Vec<Key>, NoMemory>
    ensures { IfOk result (λ keys. keys.items ≡ keys_of matches.now) }
{
    let mut keys = Vec::new(alloc);
    for found in matches {
        keys.push(found.key.clone()?)?;
    }
    Ok(keys)
}

/// What variables have by the match with this key, nothing where there is none.
fn find_env(alloc: Global, matches: &[Match], key: &Key) -> Result<Env, NoMemory>
    ensures { IfOk result (λ env. env
        ≡ option_map_or (λ env. env) (lookup (key_eq key.now) matches.now) no_bindings) }
{
    for found in matches {
        if *key == found.key {
            return Ok(found.env.clone()?);
        }
    }
    Ok(Env::new(alloc))
}
