//! A branch.
ghost use Rattle.std.specs.Prelude.{◌≡◌, ◌≤◌, ◌+◌, ◌++◌, IfOk, OnOk, Option, map};
ghost use Rattle.std.specs.Map.{lookup};
ghost use Rattle.std.specs.Option.{option_map_or};
ghost use Rattle.cb_alpha_network.specs.Networks.{AreAlphas, AreAtRest};
ghost use Rattle.cb_branch.specs.Branches.{AreAdded, AreTurned, CanBeFilled, HasSameAlphas, IsBefore, IsBranchOver, IsEntered, IsLeft, branch_elements, branch_numbers};
ghost use Rattle.cb_branch.specs.Alphas.{Facts, live_facts};
ghost use Rattle.cb_branch.specs.Patterns.{branch_patterns, shape_tests};
ghost use Rattle.cb_branch.specs.Entries.{GainsPatterns};
ghost use Rattle.cb_branch.specs.Internal.{IsEndOf};
ghost use Rattle.cb_exprs.specs.Bindings.{no_bindings};
ghost use Rattle.cb_facts.specs.FactLists.{IndexedFacts};
ghost use Rattle.cb_facts.specs.Facts.{FactValue};
ghost use Rattle.cb_matches.specs.Changes.{AddsNumbers, IsNumber, TellsMoreNumbers};
ghost use Rattle.cb_matches.specs.Keys.{key_eq};
ghost use Rattle.cb_matches.specs.Matches.{matches_of};
ghost use Rattle.cb_matches.specs.Networks.{keyed};
ghost use Rattle.cb_matches.specs.Order.{IsRising};
ghost use Rattle.cb_matches.specs.Probes.{branch_probes};
ghost use Rattle.cb_rule_keys.specs.Keys.{Tells, keys_in_branch};
ghost use Rattle.cb_rules.specs.Elements.{element_of, elements};

use crate::clearing::{clear_nodes, empty_lists};
use crate::entering::enter_nodes;
use crate::filling::add_first;
use crate::leaving::leave_nodes;
use crate::node::Node;
use crate::planning::plan_nodes;
use crate::turning::turn;
use cb_alpha::AlphaMemory;
use cb_alpha_network::AlphaNetwork;
use cb_beta::BetaMemory;
use cb_branch_end::BranchEnd;
use cb_eval::Constants;
use cb_exprs::Env;
use cb_facts::FactList;
use cb_fit::Meter;
use cb_fit::laws::the_ways_rise_by_their_cuts;
use cb_forms::{History, NoMemory};
use cb_matches::{Delta, Key};
use cb_rules::Ce;
use cb_token_lists::{Source, TokenLists};
use std::alloc::Global;

/// A branch: its nodes, and the lists that these make.
#[derive(Drop)]
pub struct Branch<T> {
    /// Its elements, for contracts alone.
    pub(crate) elements: History<Ce<T>>,
    pub(crate) nodes: Vec<Node<T>>,
    /// What the list behind each node goes on from.
    pub(crate) sources: Vec<Source>,
    /// The number of the list of its matches.
    pub(crate) last: usize,
    /// The list before the first node, and the one that each node makes; none before anything is found.
    pub(crate) lists: Vec<BetaMemory>,
}

impl<T> Branch<T> {
    /// What is to be kept for a branch, before anything is found. Growth is refused as `NoMemory`, here and below; what a branch is then
    /// isn't said.
    pub fn plan(alloc: Global, branch: Vec<Ce<T>>) -> Result<Branch<T>, NoMemory>
        ensures elements { IfOk result
            (λ b. branch_elements b ≡ elements (map element_of branch.items)) }
        ensures plan { IfOk result CanBeFilled }
    {
        let elements = history_of(branch.as_slice());
        let plan = plan_nodes(alloc, branch)?;
        Ok(Branch {
            elements,
            nodes: plan.nodes,
            sources: plan.sources,
            last: plan.last,
            lists: Vec::new(alloc),
        })
    }

    /// Enters its patterns in the alpha network, as those of the branch with a number of the rule with a number.
    pub fn enter(
        &mut self,
        alloc: Global,
        constants: &Constants,
        facts: &FactList,
        rule: u64,
        number: u64,
        network: &mut AlphaNetwork<T>,
        meter: &mut Meter<T>,
    ) -> Result<(), NoMemory>
        requires plan { CanBeFilled self.old }
        requires rest { AreAtRest network.old.memories }
        ensures elements { OnOk result (branch_elements self.new ≡ branch_elements self.old) }
        ensures plan { OnOk result (CanBeFilled self.new) }
        ensures entered { OnOk result (IsEntered network.new rule number self.new) }
        ensures network { OnOk result (GainsPatterns facts.now (branch_patterns (branch_elements self.old))
            network.old network.new) }
    {
        enter_nodes(
            self.nodes.as_mut_slice(),
            alloc,
            constants,
            facts,
            rule,
            number,
            network,
            meter,
        )
    }

    /// Takes its patterns out of the alpha network again, where it is the branch with this number of the rule with this number.
    pub fn leave(
        &self,
        alloc: Global,
        rule: u64,
        number: u64,
        network: &mut AlphaNetwork<T>,
    ) -> Result<(), NoMemory>
        ensures left { OnOk result (CanBeFilled self.now → IsEntered network.old rule number self.now
            → IsLeft rule number (branch_patterns (branch_elements self.now)) network.old network.new) }
        ensures alphas { OnOk result ((fs : IndexedFacts) → AreAlphas network.old fs → AreAlphas network.new fs) }
    {
        leave_nodes(self.nodes.as_slice(), alloc, rule, number, network)
    }

    /// Finds all matches, and what is kept, in place of what was. The keys stand behind those that are told of before, in their order,
    /// and so do the numbers of the matches.
    pub fn fill(
        &mut self,
        alloc: Global,
        constants: &Constants,
        alphas: &[AlphaMemory],
        rule: u64,
        number: u64,
        come: &mut Vec<Key>,
        come_numbers: &mut Vec<u32>,
        meter: &mut Meter<T>,
    ) -> Result<(), NoMemory>
        requires { CanBeFilled self.old }
        ensures elements { OnOk result (branch_elements self.new ≡ branch_elements self.old) }
        ensures alphas { OnOk result (HasSameAlphas self.old self.new) }
        ensures over { OnOk result ((fs : IndexedFacts) → IsRising fs → AreTurned alphas.now fs fs self.old
            → IsBranchOver (live_facts alphas.now) fs self.new) }
        ensures come { OnOk result ((fs : IndexedFacts) → IsRising fs → AreTurned alphas.now fs fs self.old
            → come.new.items ≡ come.old.items ++ keys_in_branch rule number (branch_elements self.old) fs) }
        ensures numbers { OnOk result ((fs : IndexedFacts) → IsRising fs → AreTurned alphas.now fs fs self.old
            → AddsNumbers (IsNumber (branch_numbers rule number self.new)) come.old.items come.new.items come_numbers.old.items come_numbers.new.items) }
    {
        the_ways_rise_by_their_cuts();
        self.lists = empty_lists(alloc, self.sources.len() + 1)?;
        clear_nodes(self.nodes.as_mut_slice());
        add_first(self.lists.as_mut_slice())?;
        let mut delta = Delta {
            gone: Vec::new(alloc),
            come: Vec::new(alloc),
            gone_numbers: Vec::new(alloc),
            come_numbers: Vec::new(alloc),
        };
        turn(
            self, alloc, constants, alphas, rule, number, &mut delta, meter,
        )?;
        come.append(&mut delta.come)?;
        come_numbers.append(&mut delta.come_numbers)?;
        Ok(())
    }

    /// Changes the facts, where the alpha memories have changed already. The keys of the matches that go and come stand behind those
    /// that are told of before, in their order, and so do their numbers.
    pub fn change(
        &mut self,
        alloc: Global,
        constants: &Constants,
        alphas: &[AlphaMemory],
        rule: u64,
        number: u64,
        delta: &mut Delta,
        meter: &mut Meter<T>,
    ) -> Result<(), NoMemory>
        ensures elements { OnOk result (branch_elements self.new ≡ branch_elements self.old) }
        ensures alphas { OnOk result (HasSameAlphas self.old self.new) }
        ensures over { OnOk result ((fs fs' : IndexedFacts) → IsBefore alphas.now fs fs' self.old
            → IsBranchOver (live_facts alphas.now) fs' self.new) }
        ensures told { OnOk result ((fs fs' : IndexedFacts) → IsBefore alphas.now fs fs' self.old
            → Tells delta.old delta.new (keys_in_branch rule number (branch_elements self.old) fs)
            (keys_in_branch rule number (branch_elements self.old) fs')) }
        ensures numbers { OnOk result ((fs fs' : IndexedFacts) → IsBefore alphas.now fs fs' self.old
            → TellsMoreNumbers (IsNumber (branch_numbers rule number self.old)) (IsNumber (branch_numbers rule number self.new)) delta.old delta.new) }
        ensures probes { OnOk result ((fs fs' : IndexedFacts) (added : Option FactValue)
            → IsBefore alphas.now fs fs' self.old → AreAdded alphas.now added self.old
            → meter.new + shape_tests added (branch_elements self.old)
            ≤ meter.old + branch_probes added fs fs' (branch_elements self.old)) }
    {
        the_ways_rise_by_their_cuts();
        turn(self, alloc, constants, alphas, rule, number, delta, meter)
    }

    /// Tells the keys of all matches, in their order, and their numbers, behind those that are told of before.
    pub fn tell(
        &self,
        alloc: Global,
        constants: &Constants,
        rule: u64,
        number: u64,
        keys: &mut Vec<Key>,
        numbers: &mut Vec<u32>,
    ) -> Result<(), NoMemory>
        ensures told { OnOk result ((facts : Facts) (fs : IndexedFacts) → IsRising fs
            → IsBranchOver facts fs self.now
            → keys.new.items ≡ keys.old.items ++ keys_in_branch rule number (branch_elements self.now) fs) }
        ensures numbers { OnOk result ((facts : Facts) (fs : IndexedFacts) → IsBranchOver facts fs self.now
            → AddsNumbers (IsNumber (branch_numbers rule number self.now)) keys.old.items keys.new.items numbers.old.items numbers.new.items) }
    {
        the_ways_rise_by_their_cuts();
        self.end(alloc, constants, rule, number)
            .tell_all(keys, numbers)
    }

    /// What variables have by the match with this key, nothing where the branch has none.
    pub fn env(&self, alloc: Global, constants: &Constants, key: &Key) -> Result<Env, NoMemory>
        ensures { IfOk result (λ env. (facts : Facts) (fs : IndexedFacts) → IsRising fs
            → IsBranchOver facts fs self.now
            → env ≡ option_map_or (λ env. env) (lookup (key_eq key.now)
            (map (keyed key.now.rule key.now.branch) (matches_of (branch_elements self.now) fs))) no_bindings) }
    {
        the_ways_rise_by_their_cuts();
        let end = self.end(alloc, constants, key.rule(), key.branch());
        let Some(number) = end.find(key)? else {
            return Ok(Env::new(alloc));
        };
        end.lists.env(end.last, number)
    }

    /// The list of its matches, where it is the branch with a number of the rule with a number.
    pub(crate) fn end<'a>(
        &'a self,
        alloc: Global,
        constants: &'a Constants,
        rule: u64,
        number: u64,
    ) -> BranchEnd<'a>
        ensures { IsEndOf rule number self.now result }
    {
        let lists = TokenLists {
            alloc,
            constants,
            sources: self.sources.as_slice(),
            lists: self.lists.as_slice(),
        };
        BranchEnd {
            lists,
            last: self.last,
            rule,
            branch: number,
        }
    }
}

/// The elements of a branch, for contracts alone.
fn history_of<T>(branch: &[Ce<T>]) -> History<Ce<T>>
    ensures { result.items ≡ branch.now }
{
    let mut elements = History::new();
    for element in branch {
        elements = elements.and(element);
    }
    elements
}
