//! A change of one node.
ghost use Rattle.std.specs.Prelude.{◌≡◌, ◌<◌, ◌≤◌, ◌+◌, ℕ, List, OnOk, Option, Some, length, slice_get, suc};
ghost use Rattle.cb_beta.specs.BetaMemories.{BetaMemoryValue};
ghost use Rattle.cb_branch.specs.Alphas.{AlphaUse, TakesAdded, alpha_use};
ghost use Rattle.cb_branch.specs.Turning.{IsFirstAfter, IsNodeAfter, IsNodeBefore, IsNodeDone, IsSameNode};
ghost use Rattle.cb_facts.specs.FactLists.{IndexedFacts};
ghost use Rattle.cb_facts.specs.Facts.{FactValue};
ghost use Rattle.cb_flat.specs.Joined.{flat_joins_of};
ghost use Rattle.cb_nodes.specs.Flat.{Lists, node_list};
ghost use Rattle.cb_branch.specs.Nodes.{flat_node};

use crate::node::Node;
use cb_alpha::AlphaMemory;
use cb_beta::BetaMemory;
use cb_eval::Constants;
use cb_fit::Meter;
use cb_forms::NoMemory;
use cb_test_node::change_test;
use cb_token_lists::{Source, TokenLists};
use std::alloc::Global;

/// Changes the tokens of the list with a number, behind a node. The lists before it have changed already. Growth is refused as
/// `NoMemory`, and then some of the change may be done.
pub(crate) fn change_list<T>(
    alloc: Global,
    constants: &Constants,
    sources: &[Source],
    alphas: &[AlphaMemory],
    number: usize,
    node: &mut Node<T>,
    lists: &mut [BetaMemory],
    meter: &mut Meter<T>,
) -> Result<(), NoMemory>
    ensures same { IsSameNode node.old node.new }
    ensures done { OnOk result ((k : ℕ) (before : List BetaMemoryValue) (fs fs' : IndexedFacts) (old new : Lists) (own : BetaMemoryValue)
        → number ≡ suc k → IsNodeBefore alphas.now sources.now before lists.old lists.old fs fs' old new k node.old own
        → old (suc k) ≡ node_list (flat_node node.old) fs old → new (suc k) ≡ node_list (flat_node node.old) fs' new
        → IsNodeDone alphas.now sources.now before lists.old lists.new old new k node.new) }
    ensures probes { OnOk result ((k : ℕ) (before : List BetaMemoryValue) (fs fs' : IndexedFacts) (old new : Lists) (own : BetaMemoryValue) (added : Option FactValue)
        → number ≡ suc k → IsNodeBefore alphas.now sources.now before lists.old lists.old fs fs' old new k node.old own
        → ((u : AlphaUse) → alpha_use node.old ≡ Some u → TakesAdded alphas.now added u)
        → meter.new ≤ meter.old + flat_joins_of added fs' old new (flat_node node.old)) }
{
    if number >= lists.len() {
        return Ok(());
    }
    let (before, behind) = lists.split_at_mut(number);
    change_first(
        alloc, constants, sources, alphas, before, node, behind, meter,
    )
}

/// Changes the tokens of the first of these lists, behind a node, which goes on from those that are read. Growth is refused as
/// `NoMemory`, and then some of the change may be done.
fn change_first<T>(
    alloc: Global,
    constants: &Constants,
    sources: &[Source],
    alphas: &[AlphaMemory],
    read: &[BetaMemory],
    node: &mut Node<T>,
    lists: &mut [BetaMemory],
    meter: &mut Meter<T>,
) -> Result<(), NoMemory>
    requires { 0 < length lists.old }
    ensures same { IsSameNode node.old node.new }
    ensures after { OnOk result ((before now : List BetaMemoryValue) (fs fs' : IndexedFacts) (old new : Lists) (k : ℕ) (own : BetaMemoryValue)
        → slice_get lists.old 0 ≡ Some own → IsNodeBefore alphas.now sources.now before now read.now fs fs' old new k node.old own
        → IsFirstAfter alphas.now sources.now read.now fs fs' old new node.old node.new own lists.old lists.new) }
    ensures probes { OnOk result ((before now : List BetaMemoryValue) (fs fs' : IndexedFacts) (old new : Lists) (k : ℕ) (own : BetaMemoryValue) (added : Option FactValue)
        → slice_get lists.old 0 ≡ Some own → IsNodeBefore alphas.now sources.now before now read.now fs fs' old new k node.old own
        → ((u : AlphaUse) → alpha_use node.old ≡ Some u → TakesAdded alphas.now added u)
        → meter.new ≤ meter.old + flat_joins_of added fs' old new (flat_node node.old)) }
{
    let read = TokenLists {
        alloc,
        constants,
        sources,
        lists: read,
    };
    change_node(&read, node, alphas, &mut lists[0], meter)
}

/// Changes the tokens behind a node, in `own`. The lists before it have changed already. Growth is refused as `NoMemory`, and then some
/// of the change may be done.
fn change_node<T>(
    lists: &TokenLists<'_>,
    node: &mut Node<T>,
    alphas: &[AlphaMemory],
    own: &mut BetaMemory,
    meter: &mut Meter<T>,
) -> Result<(), NoMemory>
    ensures same { IsSameNode node.old node.new }
    ensures after { OnOk result ((before now : List BetaMemoryValue) (fs fs' : IndexedFacts) (old new : Lists) (k : ℕ)
        → IsNodeBefore alphas.now lists.now.sources.now before now lists.now.lists.now fs fs' old new k node.old own.old
        → IsNodeAfter alphas.now lists.now.sources.now lists.now.lists.now fs fs' old new node.old node.new own.old own.new) }
    ensures probes { OnOk result ((before now : List BetaMemoryValue) (fs fs' : IndexedFacts) (old new : Lists) (k : ℕ) (added : Option FactValue)
        → IsNodeBefore alphas.now lists.now.sources.now before now lists.now.lists.now fs fs' old new k node.old own.old
        → ((u : AlphaUse) → alpha_use node.old ≡ Some u → TakesAdded alphas.now added u)
        → meter.new ≤ meter.old + flat_joins_of added fs' old new (flat_node node.old)) }
{
    match node {
        Node::Join { alpha, node } => {
            let Some(memory) = alphas.get(*alpha as usize) else {
                return Ok(());
            };
            node.change(lists, memory, own, meter)
        }
        Node::Test { from, test } => change_test(lists, *from, test, own),
        Node::Group { node, .. } => node.change(lists, own),
        Node::Lone { alpha, node } => {
            let Some(memory) = alphas.get(*alpha as usize) else {
                return Ok(());
            };
            node.change(lists, memory, own)
        }
        Node::Lookup { alpha, node } => {
            let Some(memory) = alphas.get(*alpha as usize) else {
                return Ok(());
            };
            node.change(lists, memory, own)
        }
    }
}
