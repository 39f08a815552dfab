//! A change of all nodes of a branch, one after another.
ghost use Rattle.std.specs.Prelude.{◌≡◌, ◌≤◌, ◌+◌, ℕ, List, OnOk, Option};
ghost use Rattle.cb_beta.specs.BetaMemories.{BetaMemoryValue};
ghost use Rattle.cb_branch.specs.Alphas.{AlphaUse, HasUse, TakesAdded};
ghost use Rattle.cb_branch.specs.Turning.{AreNodesAfter, AreNodesBefore, AreSameNodes};
ghost use Rattle.cb_facts.specs.FactLists.{IndexedFacts};
ghost use Rattle.cb_facts.specs.Facts.{FactValue};
ghost use Rattle.cb_flat.specs.Joined.{flat_joins};
ghost use Rattle.cb_list_changes.specs.Resting.{AreEnded};
ghost use Rattle.cb_matches.specs.Matches.{Partial};
ghost use Rattle.cb_nodes.specs.Flat.{Lists};
ghost use Rattle.cb_branch.specs.Nodes.{flat_nodes};

use crate::node::Node;
use crate::one_node::change_list;
use cb_alpha::AlphaMemory;
use cb_beta::BetaMemory;
use cb_eval::Constants;
use cb_fit::Meter;
use cb_forms::NoMemory;
use cb_scopes::laws::the_lists_of_nodes_have_the_values_of_their_scopes;
use cb_token_lists::Source;
use std::alloc::Global;

/// Changes the tokens of all lists behind nodes, one after another. List 0 and the alpha memories have changed already. What went can
/// be read until `end_change`. Growth is refused as `NoMemory`, and then some of the change may be done.
pub(crate) fn change_nodes<T>(
    alloc: Global,
    constants: &Constants,
    sources: &[Source],
    alphas: &[AlphaMemory],
    nodes: &mut [Node<T>],
    lists: &mut [BetaMemory],
    meter: &mut Meter<T>,
) -> Result<(), NoMemory>
    ensures same { OnOk result (AreSameNodes nodes.old nodes.new) }
    ensures after { OnOk result ((before : List BetaMemoryValue) (fs fs' : IndexedFacts) (first first' : List Partial) (old new : Lists)
        → AreNodesBefore alphas.now sources.now before lists.old fs fs' first first' old new nodes.old
        → AreNodesAfter alphas.now sources.now before lists.new old new nodes.new) }
    ensures probes { OnOk result ((before : List BetaMemoryValue) (fs fs' : IndexedFacts) (first first' : List Partial) (old new : Lists) (added : Option FactValue)
        → AreNodesBefore alphas.now sources.now before lists.old fs fs' first first' old new nodes.old
        → ((k : ℕ) (u : AlphaUse) → HasUse nodes.old k u → TakesAdded alphas.now added u)
        → meter.new ≤ meter.old + flat_joins added fs' old new (flat_nodes nodes.old)) }
{
    the_lists_of_nodes_have_the_values_of_their_scopes();
    let mut number = 0;
    for node in nodes.iter_mut() {
        number += 1;
        change_list(
            alloc, constants, sources, alphas, number, node, lists, meter,
        )?;
    }
    Ok(())
}

/// The change ends in all lists: what is gone can't be read any more.
pub(crate) fn end_change(lists: &mut [BetaMemory])
    ensures { AreEnded lists.old lists.new }
{
    for list in lists.iter_mut() {
        list.end_change();
    }
}
