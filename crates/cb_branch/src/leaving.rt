//! The patterns of nodes, taken out of the alpha network.
ghost use Rattle.std.specs.Prelude.{◌≡◌, ◌+◌, OnOk};
ghost use Rattle.cb_alpha_network.specs.Networks.{AreAlphas, KeepsShapesBut, use_count};
ghost use Rattle.cb_branch.specs.Entries.{AreNodesEntered, IsNodeEntered, KeepsShapesElsewhere};
ghost use Rattle.cb_facts.specs.FactLists.{IndexedFacts};
ghost use Rattle.cb_flat.specs.Taking.{pattern_count, patterns_of};
ghost use Rattle.cb_branch.specs.Nodes.{flat_node, flat_nodes};

use crate::node::Node;
use cb_alpha_network::{AlphaNetwork, NodePlace};
use cb_forms::NoMemory;
use std::alloc::Global;

/// Takes the patterns of the nodes of a branch out of the alpha network, the one with this number of the rule with this number. Growth
/// is refused as `NoMemory`, and so is a count of sharers that is full; then some may be in it still.
pub(crate) fn leave_nodes<T>(
    nodes: &[Node<T>],
    alloc: Global,
    rule: u64,
    branch: u64,
    network: &mut AlphaNetwork<T>,
) -> Result<(), NoMemory>
    ensures others { OnOk result (KeepsShapesElsewhere rule branch network.old network.new) }
    ensures alphas { OnOk result ((fs : IndexedFacts) → AreAlphas network.old fs → AreAlphas network.new fs) }
    ensures count { OnOk result (AreNodesEntered network.old rule branch nodes.now
        → use_count network.new + pattern_count (flat_nodes nodes.now) ≡ use_count network.old) }
{
    let mut number = 0;
    for node in nodes {
        let place = NodePlace {
            rule,
            branch,
            node: number,
        };
        leave_node(node, alloc, place, network)?;
        number += 1;
    }
    Ok(())
}

/// The same of one node, which stands at this place.
fn leave_node<T>(
    node: &Node<T>,
    alloc: Global,
    place: NodePlace,
    network: &mut AlphaNetwork<T>,
) -> Result<(), NoMemory>
    ensures others { OnOk result (KeepsShapesBut place network.old network.new) }
    ensures alphas { OnOk result ((fs : IndexedFacts) → AreAlphas network.old fs → AreAlphas network.new fs) }
    ensures count { OnOk result (IsNodeEntered network.old place node.now
        → use_count network.new + patterns_of (flat_node node.now) ≡ use_count network.old) }
{
    match node {
        Node::Join { alpha, .. } => network.leave(alloc, *alpha, place),
        Node::Lone { alpha, .. } => network.leave(alloc, *alpha, place),
        Node::Lookup { alpha, .. } => network.leave(alloc, *alpha, place),
        Node::Test { .. } | Node::Group { .. } => Ok(()),
    }
}
