//! Nodes and lists as they were before anything was found.
ghost use Rattle.std.specs.Prelude.{◌≡◌, ℕ, IfOk, List, Some, length, slice_get};
ghost use Rattle.cb_beta.specs.BetaMemories.{BetaMemoryValue};
ghost use Rattle.cb_branch.specs.Ready.{AreNodesCleared, IsNodeCleared};
ghost use Rattle.cb_branch.specs.Turning.{ArePrepared, AreSameNodes, IsSameNode};
ghost use Rattle.cb_branch.specs.Nodes.{IsPrepared, no_tokens};
ghost use Rattle.cb_scopes.specs.Scopes.{Scope};

use crate::node::Node;
use cb_beta::BetaMemory;
use cb_forms::NoMemory;
use std::alloc::Global;

/// So many lists without tokens. Growth is refused as `NoMemory`.
pub(crate) fn empty_lists(alloc: Global, count: usize) -> Result<Vec<BetaMemory>, NoMemory>
    ensures long { IfOk result (λ lists. length lists.items ≡ count) }
    ensures empty { IfOk result (λ lists. (j : ℕ) (m : BetaMemoryValue) → slice_get lists.items j ≡ Some m → m ≡ no_tokens) }
{
    let mut lists = Vec::new(alloc);
    for _list in 0..count {
        lists.push(BetaMemory::new(alloc))?;
    }
    lists.shrink_to_fit();
    Ok(lists)
}

/// Nodes that keep nothing, as when they were planned. It takes no memory.
pub(crate) fn clear_nodes<T>(nodes: &mut [Node<T>])
    ensures same { AreSameNodes nodes.old nodes.new }
    ensures cleared { ArePrepared nodes.old → AreNodesCleared nodes.new }
{
    for node in nodes.iter_mut() {
        clear_node(node);
    }
}

/// The same of one node.
fn clear_node<T>(node: &mut Node<T>)
    ensures same { IsSameNode node.old node.new }
    ensures cleared { (scopes : ℕ → Scope) → IsPrepared scopes node.old → IsNodeCleared node.new }
{
    match node {
        Node::Join { node, .. } => node.clear(),
        Node::Test { .. } => {}
        Node::Group { node, .. } => node.clear(),
        Node::Lone { node, .. } => node.clear(),
        Node::Lookup { node, .. } => node.clear(),
    }
}
