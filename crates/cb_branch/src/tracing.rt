//! What the lists of nodes go on from.
ghost use Rattle.std.specs.Prelude.{◌≡◌, IfOk};
ghost use Rattle.cb_flat.specs.Sources.{source_of, sources_of};
ghost use Rattle.cb_branch.specs.Nodes.{flat_node, flat_nodes};

use crate::node::Node;
use cb_facts::Name;
use cb_forms::NoMemory;
use cb_token_lists::Source;
use std::alloc::Global;

/// What the list behind each of these nodes goes on from. Growth is refused as `NoMemory`, and so are lists that are too many for
/// numbers of 32 bits.
pub(crate) fn trace_nodes<T>(alloc: Global, nodes: &[Node<T>]) -> Result<Vec<Source>, NoMemory>
    ensures { IfOk result (λ sources. sources.items ≡ sources_of (flat_nodes nodes.now)) }
{
    let mut sources = Vec::new(alloc);
    for node in nodes {
        sources.push(trace_node(node)?)?;
    }
    sources.shrink_to_fit();
    Ok(sources)
}

/// The same of one node.
fn trace_node<T>(node: &Node<T>) -> Result<Source, NoMemory>
    ensures { IfOk result (λ source. source ≡ source_of (flat_node node.now)) }
{
    match node {
        Node::Join { node, .. } => source(node.from, &node.asked.address),
        Node::Test { from, .. } => source(*from, &None),
        Node::Group { node, .. } => source(node.from, &None),
        Node::Lone { node, .. } => source(node.from, &None),
        Node::Lookup { node, .. } => source(node.from, &None),
    }
}

/// A list that goes on from the one with this number.
fn source(from: usize, address: &Option<Name>) -> Result<Source, NoMemory>
    ensures { IfOk result (λ source. source ≡ record { from = from; address = address.now }) }
{
    let Ok(from) = u32::try_from(from) else {
        return Err(NoMemory);
    };
    let address = match address {
        Some(name) => Some(name.clone()?),
        None => None,
    };
    Ok(Source { from, address })
}
