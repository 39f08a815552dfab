//! The patterns of nodes, entered in the alpha network.
ghost use Rattle.std.specs.Prelude.{◌≡◌, IfOk, OnOk};
ghost use Rattle.cb_alpha.specs.Turning.{HasJoin};
ghost use Rattle.cb_alpha_network.specs.Networks.{AreAtRest, IsShapeOf, memory_at};
ghost use Rattle.cb_branch.specs.Entries.{AreNodesEntered, AreRenumbered, GainsPatterns, IsNodeEntered, IsRenumbered};
ghost use Rattle.cb_flat.specs.Taking.{pattern_count, patterns_of};
ghost use Rattle.cb_join_node.specs.Nodes.{FindsFacts};
ghost use Rattle.cb_branch.specs.Nodes.{flat_node, flat_nodes};

use crate::node::Node;
use cb_alpha_network::{AlphaNetwork, NodePlace};
use cb_eval::Constants;
use cb_facts::FactList;
use cb_fit::{JoinField, Meter};
use cb_forms::NoMemory;
use cb_join_node::JoinNode;
use cb_lookup_node::LookupNode;
use std::alloc::Global;

/// Enters the patterns of the nodes of a branch, the one with this number of the rule with this number. The alpha memory of each has
/// those of these facts that have its shape. Growth is refused as `NoMemory`, and so is a count of sharers that is full; then some may
/// have been entered.
pub(crate) fn enter_nodes<T>(
    nodes: &mut [Node<T>],
    alloc: Global,
    constants: &Constants,
    facts: &FactList,
    rule: u64,
    branch: u64,
    network: &mut AlphaNetwork<T>,
    meter: &mut Meter<T>,
) -> Result<(), NoMemory>
    requires { AreAtRest network.old.memories }
    ensures nodes { OnOk result (AreRenumbered nodes.old nodes.new) }
    ensures entered { OnOk result (AreNodesEntered network.new rule branch nodes.new) }
    ensures network { OnOk result (GainsPatterns facts.now (pattern_count (flat_nodes nodes.old)) network.old network.new) }
{
    let mut number = 0;
    for node in nodes.iter_mut() {
        let place = NodePlace {
            rule,
            branch,
            node: number,
        };
        enter_node(node, alloc, constants, facts, place, network, meter)?;
        number += 1;
    }
    Ok(())
}

/// The same of one node, which stands at this place.
fn enter_node<T>(
    node: &mut Node<T>,
    alloc: Global,
    constants: &Constants,
    facts: &FactList,
    place: NodePlace,
    network: &mut AlphaNetwork<T>,
    meter: &mut Meter<T>,
) -> Result<(), NoMemory>
    requires { AreAtRest network.old.memories }
    ensures node { OnOk result (IsRenumbered node.old node.new) }
    ensures entered { OnOk result (IsNodeEntered network.new place node.new) }
    ensures network { OnOk result (GainsPatterns facts.now (patterns_of (flat_node node.old)) network.old network.new) }
{
    match node {
        Node::Join { alpha, node } => {
            *alpha = enter_join(node, alloc, constants, facts, place, network, meter)?;
            Ok(())
        }
        Node::Lone { alpha, node } => {
            *alpha = network.enter(alloc, constants, facts, place, &node.pattern, meter)?;
            Ok(())
        }
        Node::Lookup { alpha, node } => {
            *alpha = enter_lookup(node, alloc, constants, facts, place, network, meter)?;
            Ok(())
        }
        Node::Test { .. } | Node::Group { .. } => Ok(()),
    }
}

/// The same of a group that is looked up, whose join is entered too. The answer is the number of its alpha memory.
fn enter_lookup<T>(
    node: &mut LookupNode<T>,
    alloc: Global,
    constants: &Constants,
    facts: &FactList,
    place: NodePlace,
    network: &mut AlphaNetwork<T>,
    meter: &mut Meter<T>,
) -> Result<u32, NoMemory>
    requires { AreAtRest network.old.memories }
    ensures node { OnOk result (node.new ≡ record node.old { join = node.new.join }) }
    ensures shape { IfOk result (λ alpha. IsShapeOf network.new alpha node.old.pattern place) }
    ensures join { IfOk result (λ alpha. HasJoin (memory_at network.new alpha) node.new.join node.old.fields.items) }
    ensures network { OnOk result (GainsPatterns facts.now 1 network.old network.new) }
{
    let alpha = network.enter(alloc, constants, facts, place, &node.pattern, meter)?;
    let looked_up = copied(alloc, node.fields.as_slice())?;
    node.join = network.join(alpha, looked_up, node.takes_ranges())?;
    Ok(alpha)
}

/// The same of a join node, whose join is entered too if it asks fields. The answer is the number of its alpha memory.
fn enter_join<T>(
    node: &mut JoinNode<T>,
    alloc: Global,
    constants: &Constants,
    facts: &FactList,
    place: NodePlace,
    network: &mut AlphaNetwork<T>,
    meter: &mut Meter<T>,
) -> Result<u32, NoMemory>
    requires { AreAtRest network.old.memories }
    ensures node { OnOk result (node.new ≡ record node.old { join = node.new.join }) }
    ensures shape { IfOk result (λ alpha. IsShapeOf network.new alpha node.old.asked.pattern place) }
    ensures join { IfOk result (λ alpha. FindsFacts (memory_at network.new alpha) node.new.join node.old.asked.fields.items) }
    ensures network { OnOk result (GainsPatterns facts.now 1 network.old network.new) }
{
    let alpha = network.enter(alloc, constants, facts, place, &node.asked.pattern, meter)?;
    if node.asked.fields.is_empty() {
        return Ok(alpha);
    }
    let fields = copied(alloc, node.asked.fields.as_slice())?;
    node.join = network.join(alpha, fields, false)?;
    Ok(alpha)
}

/// These fields once more.
fn copied(alloc: Global, fields: &[JoinField]) -> Result<Vec<JoinField>, NoMemory>
    ensures { IfOk result (λ copy. copy.items ≡ fields.now) }
{
    let mut copy = Vec::new(alloc);
    for field in fields {
        copy.push(JoinField {
            variable: field.variable.clone()?,
            slot: field.slot,
            field: field.field,
        })?;
    }
    Ok(copy)
}
