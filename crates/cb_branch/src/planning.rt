//! The nodes of a branch, by its elements.
ghost use Rattle.std.specs.Prelude.{◌≡◌, ◌≤◌, ℕ, [], ◌∷◌, ◌++◌, All, IfOk, OnOk, false, length, map, option_to_list, take};
ghost use Rattle.cb_branch.specs.Internal.Bounds.{AreSame, with_names};
ghost use Rattle.cb_branch.specs.Internal.Plans.{ArePlanned, IsFurther, KeepsScopes, StandsAt, last_tested, last_with, node_with, nodes_with};
ghost use Rattle.cb_branch.specs.Nodes.{IsPlannedNode, flat_node, flat_nodes};
ghost use Rattle.cb_exprs.specs.Terms.{term_of};
ghost use Rattle.cb_fit.specs.Plain.{bound_names};
ghost use Rattle.cb_flat.specs.Sources.{sources_of};
ghost use Rattle.cb_nodes.specs.Flat.{branch_last, branch_nodes, joining};
ghost use Rattle.cb_rules.specs.Elements.{element_of, elements, group, test};
ghost use Rattle.cb_scopes.specs.Scopes.{Scope, scope_of};

use crate::bound::{Bound, bind_pattern};
use crate::by_values::asked_by;
use crate::kinds::{Kind, kind_of, lone_node, lookup_node, only_pattern};
use crate::node::Node;
use crate::tracing::trace_nodes;
use cb_exprs::Expr;
use cb_facts::Name;
use cb_fit::Pattern;
use cb_forms::NoMemory;
use cb_group_node::GroupNode;
use cb_join_node::JoinNode;
use cb_rules::Ce;
use cb_token_lists::Source;
use std::alloc::Global;

/// The elements of a branch as nodes.
#[derive(Drop)]
pub(crate) struct Plan<T> {
    /// The nodes, each behind those that it goes on from.
    pub nodes: Vec<Node<T>>,
    /// What the list behind each of them goes on from.
    pub sources: Vec<Source>,
    /// The number of the list at the end of the branch.
    pub last: usize,
}

/// Where elements that have their nodes end.
#[derive(Clone, Copy)]
pub(crate) struct End {
    /// The number of the list there.
    pub(crate) list: usize,
    /// How many parts its partial matches have.
    pub(crate) width: usize,
    /// Whether the last of them, but for tests behind it, is a pattern. Then its node is the last one, and a test that follows belongs
    /// to it.
    pub(crate) is_pattern: bool,
}

/// The nodes of a branch of these elements, before anything is kept. Growth is refused as `NoMemory`, and so are lists that are too
/// many for numbers of 32 bits.
pub(crate) fn plan_nodes<T>(alloc: Global, branch: Vec<Ce<T>>) -> Result<Plan<T>, NoMemory>
    ensures nodes { IfOk result (λ plan. flat_nodes plan.nodes.items
        ≡ branch_nodes (elements (map element_of branch.items))) }
    ensures last { IfOk result
        (λ plan. plan.last ≡ branch_last (elements (map element_of branch.items))) }
    ensures sources { IfOk result
        (λ plan. plan.sources.items ≡ sources_of (flat_nodes plan.nodes.items)) }
    ensures planned { IfOk result
        (λ plan. All (IsPlannedNode (scope_of (flat_nodes plan.nodes.items))) plan.nodes.items) }
{
    let mut nodes = Vec::new(alloc);
    let mut bound = Bound::new(alloc);
    let start = End {
        list: 0,
        width: 0,
        is_pattern: false,
    };
    let last = add_nodes(alloc, branch, start, &mut bound, &mut nodes)?;
    nodes.shrink_to_fit();
    let sources = trace_nodes(alloc, nodes.as_slice())?;
    Ok(Plan {
        nodes,
        sources,
        last,
    })
}

/// Adds the nodes of elements that stand behind `start`. `bound` gets the variables of these elements. The answer is the number of the
/// list behind them.
///
/// It calls itself as deep as groups are nested.
#[cycle(planning)]
fn add_nodes<T>(
    alloc: Global,
    branch: Vec<Ce<T>>,
    start: End,
    bound: &mut Bound,
    nodes: &mut Vec<Node<T>>,
) -> Result<usize, NoMemory>
    requires width { start.width ≤ length nodes.old.items }
    requires stands { StandsAt nodes.old.items start bound.old }
    ensures nodes { OnOk result (flat_nodes nodes.new.items
        ≡ nodes_with (flat_nodes nodes.old.items) start (elements (map element_of branch.items))) }
    ensures last { IfOk result (λ last. last
        ≡ last_with (flat_nodes nodes.old.items) start (elements (map element_of branch.items))) }
    ensures planned { OnOk result (ArePlanned nodes.new.items) }
    ensures scopes { OnOk result
        (KeepsScopes (flat_nodes nodes.old.items) (flat_nodes nodes.new.items)) }
    ensures bound { OnOk result (take (length bound.old) bound.new ≡ bound.old) }
{
    let mut end = start;
    for element in branch {
        end = add_node(alloc, element, end, bound, nodes)?;
    }
    Ok(end.list)
}

/// The same of one element, which stands behind `end`. The answer is the end behind it.
#[cycle(planning)]
fn add_node<T>(
    alloc: Global,
    element: Ce<T>,
    end: End,
    bound: &mut Bound,
    nodes: &mut Vec<Node<T>>,
) -> Result<End, NoMemory>
    requires width { end.width ≤ length nodes.old.items }
    requires stands { StandsAt nodes.old.items end bound.old }
    ensures further { IfOk result (λ behind. IsFurther (flat_nodes nodes.old.items)
        (flat_nodes nodes.new.items) end behind (element_of element)) }
    ensures width { IfOk result (λ behind. behind.width ≤ length nodes.new.items) }
    ensures stands { IfOk result (λ behind. StandsAt nodes.new.items behind bound.new) }
    ensures scopes { OnOk result
        (KeepsScopes (flat_nodes nodes.old.items) (flat_nodes nodes.new.items)) }
    ensures bound { OnOk result (take (length bound.old) bound.new ≡ bound.old) }
{
    match element {
        Ce::Pattern { address, pattern } => {
            let node = pattern_node(alloc, end.list, address, pattern, bound)?;
            nodes.push(node)?;
            Ok(End {
                list: nodes.len(),
                width: end.width + 1,
                is_pattern: true,
            })
        }
        Ce::Test(condition) => add_test(condition, end, nodes),
        Ce::Group { positive, inner } => add_group(alloc, positive, inner, end, bound, nodes),
    }
}

/// The same of a group. One of one pattern that stands alone, or is looked up by values, is a node without others before it.
#[cycle(planning)]
fn add_group<T>(
    alloc: Global,
    positive: bool,
    inner: Vec<Ce<T>>,
    end: End,
    bound: &mut Bound,
    nodes: &mut Vec<Node<T>>,
) -> Result<End, NoMemory>
    requires width { end.width ≤ length nodes.old.items }
    requires stands { StandsAt nodes.old.items end bound.old }
    ensures further { IfOk result (λ behind. IsFurther (flat_nodes nodes.old.items)
        (flat_nodes nodes.new.items) end behind (group positive (elements (map element_of inner.items)))) }
    ensures width { IfOk result (λ behind. behind.width ≤ length nodes.new.items) }
    ensures stands { IfOk result (λ behind. StandsAt nodes.new.items behind bound.new) }
    ensures scopes { OnOk result
        (KeepsScopes (flat_nodes nodes.old.items) (flat_nodes nodes.new.items)) }
    ensures bound { OnOk result (take (length bound.old) bound.new ≡ bound.old) }
{
    match kind_of(alloc, inner.as_slice())? {
        Kind::Alone => {
            let node = lone_node(alloc, end.list, positive, only_pattern(inner));
            push_behind(node, end, nodes)
        }
        Kind::LookedUp(compared) => {
            let pattern = only_pattern(inner);
            let node = lookup_node(alloc, end.list, positive, pattern, compared, bound)?;
            push_behind(node, end, nodes)
        }
        Kind::Nested => {
            let start = End {
                is_pattern: false,
                ..end
            };
            let count = bound.count();
            let last = add_nodes(alloc, inner, start, bound, nodes)?;
            bound.keep_first(count);
            let node = GroupNode::new(alloc, end.list, last, positive);
            let width = end.width;
            push_behind(Node::Group { width, node }, end, nodes)
        }
    }
}

/// Adds a node behind `end` that is no pattern's. The answer is the end behind it.
fn push_behind<T>(node: Node<T>, end: End, nodes: &mut Vec<Node<T>>) -> Result<End, NoMemory>
    ensures nodes { OnOk result (nodes.new.items ≡ nodes.old.items ++ node ∷ []) }
    ensures behind { IfOk result (λ behind. behind
        ≡ record { list = length nodes.new.items; width = end.width; is_pattern = false }) }
{
    nodes.push(node)?;
    Ok(End {
        list: nodes.len(),
        width: end.width,
        is_pattern: false,
    })
}

/// Adds a test behind `end`. Where it stands directly behind a pattern, it belongs to the node of the pattern.
fn add_test<T>(condition: Expr, end: End, nodes: &mut Vec<Node<T>>) -> Result<End, NoMemory>
    requires width { end.width ≤ length nodes.old.items }
    ensures further { IfOk result (λ behind. IsFurther (flat_nodes nodes.old.items)
        (flat_nodes nodes.new.items) end behind (test (term_of condition))) }
    ensures width { IfOk result (λ behind. behind.width ≤ length nodes.new.items) }
    ensures stands { IfOk result (λ behind. (names : Scope)
        → StandsAt nodes.old.items end names → StandsAt nodes.new.items behind names) }
    ensures scopes { OnOk result
        (KeepsScopes (flat_nodes nodes.old.items) (flat_nodes nodes.new.items)) }
{
    if end.is_pattern {
        add_to_last(condition, nodes)?;
        return Ok(end);
    }
    let node = Node::Test {
        from: end.list,
        test: condition,
    };
    push_behind(node, end, nodes)
}

/// Adds a test to those of the last node, if that is a pattern.
fn add_to_last<T>(condition: Expr, nodes: &mut Vec<Node<T>>) -> Result<(), NoMemory>
    ensures nodes { OnOk result (flat_nodes nodes.new.items
        ≡ last_tested (term_of condition ∷ []) (flat_nodes nodes.old.items)) }
    ensures len { OnOk result (length nodes.new.items ≡ length nodes.old.items) }
    ensures planned { OnOk result (ArePlanned nodes.old.items → ArePlanned nodes.new.items) }
{
    if let Some(node) = nodes.last_mut() {
        add_to(condition, node)?;
    }
    Ok(())
}

/// Adds a test to those of a node, if that is a pattern.
fn add_to<T>(condition: Expr, node: &mut Node<T>) -> Result<(), NoMemory>
    ensures node { OnOk result
        (flat_node node.new ≡ node_with (term_of condition ∷ []) (flat_node node.old)) }
    ensures planned { OnOk result ((scopes : ℕ → Scope)
        → IsPlannedNode scopes node.old → IsPlannedNode scopes node.new) }
{
    if let Node::Join { node, .. } = node {
        node.asked.tests.push(condition)?;
    }
    Ok(())
}

/// The node of a pattern, without tests. `bound` gets the variables that it gives values.
fn pattern_node<T>(
    alloc: Global,
    from: usize,
    address: Option<Name>,
    pattern: Pattern<T>,
    bound: &mut Bound,
) -> Result<Node<T>, NoMemory>
    ensures node { IfOk result (λ node. flat_node node ≡ joining from address pattern []) }
    ensures planned { IfOk result (λ node. (scopes : ℕ → Scope)
        → AreSame bound.old (scopes from) → IsPlannedNode scopes node) }
    ensures bound { OnOk result (bound.new
        ≡ with_names (option_to_list address ++ bound_names pattern) bound.old) }
{
    let asked = asked_by(alloc, address, pattern, bound)?;
    bind_pattern(alloc, &asked.address, &asked.pattern, bound)?;
    Ok(Node::Join {
        alpha: 0,
        node: JoinNode::new(alloc, from, asked),
    })
}
