//! Groups of one pattern: how they are kept.
ghost use Rattle.std.specs.Prelude.{◌≡◌, ℕ, IfOk, None, Some, is_some, map, true};
ghost use Rattle.cb_branch.specs.Internal.Bounds.{AreSame};
ghost use Rattle.cb_branch.specs.Internal.ByValues.{IsDecidedBy, IsKind};
ghost use Rattle.cb_branch.specs.Nodes.{IsPlannedNode, flat_node};
ghost use Rattle.cb_fit.specs.Comparisons.{decision};
ghost use Rattle.cb_fit.specs.Decisions.{decision_of};
ghost use Rattle.cb_fit.specs.StandsAlone.{stands_alone};
ghost use Rattle.cb_nodes.specs.Flat.{alone, is_looked_up, lone_pattern};
ghost use Rattle.cb_rules.specs.Elements.{element, element_of, elements, no_elements, pattern};
ghost use Rattle.cb_scopes.specs.Scopes.{Scope};

use crate::bound::Bound;
use crate::by_values::known_fields_of;
use crate::node::Node;
use cb_fit::{ComparedField, Decision, Pattern};
use cb_forms::NoMemory;
use cb_lone_node::LoneNode;
use cb_lookup_node::LookupNode;
use cb_rules::Ce;
use std::alloc::Global;

/// How a group is kept.
#[derive(Drop)]
pub(crate) enum Kind {
    /// It is of one pattern that stands alone.
    Alone,
    /// It is of one pattern that is looked up by values, and compares these fields.
    LookedUp(Vec<ComparedField>),
    /// It is of other elements, which have nodes of their own.
    Nested,
}

/// How a group of these elements is kept. Growth is refused as `NoMemory`, and so is a count of sharers that is full.
pub(crate) fn kind_of<T>(alloc: Global, inner: &[Ce<T>]) -> Result<Kind, NoMemory>
    ensures { IfOk result
        (λ kind. IsKind kind (lone_pattern (elements (map element_of inner.now)))) }
{
    if inner.len() != 1 {
        return Ok(Kind::Nested);
    }
    match &inner[0] {
        Ce::Pattern { address, pattern } => match address {
            None => kind_by(alloc, pattern),
            Some(_) => Ok(Kind::Nested),
        },
        Ce::Test(_) | Ce::Group { .. } => Ok(Kind::Nested),
    }
}

/// The same of a group of this pattern, without an address.
fn kind_by<T>(alloc: Global, only: &Pattern<T>) -> Result<Kind, NoMemory>
    ensures { IfOk result
        (λ kind. IsKind kind (lone_pattern (element (pattern None only.now) no_elements))) }
{
    if only.stands_alone() {
        return Ok(Kind::Alone);
    }
    match only.decide(alloc)? {
        Some(decision) if is_looked_up(&decision) => Ok(Kind::LookedUp(decision.compared)),
        _ => Ok(Kind::Nested),
    }
}

/// Whether a pattern is looked up, by what decides whether it fits.
fn is_looked_up(decision: &Decision<'_>) -> bool
    ensures { result ≡ is_looked_up (Some (decision_of decision.now)) }
{
    decision.chosen.is_empty() && decision.conditions.is_empty()
}

/// The pattern of a group that is of one alone.
pub(crate) fn only_pattern<T>(inner: Vec<Ce<T>>) -> Pattern<T>
    requires { is_some (lone_pattern (elements (map element_of inner.items))) ≡ true }
    ensures { lone_pattern (elements (map element_of inner.items)) ≡ Some result }
{
    match inner.into_iter().next() {
        Some(Ce::Pattern { pattern, .. }) => pattern,
        _ => unreachable!(),
    }
}

/// The node of a group of a pattern that stands alone.
pub(crate) fn lone_node<T>(
    alloc: Global,
    from: usize,
    positive: bool,
    pattern: Pattern<T>,
) -> Node<T>
    requires alone { stands_alone pattern ≡ true }
    ensures node { flat_node result ≡ alone from pattern positive }
    ensures planned { (scopes : ℕ → Scope) → IsPlannedNode scopes result }
{
    Node::Lone {
        alpha: 0,
        node: LoneNode::new(alloc, from, positive, pattern),
    }
}

/// The node of a group of a pattern that is looked up, and compares these fields, where these variables have values before it. Growth is
/// refused as `NoMemory`, and so is a count of sharers that is full.
pub(crate) fn lookup_node<T>(
    alloc: Global,
    from: usize,
    positive: bool,
    pattern: Pattern<T>,
    compared: Vec<ComparedField>,
    bound: &Bound,
) -> Result<Node<T>, NoMemory>
    requires decided { IsDecidedBy pattern compared.items }
    ensures node { IfOk result (λ node. flat_node node ≡ alone from pattern positive) }
    ensures planned { IfOk result (λ node. (scopes : ℕ → Scope)
        → AreSame bound.now (scopes from) → IsPlannedNode scopes node) }
{
    let known = known_fields_of(alloc, &pattern, bound)?;
    let node = LookupNode::new(alloc, from, positive, pattern, known, compared)?;
    Ok(Node::Lookup { alpha: 0, node })
}
