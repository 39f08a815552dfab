//! The place of a pattern among the rules.
ghost use Rattle.std.specs.Prelude.{◌↔◌, IsTrue};
ghost use Rattle.std.specs.List.Sorted.{IsStrictlySortedBy};
ghost use Rattle.cb_alpha_network.specs.Places.{place_cmp};
ghost use Rattle.cb_alpha_network.specs.declared.node_place.NodePlace.{NodePlace as Place};
ghost use Rattle.cb_matches.specs.Chains.{In};

/// The place of a node among the rules. Of two places the one with the lesser rule is the lesser, of one rule the one with the lesser
/// branch, and of one branch the one with the lesser node.
#[derive(Clone, Copy, PartialEq, Eq, PartialOrd, Ord)]
pub struct NodePlace {
    /// The number of the rule.
    pub rule: u64,
    /// The place of the branch among those of the rule, from 0.
    pub branch: u64,
    /// The place of the node among those of the branch, from 0.
    pub node: usize,
}

/// Whether a place is among these, which stand in their order.
pub fn is_found(found: &[NodePlace], place: NodePlace) -> bool
    requires { IsStrictlySortedBy place_cmp found.now }
    ensures { IsTrue result ↔ In place found.now }
{
    found.binary_search(&place).is_ok()
}

/// Puts places in their order, each once.
pub(crate) fn order(places: &mut Vec<NodePlace>)
    ensures ordered { IsStrictlySortedBy place_cmp places.new.items }
    ensures stay { (place : Place) → In place places.old.items → In place places.new.items }
{
    places.sort_unstable();
    places.dedup();
}
