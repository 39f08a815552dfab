//! The nodes that use shapes.
ghost use Rattle.std.specs.Prelude.{◌≡◌, ◌↔◌, IsTrue};
ghost use Rattle.cb_alpha_network.specs.declared.node_place.NodePlace.{NodePlace as Place};
ghost use Rattle.cb_matches.specs.Chains.{In};

use crate::node_place::NodePlace;
use std::collections::BTreeSet;
use std::ops::Bound;

/// A node that uses a shape. Users are in the order of the shapes' numbers, and those of one shape in that of their places.
#[derive(Clone, Copy, PartialEq, Eq, PartialOrd, Ord)]
pub struct User {
    /// The number of the shape, and of its memory.
    pub alpha: u32,
    /// The place of the node.
    pub place: NodePlace,
}

/// What stands before all users of the shape with a number, or is the first of them.
pub(crate) fn first_user(alpha: u32) -> User
    ensures { result ≡ record { alpha = alpha; place = record { rule = 0; branch = 0; node = 0 } } }
{
    User {
        alpha,
        place: NodePlace {
            rule: 0,
            branch: 0,
            node: 0,
        },
    }
}

/// Whether a node uses the shape with a number.
pub(crate) fn is_used(users: &BTreeSet<User>, alpha: u32) -> bool
    ensures { IsTrue result ↔ ((place : Place) × In (record { alpha = alpha; place = place }) users.now.keys) }
{
    let first = first_user(alpha);
    match users
        .range((Bound::Included(&first), Bound::Unbounded))
        .next()
    {
        Some(user) => user.alpha == alpha,
        None => false,
    }
}
