//! A node of a branch.
use cb_exprs::Expr;
use cb_group_node::GroupNode;
use cb_join_node::JoinNode;
use cb_lone_node::LoneNode;
use cb_lookup_node::LookupNode;

/// An element of a branch, and with a pattern the tests directly behind it. List 0 is before the first element; the node at place k
/// makes list k + 1 of the lists before it.
#[derive(Drop)]
pub(crate) enum Node<T> {
    /// A pattern with the tests behind it, joined with the partial matches of a list.
    Join {
        /// The number of the pattern's alpha memory; 0 until the pattern is entered in the alpha network.
        alpha: u32,
        /// The pattern, and what is kept to join it.
        node: JoinNode<T>,
    },
    /// A test of the partial matches of a list, where no pattern stands directly before it.
    Test {
        /// The number of the list before it.
        from: usize,
        /// The test.
        test: Expr,
    },
    /// A group, whose elements stand before it, and go on from the list before it too.
    Group {
        /// How many parts the partial matches before it have.
        width: usize,
        /// The group, and what is kept of the tokens inside it.
        node: GroupNode,
    },
    /// A group of one pattern that stands alone.
    Lone {
        /// The number of the pattern's alpha memory; 0 until the pattern is entered in the alpha network.
        alpha: u32,
        /// The group, and what is kept of the tokens before it.
        node: LoneNode<T>,
    },
    /// A group of one pattern that is looked up by values.
    Lookup {
        /// The number of the pattern's alpha memory; 0 until the pattern is entered in the alpha network.
        alpha: u32,
        /// The group, and what is kept of the tokens before it.
        node: LookupNode<T>,
    },
}
