//! A search tree of names, each with its value, whose nodes are shared.
ghost use Rattle.std.specs.Prelude.{◌≡◌, ◌∷◌, ◌++◌, IfErr, IfOk, OnErr, OnOk, option_copied};
ghost use Rattle.cb_exprs.specs.Bindings.{value_at, with_value, without_value};
ghost use Rattle.cb_exprs.specs.Internal.Trees.{IsOrdered, pairs_of, pairs_under};

use cb_facts::{Name, Value};
use cb_forms::NoMemory;
use std::alloc::{AllocError, Global};
use std::cmp::Ordering;
use std::rc::Rc;

/// Names, each with its value, in the nodes of a balanced search tree: the names of a node's left side are less than its own,
/// and those of its right side are greater. The heights of a node's sides differ by at most one, so that a path has at most
/// 1.45 nodes for each bit of the number of names.
///
/// Trees share nodes: a clone takes no memory, and is refused only where the count of sharers is full.
///
/// Contracts see the list of the pairs, from left to right.
#[cycle(tree)]
#[derive(Drop)]
pub(crate) enum Tree {
    Empty,
    Node(Rc<Node>),
}

/// A name with its value, and the trees at its sides.
#[cycle(tree)]
#[derive(Drop)]
pub(crate) struct Node {
    left: Tree,
    name: Name,
    value: Value,
    right: Tree,
    height: u8,
}

impl Clone for Tree {
    ghost is_clone = { λ tree copy. pairs_of copy ≡ pairs_of tree };

    fn clone(&self) -> Result<Tree, AllocError> {
        match self {
            Tree::Empty => Ok(Tree::Empty),
            Tree::Node(node) => Ok(Tree::Node(node.clone()?)),
        }
    }
}

impl Tree {
    /// The number of nodes of the longest path, or 255 where there are more.
    fn height(&self) -> u8 {
        match self {
            Tree::Empty => 0,
            Tree::Node(node) => node.height,
        }
    }

    /// The value that a name has.
    #[tactic(auto, using(crate::proofs::Ordered::ordered_front, crate::proofs::Ordered::ordered_right, crate::proofs::Ordered::value_left, crate::proofs::Ordered::value_here, crate::proofs::Ordered::value_right))]
    pub(crate) fn get(&self, name: &Name) -> Option<&Value>
        ensures { IsOrdered (pairs_of self.now)
            → option_copied result ≡ value_at name.now (pairs_of self.now) }
    {
        match self {
            Tree::Empty => None,
            Tree::Node(node) => match name.cmp(&node.name) {
                Ordering::Less => node.left.get(name),
                Ordering::Equal => Some(&node.value),
                Ordering::Greater => node.right.get(name),
            },
        }
    }

    /// Writes a value in place of the one that a name has. Where the name has none, or another tree shares a node of the path,
    /// the value is returned and nothing has changed. It takes no memory.
    pub(crate) fn write(&mut self, name: &Name, value: Value) -> Result<(), Value>
        ensures ok { OnOk result (IsOrdered (pairs_of self.old)
            → pairs_of self.new ≡ with_value name.now value (pairs_of self.old)) }
        ensures err { OnErr result (pairs_of self.new ≡ pairs_of self.old) }
        ensures back { IfErr result (λ v. v ≡ value) }
    {
        let Tree::Node(node) = self else {
            return Err(value);
        };
        let Some(node) = Rc::get_mut(node) else {
            return Err(value);
        };
        match name.cmp(&node.name) {
            Ordering::Less => node.left.write(name, value),
            Ordering::Equal => {
                node.value = value;
                Ok(())
            }
            Ordering::Greater => node.right.write(name, value),
        }
    }

    /// The tree in which a name has this value, in place of the one that it has, if it has one. It shares all nodes but those
    /// of the path. Growth is refused as `NoMemory`.
    pub(crate) fn with(&self, alloc: Global, name: &Name, value: Value) -> Result<Tree, NoMemory>
        ensures { IfOk result (λ tree. IsOrdered (pairs_of self.now)
            → pairs_of tree ≡ with_value name.now value (pairs_of self.now)) }
    {
        match self {
            Tree::Empty => join(alloc, Tree::Empty, name.clone()?, value, Tree::Empty),
            Tree::Node(node) => match name.cmp(&node.name) {
                Ordering::Less => {
                    let left = node.left.with(alloc, name, value)?;
                    balance(alloc, left, node, node.right.clone()?)
                }
                Ordering::Equal => join(
                    alloc,
                    node.left.clone()?,
                    node.name.clone()?,
                    value,
                    node.right.clone()?,
                ),
                Ordering::Greater => {
                    let right = node.right.with(alloc, name, value)?;
                    balance(alloc, node.left.clone()?, node, right)
                }
            },
        }
    }

    /// The tree in which a name has no value. It shares all nodes but those of the path. Growth is refused as `NoMemory`.
    pub(crate) fn without(&self, alloc: Global, name: &Name) -> Result<Tree, NoMemory>
        ensures { IfOk result (λ tree. IsOrdered (pairs_of self.now)
            → pairs_of tree ≡ without_value name.now (pairs_of self.now)) }
    {
        match self {
            Tree::Empty => Ok(Tree::Empty),
            Tree::Node(node) => match name.cmp(&node.name) {
                Ordering::Less => {
                    let left = node.left.without(alloc, name)?;
                    balance(alloc, left, node, node.right.clone()?)
                }
                Ordering::Equal => append(alloc, &node.left, &node.right),
                Ordering::Greater => {
                    let right = node.right.without(alloc, name)?;
                    balance(alloc, node.left.clone()?, node, right)
                }
            },
        }
    }
}

/// A node between two trees.
fn join(alloc: Global, left: Tree, name: Name, value: Value, right: Tree) -> Result<Tree, NoMemory>
    ensures { IfOk result
        (λ tree. pairs_of tree ≡ pairs_of left ++ (name, value) ∷ pairs_of right) }
{
    let height = left.height().max(right.height()).saturating_add(1);
    let node = Node {
        left,
        name,
        value,
        right,
        height,
    };
    Ok(Tree::Node(Rc::new(alloc, node)?))
}

/// A node between two trees, with the pair of another node.
fn rejoin(alloc: Global, left: Tree, middle: &Node, right: Tree) -> Result<Tree, NoMemory>
    ensures { IfOk result (λ tree. pairs_of tree
        ≡ pairs_of left ++ (middle.now.name, middle.now.value) ∷ pairs_of right) }
{
    let name = middle.name.clone()?;
    let value = middle.value.clone()?;
    join(alloc, left, name, value, right)
}

/// A node between two trees, whose heights differ by two at most, with the pair of another node. Where they differ by two, a
/// rotation evens them out.
fn balance(alloc: Global, left: Tree, middle: &Node, right: Tree) -> Result<Tree, NoMemory>
    ensures { IfOk result (λ tree. pairs_of tree
        ≡ pairs_of left ++ (middle.now.name, middle.now.value) ∷ pairs_of right) }
{
    if left.height() > right.height().saturating_add(1) {
        if let Tree::Node(high) = &left {
            return lean_right(alloc, high, middle, right);
        }
    }
    if right.height() > left.height().saturating_add(1) {
        if let Tree::Node(high) = &right {
            return lean_left(alloc, left, middle, high);
        }
    }
    rejoin(alloc, left, middle, right)
}

/// What `balance` does where the left tree, with this root, is two levels higher: the root rises, or that of its right side.
fn lean_right(alloc: Global, left: &Node, middle: &Node, right: Tree) -> Result<Tree, NoMemory>
    ensures { IfOk result (λ tree. pairs_of tree
        ≡ pairs_under left.now ++ (middle.now.name, middle.now.value) ∷ pairs_of right) }
{
    if left.right.height() > left.left.height() {
        if let Tree::Node(top) = &left.right {
            let low = rejoin(alloc, left.left.clone()?, left, top.left.clone()?)?;
            let high = rejoin(alloc, top.right.clone()?, middle, right)?;
            return rejoin(alloc, low, top, high);
        }
    }
    let high = rejoin(alloc, left.right.clone()?, middle, right)?;
    rejoin(alloc, left.left.clone()?, left, high)
}

/// What `balance` does where the right tree, with this root, is two levels higher: the root rises, or that of its left side.
fn lean_left(alloc: Global, left: Tree, middle: &Node, right: &Node) -> Result<Tree, NoMemory>
    ensures { IfOk result (λ tree. pairs_of tree
        ≡ pairs_of left ++ (middle.now.name, middle.now.value) ∷ pairs_under right.now) }
{
    if right.left.height() > right.right.height() {
        if let Tree::Node(top) = &right.left {
            let low = rejoin(alloc, left, middle, top.left.clone()?)?;
            let high = rejoin(alloc, top.right.clone()?, right, right.right.clone()?)?;
            return rejoin(alloc, low, top, high);
        }
    }
    let low = rejoin(alloc, left, middle, right.left.clone()?)?;
    rejoin(alloc, low, right, right.right.clone()?)
}

/// The pairs of one tree, and then those of another, whose heights differ by one at most.
fn append(alloc: Global, left: &Tree, right: &Tree) -> Result<Tree, NoMemory>
    ensures { IfOk result (λ tree. pairs_of tree ≡ pairs_of left.now ++ pairs_of right.now) }
{
    match right {
        Tree::Empty => Ok(left.clone()?),
        Tree::Node(node) => {
            let (first, rest) = split_first(alloc, node)?;
            balance(alloc, left.clone()?, first, rest)
        }
    }
}

/// The first node of those under a node, and the tree of the others.
fn split_first<'a>(alloc: Global, node: &'a Node) -> Result<(&'a Node, Tree), NoMemory>
    ensures { IfOk result (λ split. pairs_under node.now
        ≡ (split.0.now.name, split.0.now.value) ∷ pairs_of split.1) }
{
    match &node.left {
        Tree::Empty => Ok((node, node.right.clone()?)),
        Tree::Node(left) => {
            let (first, rest) = split_first(alloc, left)?;
            let rest = balance(alloc, rest, node, node.right.clone()?)?;
            Ok((first, rest))
        }
    }
}
