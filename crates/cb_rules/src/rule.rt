//! Rules.
use crate::ce::Ce;
use crate::layout::Layout;
use cb_exprs::Expr;
use cb_facts::Name;

/// A rule (`docs/LANGUAGE.md`, "Rules").
///
/// `T` is a mark of the caller's: its patterns can be tested with a meter of the same type alone.
#[derive(Drop)]
pub struct Rule<T> {
    /// Its name.
    pub name: Name,
    /// Its salience, from -10000 to 10000.
    pub salience: i64,
    /// What each way through its `or` elements asks, element by element; without them there is one.
    pub branches: Vec<Vec<Ce<T>>>,
    /// The layout of each branch.
    pub layouts: Vec<Layout>,
    /// Its actions.
    pub actions: Vec<Expr>,
    /// The relations that it names, each once: those of its patterns, in all branches, and then those of the facts that its
    /// actions assert, at any depth. They come in the order in which they are first named.
    pub relations: Vec<Name>,
}
