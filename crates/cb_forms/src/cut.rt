//! What a byte of a script completes.
ghost use Rattle.std.specs.Prelude.{◌≡◌, ◌++◌, false};
ghost use Rattle.cb_forms.specs.Cuts.{item_readings, is_too_long};
ghost use Rattle.cb_forms.specs.Internal.Cuts.{cut_readings};

use crate::form::Item;

/// What a byte gave.
#[derive(Debug, Drop, PartialEq, Eq)]
pub enum Cut {
    /// Nothing yet.
    More,
    /// An item: one that ends with the byte, or a word that ends before it.
    Item(Item),
    /// A word that ends before the byte, and the item that the byte itself is.
    TwoItems(Item, Item),
    /// An item is longer than the limit.
    TooLong,
}

impl Cut {
    /// A word that ended before the byte, if there is one, and the item that ended with it, if there is one.
    pub(crate) fn of(before: Option<Item>, with: Option<Item>) -> Cut
        ensures items { cut_readings result ≡ item_readings before ++ item_readings with }
        ensures fits { is_too_long result ≡ false }
    {
        match (before, with) {
            (None, None) => Cut::More,
            (Some(item), None) | (None, Some(item)) => Cut::Item(item),
            (Some(first), Some(second)) => Cut::TwoItems(first, second),
        }
    }

    pub(crate) fn is_too_long(&self) -> bool
        ensures { result ≡ is_too_long self.now }
    {
        matches!(self, Cut::TooLong)
    }
}
