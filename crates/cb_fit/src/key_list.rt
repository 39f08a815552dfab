//! Lists in keys.
ghost use Rattle.std.specs.Prelude.{◌≡◌};
ghost use Rattle.std.specs.Cmp.Lexicographic.{pointwise, slice_cmp, slice_partial_cmp, lists_equiv, lists_agrees, lists_total, lists_ties, lists_per, lists_po};

use std::cmp::Ordering;
use std::marker::Model;

/// A list in a key: it compares item by item. Contracts see the list of the items.
#[derive(Drop)]
pub(crate) struct KeyList<T> {
    all: Vec<T>,
}

impl<T> Model for KeyList<T> {
    ghost use Rattle.std.specs.Prelude.{List};

    ghost Value = { List T };

    ghost view = { λ l. l.all.items };
}

impl<T> KeyList<T> {
    /// These items.
    pub(crate) fn new(all: Vec<T>) -> KeyList<T>
        ensures { result ≡ all.items }
    {
        KeyList { all }
    }

    /// The items.
    fn as_slice(&self) -> &[T]
        ensures { result.now ≡ self.now }
    {
        self.all.as_slice()
    }
}

impl<T: PartialEq> PartialEq for KeyList<T> {
    ghost eq = { pointwise T.eq };

    ghost laws = { lists_per T.laws };

    fn eq(&self, other: &KeyList<T>) -> bool {
        self.as_slice() == other.as_slice()
    }
}

impl<T: Eq> Eq for KeyList<T> {
    ghost laws = { lists_equiv T.Eq.laws };
}

impl<T: PartialOrd> PartialOrd for KeyList<T> {
    ghost partial_cmp = { slice_partial_cmp T.partial_cmp };

    ghost laws = { lists_po T.PartialOrd.laws };

    fn partial_cmp(&self, other: &KeyList<T>) -> Option<Ordering> {
        self.as_slice().partial_cmp(other.as_slice())
    }
}

impl<T: Ord> Ord for KeyList<T> {
    ghost cmp = { slice_cmp T.cmp };

    ghost total = { lists_total T.total };

    ghost matches_partial_cmp = { λ x y. lists_agrees T.matches_partial_cmp x y };

    ghost matches_eq = { λ x y. lists_ties T.cmp T.matches_eq x y };

    fn cmp(&self, other: &KeyList<T>) -> Ordering {
        self.as_slice().cmp(other.as_slice())
    }
}
