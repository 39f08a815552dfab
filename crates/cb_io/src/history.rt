//! A list that only contracts read.
ghost use Rattle.std.specs.Prelude.{◌≡◌, List, [], ◌∷◌, ◌++◌};
ghost use Rattle.std.specs.Borrow.{ftrue};

use std::marker::{Model, PhantomData};

/// A history that exists for contracts alone: a clause reads the list as `items`, and at run time it
/// takes no bytes and its methods do nothing.
///
/// A type keeps one where its contract speaks of what happened so far, as the bytes that it was given
/// or how many calls failed. Being a list and not a number, it never overflows.
///
/// By itself a history says nothing: no memory backs it, so it holds whatever its owner noted. The
/// owner ties it to what is real, by a `Model` whose `invariant` relates it to the real fields, or by
/// clauses that fix it in each method.
#[derive(Drop)]
pub struct History<T> {
    of: PhantomData<T>,
    pub ghost items: { List T },
}

impl<T> Model for History<T> {
    ghost also_owns = { λ _. ftrue };
}

impl<T> History<T> {
    /// The empty list.
    pub fn new() -> History<T>
        ensures { result.items ≡ [] }
    {
        History { of: PhantomData }
    }

    /// This list with one more item at its end. The list itself stays, so it is replaced by writing
    /// `self.stepped = self.stepped.and(&byte)`.
    pub fn and(&self, last: &T) -> History<T>
        ensures { result.items ≡ self.now.items ++ last.now ∷ [] }
    {
        History { of: PhantomData }
    }

    /// The same list once more, for a branch in which nothing happened.
    pub fn again(&self) -> History<T>
        ensures { result.items ≡ self.now.items }
    {
        History { of: PhantomData }
    }
}
