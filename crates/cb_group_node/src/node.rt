//! A change of a group node.
ghost use Rattle.std.specs.Prelude.{◌≡◌, ℕ, [], List, OnOk, Some, slice_get};
ghost use Rattle.cb_beta.specs.BetaMemories.{BetaMemoryValue};
ghost use Rattle.cb_group_node.specs.Nodes.{IsAfterGroup, IsBeforeGroup, IsGroupReady};
ghost use Rattle.cb_matches.specs.Matches.{Partial};
ghost use Rattle.cb_token_lists.specs.Keeping.{KeepsTokens};
ghost use Rattle.cb_token_lists.specs.Partials.{AreBelow, Meets, SourceValue, partial_at};

use crate::inside::{enter, touch, wait_all};
use crate::marks::{put_all, remove_all};
use crate::passing::{pass_all, retract};
use cb_beta::BetaMemory;
use cb_forms::NoMemory;
use cb_groups::Groups;
use cb_token_lists::TokenLists;
use std::alloc::Global;

/// A group behind a list: it passes on the partial matches for which "one inside the group goes on from it" is `positive`.
#[derive(Drop)]
pub struct GroupNode {
    /// Where memory is from.
    pub(crate) alloc: Global,
    /// The number of the list before it.
    pub from: usize,
    /// The number of the last list inside it.
    pub inner: usize,
    /// Whether it passes on where one inside goes on, or where none does.
    pub positive: bool,
    /// The tokens of the last list inside it, by those before it that they go on from.
    pub(crate) inside: Groups,
    /// In a change, the tokens before it that weren't passed on and may be now, as one group.
    pub(crate) waiting: Groups,
}

impl GroupNode {
    /// A group behind the list `from`, with nothing inside yet. It takes no memory.
    pub fn new(alloc: Global, from: usize, inner: usize, positive: bool) -> GroupNode
        ensures from { result.from ≡ from }
        ensures inner { result.inner ≡ inner }
        ensures positive { result.positive ≡ positive }
        ensures ready { (sources : List SourceValue) (lists : List BetaMemoryValue) (at : ℕ → Partial) (begun : List Partial)
            → IsGroupReady result (λ g i. Meets sources lists from g inner i) at (λ number. ⊥) (λ number. ⊥) begun
            (record { tokens = []; gone = []; come = [] }) }
    {
        GroupNode {
            alloc,
            from,
            inner,
            positive,
            inside: Groups::new(alloc),
            waiting: Groups::new(alloc),
        }
    }

    /// Nothing is inside any more, as in a new one. It takes no memory.
    pub fn clear(&mut self)
        ensures from { self.new.from ≡ self.old.from }
        ensures inner { self.new.inner ≡ self.old.inner }
        ensures positive { self.new.positive ≡ self.old.positive }
        ensures ready { (sources : List SourceValue) (lists : List BetaMemoryValue) (at : ℕ → Partial) (begun : List Partial)
            → IsGroupReady self.new (λ g i. Meets sources lists self.old.from g self.old.inner i) at (λ number. ⊥) (λ number. ⊥) begun
            (record { tokens = []; gone = []; come = [] }) }
    {
        self.inside = Groups::new(self.alloc);
        self.waiting = Groups::new(self.alloc);
    }

    /// Changes the tokens behind the group, in `own`. The lists before it have changed already. Growth is refused as `NoMemory`, and
    /// then some of the change may be done.
    pub fn change(&mut self, lists: &TokenLists<'_>, own: &mut BetaMemory) -> Result<(), NoMemory>
        ensures from { self.new.from ≡ self.old.from }
        ensures inner { self.new.inner ≡ self.old.inner }
        ensures positive { self.new.positive ≡ self.old.positive }
        ensures after { OnOk result ((before within : BetaMemoryValue) (width : ℕ) (old new begun begun' : List Partial)
            → AreBelow lists.now.sources.now
            → slice_get lists.now.lists.now self.old.from ≡ Some before
            → slice_get lists.now.lists.now self.old.inner ≡ Some within
            → IsBeforeGroup self.old (λ g i. Meets lists.now.sources.now lists.now.lists.now self.old.from g self.old.inner i)
            (partial_at lists.now.sources.now lists.now.lists.now self.old.from)
            (partial_at lists.now.sources.now lists.now.lists.now self.old.inner)
            before within width own.old old new begun begun'
            → IsAfterGroup self.new (λ g i. Meets lists.now.sources.now lists.now.lists.now self.old.from g self.old.inner i)
            (partial_at lists.now.sources.now lists.now.lists.now self.old.from)
            before within own.new old new begun begun') }
        ensures keeps { OnOk result (KeepsTokens own.old own.new) }
    {
        let Some(before) = lists.lists.get(self.from) else {
            return Ok(());
        };
        let Some(within) = lists.lists.get(self.inner) else {
            return Ok(());
        };
        let mut touched = Vec::new(lists.alloc);
        touch(lists, self.from, self.inner, within.gone(), &mut touched)?;
        touch(lists, self.from, self.inner, within.come(), &mut touched)?;
        wait_all(
            self.positive,
            &self.inside,
            touched.as_slice(),
            &mut self.waiting,
        )?;
        put_all(&mut self.waiting, 0, before.come())?;
        remove_all(&mut self.waiting, before.gone());
        remove_all(&mut self.inside, within.gone());
        enter(
            lists,
            self.from,
            self.inner,
            within.come(),
            &mut self.inside,
        )?;
        own.remove_all_children(before.gone())?;
        retract(self.positive, &self.inside, touched.as_slice(), own)?;
        let mut settled = Vec::new(lists.alloc);
        self.waiting.take(0, &mut settled)?;
        pass_all(self.positive, &self.inside, settled.as_slice(), own)
    }
}
