//! A change of a group of one pattern that stands alone.
ghost use Rattle.std.specs.Prelude.{◌≡◌, ◌↔◌, ℕ, [], List, OnOk, Option, Some, slice_get, true};
ghost use Rattle.cb_beta.specs.BetaMemories.{BetaMemoryValue};
ghost use Rattle.cb_facts.specs.FactLists.{IndexedFacts};
ghost use Rattle.cb_facts.specs.Facts.{FactValue};
ghost use Rattle.cb_fit.specs.StandsAlone.{stands_alone};
ghost use Rattle.cb_lone_node.specs.LoneNodes.{HasNone, IsAfterLone, IsBeforeLone, IsLoneReady, PassesAll};
ghost use Rattle.cb_matches.specs.Matches.{Partial};
ghost use Rattle.cb_token_lists.specs.Keeping.{KeepsTokens};
ghost use Rattle.cb_token_lists.specs.Partials.{partial_at};

use crate::passing::{arriving, leaving, pass_all};
use cb_alpha::AlphaMemory;
use cb_beta::BetaMemory;
use cb_fit::Pattern;
use cb_fit::laws::{
    a_fact_that_fits_is_selected, a_pattern_that_stands_alone_fits_what_is_selected,
};
use cb_forms::NoMemory;
use cb_group_node::{put_all, remove_all};
use cb_groups::Groups;
use cb_token_lists::TokenLists;
use std::alloc::Global;

/// A group of one pattern that stands alone, behind a list: it passes on all partial matches where "there is a fact with the shape of
/// the pattern" is `positive`, and else none.
#[derive(Drop)]
pub struct LoneNode<T> {
    /// Where memory is from.
    pub(crate) alloc: Global,
    /// The number of the list before it.
    pub from: usize,
    /// Whether it passes on where there is a fact, or where there is none.
    pub positive: bool,
    /// The pattern.
    pub pattern: Pattern<T>,
    /// The tokens before it, as one group.
    pub(crate) parents: Groups,
}

impl<T> LoneNode<T> {
    /// A group behind the list `from`, with no tokens before it yet. It takes no memory.
    pub fn new(alloc: Global, from: usize, positive: bool, pattern: Pattern<T>) -> LoneNode<T>
        ensures from { result.from ≡ from }
        ensures positive { result.positive ≡ positive }
        ensures pattern { result.pattern ≡ pattern }
        ensures ready { (facts : ℕ → Option (ℕ × FactValue)) → stands_alone pattern ≡ true
            → IsLoneReady result (λ number. ⊥) facts (record { tokens = []; gone = []; come = [] }) }
    {
        LoneNode {
            alloc,
            from,
            positive,
            pattern,
            parents: Groups::new(alloc),
        }
    }

    /// No tokens are before it any more, as in a new one. It takes no memory.
    pub fn clear(&mut self)
        ensures from { self.new.from ≡ self.old.from }
        ensures positive { self.new.positive ≡ self.old.positive }
        ensures pattern { self.new.pattern ≡ self.old.pattern }
        ensures ready { (facts : ℕ → Option (ℕ × FactValue)) → stands_alone self.old.pattern ≡ true
            → IsLoneReady self.new (λ number. ⊥) facts (record { tokens = []; gone = []; come = [] }) }
    {
        self.parents = Groups::new(self.alloc);
    }

    /// Changes the tokens behind the group, in `own`. The list before it has changed already, and the alpha memory of the pattern is as
    /// it is after the change. Growth is refused as `NoMemory`, and then some of the change may be done.
    pub fn change(
        &mut self,
        lists: &TokenLists<'_>,
        alpha: &AlphaMemory,
        own: &mut BetaMemory,
    ) -> Result<(), NoMemory>
        ensures from { self.new.from ≡ self.old.from }
        ensures positive { self.new.positive ≡ self.old.positive }
        ensures pattern { self.new.pattern ≡ self.old.pattern }
        ensures after { OnOk result ((before : BetaMemoryValue) (fs fs' : IndexedFacts) (old new : List Partial)
            → slice_get lists.now.lists.now self.old.from ≡ Some before
            → IsBeforeLone self.old (partial_at lists.now.sources.now lists.now.lists.now self.old.from)
            before alpha.now own.old fs fs' old new
            → IsAfterLone self.new (partial_at lists.now.sources.now lists.now.lists.now self.old.from)
            before alpha.now own.new fs fs' old new) }
        ensures keeps { OnOk result (KeepsTokens own.old own.new) }
    {
        a_fact_that_fits_is_selected();
        a_pattern_that_stands_alone_fits_what_is_selected();
        let Some(before) = lists.lists.get(self.from) else {
            return Ok(());
        };
        remove_all(&mut self.parents, before.gone());
        put_all(&mut self.parents, 0, before.come())?;
        let held = passes_all(self.positive, alpha.was_empty());
        let holds = passes_all(self.positive, alpha.is_empty());
        own.remove_all_children(before.gone())?;
        own.remove_all_children(leaving(held, holds, &self.parents))?;
        pass_all(arriving(held, holds, before.come(), &self.parents), own)
    }
}

/// Whether the group passes on all, by whether there is no fact.
fn passes_all(positive: bool, none: bool) -> bool
    ensures { (facts : ℕ → Option (ℕ × FactValue)) → (none ≡ true) ↔ HasNone facts
        → (result ≡ true) ↔ PassesAll positive facts }
{
    none != positive
}
