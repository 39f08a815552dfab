//! The search for ways. It keeps the lengths of the segments that were taken so far, and the choices that are open: at most
//! one for each segment. It takes up the choice that was opened last, so that shorter segments come first.
ghost use Rattle.std.specs.Prelude.{◌≡◌, ◌++◌, ◌+◌, ◌<◌, List, true, IfSome, IsSomeAnd, OnOk, map};
ghost use Rattle.cb_fit.specs.Internal.Choices.{AreEnough, AreOpen, AreUpTo, IsOpen, KeepsFirst, as_ways, kept_with, constraint_number, tries_if, tries_left, ways_if, ways_left};
ghost use Rattle.cb_fit.specs.Internal.Searches.{search_of};
ghost use Rattle.cb_fit.specs.WayValues.{way_of};

use crate::choice::Choice;
use crate::open_choices::{OpenChoices, open_next, open_others};
use crate::rest::Rest;
use crate::way::Way;
use cb_constraints::{Body, Segments};
use cb_eval::Constants;
use cb_exprs::Lookup;
use cb_facts::{Content, Name, Value};
use cb_forms::NoMemory;
use smallvec::SmallVec;
use std::alloc::Global;

/// What a search looks with.
#[derive_where(Clone, Copy)]
pub(crate) struct Search<'a, L> {
    pub(crate) alloc: Global,
    pub(crate) constants: &'a Constants,
    /// What the pattern asks.
    pub(crate) body: &'a Body,
    /// The content of the fact.
    pub(crate) content: &'a Content,
    /// The slots of the fact, if it is one of a template.
    pub(crate) slots: &'a [(Name, Value)],
    /// What variables have before.
    pub(crate) before: &'a L,
}

impl<'a, L: Lookup> Search<'a, L> {
    /// Keeps the ways that a choice becomes, if there is one: all, or where one is enough the first ones.
    #[tactic(auto, using(crate::proofs::Enough::all_are_enough))]
    pub(crate) fn run(
        self,
        first: Option<Choice<'a>>,
        is_one_enough: bool,
        cuts: &mut Segments,
        kept: &mut SmallVec<Way, 1>,
    ) -> Result<(), NoMemory>
        requires { IfSome first (IsOpen (search_of L.bindings self) cuts.old) }
        ensures { OnOk result (AreEnough is_one_enough (map way_of kept.new.items)
            (kept_with (search_of L.bindings self.entry) cuts.old kept.old.items first.entry)) }
    {
        match first {
            Some(choice) => self.run_from(choice, is_one_enough, cuts, kept),
            None => Ok(()),
        }
    }

    /// Keeps the ways that this choice becomes.
    fn run_from(
        self,
        first: Choice<'a>,
        is_one_enough: bool,
        cuts: &mut Segments,
        kept: &mut SmallVec<Way, 1>,
    ) -> Result<(), NoMemory>
        requires { IsOpen (search_of L.bindings self) cuts.old first }
        ensures { OnOk result (AreEnough is_one_enough (map way_of kept.new.items)
            (kept_with (search_of L.bindings self.entry) cuts.old kept.old.items
            (Some first.entry))) }
    {
        let mut choices = OpenChoices::new(self.alloc);
        choices.push(Some(first))?;
        while let Some(next) = choices.pop() {
            self.step(next, &mut choices, cuts, kept)?;
            if is_one_enough && !kept.is_empty() {
                return Ok(());
            }
        }
        Ok(())
    }

    /// Takes the segment of a choice up to the first place where it may end, opens the choice of the others, and goes on.
    fn step(
        self,
        next: Option<Choice<'a>>,
        choices: &mut OpenChoices<'a>,
        cuts: &mut Segments,
        kept: &mut SmallVec<Way, 1>,
    ) -> Result<(), NoMemory>
        requires choice { IsSomeAnd next (IsOpen (search_of L.bindings self) cuts.old) }
        requires open { AreOpen (search_of L.bindings self) cuts.old choices.old.items }
        requires order { AreUpTo (constraint_number next) choices.old.items }
        ensures open { OnOk result (AreOpen
            (search_of L.bindings self.entry) cuts.new choices.new.items) }
        ensures ways { OnOk result (map way_of kept.new.items
            ++ as_ways (search_of L.bindings self.entry) (ways_left
            (search_of L.bindings self.entry) cuts.new choices.new.items)
            ≡ map way_of kept.old.items
            ++ as_ways (search_of L.bindings self.entry) (ways_if
            (search_of L.bindings self.entry) cuts.old next.entry
            ++ ways_left (search_of L.bindings self.entry) cuts.old choices.old.items)) }
        ensures tries { OnOk result (tries_left choices.new.items
            < tries_if next.entry + tries_left choices.old.items) }
    {
        let Some(choice) = next else {
            return Ok(());
        };
        let Some(to) = choice.take(self, cuts)? else {
            return Ok(());
        };
        let (fields, rows) = (choice.fields, choice.rows);
        let rest = Rest {
            constraints: choice.rest,
            wanted: choice.wanted,
            at: to + choice.ones.len(),
        };
        open_others(choice, to, choices)?;
        let next = self.go_on(fields, rest, rows, cuts, kept)?;
        open_next(next, choices)
    }
}
