//! A change of a join node.
ghost use Rattle.std.specs.Prelude.{◌≡◌, ◌≢◌, ◌≤◌, ◌+◌, ◌*◌, ◌⊎◌, ℕ, [], IfOk, List, None, OnOk, Option, Some, length, slice_get, true};
ghost use Rattle.cb_alpha.specs.AlphaMemories.{live};
ghost use Rattle.cb_alpha.specs.Turning.{IsApart, came_in};
ghost use Rattle.cb_beta.specs.BetaMemories.{BetaMemoryValue};
ghost use Rattle.cb_facts.specs.FactLists.{IndexedFacts};
ghost use Rattle.cb_facts.specs.Facts.{FactValue};
ghost use Rattle.cb_join_node.specs.Bounds.{join_probes};
ghost use Rattle.cb_join_node.specs.Meetings.{AreSelected, KnowsValues};
ghost use Rattle.cb_join_node.specs.Filings.{ArePartialsFiled, IsFiled, IsSamePlace, filed_values};
ghost use Rattle.cb_join_node.specs.Joins.{Joins, JoinsOne};
ghost use Rattle.cb_join_node.specs.Nodes.{AreAtMost, AsksTheSame, FindsFacts, IsAfter, IsBefore, IsReady, IsUnder, Stays, added_fact, tests_of};
ghost use Rattle.cb_matches.specs.Chains.{Chain, In};
ghost use Rattle.cb_matches.specs.Matches.{Partial};
ghost use Rattle.cb_nodes.specs.Patterns.{AreJoinFields};
ghost use Rattle.cb_token_lists.specs.Growth.{Comes};
ghost use Rattle.cb_token_lists.specs.Keeping.{KeepsTokens};
ghost use Rattle.cb_token_lists.specs.Partials.{partial_at};

use crate::filed::{forget_partials, partials_beside};
use crate::joining::{Joining, join_facts, join_partials};
use crate::partials::Partials;
use cb_alpha::{AlphaMemory, JoinValues, values_of_variables};
use cb_beta::BetaMemory;
use cb_fit::laws::{
    a_fact_that_fits_has_the_values_of_variables, a_fact_that_fits_is_selected,
    the_ways_rise_by_their_cuts,
};
use cb_fit::{JoinField, Meter};
use cb_forms::NoMemory;
use cb_groups::Groups;
use cb_token_lists::TokenLists;
use std::alloc::Global;

/// A pattern joined with the partial matches of the list before it.
#[derive(Drop)]
pub struct JoinNode<T> {
    /// The number of the list before it.
    pub from: usize,
    /// The number of the join of the pattern's alpha memory that finds facts by the fields, where there are some.
    pub join: usize,
    /// The partial matches before the pattern, by the values that they are joined on.
    pub(crate) partials: Partials,
    /// The partial matches that have not all of these values, as one group, and all where no value is asked.
    pub(crate) strays: Groups,
    /// What is asked of a fact.
    pub asked: Joining<T>,
    alloc: Global,
}

impl<T> JoinNode<T> {
    /// A node behind the list with this number, with nothing filed yet. The join has to be set when the alpha memory has it. It takes
    /// no memory.
    pub fn new(alloc: Global, from: usize, asked: Joining<T>) -> JoinNode<T>
        ensures asked { result.asked ≡ asked }
        ensures from { result.from ≡ from }
        ensures ready { (at : ℕ → Partial) (facts : ℕ → Option (ℕ × FactValue))
            → AreJoinFields asked.fields.items asked.address asked.pattern
            → IsReady result at (λ number. ⊥) facts (record { tokens = []; gone = []; come = [] }) }
    {
        JoinNode {
            asked,
            from,
            join: 0,
            partials: Partials::new(alloc),
            strays: Groups::new(alloc),
            alloc,
        }
    }

    /// Changes the tokens behind the pattern, in `own`. The lists before it have changed already, and so has the alpha memory of the
    /// pattern, in which what came and what went can be told. Growth is refused as `NoMemory`, and then some of the change may be
    /// done.
    pub fn change(
        &mut self,
        lists: &TokenLists<'_>,
        alpha: &AlphaMemory,
        own: &mut BetaMemory,
        meter: &mut Meter<T>,
    ) -> Result<(), NoMemory>
        ensures same { AsksTheSame self.old self.new }
        ensures after { OnOk result ((before : BetaMemoryValue) (fs fs' : IndexedFacts) (old new : List Partial)
            → slice_get lists.now.lists.now self.old.from ≡ Some before
            → IsBefore self.old (partial_at lists.now.sources.now lists.now.lists.now self.old.from)
            before alpha.now own.old fs fs' old new
            → IsAfter self.new (partial_at lists.now.sources.now lists.now.lists.now self.old.from)
            before alpha.now own.new fs fs' old new) }
        ensures keeps { OnOk result ((before : BetaMemoryValue) (fs fs' : IndexedFacts) (old new : List Partial)
            → slice_get lists.now.lists.now self.old.from ≡ Some before
            → IsBefore self.old (partial_at lists.now.sources.now lists.now.lists.now self.old.from)
            before alpha.now own.old fs fs' old new
            → KeepsTokens own.old own.new) }
        ensures probes { OnOk result ((before : BetaMemoryValue) (fs fs' : IndexedFacts) (old new : List Partial)
            → slice_get lists.now.lists.now self.old.from ≡ Some before
            → IsBefore self.old (partial_at lists.now.sources.now lists.now.lists.now self.old.from)
            before alpha.now own.old fs fs' old new
            → meter.new ≤ meter.old + join_probes self.old.asked.pattern (added_fact alpha.now) fs' old new) }
    {
        a_fact_that_fits_is_selected();
        the_ways_rise_by_their_cuts();
        a_fact_that_fits_has_the_values_of_variables();
        let Some(before) = lists.lists.get(self.from) else {
            return Ok(());
        };
        if before.is_empty() {
            return Ok(());
        }
        if is_untouched(before, alpha) {
            return Ok(());
        }
        own.retract(before.gone(), alpha.gone())?;
        forget_partials(&mut self.partials, &mut self.strays, before.gone());
        join_fact(
            lists,
            self.from,
            self.join,
            &self.asked,
            &self.partials,
            &self.strays,
            alpha,
            own,
            meter,
        )?;
        join_come(
            lists,
            self.from,
            self.join,
            &self.asked,
            &mut self.partials,
            &mut self.strays,
            alpha,
            before.come(),
            own,
            meter,
        )
    }

    /// Takes out all that is filed, as if nothing had ever been there, and frees its memory.
    pub fn clear(&mut self)
        ensures same { AsksTheSame self.old self.new }
        ensures ready { (at : ℕ → Partial) (facts : ℕ → Option (ℕ × FactValue))
            → AreJoinFields self.old.asked.fields.items self.old.asked.address self.old.asked.pattern
            → IsReady self.new at (λ number. ⊥) facts (record { tokens = []; gone = []; come = [] }) }
    {
        self.partials = Partials::new(self.alloc);
        self.strays = Groups::new(self.alloc);
    }
}

/// Whether nothing went or came, neither before the pattern nor in its alpha memory.
fn is_untouched(before: &BetaMemory, alpha: &AlphaMemory) -> bool
    ensures { result ≡ true
        → (before.now.gone ≡ []) × (before.now.come ≡ []) × (alpha.now.gone ≡ None) × (alpha.now.come ≡ None) }
{
    before.gone().is_empty()
        && before.come().is_empty()
        && alpha.gone().is_none()
        && alpha.come().is_none()
}

/// Joins the fact that came, if one did, with the partial matches that stand before the pattern.
fn join_fact<T>(
    lists: &TokenLists<'_>,
    from: usize,
    join: usize,
    asked: &Joining<T>,
    partials: &Partials,
    strays: &Groups,
    alpha: &AlphaMemory,
    own: &mut BetaMemory,
    meter: &mut Meter<T>,
) -> Result<(), NoMemory>
    ensures come { OnOk result ((before : BetaMemoryValue)
        → FindsFacts alpha.now join asked.now.fields.items → IsApart alpha.now
        → ArePartialsFiled asked.now.fields.items partials.now strays.now
        (partial_at lists.now.sources.now lists.now.lists.now from) (Stays before)
        → AreJoinFields asked.now.fields.items asked.now.address asked.now.pattern
        → ((n : ℕ) → Stays before n → KnowsValues asked.now (partial_at lists.now.sources.now lists.now.lists.now from n))
        → AreSelected asked.now.pattern alpha.now.candidates
        → Comes own.old own.new (Joins asked.now.address asked.now.pattern (tests_of asked.now)
        (partial_at lists.now.sources.now lists.now.lists.now from) (Stays before) (came_in alpha.now))) }
    ensures probes { OnOk result ((before : BetaMemoryValue) (kept : ℕ)
        → FindsFacts alpha.now join asked.now.fields.items → IsApart alpha.now
        → ArePartialsFiled asked.now.fields.items partials.now strays.now
        (partial_at lists.now.sources.now lists.now.lists.now from) (Stays before)
        → AreAtMost (Stays before) kept → meter.new ≤ meter.old + kept) }
    ensures untested { OnOk result (((number : ℕ) → came_in alpha.now number ≡ None)
        → meter.new ≤ meter.old) }
{
    a_fact_that_fits_has_the_values_of_variables();
    let Some(number) = alpha.come() else {
        return Ok(());
    };
    let Some(one) = alpha.candidate(number) else {
        return Ok(());
    };
    let fields = asked.fields.as_slice();
    let beside = partials_beside(lists.alloc, fields, partials, alpha, join, number);
    join_partials(lists, from, asked, beside, number, one, own, meter)?;
    join_partials(
        lists,
        from,
        asked,
        strays.members(0),
        number,
        one,
        own,
        meter,
    )
}

/// Joins these partial matches, which came before the pattern, with all facts, and files them.
fn join_come<T>(
    lists: &TokenLists<'_>,
    from: usize,
    join: usize,
    asked: &Joining<T>,
    partials: &mut Partials,
    strays: &mut Groups,
    alpha: &AlphaMemory,
    come: &[u32],
    own: &mut BetaMemory,
    meter: &mut Meter<T>,
) -> Result<(), NoMemory>
    ensures partials { OnOk result ((before : BetaMemoryValue)
        → ArePartialsFiled asked.now.fields.items partials.old strays.old
        (partial_at lists.now.sources.now lists.now.lists.now from) (Stays before)
        → ArePartialsFiled asked.now.fields.items partials.new strays.new
        (partial_at lists.now.sources.now lists.now.lists.now from) (λ number. Stays before number ⊎ In number come.now)) }
    ensures come { OnOk result (Chain (λ (i : ℕ) (j : ℕ). i ≢ j) come.now
        → FindsFacts alpha.now join asked.now.fields.items
        → AreJoinFields asked.now.fields.items asked.now.address asked.now.pattern
        → ((n : ℕ) → In n come.now → KnowsValues asked.now (partial_at lists.now.sources.now lists.now.lists.now from n))
        → AreSelected asked.now.pattern alpha.now.candidates
        → Comes own.old own.new (Joins asked.now.address asked.now.pattern (tests_of asked.now)
        (partial_at lists.now.sources.now lists.now.lists.now from) (λ number. In number come.now) (live alpha.now))) }
    ensures probes { OnOk result ((most : ℕ)
        → FindsFacts alpha.now join asked.now.fields.items
        → AreAtMost (IsUnder (live alpha.now)) most
        → meter.new ≤ meter.old + length come.now * most) }
{
    for number in come {
        join_partial(
            lists, from, join, asked, partials, strays, alpha, *number, own, meter,
        )?;
    }
    Ok(())
}

/// Joins a partial match that came before the pattern with all facts, and files it. Its values are looked for once: by them facts that
/// agree with it are found, and by them it is filed; where it has not all, or none is asked, all facts are tried. Growth is refused as `NoMemory`, and so is a count of sharers that is full.
fn join_partial<T>(
    lists: &TokenLists<'_>,
    from: usize,
    join: usize,
    asked: &Joining<T>,
    partials: &mut Partials,
    strays: &mut Groups,
    alpha: &AlphaMemory,
    number: u32,
    own: &mut BetaMemory,
    meter: &mut Meter<T>,
) -> Result<(), NoMemory>
    ensures filed { OnOk result (IsFiled asked.now.fields.items partials.new strays.new number
        (partial_at lists.now.sources.now lists.now.lists.now from number)) }
    ensures others { OnOk result ((other : ℕ) → (other ≡ number → ⊥)
        → IsSamePlace partials.old strays.old partials.new strays.new other) }
    ensures come { OnOk result (FindsFacts alpha.now join asked.now.fields.items
        → AreJoinFields asked.now.fields.items asked.now.address asked.now.pattern
        → KnowsValues asked.now (partial_at lists.now.sources.now lists.now.lists.now from number)
        → AreSelected asked.now.pattern alpha.now.candidates
        → Comes own.old own.new (JoinsOne asked.now.address asked.now.pattern (tests_of asked.now)
        (partial_at lists.now.sources.now lists.now.lists.now from number) number (live alpha.now))) }
    ensures probes { OnOk result ((most : ℕ)
        → FindsFacts alpha.now join asked.now.fields.items
        → AreAtMost (IsUnder (live alpha.now)) most → meter.new ≤ meter.old + most) }
{
    a_fact_that_fits_has_the_values_of_variables();
    partials.remove(number);
    strays.remove(number);
    match values_asked(lists, from, asked.fields.as_slice(), number)? {
        Some(values) => {
            let beside = alpha.facts_with(join, &values);
            join_facts(lists, from, asked, alpha, number, beside, own, meter)?;
            partials.add(number, values)
        }
        None => {
            let all = alpha.numbers();
            join_facts(lists, from, asked, alpha, number, all, own, meter)?;
            strays.add(0, number)
        }
    }
}

/// The values by which a partial match is found, or `None` where it has not all of them or none is asked. It is refused as `NoMemory`
/// where a look-up is, or growth.
fn values_asked(
    lists: &TokenLists<'_>,
    from: usize,
    fields: &[JoinField],
    number: u32,
) -> Result<Option<JoinValues>, NoMemory>
    ensures { IfOk result (λ values. values ≡ filed_values fields.now
        (partial_at lists.now.sources.now lists.now.lists.now from number)) }
{
    if fields.is_empty() {
        return Ok(None);
    }
    let known = lists.reading(from, number);
    values_of_variables(lists.alloc, fields, &known)
}
