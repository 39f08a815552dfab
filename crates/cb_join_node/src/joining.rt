//! Partial matches joined with facts.
ghost use Rattle.std.specs.Prelude.{◌≡◌, ◌≢◌, ◌≤◌, ◌+◌, ℕ, IfOk, OnOk, length, map};
ghost use Rattle.cb_exprs.specs.Terms.{term_of};
ghost use Rattle.cb_fit.specs.WayValues.{way_of};
ghost use Rattle.cb_join_node.specs.Meetings.{MayMeet, MayMeetAll, MayMeetOne, Meet};
ghost use Rattle.cb_join_node.specs.Joins.{IsOfFact, IsOfFacts, IsOfPartials, IsOfWay, IsOfWays, IsPair};
ghost use Rattle.cb_join_node.specs.KnownValues.{AreRead, IsRead};
ghost use Rattle.cb_join_node.specs.Nodes.{tests_of};
ghost use Rattle.cb_matches.specs.Chains.{Chain, In};
ghost use Rattle.cb_matches.specs.Matches.{Partial, grown};
ghost use Rattle.cb_nodes.specs.Flat.{all_hold};
ghost use Rattle.cb_token_lists.specs.Growth.{Comes};
ghost use Rattle.cb_token_lists.specs.Partials.{partial_at};

use crate::by_values::ByValues;
use crate::known_values::{KnownValues, compare_known, read_values};
use cb_alpha::{AlphaMemory, Candidate};
use cb_beta::{BetaMemory, Given, Token};
use cb_exprs::{Expr, Lookup};
use cb_facts::Name;
use cb_fit::laws::{a_pattern_is_decided_by_values, the_ways_rise_by_their_cuts};
use cb_fit::{JoinField, Meter, Pattern, Way, fit};
use cb_forms::NoMemory;
use cb_token_lists::{Grown, TokenLists};
use smallvec::SmallVec;

/// What a join node asks of a fact.
#[derive(Drop)]
pub struct Joining<T> {
    /// The fields of a fact that have to be equal to variables, by which partial matches and facts find each other.
    pub fields: Vec<JoinField>,
    /// The tests directly behind the pattern.
    pub tests: Vec<Expr>,
    /// How it is joined without a test of the pattern, where that is decided by values.
    pub by_values: Option<ByValues>,
    /// The variable of the `?f <-` before the pattern.
    pub address: Option<Name>,
    /// The pattern.
    pub pattern: Pattern<T>,
}

/// Joins a partial match of a list with each of these facts. Where the pattern is joined by values, they meet it by those.
pub(crate) fn join_facts<T>(
    lists: &TokenLists<'_>,
    from: usize,
    asked: &Joining<T>,
    alpha: &AlphaMemory,
    number: u32,
    candidates: &[u32],
    own: &mut BetaMemory,
    meter: &mut Meter<T>,
) -> Result<(), NoMemory>
    ensures come { OnOk result (Chain (λ (i : ℕ) (j : ℕ). i ≢ j) candidates.now
        → MayMeetAll asked.now (partial_at lists.now.sources.now lists.now.lists.now from number) alpha.now.candidates candidates.now
        → Comes own.old own.new (IsOfFacts asked.now.address asked.now.pattern (tests_of asked.now)
        (partial_at lists.now.sources.now lists.now.lists.now from number) number alpha.now.candidates candidates.now)) }
    ensures probes { OnOk result (meter.new ≤ meter.old + length candidates.now) }
{
    let values = read_for(lists, from, asked, number, candidates.len())?;
    let read = &values;
    for candidate in candidates {
        join_candidate(
            lists, from, asked, alpha, number, *candidate, read, own, meter,
        )?;
    }
    Ok(())
}

/// What variables have by a partial match that the pattern compares, read once where it is joined by values with more facts than one.
fn read_for<T>(
    lists: &TokenLists<'_>,
    from: usize,
    asked: &Joining<T>,
    number: u32,
    facts: usize,
) -> Result<Option<KnownValues>, NoMemory>
    ensures { IfOk result (λ read. AreRead asked.now
        (partial_at lists.now.sources.now lists.now.lists.now from number).env read) }
{
    match &asked.by_values {
        Some(by) if facts > 1 => {
            let known = lists.reading(from, number);
            let values = read_values(lists.alloc, by.compared.as_slice(), &known)?;
            Ok(Some(values))
        }
        _ => Ok(None),
    }
}

/// Joins a partial match of a list with the fact of this number, if there is one.
fn join_candidate<T>(
    lists: &TokenLists<'_>,
    from: usize,
    asked: &Joining<T>,
    alpha: &AlphaMemory,
    number: u32,
    candidate: u32,
    read: &Option<KnownValues>,
    own: &mut BetaMemory,
    meter: &mut Meter<T>,
) -> Result<(), NoMemory>
    requires { AreRead asked.now
        (partial_at lists.now.sources.now lists.now.lists.now from number).env read.now }
    ensures come { OnOk result
        (MayMeetOne asked.now (partial_at lists.now.sources.now lists.now.lists.now from number) alpha.now.candidates candidate
        → Comes own.old own.new (IsOfFact asked.now.address asked.now.pattern (tests_of asked.now)
        (partial_at lists.now.sources.now lists.now.lists.now from number) number alpha.now.candidates candidate)) }
    ensures probes { OnOk result (meter.new ≤ meter.old + 1) }
{
    match alpha.candidate(candidate) {
        Some(one) => join_one(lists, from, asked, number, candidate, one, read, own, meter),
        None => Ok(()),
    }
}

/// Joins each of these partial matches of a list with a fact. Where the pattern is joined by values, they meet it by those.
pub(crate) fn join_partials<T>(
    lists: &TokenLists<'_>,
    from: usize,
    asked: &Joining<T>,
    numbers: &[u32],
    candidate: u32,
    one: &Candidate,
    own: &mut BetaMemory,
    meter: &mut Meter<T>,
) -> Result<(), NoMemory>
    ensures come { OnOk result (Chain (λ (i : ℕ) (j : ℕ). i ≢ j) numbers.now
        → ((n : ℕ) → In n numbers.now → MayMeet asked.now (partial_at lists.now.sources.now lists.now.lists.now from n) one.now)
        → Comes own.old own.new (IsOfPartials asked.now.address asked.now.pattern (tests_of asked.now)
        (partial_at lists.now.sources.now lists.now.lists.now from) numbers.now candidate one.now)) }
    ensures probes { OnOk result (meter.new ≤ meter.old + length numbers.now) }
{
    for number in numbers {
        join_one(
            lists, from, asked, *number, candidate, one, &None, own, meter,
        )?;
    }
    Ok(())
}

/// Joins a partial match of a list with a fact.
fn join_one<T>(
    lists: &TokenLists<'_>,
    from: usize,
    asked: &Joining<T>,
    number: u32,
    candidate: u32,
    one: &Candidate,
    read: &Option<KnownValues>,
    own: &mut BetaMemory,
    meter: &mut Meter<T>,
) -> Result<(), NoMemory>
    requires { AreRead asked.now
        (partial_at lists.now.sources.now lists.now.lists.now from number).env read.now }
    ensures come { OnOk result
        (MayMeet asked.now (partial_at lists.now.sources.now lists.now.lists.now from number) one.now
        → Comes own.old own.new (IsPair asked.now.address asked.now.pattern (tests_of asked.now)
        (partial_at lists.now.sources.now lists.now.lists.now from number) number candidate one.now)) }
    ensures probes { OnOk result (meter.new ≤ meter.old + 1) }
{
    match &asked.by_values {
        Some(by) => join_by_values(lists, from, asked, by, number, candidate, one, read, own),
        None => join_by_test(lists, from, asked, number, candidate, one, own, meter),
    }
}

/// Joins a partial match with a fact that it meets by values: a token comes if the fields that are compared compare so, and the
/// conditions and the tests hold. The pattern isn't tested.
fn join_by_values<T>(
    lists: &TokenLists<'_>,
    from: usize,
    asked: &Joining<T>,
    by: &ByValues,
    number: u32,
    candidate: u32,
    one: &Candidate,
    read: &Option<KnownValues>,
    own: &mut BetaMemory,
) -> Result<(), NoMemory>
    requires { IsRead by.now.compared.items
        (partial_at lists.now.sources.now lists.now.lists.now from number).env read.now }
    ensures { OnOk result
        (Meet asked.now by.now (partial_at lists.now.sources.now lists.now.lists.now from number) one.now
        → Comes own.old own.new (IsPair asked.now.address asked.now.pattern (tests_of asked.now)
        (partial_at lists.now.sources.now lists.now.lists.now from number) number candidate one.now)) }
{
    a_pattern_is_decided_by_values();
    let known = lists.reading(from, number);
    let compares = compare_known(by.compared.as_slice(), &known, read, &one.fact)?;
    if !compares {
        return Ok(());
    }
    let given = Given::of_fields(&by.taken, &one.fact)?;
    let conditions = by.conditions.as_slice();
    let met = hold_after(lists, from, asked, conditions, number, one.index, &given)?;
    if !met {
        return Ok(());
    }
    add_given(lists, from, asked, number, candidate, one.index, given, own)
}

/// Joins a partial match with a fact by a test of the pattern: a token comes for each way in which it goes on with it and the tests hold.
fn join_by_test<T>(
    lists: &TokenLists<'_>,
    from: usize,
    asked: &Joining<T>,
    number: u32,
    candidate: u32,
    one: &Candidate,
    own: &mut BetaMemory,
    meter: &mut Meter<T>,
) -> Result<(), NoMemory>
    ensures come { OnOk result (Comes own.old own.new
        (IsPair asked.now.address asked.now.pattern (tests_of asked.now)
        (partial_at lists.now.sources.now lists.now.lists.now from number) number candidate one.now)) }
    ensures probes { meter.new ≤ meter.old + 1 }
{
    the_ways_rise_by_their_cuts();
    let before = Grown {
        before: lists.reading(from, number),
        address: &asked.address,
        index: one.index,
        given: None,
    };
    let ways = fit(
        lists.alloc,
        lists.constants,
        &asked.pattern,
        &one.fact,
        &before,
        meter,
    )?;
    add_ways(lists, from, asked, number, candidate, one.index, ways, own)
}

/// Adds a token for each of these ways of a partial match of a list by which the tests hold.
fn add_ways<T>(
    lists: &TokenLists<'_>,
    from: usize,
    asked: &Joining<T>,
    number: u32,
    candidate: u32,
    index: u64,
    ways: SmallVec<Way, 1>,
    own: &mut BetaMemory,
) -> Result<(), NoMemory>
    ensures { OnOk result (Chain (λ v w. v ≢ w) (map way_of ways.items)
        → Comes own.old own.new (IsOfWays asked.now.address (tests_of asked.now)
        (partial_at lists.now.sources.now lists.now.lists.now from number) number candidate index (map way_of ways.items))) }
{
    for way in ways {
        let given = Given::found(lists.alloc, way)?;
        add_given(lists, from, asked, number, candidate, index, given, own)?;
    }
    Ok(())
}

/// Adds a token for a partial match of a list and what a fact gives, if the tests hold by it.
fn add_given<T>(
    lists: &TokenLists<'_>,
    from: usize,
    asked: &Joining<T>,
    number: u32,
    candidate: u32,
    index: u64,
    given: Given,
    own: &mut BetaMemory,
) -> Result<(), NoMemory>
    ensures { OnOk result (Comes own.old own.new (IsOfWay asked.now.address (tests_of asked.now)
        (partial_at lists.now.sources.now lists.now.lists.now from number) number candidate index given)) }
{
    let tests = asked.tests.as_slice();
    if !hold_after(lists, from, asked, tests, number, index, &given)? {
        return Ok(());
    }
    own.add(Token::with(number, candidate, index, given))?;
    Ok(())
}

/// Whether all of these tests hold after a partial match of a list and what a fact gives.
fn hold_after<T>(
    lists: &TokenLists<'_>,
    from: usize,
    asked: &Joining<T>,
    tests: &[Expr],
    number: u32,
    index: u64,
    given: &Given,
) -> Result<bool, NoMemory>
    ensures { IfOk result (λ holds. holds ≡ all_hold (map term_of tests.now) (grown asked.now.address index
        (partial_at lists.now.sources.now lists.now.lists.now from number) given.now)) }
{
    if tests.is_empty() {
        return Ok(true);
    }
    hold_of(lists, from, asked, tests, number, index, given)
}

/// The same. It is apart so that the usual case, in which there are no tests, stays short.
fn hold_of<T>(
    lists: &TokenLists<'_>,
    from: usize,
    asked: &Joining<T>,
    tests: &[Expr],
    number: u32,
    index: u64,
    given: &Given,
) -> Result<bool, NoMemory>
    ensures { IfOk result (λ holds. holds ≡ all_hold (map term_of tests.now) (grown asked.now.address index
        (partial_at lists.now.sources.now lists.now.lists.now from number) given.now)) }
{
    let after = Grown {
        before: lists.reading(from, number),
        address: &asked.address,
        index,
        given: Some(given),
    };
    hold_all(lists, tests, &after)
}

/// Whether all of these tests hold.
fn hold_all<L: Lookup>(lists: &TokenLists<'_>, tests: &[Expr], known: &L) -> Result<bool, NoMemory>
    ensures { IfOk result (λ holds. (m : Partial) → m.env ≡ L.bindings known.now
        → holds ≡ all_hold (map term_of tests.now) m) }
{
    for test in tests {
        if !lists.holds(test, known)? {
            return Ok(false);
        }
    }
    Ok(true)
}
