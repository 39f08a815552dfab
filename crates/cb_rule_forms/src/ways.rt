//! The ways through a left side: one for each choice that its `or`s leave.
ghost use Rattle.std.specs.Prelude.{◌≡◌, ◌++◌, ◌∷◌, [], IfOk, OnOk, length, map, nat_le};
ghost use Rattle.cb_forms.specs.declared.fault.Fault.TheVariants.{TooManyBranches};
ghost use Rattle.std.specs.List.{flat_map};
ghost use Rattle.cb_rule_forms.specs.Branches.{asked_by, branches_in, combined, ways_through, ways_through_all, ways_through_one};
ghost use Rattle.cb_rule_forms.specs.Elements.{element_faults, elements_faults};
ghost use Rattle.cb_rule_forms.specs.Rules.{left_faults};
ghost use Rattle.cb_rule_forms.specs.Internal.{branches_read, capped, way_seen, ways_seen, writtens, written_seen};
ghost use Rattle.cb_facts.specs.FaultLists.{ReadsAs, unless};

use crate::element::{ElementForm, read_each, read_way};
use crate::written::Written;
use cb_expr_forms::Scope;
use cb_facts::{Names, Refused};
use cb_forms::{Fault, NoMemory};
use std::alloc::Global;

/// The elements that one way meets, from left to right.
type Way<'w, 'a> = Vec<&'w Written<'a>>;

// A rule has at most so many branches.
const MOST_WAYS: usize = 64;

/// The branches of a left side, or the first fault of its elements; CB15 where there are more than 64.
///
/// What stands in several branches is read for each of them.
pub(crate) fn read_branches(
    names: &mut Names,
    scope: &Scope<'_>,
    elements: &[Written<'_>],
) -> Result<Vec<Vec<ElementForm>>, Refused>
    ensures { ReadsAs (λ branches. branches_read branches.items) result
        (left_faults scope.now (writtens (map written_seen elements.now)))
        (branches_in scope.now.templates (writtens (map written_seen elements.now))) }
{
    check_elements(names, scope, elements)?;
    let ways = split_ways(names.alloc(), elements)?;
    read_ways(names, scope, ways)
}

/// The first fault of the elements.
fn check_elements(
    names: &mut Names,
    scope: &Scope<'_>,
    elements: &[Written<'_>],
) -> Result<(), Refused>
    ensures { ReadsAs (λ done. done) result
        (elements_faults scope.now (writtens (map written_seen elements.now))) tt }
{
    let mut read = Vec::new(names.alloc());
    read_each(names, scope, elements, &mut read)
}

/// The elements of each way, or the first fault of those that stand in it.
fn read_ways(
    names: &mut Names,
    scope: &Scope<'_>,
    ways: Vec<Way<'_, '_>>,
) -> Result<Vec<Vec<ElementForm>>, Refused>
    ensures { ReadsAs (λ branches. branches_read branches.items) result
        (flat_map (flat_map (element_faults scope.now)) (ways_seen ways.entry.items))
        (map (asked_by scope.now.templates) (ways_seen ways.entry.items)) }
{
    let mut branches = Vec::new(names.alloc());
    for way in ways {
        branches.push(read_way(names, scope, way)?)?;
    }
    Ok(branches)
}

/// The ways through all of these elements, in order, or CB15 where there are more than 64.
fn split_ways<'w, 'a>(
    alloc: Global,
    elements: &'w [Written<'a>],
) -> Result<Vec<Way<'w, 'a>>, Refused>
    ensures { ReadsAs (λ ways. ways_seen ways.items) result
        (unless (nat_le (length (ways_through_all (writtens (map written_seen elements.now)))) 64)
        TooManyBranches)
        (ways_through_all (writtens (map written_seen elements.now))) }
{
    if count_all(elements) > MOST_WAYS {
        return Err(Refused::Fault(Fault::TooManyBranches));
    }
    let start = only(alloc, Vec::new(alloc))?;
    Ok(follow_all(alloc, start, elements)?)
}

/// A way alone.
fn only<'w, 'a>(alloc: Global, way: Way<'w, 'a>) -> Result<Vec<Way<'w, 'a>>, NoMemory>
    ensures { IfOk result (λ ways. ways_seen ways.items ≡ way_seen way.entry ∷ []) }
{
    let mut ways = Vec::new(alloc);
    ways.push(way)?;
    Ok(ways)
}

/// How many ways lead through all of these elements, or 65 where there are more.
#[cycle(counting)]
fn count_all(elements: &[Written<'_>]) -> usize
    ensures { result
        ≡ capped (length (ways_through_all (writtens (map written_seen elements.now)))) }
{
    let mut count = 1;
    for element in elements {
        count = cap(count * count_ways(element));
    }
    count
}

/// How many lead through one of them, or 65 where there are more.
#[cycle(counting)]
fn count_one(elements: &[Written<'_>]) -> usize
    ensures { result
        ≡ capped (length (ways_through_one (writtens (map written_seen elements.now)))) }
{
    let mut count = 0;
    for element in elements {
        count = cap(count + count_ways(element));
    }
    count
}

/// How many lead through an element, or 65 where there are more.
///
/// It calls itself as deep as the elements are nested.
#[cycle(counting)]
fn count_ways(element: &Written<'_>) -> usize
    ensures { result ≡ capped (length (ways_through (written_seen element.now))) }
{
    match element {
        Written::All(members) => count_all(members.as_slice()),
        Written::One(members) => count_one(members.as_slice()),
        Written::Wrong(_) | Written::Pattern(_, _, _) | Written::Test(_) | Written::Group(_, _) =>
            1,
    }
}

/// This number, or 65 where it is greater.
fn cap(count: usize) -> usize
    ensures { result ≡ capped count }
{
    count.min(MOST_WAYS + 1)
}

/// The ways that go on from these through all of the elements.
#[cycle(following)]
fn follow_all<'w, 'a>(
    alloc: Global,
    ways: Vec<Way<'w, 'a>>,
    elements: &'w [Written<'a>],
) -> Result<Vec<Way<'w, 'a>>, NoMemory>
    ensures { IfOk result (λ all. ways_seen all.items ≡ combined (ways_seen ways.entry.items)
        (ways_through_all (writtens (map written_seen elements.now)))) }
{
    let mut all = ways;
    for element in elements {
        all = follow(alloc, all, element)?;
    }
    Ok(all)
}

/// The ways that go on from these through an element.
///
/// It calls itself as deep as the elements are nested.
#[cycle(following)]
fn follow<'w, 'a>(
    alloc: Global,
    ways: Vec<Way<'w, 'a>>,
    element: &'w Written<'a>,
) -> Result<Vec<Way<'w, 'a>>, NoMemory>
    ensures { IfOk result (λ all. ways_seen all.items ≡ combined (ways_seen ways.entry.items)
        (ways_through (written_seen element.now))) }
{
    match element {
        Written::All(members) => follow_all(alloc, ways, members.as_slice()),
        Written::One(members) => follow_one(alloc, ways, members.as_slice()),
        Written::Wrong(_) | Written::Pattern(_, _, _) | Written::Test(_) | Written::Group(_, _) =>
            lengthen(alloc, ways, element),
    }
}

/// The ways with this element at the end of each.
fn lengthen<'w, 'a>(
    alloc: Global,
    ways: Vec<Way<'w, 'a>>,
    element: &'w Written<'a>,
) -> Result<Vec<Way<'w, 'a>>, NoMemory>
    ensures { IfOk result (λ all. ways_seen all.items
        ≡ combined (ways_seen ways.entry.items) ((written_seen element.now ∷ []) ∷ [])) }
{
    let mut all = Vec::new(alloc);
    for way in ways {
        let mut longer = way;
        longer.push(element)?;
        all.push(longer)?;
    }
    Ok(all)
}

/// The ways that go on from these through one of the elements each.
#[cycle(following)]
fn follow_one<'w, 'a>(
    alloc: Global,
    ways: Vec<Way<'w, 'a>>,
    elements: &'w [Written<'a>],
) -> Result<Vec<Way<'w, 'a>>, NoMemory>
    ensures { IfOk result (λ all. ways_seen all.items ≡ combined (ways_seen ways.entry.items)
        (ways_through_one (writtens (map written_seen elements.now)))) }
{
    let mut all = Vec::new(alloc);
    for way in ways {
        branch_off(alloc, &mut all, way, elements)?;
    }
    Ok(all)
}

/// Adds the ways that go on from this one through one of the elements each.
#[cycle(following)]
fn branch_off<'w, 'a>(
    alloc: Global,
    all: &mut Vec<Way<'w, 'a>>,
    way: Way<'w, 'a>,
    elements: &'w [Written<'a>],
) -> Result<(), NoMemory>
    ensures { OnOk result (ways_seen all.new.items ≡ ways_seen all.old.items
        ++ map (λ more. way_seen way.entry ++ more)
        (ways_through_one (writtens (map written_seen elements.now)))) }
{
    let Some((last, others)) = elements.split_last() else {
        return Ok(());
    };
    let mut way = way;
    for element in others {
        let (copy, kept) = copy_way(alloc, way)?;
        let ways = follow(alloc, only(alloc, copy)?, element)?;
        add_ways(all, ways)?;
        way = kept;
    }
    let ways = follow(alloc, only(alloc, way)?, last)?;
    add_ways(all, ways)
}

/// The same way twice.
fn copy_way<'w, 'a>(alloc: Global, way: Way<'w, 'a>) -> Result<(Way<'w, 'a>, Way<'w, 'a>), NoMemory>
    ensures { IfOk result (λ both. (way_seen both.0 ≡ way_seen way.entry)
        × (way_seen both.1 ≡ way_seen way.entry)) }
{
    let mut first = Vec::new(alloc);
    let mut second = Vec::new(alloc);
    for element in way {
        first.push(element)?;
        second.push(element)?;
    }
    Ok((first, second))
}

/// Adds ways after the others.
fn add_ways<'w, 'a>(all: &mut Vec<Way<'w, 'a>>, ways: Vec<Way<'w, 'a>>) -> Result<(), NoMemory>
    ensures { OnOk result (ways_seen all.new.items
        ≡ ways_seen all.old.items ++ ways_seen ways.entry.items) }
{
    for way in ways {
        all.push(way)?;
    }
    Ok(())
}
