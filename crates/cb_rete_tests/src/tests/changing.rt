//! The same changes made to two matchers.
ghost use Rattle.std.specs.Prelude.{◌≡◌, [], OnOk};

use crate::tests::building::{Element, Mark, branches, fact, letter};
use cb_exprs::Env;
use cb_fit::Meter;
use cb_forms::NoMemory;
use cb_matches::{Delta, Key, Matcher};
use std::alloc::Global;

/// A change of the facts or the rules.
#[derive(Drop)]
pub(crate) enum Change {
    /// Adds the fact with these numbers under the index, unless a fact has the index or an equal one is there.
    Assert(u64, u8, &'static [i64]),
    Retract(u64),
    Restart,
    DropRule,
}

/// Changes, after which a rule is added, and changes after that.
pub(crate) struct Story {
    pub(crate) first: &'static [Change],
    pub(crate) branches: &'static [&'static [Element]],
    pub(crate) then: &'static [Change],
}

fn nothing(alloc: Global) -> Delta {
    Delta {
        gone: Vec::new(alloc),
        come: Vec::new(alloc),
        gone_numbers: Vec::new(alloc),
        come_numbers: Vec::new(alloc),
    }
}

fn assert_fact<M: Matcher<Mark>>(
    alloc: Global,
    matcher: &mut M,
    ix: u64,
    relation: u8,
    numbers: &[i64],
    meter: &mut Meter<Mark>,
) -> Result<Delta, NoMemory>
    ensures { (M.network matcher.old).rules ≡ [] → OnOk result ((M.network matcher.new).rules ≡ []) }
{
    let fact = fact(alloc, relation, numbers)?;
    if matcher.facts().get(ix).is_some() || matcher.facts().find(&fact).is_some() {
        return Ok(nothing(alloc));
    }
    matcher.assert(ix, fact, meter)
}

fn retract_fact<M: Matcher<Mark>>(
    alloc: Global,
    matcher: &mut M,
    ix: u64,
    meter: &mut Meter<Mark>,
) -> Result<Delta, NoMemory>
    ensures { (M.network matcher.old).rules ≡ [] → OnOk result ((M.network matcher.new).rules ≡ []) }
{
    if matcher.facts().get(ix).is_none() {
        return Ok(nothing(alloc));
    }
    matcher.retract(ix, meter)
}

pub(crate) fn carry_out<M: Matcher<Mark>>(
    alloc: Global,
    matcher: &mut M,
    change: &Change,
    meter: &mut Meter<Mark>,
) -> Result<Delta, NoMemory>
    ensures { (M.network matcher.old).rules ≡ [] → OnOk result ((M.network matcher.new).rules ≡ []) }
{
    match change {
        Change::Assert(ix, relation, numbers) => {
            assert_fact(alloc, matcher, *ix, *relation, numbers, meter)
        }
        Change::Retract(ix) => retract_fact(alloc, matcher, *ix, meter),
        Change::Restart => matcher.restart(meter),
        Change::DropRule => matcher.drop_rule(5),
    }
}

fn env_of<M: Matcher<Mark>>(matcher: &M, key: &Key) -> Result<Option<Env>, NoMemory> {
    if matcher.failed() {
        return Ok(None);
    }
    Ok(Some(matcher.bindings(key)?))
}

fn are_alike(alloc: Global, one: Option<Env>, other: Option<Env>) -> Result<bool, NoMemory> {
    let (Some(one), Some(other)) = (one, other) else {
        return Ok(false);
    };
    for x in [b'f', b'x', b'y'] {
        let name = letter(alloc, x)?;
        if one.get(&name) != other.get(&name) {
            return Ok(false);
        }
    }
    Ok(true)
}

fn bind_alike<M: Matcher<Mark>, N: Matcher<Mark>>(
    alloc: Global,
    one: &M,
    other: &N,
    keys: &[Key],
) -> Result<bool, NoMemory> {
    for key in keys {
        if !are_alike(alloc, env_of(one, key)?, env_of(other, key)?)? {
            return Ok(false);
        }
    }
    Ok(true)
}

fn told_alike(one: &Delta, other: &Delta) -> bool {
    one.gone == other.gone && one.come == other.come
}

/// How many keys went and came, or nothing where the two answered differently.
pub(crate) fn changed_alike<M: Matcher<Mark>, N: Matcher<Mark>>(
    alloc: Global,
    one: &mut M,
    other: &mut N,
    change: &Change,
    meter: &mut Meter<Mark>,
) -> Result<Option<usize>, NoMemory>
    ensures one { (M.network one.old).rules ≡ [] → OnOk result ((M.network one.new).rules ≡ []) }
    ensures other { (N.network other.old).rules ≡ [] → OnOk result ((N.network other.new).rules ≡ []) }
{
    let told = carry_out(alloc, one, change, meter)?;
    let also = carry_out(alloc, other, change, meter)?;
    compared(alloc, one, other, &told, &also)
}

fn compared<M: Matcher<Mark>, N: Matcher<Mark>>(
    alloc: Global,
    one: &M,
    other: &N,
    told: &Delta,
    also: &Delta,
) -> Result<Option<usize>, NoMemory> {
    if !told_alike(told, also)
        || !bind_alike(alloc, one, other, told.come.as_slice())?
        || !bind_alike(alloc, one, other, also.come.as_slice())?
    {
        return Ok(None);
    }
    Ok(Some(told.gone.len().saturating_add(told.come.len())))
}

/// The same of changes one after another.
fn all_alike<M: Matcher<Mark>, N: Matcher<Mark>>(
    alloc: Global,
    one: &mut M,
    other: &mut N,
    changes: &[Change],
    meter: &mut Meter<Mark>,
) -> Result<Option<usize>, NoMemory>
    ensures one { (M.network one.old).rules ≡ [] → OnOk result ((M.network one.new).rules ≡ []) }
    ensures other { (N.network other.old).rules ≡ [] → OnOk result ((N.network other.new).rules ≡ []) }
{
    let mut all = Some(0);
    for change in changes {
        all = sum(all, changed_alike(alloc, one, other, change, meter)?);
    }
    Ok(all)
}

pub(crate) fn sum(one: Option<usize>, other: Option<usize>) -> Option<usize> {
    Some(one?.saturating_add(other?))
}

/// How many keys went and came where a rule was added, or nothing where the two answered differently.
pub(crate) fn added_alike<M: Matcher<Mark>, N: Matcher<Mark>>(
    alloc: Global,
    one: &mut M,
    other: &mut N,
    rows: &[&'static [Element]],
    meter: &mut Meter<Mark>,
) -> Result<Option<usize>, NoMemory>
    requires one { (M.network one.old).rules ≡ [] }
    requires other { (N.network other.old).rules ≡ [] }
{
    let told = one.add_rule(5, branches(alloc, rows)?, meter)?;
    let also = other.add_rule(5, branches(alloc, rows)?, meter)?;
    compared(alloc, one, other, &told, &also)
}

/// How many keys went and came in a story, or nothing where the two answered differently.
pub(crate) fn told<M: Matcher<Mark>, N: Matcher<Mark>>(
    alloc: Global,
    one: &mut M,
    other: &mut N,
    story: &Story,
    meter: &mut Meter<Mark>,
) -> Result<Option<usize>, NoMemory>
    requires one { (M.network one.old).rules ≡ [] }
    requires other { (N.network other.old).rules ≡ [] }
{
    let before = all_alike(alloc, one, other, story.first, meter)?;
    let added = added_alike(alloc, one, other, story.branches, meter)?;
    let after = all_alike(alloc, one, other, story.then, meter)?;
    Ok(sum(before, sum(added, after)))
}
