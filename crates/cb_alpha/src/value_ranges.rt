//! What stands from one list of values on, before another, where values are kept in their order.
ghost use Rattle.std.specs.Prelude.{◌≡◌, ℕ, IfOk, List, Option, option_copied};
ghost use Rattle.cb_alpha.specs.Buckets.{AreFirstWithin, AreLastWithin, AreWithin};
ghost use Rattle.cb_alpha.specs.Internal.Numbered.{AreInOrder, filing};
ghost use Rattle.cb_facts.specs.declared.value.Value.{Value as Joined};

use crate::join_values::JoinValues;
use cb_forms::NoMemory;
use cb_groups::Groups;
use std::alloc::Global;
use std::collections::BTreeMap;
use std::ops::Bound;

/// The least values from the first on, before the second, that a bucket has, if one has such.
pub(crate) fn first_between<'a>(
    numbers: &'a BTreeMap<JoinValues, u32>,
    low: &JoinValues,
    high: &JoinValues,
) -> Option<&'a JoinValues>
    ensures { (buckets : List (Option (List Joined))) → AreInOrder numbers.now buckets
        → AreFirstWithin buckets low.now high.now (option_copied result) }
{
    if low.cmp(high).is_gt() {
        return None;
    }
    match numbers
        .range((Bound::Included(low), Bound::Excluded(high)))
        .next()
    {
        Some((values, _number)) => Some(values),
        None => None,
    }
}

/// The greatest of them.
pub(crate) fn last_between<'a>(
    numbers: &'a BTreeMap<JoinValues, u32>,
    low: &JoinValues,
    high: &JoinValues,
) -> Option<&'a JoinValues>
    ensures { (buckets : List (Option (List Joined))) → AreInOrder numbers.now buckets
        → AreLastWithin buckets low.now high.now (option_copied result) }
{
    if low.cmp(high).is_gt() {
        return None;
    }
    match numbers
        .range((Bound::Included(low), Bound::Excluded(high)))
        .next_back()
    {
        Some((values, _number)) => Some(values),
        None => None,
    }
}

/// The members of the buckets with values from the first on, before the second. Growth is refused as `NoMemory`.
pub(crate) fn members_between(
    alloc: Global,
    numbers: &BTreeMap<JoinValues, u32>,
    members: &Groups,
    low: &JoinValues,
    high: &JoinValues,
) -> Result<Vec<u32>, NoMemory>
    ensures { IfOk result (λ all. (buckets : List (Option (List Joined))) → AreInOrder numbers.now buckets
        → AreWithin (filing buckets members.now) low.now high.now all.items) }
{
    let mut all = Vec::new(alloc);
    if low.cmp(high).is_gt() {
        return Ok(all);
    }
    for (_values, number) in numbers.range((Bound::Included(low), Bound::Excluded(high))) {
        all.extend_from_slice(members.members(*number))?;
    }
    Ok(all)
}
