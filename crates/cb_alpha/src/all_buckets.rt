//! What stands from one list of values on, before another, found by going through all buckets.
ghost use Rattle.std.specs.Prelude.{◌≡◌, ◌≢◌, ◌+◌, ℕ, IfOk, List, Some, option_copied};
ghost use Rattle.std.specs.Bool.{Decides};
ghost use Rattle.std.specs.declared.cmp.Ordering.TheVariants.{Equal};
ghost use Rattle.cb_alpha.specs.Buckets.{AreWithin, Filing, IsFiledWith, IsWithin, values_at};
ghost use Rattle.cb_alpha.specs.Internal.Numbered.{AreBest, AreSmallNumbers, IsAhead, filing};

use crate::join_values::JoinValues;
use cb_forms::NoMemory;
use cb_groups::Groups;
use slab::Slab;
use std::alloc::Global;
use std::cmp::Ordering;

/// Of the values from the first on, before the second, that a bucket has, those to which no others compare as is wanted, if one has
/// such: the least where `Less` is wanted, the greatest where `Greater` is.
pub(crate) fn best_of_all<'a>(
    buckets: &'a Slab<JoinValues>,
    low: &JoinValues,
    high: &JoinValues,
    wanted: Ordering,
) -> Option<&'a JoinValues>
    requires { wanted ≢ Equal }
    ensures { AreBest wanted (IsFiledWith buckets.now.slots) low.now high.now (option_copied result) }
{
    let mut best = None;
    for key in 0..buckets.capacity() {
        if let Some(values) = buckets.get(key) {
            best = better(best, values, low, high, wanted);
        }
    }
    best
}

/// The better of the best that there are, if there are such, and these values, if they are from the first on, before the second.
fn better<'a>(
    best: Option<&'a JoinValues>,
    values: &'a JoinValues,
    low: &JoinValues,
    high: &JoinValues,
    wanted: Ordering,
) -> Option<&'a JoinValues>
    requires { wanted ≢ Equal }
    ensures { (buckets : Filing) (k : ℕ) → values_at buckets k ≡ Some values.now
        → AreBest wanted (IsAhead buckets k) low.now high.now (option_copied best.entry)
        → AreBest wanted (IsAhead buckets (k + 1)) low.now high.now (option_copied result) }
{
    if !is_within(values, low, high) {
        return best;
    }
    match best {
        Some(others) => {
            if values.cmp(others) == wanted {
                Some(values)
            } else {
                best
            }
        }
        None => Some(values),
    }
}

/// Whether values are from the first on, before the second.
fn is_within(values: &JoinValues, low: &JoinValues, high: &JoinValues) -> bool
    ensures { Decides result (IsWithin low.now high.now values.now) }
{
    values.cmp(low).is_ge() && values.cmp(high).is_lt()
}

/// The members of the buckets with values from the first on, before the second. Growth is refused as `NoMemory`.
pub(crate) fn members_of_all(
    alloc: Global,
    buckets: &Slab<JoinValues>,
    members: &Groups,
    low: &JoinValues,
    high: &JoinValues,
) -> Result<Vec<u32>, NoMemory>
    requires { AreSmallNumbers buckets.now.slots }
    ensures { IfOk result (λ all. AreWithin (filing buckets.now.slots members.now) low.now high.now all.items) }
{
    let mut all = Vec::new(alloc);
    for key in 0..buckets.capacity() {
        if let Some(values) = buckets.get(key) {
            if is_within(values, low, high) {
                all.extend_from_slice(members.members(key as u32))?;
            }
        }
    }
    Ok(all)
}
