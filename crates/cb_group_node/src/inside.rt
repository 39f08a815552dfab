//! The tokens inside a group, by those before it.
ghost use Rattle.std.specs.Prelude.{◌≡◌, ◌⊎◌, ℕ, OnOk, Some};
ghost use Rattle.std.specs.Bool.{Decides};
ghost use Rattle.cb_groups.specs.Groups.{group_of};
ghost use Rattle.cb_group_node.specs.Internal.{Enters, GroupHolds, Sets, Touches};
ghost use Rattle.cb_matches.specs.Chains.{In};
ghost use Rattle.cb_token_lists.specs.Partials.{AreBelow, Meets};

use crate::descent::outer;
use crate::marks::put;
use cb_forms::NoMemory;
use cb_groups::Groups;
use cb_token_lists::TokenLists;

/// Whether a group holds for a token before it.
pub(crate) fn holds(positive: bool, inside: &Groups, number: u32) -> bool
    ensures { Decides result (GroupHolds positive inside.now number) }
{
    inside.has_any(number) == positive
}

/// Puts those tokens of list `from` behind `touched` that are met by going down from these of list `inner`. Growth is refused as
/// `NoMemory`.
pub(crate) fn touch(
    lists: &TokenLists<'_>,
    from: usize,
    inner: usize,
    numbers: &[u32],
    touched: &mut Vec<u32>,
) -> Result<(), NoMemory>
    ensures { OnOk result (AreBelow lists.now.sources.now → (g : ℕ)
        → (In g touched.new.items → In g touched.old.items
        ⊎ Touches (λ a i. Meets lists.now.sources.now lists.now.lists.now from a inner i) numbers.now g)
        × (In g touched.old.items
        ⊎ Touches (λ a i. Meets lists.now.sources.now lists.now.lists.now from a inner i) numbers.now g
        → In g touched.new.items)) }
{
    for number in numbers {
        touch_one(lists, from, inner, *number, touched)?;
    }
    Ok(())
}

/// The same for one token.
fn touch_one(
    lists: &TokenLists<'_>,
    from: usize,
    inner: usize,
    number: u32,
    touched: &mut Vec<u32>,
) -> Result<(), NoMemory>
    ensures { OnOk result (AreBelow lists.now.sources.now → (g : ℕ)
        → (In g touched.new.items → In g touched.old.items
        ⊎ Meets lists.now.sources.now lists.now.lists.now from g inner number)
        × (In g touched.old.items
        ⊎ Meets lists.now.sources.now lists.now.lists.now from g inner number
        → In g touched.new.items)) }
{
    if let Some(group) = outer(lists, from, inner, number) {
        touched.push(group)?;
        return Ok(());
    }
    Ok(())
}

/// Puts these tokens of list `inner` under those of list `from` that are met by going down. Growth is refused as `NoMemory`, and
/// then some of it may be done.
pub(crate) fn enter(
    lists: &TokenLists<'_>,
    from: usize,
    inner: usize,
    numbers: &[u32],
    inside: &mut Groups,
) -> Result<(), NoMemory>
    ensures { OnOk result (AreBelow lists.now.sources.now
        → Enters (λ a i. Meets lists.now.sources.now lists.now.lists.now from a inner i)
        (λ i. In i numbers.now) inside.old inside.new) }
{
    for number in numbers {
        enter_one(lists, from, inner, *number, inside)?;
    }
    Ok(())
}

/// The same for one token.
fn enter_one(
    lists: &TokenLists<'_>,
    from: usize,
    inner: usize,
    number: u32,
    inside: &mut Groups,
) -> Result<(), NoMemory>
    ensures { OnOk result (AreBelow lists.now.sources.now
        → Enters (λ a i. Meets lists.now.sources.now lists.now.lists.now from a inner i)
        (λ i. i ≡ number) inside.old inside.new) }
{
    match outer(lists, from, inner, number) {
        Some(group) => put(inside, group, number),
        None => Ok(()),
    }
}

/// Puts those of these tokens into `waiting` for which the group doesn't hold. Growth is refused as `NoMemory`, and then some of it
/// may be done.
pub(crate) fn wait_all(
    positive: bool,
    inside: &Groups,
    numbers: &[u32],
    waiting: &mut Groups,
) -> Result<(), NoMemory>
    ensures { OnOk result (Sets waiting.old waiting.new
        (λ n. In n numbers.now × (GroupHolds positive inside.now n → ⊥)) (Some 0)) }
{
    for number in numbers {
        wait_one(positive, inside, *number, waiting)?;
    }
    Ok(())
}

/// The same for one token.
fn wait_one(
    positive: bool,
    inside: &Groups,
    number: u32,
    waiting: &mut Groups,
) -> Result<(), NoMemory>
    ensures { OnOk result (Sets waiting.old waiting.new
        (λ n. (n ≡ number) × (GroupHolds positive inside.now n → ⊥)) (Some 0)) }
{
    if holds(positive, inside, number) {
        return Ok(());
    }
    put(waiting, 0, number)
}
