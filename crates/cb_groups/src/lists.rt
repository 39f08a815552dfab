//! The members of each group in a list, and the place of each member.
ghost use Rattle.std.specs.Prelude.{◌≡◌, ◌≢◌, ◌+◌, ◌<◌, ◌^◌, ℕ, [], Contains, IfOk, IfSome, None, OnErr, OnOk, Some, length};
ghost use Rattle.cb_groups.specs.Internal.{AreWithout, IsOut, IsPushed, member_at, members_at, standing};

use crate::members::Members;
use crate::standing::{Place, Standing};
use cb_forms::NoMemory;
use std::alloc::Global;

/// The members of a group.
pub(crate) fn members_of<'a>(lists: &'a Vec<Members>, group: u32) -> &'a [u32]
    ensures { result.now ≡ members_at lists.now.items group }
{
    match lists.get(group as usize) {
        Some(list) => list.as_slice(),
        None => &[],
    }
}

/// The place of a member.
pub(crate) fn place_of(places: &Vec<Standing>, member: u32) -> Option<Place>
    ensures place { result ≡ standing places.now.items member }
    ensures next { IfSome result (λ place. place.position + 1 < 2 ^ 32) }
{
    places.get(member as usize)?.place()
}

/// Adds empty lists up to that of a group. Growth is refused as `NoMemory`.
pub(crate) fn reach_list(lists: &mut Vec<Members>, group: u32) -> Result<(), NoMemory>
    ensures long { OnOk result (group < length lists.new.items) }
    ensures same { (h : ℕ) → members_at lists.new.items h ≡ members_at lists.old.items h }
{
    if lists.is_empty() {
        lists.reserve_exact(group as usize + 1)?;
    }
    for _turn in lists.len()..group as usize + 1 {
        lists.push(Members::none())?;
    }
    Ok(())
}

/// Adds empty places up to that of a member. Growth is refused as `NoMemory`.
pub(crate) fn reach_place(places: &mut Vec<Standing>, member: u32) -> Result<(), NoMemory>
    ensures long { OnOk result (member < length places.new.items) }
    ensures same { (m : ℕ) → standing places.new.items m ≡ standing places.old.items m }
{
    if places.is_empty() {
        places.reserve_exact(member as usize + 1)?;
    }
    for _turn in places.len()..member as usize + 1 {
        places.push(Standing::nowhere())?;
    }
    Ok(())
}

/// Puts a member behind those of a group, and returns its position. Growth is refused as `NoMemory`.
pub(crate) fn push_to(
    alloc: Global,
    lists: &mut Vec<Members>,
    group: u32,
    member: u32,
) -> Result<u32, NoMemory>
    requires { group < length lists.old.items }
    ensures pushed { IfOk result (λ position. IsPushed lists.old.items lists.new.items group member position) }
    ensures next { IfOk result (λ position. position + 1 < 2 ^ 32) }
    ensures same { OnErr result ((h : ℕ) → members_at lists.new.items h ≡ members_at lists.old.items h) }
{
    let list = &mut lists[group as usize];
    let Ok(position) = u32::try_from(list.as_slice().len()) else {
        return Err(NoMemory);
    };
    if position == u32::MAX {
        return Err(NoMemory);
    }
    list.push(alloc, member)?;
    Ok(position)
}

/// Takes out the member that stands at a place. Returns the one that stands there now: the last one of its group, if it was
/// another. A list that got much shorter gives memory back.
pub(crate) fn take_out(lists: &mut Vec<Members>, place: Place) -> Option<u32>
    requires { place.position < length (members_at lists.old.items place.group) }
    ensures out { IsOut (members_at lists.old.items place.group) (members_at lists.new.items place.group) place.position }
    ensures moved { result ≡ member_at lists.new.items place.group place.position }
    ensures others { (h : ℕ) → h ≢ place.group → members_at lists.new.items h ≡ members_at lists.old.items h }
{
    let list = &mut lists[place.group as usize];
    list.take_out(place.position as usize);
    list.as_slice().get(place.position as usize).copied()
}

/// A member has no place any more, and the one that moved, if one did, has this.
pub(crate) fn move_place(places: &mut Vec<Standing>, member: u32, moved: Option<u32>, place: Place)
    requires member { member < length places.old.items }
    requires moved { (m : ℕ) → moved ≡ Some m → m < length places.old.items }
    requires next { place.position + 1 < 2 ^ 32 }
    ensures gone { standing places.new.items member ≡ None }
    ensures moved { (m : ℕ) → moved ≡ Some m → m ≢ member → standing places.new.items m ≡ Some place }
    ensures others { (m : ℕ) → moved ≢ Some m → m ≢ member → standing places.new.items m ≡ standing places.old.items m }
{
    if let Some(moved) = moved {
        places[moved as usize] = Standing::at(place);
    }
    places[member as usize] = Standing::nowhere();
}

/// These members have no place any more.
pub(crate) fn clear_places(places: &mut Vec<Standing>, members: &[u32])
    requires { (m : ℕ) → Contains members.now m → m < length places.old.items }
    ensures { AreWithout places.old.items places.new.items members.now }
{
    for member in members {
        places[*member as usize] = Standing::nowhere();
    }
}

/// A group has no members any more. Its list gives its memory back.
pub(crate) fn clear_list(lists: &mut Vec<Members>, group: u32)
    ensures cleared { members_at lists.new.items group ≡ [] }
    ensures others { (h : ℕ) → h ≢ group → members_at lists.new.items h ≡ members_at lists.old.items h }
{
    if let Some(list) = lists.get_mut(group as usize) {
        *list = Members::none();
    }
}
