//! Drawn calls of `Groups` and `LinkedGroups`, made of a map from members to their groups as well.
use cb_forms::NoMemory;
use cb_groups::{Groups, LinkedGroups};
use std::alloc::Global;
use std::collections::BTreeMap;

/// How many calls are drawn.
const CALLS: u64 = 2000;

/// How many groups the members are put into.
const GROUPS: u32 = 7;

/// The same groups in both forms.
#[derive(Drop)]
struct Both {
    listed: Groups,
    linked: LinkedGroups,
}

#[derive(Clone, Copy)]
enum Call {
    /// The member goes from the group that it has to this one.
    Put(u32, u32),
    Remove(u32),
    Take(u32),
}

/// The next state of the generator, a linear congruential one.
fn next(state: u64) -> u64 {
    state
        .wrapping_mul(6364136223846793005)
        .wrapping_add(1442695040888963407)
}

/// The call that a state of the generator stands for, of forty members.
fn call_of(state: u64) -> Call {
    let drawn = state >> 33;
    let group = (drawn / 16 % 7) as u32;
    let member = (drawn / 112 % 40) as u32;
    match drawn % 16 {
        0 => Call::Take(group),
        1 | 2 | 3 => Call::Remove(member),
        _ => Call::Put(group, member),
    }
}

/// The members in the order of their numbers.
fn in_order(alloc: Global, members: &[u32]) -> Result<Vec<u32>, NoMemory> {
    let mut list = Vec::new(alloc);
    list.extend_from_slice(members)?;
    list.sort()?;
    Ok(list)
}

/// The members of a group in the order of their numbers, by the map.
fn members_in(
    alloc: Global,
    owners: &BTreeMap<u32, u32>,
    group: u32,
) -> Result<Vec<u32>, NoMemory> {
    let mut members = Vec::new(alloc);
    for (member, owner) in owners.iter() {
        if *owner == group {
            members.push(*member)?;
        }
    }
    Ok(members)
}

fn put(
    groups: &mut Both,
    owners: &mut BTreeMap<u32, u32>,
    group: u32,
    member: u32,
) -> Result<(), NoMemory> {
    groups.listed.remove(member);
    groups.listed.add(group, member)?;
    groups.linked.remove(member);
    groups.linked.add(group, member)?;
    owners.insert(member, group)?;
    Ok(())
}

/// Takes a group. The answer is whether its members by the map were taken, from both.
fn take(
    alloc: Global,
    groups: &mut Both,
    owners: &mut BTreeMap<u32, u32>,
    group: u32,
) -> Result<bool, NoMemory> {
    let wanted = members_in(alloc, owners, group)?;
    let mut listed = Vec::new(alloc);
    groups.listed.take(group, &mut listed)?;
    let mut linked = Vec::new(alloc);
    groups.linked.take(group, &mut linked)?;
    for member in wanted.as_slice() {
        owners.remove(member);
    }
    let listed = in_order(alloc, listed.as_slice())?;
    let linked = in_order(alloc, linked.as_slice())?;
    Ok(listed.as_slice() == wanted.as_slice() && linked.as_slice() == wanted.as_slice())
}

/// Makes a call of both. The answer is whether they agree on what was taken.
fn made_alike(
    alloc: Global,
    groups: &mut Both,
    owners: &mut BTreeMap<u32, u32>,
    call: &Call,
) -> Result<bool, NoMemory> {
    match call {
        Call::Put(group, member) => put(groups, owners, *group, *member)?,
        Call::Remove(member) => {
            groups.listed.remove(*member);
            groups.linked.remove(*member);
            owners.remove(member);
        }
        Call::Take(group) => return take(alloc, groups, owners, *group),
    }
    Ok(true)
}

/// Whether both have the same members in a group.
fn is_alike(
    alloc: Global,
    groups: &Groups,
    owners: &BTreeMap<u32, u32>,
    group: u32,
) -> Result<bool, NoMemory> {
    let wanted = members_in(alloc, owners, group)?;
    let members = in_order(alloc, groups.members(group))?;
    let same = members.as_slice() == wanted.as_slice();
    Ok(same && groups.has_any(group) != wanted.is_empty())
}

/// Whether both have the same members in each group.
fn are_alike(
    alloc: Global,
    groups: &Groups,
    owners: &BTreeMap<u32, u32>,
) -> Result<bool, NoMemory> {
    for group in 0..GROUPS {
        if !is_alike(alloc, groups, owners, group)? {
            return Ok(false);
        }
    }
    Ok(true)
}

/// The number of the first call after which they differ, at the end by all that is left.
fn wrong_call(alloc: Global) -> Result<Option<u64>, NoMemory> {
    let mut groups = Both {
        listed: Groups::new(alloc),
        linked: LinkedGroups::new(alloc),
    };
    let mut owners = BTreeMap::new(alloc);
    let mut state = 1;
    for number in 0..CALLS {
        state = next(state);
        let made = made_alike(alloc, &mut groups, &mut owners, &call_of(state))?;
        if !made || !are_alike(alloc, &groups.listed, &owners)? {
            return Ok(Some(number));
        }
    }
    for group in 0..GROUPS {
        if !take(alloc, &mut groups, &mut owners, group)? {
            return Ok(Some(CALLS));
        }
    }
    Ok(None)
}

#[test]
fn drawn_calls_leave_the_groups_of_a_map(rt: HostRuntime) -> Result<(), NoMemory> {
    let wrong = wrong_call(rt.alloc())?;
    assert!(rt; wrong.is_none(), "{wrong:?}");
    Ok(())
}
