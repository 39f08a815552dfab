//! Which members belong to which group, where the members of a group are linked.
ghost use Rattle.std.specs.Prelude.{◌≡◌, ℕ, None, OnErr, OnOk, Some};
ghost use Rattle.cb_groups.specs.Groups.{AppendsMembers, AreSameGroups, Releases, Updates, group_of};

use crate::links::{
    Link, append_line, begin_with, first_of, forget, forget_all, link_before, link_behind, link_of,
    reach_group, reach_member,
};
use cb_forms::NoMemory;
use std::alloc::Global;
use std::marker::Model;

/// Which members belong to which group, by numbers; a member belongs to one at most.
///
/// It takes less memory than `Groups`, and members that came one after the other are taken out faster, but the members of a group can
/// only be taken, not read. Contracts see the group of each member. To add or to remove a member takes a constant number of steps, and to
/// take all members of a group as many as it has, but for the growth of the tables: these are as long as the greatest number of a group
/// and of a member.
#[derive(Drop)]
pub struct LinkedGroups {
    /// One more than the first member of each group, or 0 where it has none.
    firsts: Vec<u32>,
    /// The link of each member.
    links: Vec<Link>,
}

impl Model for LinkedGroups {
    ghost use Rattle.std.specs.Prelude.{ℕ, List, Option};
    ghost use Rattle.cb_groups.specs.Lines.{AreLines, linked_groups};

    ghost Value = { List (Option ℕ) };

    ghost view = { λ a. linked_groups a.links.items };

    ghost invariant = { λ a. AreLines a.firsts.items a.links.items };
}

impl LinkedGroups {
    /// No member has a group. It takes no memory.
    pub fn new(alloc: Global) -> LinkedGroups
        ensures { (member : ℕ) → group_of result member ≡ None }
    {
        LinkedGroups {
            firsts: Vec::new(alloc),
            links: Vec::new(alloc),
        }
    }

    /// Puts a member that has no group into this one. Growth is refused as `NoMemory`, and so is the number 2^32 - 1; then nothing has
    /// changed.
    pub fn add(&mut self, group: u32, member: u32) -> Result<(), NoMemory>
        requires { group_of self.old member ≡ None }
        ensures ok { OnOk result (Updates self.old self.new member (Some group)) }
        ensures err { OnErr result (AreSameGroups self.old self.new) }
    {
        let Some(own_group) = group.checked_add(1) else {
            return Err(NoMemory);
        };
        let Some(own) = member.checked_add(1) else {
            return Err(NoMemory);
        };
        reach_group(&mut self.firsts, group)?;
        reach_member(&mut self.links, member)?;
        let behind = first_of(&self.firsts, group);
        link_before(&mut self.links, behind, own);
        self.links[member as usize] = Link {
            group: own_group,
            before: 0,
            behind,
        };
        self.firsts[group as usize] = own;
        Ok(())
    }

    /// Takes a member out of its group, if it has one.
    pub fn remove(&mut self, member: u32)
        ensures { Updates self.old self.new member None }
    {
        let link = link_of(&self.links, member);
        let Some(group) = link.group.checked_sub(1) else {
            return;
        };
        begin_with(&mut self.firsts, group, link.before, link.behind);
        link_behind(&mut self.links, link.before, link.behind);
        link_before(&mut self.links, link.behind, link.before);
        forget(&mut self.links, member);
    }

    /// Takes all members out of a group, and puts them behind what is in the list. Growth is refused as `NoMemory`, and then nothing has
    /// changed.
    pub fn take(&mut self, group: u32, all: &mut Vec<u32>) -> Result<(), NoMemory>
        ensures all { OnOk result (AppendsMembers self.old group all.old.items all.new.items) }
        ensures groups { OnOk result (Releases self.old self.new group) }
        ensures err { OnErr result ((self.new ≡ self.old) × (all.new.items ≡ all.old.items)) }
    {
        let first = first_of(&self.firsts, group);
        if first == 0 {
            return Ok(()); // nothing is written, so nothing but the first is read
        }
        let start = all.len();
        if append_line(&self.links, first, all).is_err() {
            all.truncate(start);
            return Err(NoMemory);
        }
        forget_all(&mut self.links, &all.as_slice()[start..]);
        begin_with(&mut self.firsts, group, 0, 0);
        Ok(())
    }
}
