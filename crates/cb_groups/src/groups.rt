//! Which members belong to which group.
ghost use Rattle.std.specs.Prelude.{◌≡◌, ℕ, None, OnErr, OnOk, Some};
ghost use Rattle.std.specs.Bool.{Decides};
ghost use Rattle.cb_groups.specs.Groups.{AppendsMembers, AreMembers, AreSameGroups, HasMember, Releases, Updates, group_of};

use crate::lists::{
    clear_list, clear_places, members_of, move_place, place_of, push_to, reach_list, reach_place,
    take_out,
};
use crate::members::Members;
use crate::standing::{Place, Standing};
use cb_forms::NoMemory;
use std::alloc::Global;
use std::marker::Model;

/// Which members belong to which group, by numbers; a member belongs to one at most.
///
/// Contracts see the group of each member. To add or to remove a member takes a constant number of steps, and to take all members
/// of a group as many as it has, but for the growth of the tables: these are as long as the greatest number of a group and of a
/// member.
#[derive(Drop)]
pub struct Groups {
    alloc: Global,
    /// The members of each group.
    lists: Vec<Members>,
    /// The place of each member.
    places: Vec<Standing>,
}

impl Model for Groups {
    ghost use Rattle.std.specs.Prelude.{ℕ, List, Option};
    ghost use Rattle.cb_groups.specs.Internal.{ArePlaces, membership};

    ghost Value = { List (Option ℕ) };

    ghost view = { λ a. membership a.places.items };

    ghost invariant = { λ a. ArePlaces a.lists.items a.places.items };
}

impl Groups {
    /// No member has a group. It takes no memory.
    pub fn new(alloc: Global) -> Groups
        ensures { (member : ℕ) → group_of result member ≡ None }
    {
        Groups {
            alloc,
            lists: Vec::new(alloc),
            places: Vec::new(alloc),
        }
    }

    /// Puts a member that has no group into this one. Growth is refused as `NoMemory`, and then nothing has changed.
    pub fn add(&mut self, group: u32, member: u32) -> Result<(), NoMemory>
        requires { group_of self.old member ≡ None }
        ensures ok { OnOk result (Updates self.old self.new member (Some group)) }
        ensures err { OnErr result (AreSameGroups self.old self.new) }
    {
        reach_list(&mut self.lists, group)?;
        reach_place(&mut self.places, member)?;
        let position = push_to(self.alloc, &mut self.lists, group, member)?;
        self.places[member as usize] = Standing::at(Place { group, position });
        Ok(())
    }

    /// Takes a member out of its group, if it has one.
    pub fn remove(&mut self, member: u32)
        ensures { Updates self.old self.new member None }
    {
        let Some(place) = place_of(&self.places, member) else {
            return;
        };
        let moved = take_out(&mut self.lists, place);
        move_place(&mut self.places, member, moved, place);
    }

    /// The group of a member, if it has one.
    pub fn group(&self, member: u32) -> Option<u32>
        ensures { result ≡ group_of self.now member }
    {
        match place_of(&self.places, member) {
            Some(place) => Some(place.group),
            None => None,
        }
    }

    /// The members of a group, in any order.
    pub fn members(&self, group: u32) -> &[u32]
        ensures { AreMembers self.now group result.now }
    {
        members_of(&self.lists, group)
    }

    /// Whether a group has a member.
    pub fn has_any(&self, group: u32) -> bool
        ensures { Decides result (HasMember self.now group) }
    {
        !members_of(&self.lists, group).is_empty()
    }

    /// Takes all members out of a group, and puts them behind what is in the list. Growth is refused as `NoMemory`, and then
    /// nothing has changed.
    pub fn take(&mut self, group: u32, all: &mut Vec<u32>) -> Result<(), NoMemory>
        ensures all { OnOk result (AppendsMembers self.old group all.old.items all.new.items) }
        ensures groups { OnOk result (Releases self.old self.new group) }
        ensures err { OnErr result ((self.new ≡ self.old) × (all.new.items ≡ all.old.items)) }
    {
        if !self.has_any(group) {
            return Ok(()); // nothing is written, so nothing but the list is read
        }
        all.extend_from_slice(members_of(&self.lists, group))?;
        clear_places(&mut self.places, members_of(&self.lists, group));
        clear_list(&mut self.lists, group);
        Ok(())
    }
}
