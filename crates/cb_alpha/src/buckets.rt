//! Members by the values that they are joined on.
ghost use Rattle.std.specs.Prelude.{◌≡◌, ℕ, [], IfOk, List, None, OnErr, OnOk, Some, option_copied, true};
ghost use Rattle.cb_alpha.specs.Buckets.{AreFirstWithin, AreLastWithin, AreSameFilings, AreWithValues, AreWithin, Refiles, values_at};

use crate::all_buckets::{best_of_all, members_of_all};
use crate::join_values::JoinValues;
use crate::numbering::{Numbers, drop_empty, members_in};
use crate::value_ranges::{first_between, last_between, members_between};
use cb_forms::NoMemory;
use cb_groups::Groups;
use slab::Slab;
use std::alloc::Global;
use std::cmp::Ordering;
use std::marker::Model;

/// Members by the values that they are joined on: those with the same values stand in one bucket. The members are numbers, of facts
/// or of partial matches.
///
/// A bucket is found by a number that is mixed from its values, or in the order of values where another bucket has this number. So it
/// takes logarithmic time whatever the values are. Where all buckets are kept in order, the least and the greatest values of a range are
/// found in such time too, and else by going through all buckets. A bucket in which nobody stands takes no memory.
#[derive(Drop)]
pub struct Buckets {
    alloc: Global,
    /// How buckets are found.
    numbers: Numbers,
    /// The values of each bucket.
    buckets: Slab<JoinValues>,
    /// The members of each bucket.
    members: Groups,
}

impl Model for Buckets {
    ghost use Rattle.cb_alpha.specs.Buckets.{Filing};
    ghost use Rattle.cb_alpha.specs.Internal.Numbered.{AreBuckets, filing};

    ghost Value = { Filing };

    ghost view = { λ b. filing b.buckets.slots b.members };

    ghost invariant = { λ b. AreBuckets b.numbers b.buckets.slots b.members };
}

impl Buckets {
    /// Nothing is filed. It takes no memory.
    pub fn new(alloc: Global) -> Buckets
        ensures { (member : ℕ) → values_at result member ≡ None }
    {
        Buckets::with_order(alloc, false)
    }

    /// Nothing is filed, and buckets are kept in order, for who asks for ranges of values. It takes no memory.
    pub fn in_order(alloc: Global) -> Buckets
        ensures { (member : ℕ) → values_at result member ≡ None }
    {
        Buckets::with_order(alloc, true)
    }

    /// Nothing is filed, and buckets are kept in order or not. It takes no memory.
    pub(crate) fn with_order(alloc: Global, is_ordered: bool) -> Buckets
        ensures { (member : ℕ) → values_at result member ≡ None }
    {
        Buckets {
            alloc,
            numbers: Numbers::new(alloc, is_ordered),
            buckets: Slab::new(alloc),
            members: Groups::new(alloc),
        }
    }

    /// Files a member that isn't filed. Growth is refused as `NoMemory`, and then nothing has changed.
    pub fn add(&mut self, member: u32, values: JoinValues) -> Result<(), NoMemory>
        requires { values_at self.old member ≡ None }
        ensures ok { OnOk result (Refiles self.old self.new member (Some values)) }
        ensures err { OnErr result (AreSameFilings self.old self.new) }
    {
        let bucket = self
            .numbers
            .find_or_add(self.alloc, &mut self.buckets, values)?;
        match self.members.add(bucket, member) {
            Ok(()) => Ok(()),
            Err(NoMemory) => {
                drop_empty(&mut self.numbers, &mut self.buckets, &self.members, bucket);
                Err(NoMemory)
            }
        }
    }

    /// Takes a member out, if it is filed.
    pub fn remove(&mut self, member: u32)
        ensures { Refiles self.old self.new member None }
    {
        let Some(bucket) = self.members.group(member) else {
            return;
        };
        self.members.remove(member);
        drop_empty(&mut self.numbers, &mut self.buckets, &self.members, bucket);
    }

    /// The values of a member, if it is filed.
    pub(crate) fn values_of(&self, member: u32) -> Option<&JoinValues>
        ensures { option_copied result ≡ values_at self.now member }
    {
        let bucket = self.members.group(member)?;
        self.buckets.get(bucket as usize)
    }

    /// Whether nothing is filed.
    pub fn is_empty(&self) -> bool
        ensures { result ≡ true → (member : ℕ) → values_at self.now member ≡ None }
    {
        self.buckets.is_empty()
    }

    /// The members with these values.
    pub fn members_with(&self, values: &JoinValues) -> &[u32]
        ensures { AreWithValues self.now values.now result.now }
    {
        members_in(&self.members, self.numbers.find(&self.buckets, values))
    }

    /// The members with values from the first on, before the second, in any order. Growth is refused as `NoMemory`.
    pub fn members_within(
        &self,
        alloc: Global,
        low: &JoinValues,
        high: &JoinValues,
    ) -> Result<Vec<u32>, NoMemory>
        ensures { IfOk result (λ all. AreWithin self.now low.now high.now all.items) }
    {
        if self.numbers.is_ordered {
            members_between(alloc, &self.numbers.aside, &self.members, low, high)
        } else {
            members_of_all(alloc, &self.buckets, &self.members, low, high)
        }
    }

    /// The least values from the first on, before the second, that a member has, if one has such.
    pub fn first_within(&self, low: &JoinValues, high: &JoinValues) -> Option<&JoinValues>
        ensures { AreFirstWithin self.now low.now high.now (option_copied result) }
    {
        if self.numbers.is_ordered {
            first_between(&self.numbers.aside, low, high)
        } else {
            best_of_all(&self.buckets, low, high, Ordering::Less)
        }
    }

    /// The greatest of them.
    pub fn last_within(&self, low: &JoinValues, high: &JoinValues) -> Option<&JoinValues>
        ensures { AreLastWithin self.now low.now high.now (option_copied result) }
    {
        if self.numbers.is_ordered {
            last_between(&self.numbers.aside, low, high)
        } else {
            best_of_all(&self.buckets, low, high, Ordering::Greater)
        }
    }
}
