//! The numbers of buckets: equal values have one number.
ghost use Rattle.std.specs.Prelude.{◌≡◌, ◌≢◌, ◌↔◌, ℕ, [], IfOk, List, None, OnErr, OnOk, Option, Some};
ghost use Rattle.std.specs.BTreeMap as tree;
ghost use Rattle.std.specs.Option.{option_or};
ghost use Rattle.cb_alpha.specs.Buckets.{AreSameFilings, Filing, values_at, values_cmp};
ghost use Rattle.cb_alpha.specs.Internal.Numbered.{AreNumbered, IsMade, IsUnmade, KeepsValues, are_those, filed_under, mix_in, number_in, number_with};
ghost use Rattle.cb_facts.specs.declared.value.Value.{Value as Joined};
ghost use Rattle.cb_groups.specs.Groups.{AreMembers, HasMember};
ghost use Rattle.cb_number_map.specs.NumberMaps.{Updates, number_at};
ghost use Rattle.slab.specs.Slab.{HasRoomFor};

use crate::join_values::JoinValues;
use cb_forms::NoMemory;
use cb_groups::Groups;
use cb_number_map::NumberMap;
use slab::Slab;
use std::alloc::Global;
use std::collections::BTreeMap;

/// How buckets are found by their values: the number of each.
///
/// A bucket is filed under the mix of its values, a number that few other values have, so that a look-up mostly compares numbers, in
/// constant time, and values once. A bucket that comes when another is filed under its mix stands aside, in the order of values, and
/// so do all where buckets are kept in order. So a look-up takes logarithmic time also where a script makes all values collide.
#[derive(Drop)]
pub(crate) struct Numbers {
    filed: NumberMap,
    pub(crate) aside: BTreeMap<JoinValues, u32>,
    pub(crate) is_ordered: bool,
}

impl Numbers {
    /// No bucket, with all that come kept in order or not. It takes no memory.
    pub(crate) fn new(alloc: Global, is_ordered: bool) -> Numbers
        ensures { (buckets : Filing) → ((n : ℕ) → values_at buckets n ≡ None) → AreNumbered result buckets }
    {
        Numbers {
            filed: NumberMap::new(alloc),
            aside: BTreeMap::new(alloc),
            is_ordered,
        }
    }

    /// The number of the bucket with these values, if there is one.
    pub(crate) fn find(&self, buckets: &Slab<JoinValues>, values: &JoinValues) -> Option<u32>
        ensures { result ≡ number_in self.now buckets.now.slots values.now }
    {
        let filed = self.filed_under(self.mix(values));
        self.find_by(filed, buckets, values)
    }

    /// The number of the bucket with these values, which is made if there is none. Growth is refused as `NoMemory`.
    pub(crate) fn find_or_add(
        &mut self,
        alloc: Global,
        buckets: &mut Slab<JoinValues>,
        values: JoinValues,
    ) -> Result<u32, NoMemory>
        requires { AreNumbered self.old buckets.old.slots }
        ensures is { AreNumbered self.new buckets.new.slots }
        ensures ok { IfOk result (λ n. values_at buckets.new.slots n ≡ Some values) }
        ensures kept { (n : ℕ) → values_at buckets.old.slots n ≢ None
            → values_at buckets.new.slots n ≡ values_at buckets.old.slots n }
        ensures others { IfOk result (λ n. (k : ℕ) → k ≢ n
            → values_at buckets.new.slots k ≡ values_at buckets.old.slots k) }
        ensures err { OnErr result (AreSameFilings buckets.old.slots buckets.new.slots) }
    {
        let mix = self.mix(&values);
        let filed = self.filed_under(mix);
        match self.find_by(filed, buckets, &values) {
            Some(number) => Ok(number),
            None => self.add(alloc, buckets, free_mix(mix, filed), values),
        }
    }

    /// Adds a bucket with these values, which no other has. It is filed under the mix, under which none is, or else stands aside. Growth
    /// is refused as `NoMemory`.
    fn add(
        &mut self,
        alloc: Global,
        buckets: &mut Slab<JoinValues>,
        mix: Option<u32>,
        values: JoinValues,
    ) -> Result<u32, NoMemory>
        requires is { AreNumbered self.old buckets.old.slots }
        requires absent { (n : ℕ) → values_at buckets.old.slots n ≢ Some values }
        requires mix { (m : ℕ) → mix ≡ Some m → mix_in self.old values ≡ Some m }
        requires free { filed_under self.old.filed mix ≡ None }
        ensures is { AreNumbered self.new buckets.new.slots }
        ensures ok { IfOk result (λ n. values_at buckets.new.slots n ≡ Some values) }
        ensures kept { (n : ℕ) → values_at buckets.old.slots n ≢ None
            → values_at buckets.new.slots n ≡ values_at buckets.old.slots n }
        ensures others { IfOk result (λ n. (k : ℕ) → k ≢ n
            → values_at buckets.new.slots k ≡ values_at buckets.old.slots k) }
        ensures err { OnErr result (AreSameFilings buckets.old.slots buckets.new.slots) }
    {
        make_room(buckets)?;
        let Ok(number) = u32::try_from(buckets.vacant_key()) else {
            return Err(NoMemory);
        };
        self.insert(alloc, mix, &values, number)?;
        buckets.insert_reserved(values);
        Ok(number)
    }

    /// Notes the number of a bucket that is to have these values. Growth is refused as `NoMemory`, and then nothing has changed.
    fn insert(
        &mut self,
        alloc: Global,
        mix: Option<u32>,
        values: &JoinValues,
        number: u32,
    ) -> Result<(), NoMemory>
        requires mix { (m : ℕ) → mix ≡ Some m → mix_in self.old values.now ≡ Some m }
        requires free { filed_under self.old.filed mix ≡ None }
        ensures ok { OnOk result ((old new : Filing) → AreNumbered self.old old → IsMade old new number values.now → AreNumbered self.new new) }
        ensures err { OnErr result ((buckets : Filing) → AreNumbered self.old buckets → AreNumbered self.new buckets) }
    {
        match mix {
            Some(mix) => self.filed.insert(mix, number)?,
            None => {
                self.aside.insert(values.copy(alloc)?, number)?;
            }
        }
        Ok(())
    }

    /// Drops the number of a bucket that had these values.
    fn remove(&mut self, values: &JoinValues, number: u32)
        ensures { (old new : Filing) → AreNumbered self.old old → IsUnmade old new number values.now → AreNumbered self.new new }
    {
        let mix = self.mix(values);
        drop_filed(&mut self.filed, mix, number);
        self.aside.remove(values);
    }

    /// The mix under which a bucket with these values may be filed, where buckets aren't kept in order.
    fn mix(&self, values: &JoinValues) -> Option<u32>
        ensures { result ≡ mix_in self.now values.now }
    {
        if self.is_ordered {
            None
        } else {
            Some(values.mix())
        }
    }

    /// The number that is filed under a mix, if one is given.
    fn filed_under(&self, mix: Option<u32>) -> Option<u32>
        ensures { result ≡ filed_under self.now.filed mix }
    {
        self.filed.get(mix?)
    }

    /// The number of the bucket with these values, if there is one, where this one is filed under their mix.
    fn find_by(
        &self,
        filed: Option<u32>,
        buckets: &Slab<JoinValues>,
        values: &JoinValues,
    ) -> Option<u32>
        ensures { result ≡ option_or (number_with buckets.now.slots values.now filed) (tree.get values_cmp self.now.aside values.now) }
    {
        match number_with(buckets, values, filed) {
            Some(number) => Some(number),
            None => self.aside.get(values).copied(),
        }
    }
}

/// Makes room for one bucket more: for one alone where none was there before. Growth is refused as `NoMemory`.
fn make_room(buckets: &mut Slab<JoinValues>) -> Result<(), NoMemory>
    ensures room { OnOk result (HasRoomFor buckets.new 1) }
    ensures same { buckets.new ≡ record buckets.old { capacity = buckets.new.capacity } }
{
    if buckets.capacity() == 0 {
        buckets.reserve_exact(1)?;
    } else {
        buckets.reserve(1)?;
    }
    Ok(())
}

/// A number, if its bucket has these values.
fn number_with(buckets: &Slab<JoinValues>, values: &JoinValues, number: Option<u32>) -> Option<u32>
    ensures { result ≡ number_with buckets.now.slots values.now number }
{
    let number = number?;
    if has_values(buckets, number, values) {
        Some(number)
    } else {
        None
    }
}

/// Whether a bucket has these values.
fn has_values(buckets: &Slab<JoinValues>, number: u32, values: &JoinValues) -> bool
    ensures { result ≡ are_those (values_at buckets.now.slots number) values.now }
{
    match buckets.get(number as usize) {
        Some(found) => *found == *values,
        None => false,
    }
}

/// A mix, if none is filed under it.
fn free_mix(mix: Option<u32>, filed: Option<u32>) -> Option<u32>
    ensures mix { (m : ℕ) → result ≡ Some m → mix ≡ Some m }
    ensures free { (m : ℕ) → result ≡ Some m → filed ≡ None }
{
    match filed {
        Some(_) => None,
        None => mix,
    }
}

/// Drops what is filed under a mix, if it is this number.
fn drop_filed(filed: &mut NumberMap, mix: Option<u32>, number: u32)
    ensures gone { (m : ℕ) → mix ≡ Some m → number_at filed.old m ≡ Some number → Updates filed.old filed.new m None }
    ensures other { filed_under filed.old mix ≢ Some number → filed.new ≡ filed.old }
{
    let Some(mix) = mix else {
        return;
    };
    if filed.get(mix) == Some(number) {
        filed.remove(mix);
    }
}

/// Drops a bucket in which no member stands.
pub(crate) fn drop_empty(
    numbers: &mut Numbers,
    buckets: &mut Slab<JoinValues>,
    members: &Groups,
    bucket: u32,
)
    requires { AreNumbered numbers.old buckets.old.slots }
    ensures is { AreNumbered numbers.new buckets.new.slots }
    ensures members { KeepsValues buckets.old.slots buckets.new.slots members.now }
    ensures used { values_at buckets.new.slots bucket ≢ None → HasMember members.now bucket }
    ensures others { (k : ℕ) → k ≢ bucket
        → values_at buckets.new.slots k ≡ values_at buckets.old.slots k }
{
    if members.has_any(bucket) {
        return;
    }
    let Some(values) = buckets.try_remove(bucket as usize) else {
        return;
    };
    numbers.remove(&values, bucket);
}

/// The members of a bucket, if one is given.
pub(crate) fn members_in<'a>(members: &'a Groups, bucket: Option<u32>) -> &'a [u32]
    ensures some { (n : ℕ) → bucket ≡ Some n → AreMembers members.now n result.now }
    ensures none { bucket ≡ None → result.now ≡ [] }
{
    match bucket {
        Some(bucket) => members.members(bucket),
        None => &[],
    }
}
