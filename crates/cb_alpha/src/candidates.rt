//! The facts of an alpha memory, by number and by index.
ghost use Rattle.std.specs.Prelude.{◌≡◌, ◌≢◌, ◌↔◌, ℕ, All, IfOk, IsSome, None, OnErr, OnOk, Option, Some, map, true};
ghost use Rattle.cb_alpha.specs.AlphaMemories.{candidate_in, live_in};
ghost use Rattle.cb_alpha.specs.Buckets.{values_at};
ghost use Rattle.cb_alpha.specs.Internal.FactNumbers.{AreSameNumbers, number_by};
ghost use Rattle.cb_alpha.specs.Internal.Joined.{IsFiled, IsFiledBut, IsInserted, IsReadable, fields_of};
ghost use Rattle.cb_facts.specs.Facts.{FactValue};
ghost use Rattle.cb_groups.specs.Groups.{Updates, group_of};
ghost use Rattle.cb_number_map.specs.Filed.{ChangesAt};

use crate::candidate::Candidate;
use crate::fact_numbers::FactNumbers;
use crate::join_index::{JoinIndex, add_to_all};
use cb_forms::NoMemory;
use cb_groups::Groups;
use slab::Slab;

/// Puts a fact under a free number, and returns that. Growth is refused as `NoMemory`, and then nothing has changed.
pub(crate) fn insert(candidates: &mut Slab<Candidate>, fact: Candidate) -> Result<u32, NoMemory>
    ensures ok { IfOk result (λ number. IsInserted candidates.old.slots candidates.new.slots number fact) }
    ensures err { OnErr result (candidates.new.slots ≡ candidates.old.slots) }
{
    let Ok(number) = u32::try_from(candidates.vacant_key()) else {
        return Err(NoMemory);
    };
    if candidates.capacity() == 0 {
        candidates.reserve_exact(1)?;
    }
    candidates.insert(fact)?;
    Ok(number)
}

/// Files the fact under a number in each join, lists its number, and files that under its index. Growth is refused as `NoMemory`, and
/// then it may stand in some joins and in the list.
pub(crate) fn file(
    candidates: &Slab<Candidate>,
    numbers: &mut FactNumbers,
    all: &mut Groups,
    joins: &mut [JoinIndex],
    number: u32,
) -> Result<(), NoMemory>
    requires there { IsSome (candidate_in candidates.now.slots number) }
    requires free { All (λ j. values_at j.facts number ≡ None) joins.old }
    requires unlisted { group_of all.old number ≡ None }
    requires absent { (f : ℕ × FactValue) → candidate_in candidates.now.slots number ≡ Some f
        → number_by numbers.old f.0 ≡ None }
    ensures by_index { OnOk result ((f : ℕ × FactValue) → candidate_in candidates.now.slots number ≡ Some f
        → ChangesAt (number_by numbers.old) (number_by numbers.new) f.0 (Some number)) }
    ensures by_values { OnOk result ((found : ℕ → Option (ℕ × FactValue)) (f : ℕ × FactValue) → candidate_in candidates.now.slots number ≡ Some f
        → found number ≡ Some f → All (IsFiledBut number found) joins.old → All (IsFiled found) joins.new) }
    ensures listed { OnOk result (Updates all.old all.new number (Some 0)) }
    ensures others_listed { (n : ℕ) → n ≢ number → group_of all.new n ≡ group_of all.old n }
    ensures fields { map fields_of joins.new ≡ map fields_of joins.old }
    ensures others { (found : ℕ → Option (ℕ × FactValue))
        → All (IsFiledBut number found) joins.old → All (IsFiledBut number found) joins.new }
    ensures err { OnErr result (AreSameNumbers (number_by numbers.old) (number_by numbers.new)) }
{
    let Some(fact) = candidates.get(number as usize) else {
        unreachable!()
    };
    add_to_all(joins, number, &fact.fact)?;
    all.add(0, number)?;
    numbers.insert(fact.index, number)?;
    Ok(())
}

/// Whether no fact can be read, but for the one of this number if one is given.
pub(crate) fn has_no_other(candidates: &Slab<Candidate>, number: Option<u32>) -> bool
    requires { IsReadable candidates.now.slots number }
    ensures { (result ≡ true) ↔ ((n : ℕ) → live_in candidates.now.slots number n ≡ None) }
{
    match number {
        Some(_) => candidates.len() == 1,
        None => candidates.is_empty(),
    }
}
