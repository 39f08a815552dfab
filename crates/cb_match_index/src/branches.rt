//! The values of the matches of one rule, by their branches.
ghost use Rattle.std.specs.Prelude.{◌≡◌, ◌≢◌, ◌<◌, ℕ, true, None, OnErr, OnOk, Some, length};
ghost use Rattle.cb_match_index.specs.Internal.{value_in, values_of};
ghost use Rattle.cb_match_index.specs.MatchIndices.{KeepsAll};
ghost use Rattle.cb_number_map.specs.Filed.{ChangesAt};

use crate::values::{has_none, put_at, take_at, value_at};
use cb_forms::NoMemory;
use std::alloc::Global;

/// The value under a branch and a number, if there is one.
pub(crate) fn value_in(branches: &Vec<Vec<u32>>, branch: u64, number: u32) -> Option<u32>
    ensures { result ≡ value_in branches.now.items (branch, number) }
{
    match branches.get(branch as usize) {
        Some(values) => value_at(values, number),
        None => None,
    }
}

/// Puts a value under a branch and a number, in place of what was there. Growth is refused as `NoMemory`, and then nothing has changed.
pub(crate) fn put_in(
    alloc: Global,
    branches: &mut Vec<Vec<u32>>,
    branch: u64,
    number: u32,
    value: u32,
) -> Result<(), NoMemory>
    requires { value ≢ 4294967295 }
    ensures ok { OnOk result (ChangesAt (value_in branches.old.items) (value_in branches.new.items)
        (branch, number) (Some value)) }
    ensures err { OnErr result
        (KeepsAll (value_in branches.old.items) (value_in branches.new.items)) }
{
    reach_branch(alloc, branches, branch)?;
    put_at(&mut branches[branch as usize], number, value)
}

/// Takes the value under a branch and a number out, if there is one, and returns it.
pub(crate) fn take_in(branches: &mut Vec<Vec<u32>>, branch: u64, number: u32) -> Option<u32>
    ensures value { result ≡ value_in branches.old.items (branch, number) }
    ensures gone { ChangesAt (value_in branches.old.items) (value_in branches.new.items)
        (branch, number) None }
{
    match branches.get_mut(branch as usize) {
        Some(values) => take_at(values, number),
        None => None,
    }
}

/// Adds branches without values up to this one. Growth is refused as `NoMemory`.
fn reach_branch(alloc: Global, branches: &mut Vec<Vec<u32>>, branch: u64) -> Result<(), NoMemory>
    ensures long { OnOk result (branch < length branches.new.items) }
    ensures same { (b : ℕ) → values_of branches.new.items b ≡ values_of branches.old.items b }
{
    let Some(wanted) = (branch as usize).checked_add(1) else {
        return Err(NoMemory);
    };
    if wanted <= branches.len() {
        return Ok(());
    }
    if branches.is_empty() {
        branches.reserve_exact(wanted)?; // most rules have one branch
    }
    branches.reserve(wanted - branches.len())?; // a branch that is too great is refused before any is added
    for _turn in branches.len()..wanted {
        branches.push(Vec::new(alloc))?;
    }
    Ok(())
}

/// Whether no branch has a value.
pub(crate) fn have_none(branches: &Vec<Vec<u32>>) -> bool
    ensures { result ≡ true → (place : ℕ × ℕ) → value_in branches.now.items place ≡ None }
{
    for values in branches {
        if !has_none(values) {
            return false;
        }
    }
    true
}
