//! Keys told in their order.
ghost use Rattle.std.specs.Prelude.{◌≡◌, ◌++◌, IfOk, IsPermutation, IsSortedBy, OnOk, map};
ghost use Rattle.std.specs.Ordering.{is_lt};
ghost use Rattle.cb_branch_end.specs.Internal.{AddsInOrder, AddsPairs, key_at};
ghost use Rattle.cb_matches.specs.Keys.{key_cmp};

use crate::branch_end::BranchEnd;
use cb_forms::NoMemory;
use cb_matches::Key;

impl BranchEnd<'_> {
    /// Adds the keys of the matches that tokens stand for, in the order of keys, and the numbers of the tokens, behind those that are
    /// there. Growth is refused as `NoMemory`, and so is a count of sharers that is full. One key takes no memory but its place.
    pub(crate) fn add_keys(
        &self,
        numbers: &[u32],
        told: &mut Vec<Key>,
        told_numbers: &mut Vec<u32>,
    ) -> Result<(), NoMemory>
        ensures { OnOk result
            (AddsInOrder (key_at self.now) numbers.now told.old.items told.new.items told_numbers.old.items told_numbers.new.items) }
    {
        if numbers.is_empty() {
            return Ok(());
        }
        self.add_some_keys(numbers, told, told_numbers)
    }

    /// The same. It is apart so that the usual case, in which there are none, stays short.
    fn add_some_keys(
        &self,
        numbers: &[u32],
        told: &mut Vec<Key>,
        told_numbers: &mut Vec<u32>,
    ) -> Result<(), NoMemory>
        ensures { OnOk result
            (AddsInOrder (key_at self.now) numbers.now told.old.items told.new.items told_numbers.old.items told_numbers.new.items) }
    {
        match numbers {
            [only] => {
                told_numbers.push(*only)?;
                told.push(self.key(*only)?)?;
                Ok(())
            }
            more => add_in_order(told, told_numbers, self.keys(more)?),
        }
    }

    /// The keys of the matches that tokens stand for, each with the number of its token, in the order of the tokens.
    fn keys(&self, numbers: &[u32]) -> Result<Vec<(Key, u32)>, NoMemory>
        ensures { IfOk result
            (λ keys. keys.items ≡ map (λ n. (key_at self.now n, n)) numbers.now) }
    {
        let mut keys = Vec::with_capacity(self.lists.alloc, numbers.len())?;
        for number in numbers {
            keys.push((self.key(*number)?, *number))?;
        }
        Ok(keys)
    }

    /// The key of the match that a token stands for, with the token's number as hint. Growth is refused as `NoMemory`, and so is a
    /// count of sharers that is full.
    #[inline(always)]
    fn key(&self, number: u32) -> Result<Key, NoMemory>
        ensures { IfOk result (λ key. key ≡ key_at self.now number) }
    {
        let Some(parts) = self.lists.parts_of_ones(self.last, number) else {
            return self.any_key(number);
        };
        Ok(Key::hinted(self.rule, self.branch, parts, number))
    }

    /// The same, also of matches with more parts or with lengths that aren't 1. It is apart so that the usual case stays short.
    #[inline(never)]
    fn any_key(&self, number: u32) -> Result<Key, NoMemory>
        ensures { IfOk result (λ key. key ≡ key_at self.now number) }
    {
        let parts = self.lists.parts(self.last, number)?;
        Ok(Key::hinted(self.rule, self.branch, parts, number))
    }
}

/// Adds these keys, in their order, and their numbers behind those that are there. It takes a step for each where they are in order
/// already. Growth is refused as `NoMemory`.
fn add_in_order(
    told: &mut Vec<Key>,
    told_numbers: &mut Vec<u32>,
    keys: Vec<(Key, u32)>,
) -> Result<(), NoMemory>
    ensures { OnOk result
        (AddsPairs keys.items told.old.items told.new.items told_numbers.old.items told_numbers.new.items) }
{
    let keys = sorted(keys)?;
    append(told, told_numbers, keys)
}

/// The same, in the order of keys.
fn sorted(keys: Vec<(Key, u32)>) -> Result<Vec<(Key, u32)>, NoMemory>
    ensures permutes { IfOk result (λ all. IsPermutation keys.items all.items) }
    ensures sorted { IfOk result (λ all. IsSortedBy (λ p q. is_lt (key_cmp p.0 q.0)) all.items) }
{
    let mut all = keys;
    all.sort_by(|one, other| one.0.cmp(&other.0))?;
    Ok(all)
}

/// Adds keys and their numbers behind those that are there.
fn append(
    told: &mut Vec<Key>,
    told_numbers: &mut Vec<u32>,
    keys: Vec<(Key, u32)>,
) -> Result<(), NoMemory>
    ensures keys { OnOk result (told.new.items ≡ told.old.items ++ map (λ p. p.0) keys.items) }
    ensures numbers { OnOk result
        (told_numbers.new.items ≡ told_numbers.old.items ++ map (λ p. p.1) keys.items) }
{
    told.reserve(keys.len())?;
    told_numbers.reserve(keys.len())?;
    for (key, number) in keys {
        told.push(key)?;
        told_numbers.push(number)?;
    }
    Ok(())
}
