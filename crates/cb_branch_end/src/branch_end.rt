//! The end of a branch.
ghost use Rattle.std.specs.Prelude.{◌≡◌, ◌++◌, IfOk, List, OnOk, map};
ghost use Rattle.std.specs.Map.{lookup};
ghost use Rattle.std.specs.Option.{option_map};
ghost use Rattle.cb_beta.specs.BetaMemories.{BetaMemoryValue};
ghost use Rattle.cb_branch_end.specs.TellingKeys.{AreApart, IsAtEnd, IsTokenOf, Tells, TellsTokens, at_end, key_of};
ghost use Rattle.cb_matches.specs.Changes.{AddsNumbers};
ghost use Rattle.cb_matches.specs.Keys.{key_eq};
ghost use Rattle.cb_matches.specs.Matches.{Partial};
ghost use Rattle.cb_matches.specs.Networks.{keyed};
ghost use Rattle.cb_matches.specs.Order.{IsSorted};
ghost use Rattle.cb_token_lists.specs.Turns.{IsThere, StandFor, Turns};

use cb_forms::NoMemory;
use cb_matches::{Delta, Key};
use cb_token_lists::TokenLists;

/// The list at the end of a branch, whose tokens stand for the matches.
///
/// A key that is told has the number of its token as hint, so that its match is found at once.
#[derive(Clone, Copy)]
pub struct BranchEnd<'a> {
    /// The lists of the branch.
    pub lists: TokenLists<'a>,
    /// The number of the list at the end.
    pub last: usize,
    /// The number of the rule.
    pub rule: u64,
    /// The place of the branch in the rule.
    pub branch: u64,
}

impl BranchEnd<'_> {
    /// Tells the keys of the matches that went and of those that came in this change, behind those told before, in their order, and
    /// the numbers of their tokens. Growth is refused as `NoMemory`, and so is a count of sharers that is full; then some may be told.
    pub fn tell_change(&self, delta: &mut Delta) -> Result<(), NoMemory>
        ensures keys { OnOk result ((m : BetaMemoryValue) (old new : List Partial)
            → IsAtEnd self.now m → Turns (at_end self.now) m old new
            → IsSorted old → IsSorted new
            → Tells delta.old delta.new (map (key_of self.now.rule self.now.branch) old)
            (map (key_of self.now.rule self.now.branch) new)) }
        ensures numbers { OnOk result ((m : BetaMemoryValue) → IsAtEnd self.now m
            → TellsTokens self.now m delta.old delta.new) }
    {
        let Some(memory) = self.lists.lists.get(self.last) else {
            return Ok(());
        };
        self.add_keys(memory.gone(), &mut delta.gone, &mut delta.gone_numbers)?;
        self.add_keys(memory.come(), &mut delta.come, &mut delta.come_numbers)
    }

    /// Tells the keys of all matches, behind those told before, in their order, and the numbers of their tokens. Growth is refused as
    /// `NoMemory`, and so is a count of sharers that is full.
    pub fn tell_all(&self, keys: &mut Vec<Key>, told: &mut Vec<u32>) -> Result<(), NoMemory>
        ensures keys { OnOk result ((m : BetaMemoryValue) (ms : List Partial)
            → IsAtEnd self.now m → StandFor (at_end self.now) (IsThere m) ms
            → AreApart (at_end self.now) m → IsSorted ms
            → keys.new.items ≡ keys.old.items ++ map (key_of self.now.rule self.now.branch) ms) }
        ensures numbers { OnOk result ((m : BetaMemoryValue) → IsAtEnd self.now m
            → AddsNumbers (IsTokenOf self.now (IsThere m)) keys.old.items keys.new.items told.old.items told.new.items) }
    {
        let Some(memory) = self.lists.lists.get(self.last) else {
            return Ok(());
        };
        let numbers = memory.numbers(self.lists.alloc)?;
        self.add_keys(numbers.as_slice(), keys, told)
    }

    /// The number of the token of the match with a key of this branch, if there is such a match. Where the key was told here, and
    /// its match is there, it takes some steps for each list of the branch, and no memory; else it goes over all tokens. Growth is
    /// refused as `NoMemory`.
    pub fn find(&self, key: &Key) -> Result<Option<u32>, NoMemory>
        ensures { IfOk result (λ found. (m : BetaMemoryValue) (ms : List Partial)
            → IsAtEnd self.now m → StandFor (at_end self.now) (IsThere m) ms
            → AreApart (at_end self.now) m
            → key.now.rule ≡ self.now.rule → key.now.branch ≡ self.now.branch
            → option_map (λ n. (at_end self.now n).env) found
            ≡ lookup (key_eq key.now) (map (keyed self.now.rule self.now.branch) ms)) }
    {
        let Some(memory) = self.lists.lists.get(self.last) else {
            return Ok(None);
        };
        let hint = key.hint();
        if self.is_match(memory, hint, key.parts()) {
            return Ok(Some(hint));
        }
        self.search(memory, key.parts())
    }
}
