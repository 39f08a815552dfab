//! What is kept of matches, by the rule, the branch and the number of each.
ghost use Rattle.std.specs.Prelude.{◌≡◌, ◌≢◌, ℕ, None, OnErr, OnOk, Some, true};
ghost use Rattle.cb_match_index.specs.MatchIndices.{KeepsAll, Place, kept_at};
ghost use Rattle.cb_number_map.specs.Filed.{ChangesAt};

use crate::branches::{have_none, put_in, take_in, value_in};
use crate::values::NOTHING;
use cb_forms::NoMemory;
use std::alloc::Global;
use std::collections::BTreeMap;

/// What is kept of matches, a number for each, by the rule, the branch and the number of the match.
///
/// `get`, `put` and `take` take a constant number of steps, but for growth and for the look-up of the rule, which is logarithmic in the
/// number of rules of which something is kept. A branch takes four bytes for each number up to the greatest that it had, and at most as
/// many again for growth, until its rule is forgotten; so numbers should be small, and given out again when they are free.
///
/// Contracts see what is kept of each match.
#[derive(Drop)]
pub struct MatchIndex {
    alloc: Global,
    /// The values of each rule: a list for each branch, by the numbers of the matches.
    rules: BTreeMap<u64, Vec<Vec<u32>>>,
}

impl MatchIndex {
    /// Keeps nothing. It takes no memory.
    #[tactic(auto, unfolding(crate::specs::MatchIndices::kept_at))]
    pub fn new(alloc: Global) -> MatchIndex
        ensures { (place : Place) → kept_at result place ≡ None }
    {
        MatchIndex {
            alloc,
            rules: BTreeMap::new(alloc),
        }
    }

    /// What is kept of a match, if anything is.
    #[tactic(auto, unfolding(crate::specs::MatchIndices::kept_at))]
    pub fn get(&self, rule: u64, branch: u64, number: u32) -> Option<u32>
        ensures { result ≡ kept_at self.now (rule, (branch, number)) }
    {
        match self.rules.get(&rule) {
            Some(branches) => value_in(branches, branch, number),
            None => None,
        }
    }

    /// Keeps a value for a match, in place of what was kept. Growth is refused as `NoMemory`, and so is the value 2^32 - 1; then nothing
    /// has changed.
    #[tactic(auto, unfolding(crate::specs::MatchIndices::kept_at))]
    pub fn put(&mut self, rule: u64, branch: u64, number: u32, value: u32) -> Result<(), NoMemory>
        ensures ok { OnOk result (ChangesAt (kept_at self.old) (kept_at self.new)
            (rule, (branch, number)) (Some value)) }
        ensures err { OnErr result (KeepsAll (kept_at self.old) (kept_at self.new)) }
    {
        if value == NOTHING {
            return Err(NoMemory);
        }
        match self.rules.get_mut(&rule) {
            Some(branches) => put_in(self.alloc, branches, branch, number, value),
            None => {
                let mut branches = Vec::new(self.alloc);
                put_in(self.alloc, &mut branches, branch, number, value)?;
                self.rules.insert(rule, branches)?;
                Ok(())
            }
        }
    }

    /// Forgets what is kept for a match. The answer is what it was.
    #[tactic(auto, unfolding(crate::specs::MatchIndices::kept_at))]
    pub fn take(&mut self, rule: u64, branch: u64, number: u32) -> Option<u32>
        ensures kept { result ≡ kept_at self.old (rule, (branch, number)) }
        ensures gone { ChangesAt (kept_at self.old) (kept_at self.new)
            (rule, (branch, number)) None }
    {
        match self.rules.get_mut(&rule) {
            Some(branches) => take_in(branches, branch, number),
            None => None,
        }
    }

    /// Forgets all matches of a rule, and gives the memory back.
    #[tactic(auto, unfolding(crate::specs::MatchIndices::kept_at))]
    pub fn forget_rule(&mut self, rule: u64)
        ensures gone { (place : Place) → rule ≡ place.0 → kept_at self.new place ≡ None }
        ensures others { (place : Place) → rule ≢ place.0
            → kept_at self.new place ≡ kept_at self.old place }
    {
        self.rules.remove(&rule);
    }

    /// Gives back the memory of a rule, if nothing is kept of it. It takes a number of steps that grows with the greatest numbers that its
    /// branches had.
    #[tactic(auto, unfolding(crate::specs::MatchIndices::kept_at))]
    pub fn forget_unused(&mut self, rule: u64)
        ensures { KeepsAll (kept_at self.old) (kept_at self.new) }
    {
        if self.is_unused(rule) {
            self.rules.remove(&rule);
        }
    }

    /// Whether nothing is kept of a rule.
    #[tactic(auto, unfolding(crate::specs::MatchIndices::kept_at))]
    fn is_unused(&self, rule: u64) -> bool
        ensures { result ≡ true → (place : ℕ × ℕ) → kept_at self.now (rule, place) ≡ None }
    {
        match self.rules.get(&rule) {
            Some(branches) => have_none(branches),
            None => true,
        }
    }
}
