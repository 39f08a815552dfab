//! A beta memory: the tokens of a list of partial matches, and what a change does to them.
ghost use Rattle.std.specs.Prelude.{◌≡◌, ◌⊎◌, [], IfOk, OnErr, OnOk, Some, is_some, true, ℕ};
ghost use Rattle.std.specs.Option.{option_copied};
ghost use Rattle.cb_matches.specs.Chains.{In};
ghost use Rattle.cb_beta.specs.BetaMemories.{AreLiveNumbers, Gains, HasFact, IsEnded, IsSame, Loses, live};
ghost use Rattle.cb_beta.specs.Tokens.{candidate_of, token_at};

use crate::filing::{file, forget, free, insert, leave};
use crate::token::Token;
use cb_forms::NoMemory;
use cb_groups::LinkedGroups;
use slab::Slab;
use std::alloc::Global;
use std::marker::Model;

/// For how many numbers room is kept from change to change.
const ROOM: usize = 64;

/// The tokens of a list of partial matches, and which of them went and came in the change that is under way.
///
/// A token that went can be read until the change ends, and its number is free only then. So what stood behind it can still be
/// found, and no number means two tokens in one change.
#[derive(Drop)]
pub struct BetaMemory {
    /// Those that are there, and until the end of a change those that are gone.
    tokens: Slab<Token>,
    gone: Vec<u32>,
    come: Vec<u32>,
    /// Those that are there, by the number of their parent.
    children: LinkedGroups,
    /// Those of them that took a fact, by its number.
    with_fact: LinkedGroups,
}

impl Model for BetaMemory {
    ghost use Rattle.cb_beta.specs.BetaMemories.{BetaMemoryValue};
    ghost use Rattle.cb_beta.specs.Internal.{AreFiled};

    ghost Value = { BetaMemoryValue };

    ghost view = { λ m. record { tokens = m.tokens.slots; gone = m.gone.items; come = m.come.items } };

    ghost invariant = { λ m. AreFiled m.tokens.slots m.gone.items m.children m.with_fact };
}

impl BetaMemory {
    /// No tokens. It takes no memory.
    pub fn new(alloc: Global) -> BetaMemory
        ensures { result ≡ record { tokens = []; gone = []; come = [] } }
    {
        BetaMemory {
            tokens: Slab::new(alloc),
            children: LinkedGroups::new(alloc),
            with_fact: LinkedGroups::new(alloc),
            gone: Vec::new(alloc),
            come: Vec::new(alloc),
        }
    }

    /// Whether there is no token, and none was when the change began.
    pub fn is_empty(&self) -> bool
        ensures none { result ≡ true → (number : ℕ) → token_at self.now.tokens number ≡ None }
        ensures gone { result ≡ true → self.now.gone ≡ [] }
        ensures come { result ≡ true → self.now.come ≡ [] }
    {
        self.tokens.is_empty() && self.gone.is_empty() && self.come.is_empty()
    }

    /// The token with a number, if there is one, or was when the change began.
    pub fn token(&self, number: u32) -> Option<&Token>
        ensures { option_copied result ≡ token_at self.now.tokens number }
    {
        self.tokens.get(number as usize)
    }

    /// Whether there is a token with a number that didn't go in this change. It takes a step for each that went.
    pub fn is_there(&self, number: u32) -> bool
        ensures { result ≡ is_some (live self.now number) }
    {
        if self.gone.contains(&number) {
            return false;
        }
        self.token(number).is_some()
    }

    /// The numbers of those that are there, from the lowest to the highest. Growth is refused as `NoMemory`.
    pub fn numbers(&self, alloc: Global) -> Result<Vec<u32>, NoMemory>
        ensures { IfOk result (λ all. AreLiveNumbers self.now all.items) }
    {
        let Ok(end) = u32::try_from(self.tokens.capacity()) else {
            return Err(NoMemory);
        };
        let mut all = Vec::with_capacity(alloc, self.tokens.len())?;
        for number in 0..end {
            if self.is_there(number) {
                all.push(number)?;
            }
        }
        Ok(all)
    }

    /// The numbers of those that went in this change.
    pub fn gone(&self) -> &[u32]
        ensures { result.now ≡ self.now.gone }
    {
        self.gone.as_slice()
    }

    /// The numbers of those that came in this change.
    pub fn come(&self) -> &[u32]
        ensures { result.now ≡ self.now.come }
    {
        self.come.as_slice()
    }

    /// Adds a token, which came, and returns its number. Growth is refused as `NoMemory`, and then nothing has changed.
    pub fn add(&mut self, token: Token) -> Result<u32, NoMemory>
        ensures ok { IfOk result (λ number. Gains self.old self.new number token) }
        ensures err { OnErr result (IsSame self.old self.new) }
    {
        let parent = token.parent();
        let candidate = token.candidate();
        let number = insert(&mut self.tokens, token)?;
        let filed = file(
            &mut self.children,
            &mut self.with_fact,
            &mut self.come,
            parent,
            candidate,
            number,
        );
        match filed {
            Ok(()) => Ok(number),
            Err(NoMemory) => {
                forget(
                    &mut self.tokens,
                    &mut self.children,
                    &mut self.with_fact,
                    number,
                );
                Err(NoMemory)
            }
        }
    }

    /// All that goes on from this number goes. Growth is refused as `NoMemory`, and then nothing has changed.
    pub fn remove_children(&mut self, parent: u32) -> Result<(), NoMemory>
        ensures ok { OnOk result (Loses self.old self.new (λ t. t.parent ≡ parent)) }
        ensures err { OnErr result (self.new ≡ self.old) }
    {
        let start = self.gone.len();
        self.children.take(parent, &mut self.gone)?;
        leave(&mut self.with_fact, &self.gone.as_slice()[start..]);
        Ok(())
    }

    /// All that has the fact of this number goes. Growth is refused as `NoMemory`, and then nothing has changed.
    pub fn remove_with_fact(&mut self, candidate: u32) -> Result<(), NoMemory>
        ensures ok { OnOk result (Loses self.old self.new (λ t. candidate_of t ≡ Some candidate)) }
        ensures err { OnErr result (self.new ≡ self.old) }
    {
        let start = self.gone.len();
        self.with_fact.take(candidate, &mut self.gone)?;
        leave(&mut self.children, &self.gone.as_slice()[start..]);
        Ok(())
    }

    /// All that goes on from one of these numbers goes. Growth is refused as `NoMemory`, and then some of it may have gone.
    pub fn remove_all_children(&mut self, parents: &[u32]) -> Result<(), NoMemory>
        ensures { OnOk result (Loses self.old self.new (λ t. In t.parent parents.now)) }
    {
        for parent in parents {
            self.remove_children(*parent)?;
        }
        Ok(())
    }

    /// What a change takes away at a pattern: all that goes on from what is gone before it, and all that has the fact that is taken
    /// out, if there is one. Growth is refused as `NoMemory`, and then some of it may have gone.
    pub fn retract(&mut self, gone_before: &[u32], candidate: Option<u32>) -> Result<(), NoMemory>
        ensures { OnOk result (Loses self.old self.new
            (λ t. In t.parent gone_before.now ⊎ HasFact candidate t)) }
    {
        self.remove_all_children(gone_before)?;
        self.remove_fact(candidate)
    }

    /// All that has the fact of this number goes, if one is given.
    fn remove_fact(&mut self, candidate: Option<u32>) -> Result<(), NoMemory>
        ensures { OnOk result (Loses self.old self.new (HasFact candidate)) }
    {
        match candidate {
            Some(candidate) => self.remove_with_fact(candidate),
            None => Ok(()),
        }
    }

    /// The change ends: what is gone can't be read any more, and its numbers are free.
    pub fn end_change(&mut self)
        ensures { IsEnded self.old self.new }
    {
        if self.gone.is_empty() && self.come.is_empty() {
            return;
        }
        free(&mut self.tokens, self.gone.as_slice());
        self.gone.clear();
        self.gone.shrink_to(ROOM);
        self.come.clear();
        self.come.shrink_to(ROOM);
    }
}
