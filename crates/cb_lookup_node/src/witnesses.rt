//! Partial matches, each with a fact that it sees, if there is one.
ghost use Rattle.std.specs.Prelude.{◌≡◌, ◌≢◌, ◌↔◌, ◌∷◌, ℕ, [], IfOk, List, None, OnOk};
ghost use Rattle.std.specs.Bool.{Decides};
ghost use Rattle.cb_alpha.specs.AlphaMemories.{live};
ghost use Rattle.cb_alpha.specs.Buckets.{values_at};
ghost use Rattle.cb_alpha.specs.Turning.{HasJoin, IsApart};
ghost use Rattle.cb_fit.specs.declared.join_fields.JoinField.{JoinField as Field};
ghost use Rattle.cb_groups.specs.Groups.{group_of};
ghost use Rattle.cb_lookup_node.specs.Internal.{AreReplaced, GiveValuesOfGone, HasGained, HasItsFacts, HasLost, HasWitness, IsOut, IsPlaced};
ghost use Rattle.cb_lookup_node.specs.LookupNodes.{Passes, SeesSome};
ghost use Rattle.cb_matches.specs.Chains.{Chain, In};
ghost use Rattle.cb_token_lists.specs.Partials.{partial_at};

use crate::passing::passes_by;
use crate::seeing::{first_seen, keep_if, seeing};
use crate::values::values_of_number;
use cb_alpha::{AlphaMemory, Buckets, JoinValues, values_of_variables};
use cb_fit::{ComparedField, JoinField};
use cb_forms::NoMemory;
use cb_groups::LinkedGroups;
use cb_token_lists::TokenLists;
use std::alloc::Global;

/// The partial matches before a group, each with one fact that it sees, its witness, if there is one.
#[derive(Drop)]
pub(crate) struct Witnesses {
    /// Those that have a witness, by its number in the alpha memory.
    pub(crate) given: LinkedGroups,
    /// Those that see no fact, by the values that they give to the fields by which facts are found.
    pub(crate) unseen: Buckets,
}

impl Witnesses {
    /// No partial matches. It takes no memory.
    pub(crate) fn new(alloc: Global) -> Witnesses
        ensures given { (n : ℕ) → group_of result.given n ≡ None }
        ensures unseen { (n : ℕ) → values_at result.unseen n ≡ None }
    {
        Witnesses {
            given: LinkedGroups::new(alloc),
            unseen: Buckets::new(alloc),
        }
    }

    /// Takes these out.
    pub(crate) fn forget(&mut self, numbers: &[u32])
        ensures { AreReplaced self.old self.new numbers.now IsOut }
    {
        for number in numbers {
            self.take_out(*number);
        }
    }

    /// The fact that went, if one did: its partial matches get another one that they see. Those that see none are the answer. Growth is
    /// refused as `NoMemory`, and so is a count of sharers that is full; then some of it may be done.
    pub(crate) fn lose(
        &mut self,
        lists: &TokenLists<'_>,
        from: usize,
        fields: &[JoinField],
        compared: &[ComparedField],
        alpha: &AlphaMemory,
        join: usize,
    ) -> Result<Vec<u32>, NoMemory>
        ensures { IfOk result (λ lost. HasJoin alpha.now join fields.now
            → GiveValuesOfGone fields.now alpha.now
            (partial_at lists.now.sources.now lists.now.lists.now from) self.old
            → HasLost compared.now fields.now alpha.now
            (partial_at lists.now.sources.now lists.now.lists.now from) self.old self.new lost.items) }
    {
        let went = alpha.gone();
        let Some(gone) = went else {
            return Ok(Vec::new(lists.alloc));
        };
        let mut left = Vec::new(lists.alloc);
        self.given.take(gone, &mut left)?;
        if left.is_empty() {
            return Ok(left);
        }
        // those whose witness it was give the values that it has
        let found = values_of_number(lists.alloc, fields, alpha, Some(gone))?;
        let Some(values) = found else {
            return Ok(Vec::new(lists.alloc));
        };
        let facts = alpha.facts_with(join, &values);
        let numbers = left.as_slice();
        self.place_alike(lists, from, compared, alpha, &values, facts, numbers)
    }

    /// The fact that came, if one did, becomes the witness of those that see it and have none. They are the answer. It is refused as the
    /// above is.
    pub(crate) fn gain(
        &mut self,
        lists: &TokenLists<'_>,
        from: usize,
        compared: &[ComparedField],
        alpha: &AlphaMemory,
        join: usize,
    ) -> Result<Vec<u32>, NoMemory>
        ensures { IfOk result (λ gained. (fields : List Field) → HasJoin alpha.now join fields → IsApart alpha.now
            → HasGained compared.now fields alpha.now
            (partial_at lists.now.sources.now lists.now.lists.now from) self.old self.new gained.items) }
    {
        let came = alpha.come();
        let Some(come) = came else {
            return Ok(Vec::new(lists.alloc));
        };
        if self.unseen.is_empty() {
            return Ok(Vec::new(lists.alloc));
        }
        let Some(values) = alpha.values_of(join, come) else {
            return Ok(Vec::new(lists.alloc));
        };
        let alike = self.unseen.members_with(values);
        let gained = seeing(lists, from, compared, alpha, come, alike)?;
        self.give(come, gained.as_slice())?;
        Ok(gained)
    }

    /// Looks for a fact that is there for each of these, and keeps them by it. The answer are those that see one, or those that see none, as
    /// is `wanted`. It is refused as the above is.
    pub(crate) fn place_all(
        &mut self,
        lists: &TokenLists<'_>,
        from: usize,
        fields: &[JoinField],
        compared: &[ComparedField],
        alpha: &AlphaMemory,
        join: usize,
        wanted: bool,
        numbers: &[u32],
    ) -> Result<Vec<u32>, NoMemory>
        ensures placed { OnOk result (HasJoin alpha.now join fields.now
            → AreReplaced self.old self.new numbers.now (IsPlaced compared.now fields.now (live alpha.now)
            (partial_at lists.now.sources.now lists.now.lists.now from))) }
        ensures are { IfOk result (λ all. HasJoin alpha.now join fields.now
            → (n : ℕ) → In n all.items
            ↔ (In n numbers.now × Passes wanted (SeesSome compared.now fields.now (live alpha.now)
            (partial_at lists.now.sources.now lists.now.lists.now from n)))) }
        ensures once { IfOk result (λ all. HasJoin alpha.now join fields.now
            → Chain (λ (i : ℕ) (j : ℕ). i ≢ j) numbers.now
            → Chain (λ (i : ℕ) (j : ℕ). i ≢ j) all.items) }
    {
        let mut all = Vec::new(lists.alloc);
        for number in numbers {
            let sees = self.place(lists, from, fields, compared, alpha, join, *number)?;
            keep_if(passes_by(wanted, sees), *number, &mut all)?;
        }
        Ok(all)
    }

    /// The same of one. The answer is whether it sees a fact.
    fn place(
        &mut self,
        lists: &TokenLists<'_>,
        from: usize,
        fields: &[JoinField],
        compared: &[ComparedField],
        alpha: &AlphaMemory,
        join: usize,
        number: u32,
    ) -> Result<bool, NoMemory>
        ensures placed { OnOk result (HasJoin alpha.now join fields.now
            → AreReplaced self.old self.new (number ∷ []) (IsPlaced compared.now fields.now (live alpha.now)
            (partial_at lists.now.sources.now lists.now.lists.now from))) }
        ensures sees { IfOk result (λ sees. HasJoin alpha.now join fields.now
            → Decides sees (SeesSome compared.now fields.now (live alpha.now)
            (partial_at lists.now.sources.now lists.now.lists.now from number))) }
    {
        let reading = lists.reading(from, number);
        let found = values_of_variables(lists.alloc, fields, &reading)?;
        let Some(values) = found else {
            self.take_out(number);
            return Ok(false);
        };
        let facts = alpha.facts_with(join, &values);
        self.place_among(lists, from, compared, alpha, &values, facts, number)
    }

    /// The same of these, which give these values, where these are the facts that have them. The answer are those that see none.
    fn place_alike(
        &mut self,
        lists: &TokenLists<'_>,
        from: usize,
        compared: &[ComparedField],
        alpha: &AlphaMemory,
        values: &JoinValues,
        facts: &[u32],
        numbers: &[u32],
    ) -> Result<Vec<u32>, NoMemory>
        ensures placed { OnOk result ((fields : List Field)
            → ((n : ℕ) → In n numbers.now → HasItsFacts fields alpha.now values.now facts.now
            (partial_at lists.now.sources.now lists.now.lists.now from n))
            → AreReplaced self.old self.new numbers.now (IsPlaced compared.now fields (live alpha.now)
            (partial_at lists.now.sources.now lists.now.lists.now from))) }
        ensures are { IfOk result (λ lost. (fields : List Field)
            → ((n : ℕ) → In n numbers.now → HasItsFacts fields alpha.now values.now facts.now
            (partial_at lists.now.sources.now lists.now.lists.now from n))
            → (n : ℕ) → In n lost.items
            ↔ (In n numbers.now × (SeesSome compared.now fields (live alpha.now)
            (partial_at lists.now.sources.now lists.now.lists.now from n) → ⊥))) }
        ensures once { IfOk result (λ lost. (fields : List Field)
            → ((n : ℕ) → In n numbers.now → HasItsFacts fields alpha.now values.now facts.now
            (partial_at lists.now.sources.now lists.now.lists.now from n))
            → Chain (λ (i : ℕ) (j : ℕ). i ≢ j) numbers.now
            → Chain (λ (i : ℕ) (j : ℕ). i ≢ j) lost.items) }
    {
        let mut lost = Vec::new(lists.alloc);
        for number in numbers {
            let sees = self.place_among(lists, from, compared, alpha, values, facts, *number)?;
            keep_if(!sees, *number, &mut lost)?;
        }
        Ok(lost)
    }

    /// The same of one. The answer is whether it sees a fact.
    fn place_among(
        &mut self,
        lists: &TokenLists<'_>,
        from: usize,
        compared: &[ComparedField],
        alpha: &AlphaMemory,
        values: &JoinValues,
        facts: &[u32],
        number: u32,
    ) -> Result<bool, NoMemory>
        ensures placed { OnOk result ((fields : List Field)
            → HasItsFacts fields alpha.now values.now facts.now
            (partial_at lists.now.sources.now lists.now.lists.now from number)
            → AreReplaced self.old self.new (number ∷ []) (IsPlaced compared.now fields (live alpha.now)
            (partial_at lists.now.sources.now lists.now.lists.now from))) }
        ensures sees { IfOk result (λ sees. (fields : List Field)
            → HasItsFacts fields alpha.now values.now facts.now
            (partial_at lists.now.sources.now lists.now.lists.now from number)
            → Decides sees (SeesSome compared.now fields (live alpha.now)
            (partial_at lists.now.sources.now lists.now.lists.now from number))) }
    {
        self.take_out(number);
        let seen = first_seen(lists, from, compared, alpha, number, facts)?;
        match seen {
            Some(witness) => {
                self.given.add(witness, number)?;
                Ok(true)
            }
            None => {
                self.unseen.add(number, values.copy(lists.alloc)?)?;
                Ok(false)
            }
        }
    }

    /// Makes a fact the witness of each of these. Growth is refused as `NoMemory`, and then some of it may be done.
    fn give(&mut self, witness: u32, numbers: &[u32]) -> Result<(), NoMemory>
        ensures { OnOk result (AreReplaced self.old self.new numbers.now (HasWitness witness)) }
    {
        for number in numbers {
            self.take_out(*number);
            self.given.add(witness, *number)?;
        }
        Ok(())
    }

    /// Takes out one.
    fn take_out(&mut self, number: u32)
        ensures { AreReplaced self.old self.new (number ∷ []) IsOut }
    {
        self.given.remove(number);
        self.unseen.remove(number);
    }
}
