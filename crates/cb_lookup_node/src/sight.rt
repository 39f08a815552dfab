//! How it is known for which partial matches there is a fact.
ghost use Rattle.std.specs.Prelude.{◌≡◌, ℕ, IfOk, List, None, OnOk, Option};
ghost use Rattle.cb_alpha.specs.Buckets.{values_at};
ghost use Rattle.cb_facts.specs.Facts.{FactValue};
ghost use Rattle.cb_fit.specs.declared.join_fields.JoinField.{JoinField as Field};
ghost use Rattle.cb_lookup_node.specs.Internal.{HasChanged, IsToChange};
ghost use Rattle.cb_lookup_node.specs.LookupNodes.{AreKept, AsksBy, looking_of};
ghost use Rattle.cb_matches.specs.Matches.{Partial};
ghost use Rattle.cb_token_lists.specs.Keeping.{KeepsTokens};
ghost use Rattle.cb_token_lists.specs.Partials.{partial_at};

use crate::by_witness::ByWitness;
use crate::forms::{add_compared, are_by_order};
use crate::in_order::InOrder;
use crate::witnesses::Witnesses;
use cb_alpha::{AlphaMemory, Buckets};
use cb_beta::BetaMemory;
use cb_fit::{ComparedField, Comparison, JoinField};
use cb_forms::NoMemory;
use cb_token_lists::TokenLists;
use std::alloc::Global;

/// How it is known for which partial matches there is a fact that they see.
#[derive(Drop)]
pub(crate) enum Sight {
    /// By values, and the order of the last of them.
    InOrder(InOrder),
    /// By a fact that each keeps.
    ByWitness(ByWitness),
}

impl Sight {
    /// How it is known where these fields are compared, with no partial matches yet. The field that is compared by order, if it is alone, is
    /// added to those by which facts are found. Growth is refused as `NoMemory`.
    pub(crate) fn new(
        alloc: Global,
        compared: Vec<ComparedField>,
        fields: &mut Vec<JoinField>,
    ) -> Result<Sight, NoMemory>
        ensures asks { IfOk result (λ sight. AsksBy (looking_of sight) fields.new.items fields.old.items compared.items) }
        ensures none { IfOk result (λ sight. (js : List Field) (at : ℕ → Partial) (facts : ℕ → Option (ℕ × FactValue))
            → AreKept sight js at (λ number. ⊥) facts) }
    {
        if !are_by_order(compared.as_slice()) {
            let kept = Witnesses::new(alloc);
            return Ok(Sight::ByWitness(ByWitness { compared, kept }));
        }
        let comparison = add_compared(compared, fields)?;
        let partials = no_partials(alloc, comparison);
        Ok(Sight::InOrder(InOrder {
            comparison,
            partials,
        }))
    }

    /// Whether facts are looked up by ranges of values.
    pub(crate) fn takes_ranges(&self) -> bool {
        match self {
            Sight::InOrder(order) => order.comparison.is_some(),
            Sight::ByWitness(_) => false,
        }
    }

    /// No partial matches are kept any more. It takes no memory.
    pub(crate) fn clear(&mut self, alloc: Global)
        ensures same { looking_of self.new ≡ looking_of self.old }
        ensures none { (js : List Field) (at : ℕ → Partial) (facts : ℕ → Option (ℕ × FactValue))
            → AreKept self.new js at (λ number. ⊥) facts }
    {
        match self {
            Sight::InOrder(order) => order.partials = no_partials(alloc, order.comparison),
            Sight::ByWitness(witness) => witness.kept = Witnesses::new(alloc),
        }
    }

    /// Changes what is kept and the tokens behind the group, in `own`, from which those of the partial matches that went have gone. Growth
    /// is refused as `NoMemory`, and then some of the change may be done.
    pub(crate) fn change(
        &mut self,
        lists: &TokenLists<'_>,
        from: usize,
        fields: &[JoinField],
        positive: bool,
        alpha: &AlphaMemory,
        join: usize,
        before: &BetaMemory,
        own: &mut BetaMemory,
    ) -> Result<(), NoMemory>
        ensures same { looking_of self.new ≡ looking_of self.old }
        ensures changed { OnOk result (IsToChange self.old fields.now
            (partial_at lists.now.sources.now lists.now.lists.now from) before.now alpha.now join
            → HasChanged positive self.old self.new fields.now
            (partial_at lists.now.sources.now lists.now.lists.now from) before.now alpha.now own.old own.new) }
        ensures keeps { OnOk result (KeepsTokens own.old own.new) }
    {
        match self {
            Sight::InOrder(order) => {
                order.change(lists, from, fields, positive, alpha, join, before, own)
            }
            Sight::ByWitness(witness) => {
                witness.change(lists, from, fields, positive, alpha, join, before, own)
            }
        }
    }
}

/// No partial matches by values, which are kept in order where the last of them is compared.
fn no_partials(alloc: Global, comparison: Option<Comparison>) -> Buckets
    ensures { (n : ℕ) → values_at result n ≡ None }
{
    match comparison {
        Some(_) => Buckets::in_order(alloc),
        None => Buckets::new(alloc),
    }
}
