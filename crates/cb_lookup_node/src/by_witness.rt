//! A change of a group for which each partial match keeps a witness.
ghost use Rattle.std.specs.Prelude.{◌≡◌, OnOk};
ghost use Rattle.cb_lookup_node.specs.Internal.{HasChanged, IsToChange};
ghost use Rattle.cb_lookup_node.specs.declared.sight.Sight.TheVariants as sight;
ghost use Rattle.cb_token_lists.specs.Keeping.{KeepsTokens};
ghost use Rattle.cb_token_lists.specs.Partials.{partial_at};

use crate::passing::pass_all;
use crate::turned::pass_turned;
use crate::witnesses::Witnesses;
use cb_alpha::AlphaMemory;
use cb_beta::BetaMemory;
use cb_fit::{ComparedField, JoinField};
use cb_forms::NoMemory;
use cb_token_lists::TokenLists;

/// Partial matches, each with a fact that it sees, where fields are compared with variables.
#[derive(Drop)]
pub(crate) struct ByWitness {
    /// The fields that are compared.
    pub(crate) compared: Vec<ComparedField>,
    /// The partial matches before the group.
    pub(crate) kept: Witnesses,
}

impl ByWitness {
    /// A change, as `Sight::change` says. A fact that comes is compared only with those that have no witness, and one that goes leads to a
    /// look for another only for those whose witness it was.
    pub(crate) fn change(
        &mut self,
        lists: &TokenLists<'_>,
        from: usize,
        fields: &[JoinField],
        positive: bool,
        alpha: &AlphaMemory,
        join: usize,
        before: &BetaMemory,
        own: &mut BetaMemory,
    ) -> Result<(), NoMemory>
        ensures same { self.new.compared ≡ self.old.compared }
        ensures changed { OnOk result (IsToChange (sight.ByWitness self.old) fields.now
            (partial_at lists.now.sources.now lists.now.lists.now from) before.now alpha.now join
            → HasChanged positive (sight.ByWitness self.old) (sight.ByWitness self.new) fields.now
            (partial_at lists.now.sources.now lists.now.lists.now from) before.now alpha.now own.old own.new) }
        ensures keeps { OnOk result (KeepsTokens own.old own.new) }
    {
        let compared = self.compared.as_slice();
        self.kept.forget(before.gone());
        let lost = self.kept.lose(lists, from, fields, compared, alpha, join)?;
        let gained = self.kept.gain(lists, from, compared, alpha, join)?;
        pass_turned(positive, lost.as_slice(), gained.as_slice(), own)?;
        let come = before.come();
        let passed = self
            .kept
            .place_all(lists, from, fields, compared, alpha, join, positive, come)?;
        pass_all(passed.as_slice(), own)
    }
}
