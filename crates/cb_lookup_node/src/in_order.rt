//! A change of a group for which facts and partial matches are looked up by values and their order.
ghost use Rattle.std.specs.Prelude.{◌≡◌, OnOk};
ghost use Rattle.cb_lookup_node.specs.Internal.{HasChanged, IsToChange};
ghost use Rattle.cb_lookup_node.specs.declared.sight.Sight.TheVariants as sight;
ghost use Rattle.cb_token_lists.specs.Keeping.{KeepsTokens};
ghost use Rattle.cb_token_lists.specs.Partials.{partial_at};

use crate::filed::forget_all;
use crate::passing::pass_come;
use crate::turned::turn;
use crate::values::values_of_number;
use cb_alpha::{AlphaMemory, Buckets};
use cb_beta::BetaMemory;
use cb_fit::{Comparison, JoinField};
use cb_forms::NoMemory;
use cb_token_lists::TokenLists;

/// Partial matches by the values that they give to the fields, of which the last may be compared by the order of integers.
#[derive(Drop)]
pub(crate) struct InOrder {
    /// How the last field is compared with the value of its variable, if it is.
    pub(crate) comparison: Option<Comparison>,
    /// The partial matches before the group.
    pub(crate) partials: Buckets,
}

impl InOrder {
    /// A change, as `Sight::change` says.
    pub(crate) fn change(
        &mut self,
        lists: &TokenLists<'_>,
        from: usize,
        fields: &[JoinField],
        positive: bool,
        alpha: &AlphaMemory,
        join: usize,
        before: &BetaMemory,
        own: &mut BetaMemory,
    ) -> Result<(), NoMemory>
        ensures same { self.new.comparison ≡ self.old.comparison }
        ensures changed { OnOk result (IsToChange (sight.InOrder self.old) fields.now
            (partial_at lists.now.sources.now lists.now.lists.now from) before.now alpha.now join
            → HasChanged positive (sight.InOrder self.old) (sight.InOrder self.new) fields.now
            (partial_at lists.now.sources.now lists.now.lists.now from) before.now alpha.now own.old own.new) }
        ensures keeps { OnOk result (KeepsTokens own.old own.new) }
    {
        forget_all(&mut self.partials, before.gone());
        let went = values_of_number(lists.alloc, fields, alpha, alpha.gone())?;
        let came = values_of_number(lists.alloc, fields, alpha, alpha.come())?;
        turn(
            lists.alloc,
            self.comparison,
            positive,
            &self.partials,
            alpha,
            join,
            &went,
            &came,
            own,
        )?;
        pass_come(
            lists,
            from,
            self.comparison,
            fields,
            positive,
            &mut self.partials,
            alpha,
            join,
            before.come(),
            own,
        )
    }
}
