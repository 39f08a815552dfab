//! Partial matches, and facts, by the values that they are joined on.
ghost use Rattle.std.specs.Prelude.{◌≡◌, [], ℕ, List, None, Some};
ghost use Rattle.cb_alpha.specs.AlphaMemories.{live};
ghost use Rattle.cb_alpha.specs.Buckets.{AreWithValues};
ghost use Rattle.cb_alpha.specs.JoinValues.{field_values};
ghost use Rattle.cb_facts.specs.Facts.{FactValue};
ghost use Rattle.cb_facts.specs.declared.value.Value.{Value as Joined};
ghost use Rattle.cb_join_node.specs.Filings.{IsNowhere, IsSamePlace};
ghost use Rattle.cb_join_node.specs.Nodes.{FindsFacts};
ghost use Rattle.cb_matches.specs.Chains.{In};

use crate::partials::Partials;
use cb_alpha::{AlphaMemory, JoinValues};
use cb_fit::JoinField;
use cb_groups::Groups;
use std::alloc::Global;

/// The partial matches with the values of the fact of a number in these fields, which an alpha memory has under a join; none where it
/// lacks a field.
pub(crate) fn partials_beside<'b>(
    alloc: Global,
    fields: &[JoinField],
    partials: &'b Partials,
    alpha: &AlphaMemory,
    join: usize,
    number: u32,
) -> &'b [u32]
    ensures some { FindsFacts alpha.now join fields.now → (f : ℕ × FactValue) (values : List Joined)
        → live alpha.now number ≡ Some f → field_values fields.now f.1.content ≡ Some values
        → AreWithValues partials.now values result.now }
    ensures none { FindsFacts alpha.now join fields.now → (f : ℕ × FactValue)
        → live alpha.now number ≡ Some f → field_values fields.now f.1.content ≡ None
        → result.now ≡ [] }
{
    if fields.is_empty() {
        return partials.members_with(&JoinValues::many(Vec::new(alloc)));
    }
    match alpha.values_of(join, number) {
        Some(values) => partials.members_with(values),
        None => &[],
    }
}

/// Takes these partial matches out, wherever they stand.
pub(crate) fn forget_partials(partials: &mut Partials, strays: &mut Groups, numbers: &[u32])
    ensures gone { (number : ℕ) → In number numbers.now → IsNowhere partials.new strays.new number }
    ensures others { (number : ℕ) → (In number numbers.now → ⊥)
        → IsSamePlace partials.old strays.old partials.new strays.new number }
{
    for number in numbers {
        partials.remove(*number);
        strays.remove(*number);
    }
}
