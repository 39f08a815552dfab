//! The partial matches between two facts, in the order of what is compared.
ghost use Rattle.std.specs.Prelude.{◌≡◌, ◌≢◌, ◌↔◌, ◌++◌, ◌∷◌, ℕ, ℤ, [], IfOk, List, Some, length, option_copied, true};
ghost use Rattle.cb_alpha.specs.Buckets.{values_at};
ghost use Rattle.cb_facts.specs.declared.value.Value.TheVariants.{Int};
ghost use Rattle.cb_facts.specs.declared.value.Value.{Value as Joined};
ghost use Rattle.cb_fit.specs.declared.join_fields.JoinField.{JoinField as Field};
ghost use Rattle.cb_lookup_node.specs.Internal.{IsFiledBy, MayBeFiled};
ghost use Rattle.cb_lookup_node.specs.Order.{AreOneMore, IsFarEnd, SeesFirst, is_lower, is_parted_behind, open_end, parting, place_among, takes_equal};
ghost use Rattle.cb_matches.specs.Chains.{Chain, In};
ghost use Rattle.cb_lookup_node.specs.LookupNodes.{is_by_order};

use crate::places::{before_all, behind, behind_all};
use cb_alpha::{Buckets, JoinValues};
use cb_fit::Comparison;
use cb_forms::NoMemory;
use std::alloc::Global;

/// Whether of two facts the one with the lesser integer is seen by more.
pub(crate) fn is_lower(comparison: Comparison) -> bool
    ensures { result ≡ is_lower comparison }
{
    match comparison {
        Comparison::Less | Comparison::LessOrEqual => true,
        _ => false,
    }
}

/// Whether a fact with the same integer is seen.
pub(crate) fn takes_equal(comparison: Comparison) -> bool
    ensures { result ≡ takes_equal comparison }
{
    match comparison {
        Comparison::LessOrEqual | Comparison::GreaterOrEqual => true,
        _ => false,
    }
}

/// Whether those who see a fact and those who don't are parted behind its integer, or before it.
fn is_parted_behind(comparison: Comparison) -> bool
    ensures { result ≡ is_parted_behind comparison }
{
    match comparison {
        Comparison::Less | Comparison::GreaterOrEqual => true,
        _ => false,
    }
}

/// The partial matches that see a fact with the first values, and none with the others, if they are given. Growth is refused as
/// `NoMemory`.
pub(crate) fn seeing_first(
    alloc: Global,
    comparison: Comparison,
    partials: &Buckets,
    values: &JoinValues,
    others: Option<&JoinValues>,
) -> Result<Vec<u32>, NoMemory>
    ensures are { IfOk result (λ all. (fields : List Field) (known : List Joined) (w : ℤ) → is_by_order comparison ≡ true
        → values.now ≡ known ++ Int w ∷ [] → length values.now ≡ length fields → AreOneMore known (option_copied others.entry)
        → ((member : ℕ) (vs : List Joined) → values_at partials.now member ≡ Some vs
        → MayBeFiled (Some comparison) fields vs)
        → (n : ℕ) → In n all.items
        ↔ IsFiledBy (SeesFirst comparison values.now (option_copied others.entry)) partials.now n) }
    ensures once { IfOk result (λ all. Chain (λ (i : ℕ) (j : ℕ). i ≢ j) all.items) }
{
    let near = parting(alloc, is_parted_behind(comparison), values)?;
    let far = far_end(alloc, comparison, values, others)?;
    if is_lower(comparison) {
        return partials.members_within(alloc, &near, &far);
    }
    partials.members_within(alloc, &far, &near)
}

/// Where those who see a fact with these values are parted from those who don't. Growth is refused as `NoMemory`.
fn parting(alloc: Global, is_behind: bool, values: &JoinValues) -> Result<JoinValues, NoMemory>
    ensures { IfOk result (λ place. (known : List Joined) (w : ℤ) → values.now ≡ known ++ Int w ∷ []
        → place ≡ place_among known (parting is_behind w)) }
{
    if is_behind {
        behind(alloc, values)
    } else {
        values.copy(alloc)
    }
}

/// Where those end who see no fact with the others; an end of all, where none are given. Growth is refused as `NoMemory`.
fn far_end(
    alloc: Global,
    comparison: Comparison,
    values: &JoinValues,
    others: Option<&JoinValues>,
) -> Result<JoinValues, NoMemory>
    ensures { IfOk result (λ place. (known : List Joined) (w : ℤ) → values.now ≡ known ++ Int w ∷ []
        → IsFarEnd comparison known (option_copied others.entry) place) }
{
    match others {
        Some(others) => parting(alloc, is_parted_behind(comparison), others),
        None => far_from_all(alloc, is_lower(comparison), values),
    }
}

/// The end of all on which those stand who see every fact. Growth is refused as `NoMemory`.
fn far_from_all(alloc: Global, is_lower: bool, values: &JoinValues) -> Result<JoinValues, NoMemory>
    ensures { IfOk result (λ place. (known : List Joined) (w : ℤ) → values.now ≡ known ++ Int w ∷ []
        → place ≡ place_among known (open_end is_lower)) }
{
    if is_lower {
        behind_all(alloc, values)
    } else {
        before_all(alloc, values)
    }
}
