//! Facts in the order of the last of their values, where that is compared.
ghost use Rattle.std.specs.Prelude.{◌≡◌, ◌≢◌, ◌↔◌, ◌<◌, ◌++◌, ◌∷◌, ℕ, ℤ, [], IfOk, List, None, Some, false, length, option_copied, true};
ghost use Rattle.std.specs.Bool.{Decides};
ghost use Rattle.cb_alpha.specs.AlphaMemories.{live, values_in};
ghost use Rattle.cb_alpha.specs.Buckets.{values_at};
ghost use Rattle.cb_alpha.specs.Turning.{HasJoin};
ghost use Rattle.cb_facts.specs.declared.value.Value.TheVariants.{Int};
ghost use Rattle.cb_facts.specs.declared.value.Value.{Value as Joined};
ghost use Rattle.cb_fit.specs.declared.join_fields.JoinField.{JoinField as Field};
ghost use Rattle.cb_lookup_node.specs.Internal.{IsFiledBy, MayBeFiled};
ghost use Rattle.cb_lookup_node.specs.LookupNodes.{HasSeen, ends_in_integer};
ghost use Rattle.cb_lookup_node.specs.Order.{HasBeyond, IsNearest, IsSeenAlone, OtherHas, takes_equal};
ghost use Rattle.cb_matches.specs.Chains.{Chain, In};
ghost use Rattle.cb_lookup_node.specs.LookupNodes.{is_by_order};

use crate::parting::{is_lower, seeing_first, takes_equal};
use crate::places::{before_all, behind, behind_all, ends_in_integer};
use cb_alpha::{AlphaMemory, Buckets, JoinValues};
use cb_fit::Comparison;
use cb_forms::NoMemory;
use std::alloc::Global;

/// Whether a fact that is there is seen by these values, of which the last is compared. Growth is refused as `NoMemory`.
pub(crate) fn sees_in_order(
    alloc: Global,
    comparison: Comparison,
    alpha: &AlphaMemory,
    join: usize,
    values: &JoinValues,
) -> Result<bool, NoMemory>
    ensures { IfOk result (λ sees. (fields : List Field) → HasJoin alpha.now join fields
        → is_by_order comparison ≡ true → length values.now ≡ length fields
        → Decides sees (HasSeen (Some comparison) fields (live alpha.now) values.now)) }
{
    if !ends_in_integer(values) {
        return Ok(false);
    }
    if sees_equal(comparison, alpha, join, values) {
        return Ok(true);
    }
    has_beyond(alloc, is_lower(comparison), alpha, join, values)
}

/// Whether a fact that is there has these values, and is seen by them.
fn sees_equal(comparison: Comparison, alpha: &AlphaMemory, join: usize, values: &JoinValues) -> bool
    ensures { (fields : List Field) → HasJoin alpha.now join fields
        → Decides result ((takes_equal comparison ≡ true) × OtherHas fields alpha.now None values.now) }
{
    if !takes_equal(comparison) {
        return false;
    }
    has_another(alpha, join, None, values)
}

/// The partial matches that see a fact with these values, and no other: the fact of this number, which has them, or, where no number is
/// given, one that isn't there any more. Growth is refused as `NoMemory`.
pub(crate) fn seeing_alone(
    alloc: Global,
    comparison: Comparison,
    partials: &Buckets,
    alpha: &AlphaMemory,
    join: usize,
    number: Option<u32>,
    values: &JoinValues,
) -> Result<Vec<u32>, NoMemory>
    ensures are { IfOk result (λ all. (fields : List Field) → HasJoin alpha.now join fields
        → is_by_order comparison ≡ true → length values.now ≡ length fields
        → ((n : ℕ) → number ≡ Some n → values_in fields (live alpha.now n) ≡ Some values.now)
        → ((member : ℕ) (vs : List Joined) → values_at partials.now member ≡ Some vs
        → MayBeFiled (Some comparison) fields vs)
        → (n : ℕ) → In n all.items
        ↔ IsFiledBy (IsSeenAlone comparison fields alpha.now number values.now) partials.now n) }
    ensures once { IfOk result (λ all. Chain (λ (i : ℕ) (j : ℕ). i ≢ j) all.items) }
{
    if !ends_in_integer(values) {
        return Ok(Vec::new(alloc));
    }
    if has_another(alpha, join, number, values) {
        return Ok(Vec::new(alloc));
    }
    let lower = is_lower(comparison);
    let better = has_beyond(alloc, lower, alpha, join, values)?;
    if better {
        return Ok(Vec::new(alloc));
    }
    let next = nearest(alloc, !lower, alpha, join, values)?;
    seeing_first(alloc, comparison, partials, values, next)
}

/// Whether a fact that is there has these values, beside the one of this number, which has them.
fn has_another(alpha: &AlphaMemory, join: usize, number: Option<u32>, values: &JoinValues) -> bool
    ensures { (fields : List Field) → HasJoin alpha.now join fields
        → ((n : ℕ) → number ≡ Some n → values_in fields (live alpha.now n) ≡ Some values.now)
        → Decides result (OtherHas fields alpha.now number values.now) }
{
    let facts = alpha.facts_with(join, values);
    match number {
        Some(_) => is_several(facts),
        None => !facts.is_empty(),
    }
}

/// Whether a fact that is there has the same values but for the last, and there an integer that is less, or greater. Growth is refused as
/// `NoMemory`.
fn has_beyond(
    alloc: Global,
    lower: bool,
    alpha: &AlphaMemory,
    join: usize,
    values: &JoinValues,
) -> Result<bool, NoMemory>
    ensures { IfOk result (λ has. (fields : List Field) (known : List Joined) (w : ℤ) → HasJoin alpha.now join fields
        → values.now ≡ known ++ Int w ∷ [] → length values.now ≡ length fields
        → Decides has (HasBeyond lower fields alpha.now known w)) }
{
    let found = nearest(alloc, lower, alpha, join, values)?;
    match found {
        Some(_) => Ok(true),
        None => Ok(false),
    }
}

/// Whether there is more than one.
fn is_several(facts: &[u32]) -> bool
    ensures { Decides result (1 < length facts.now) }
{
    facts.len() > 1
}

/// The values of a fact that are the same but for the last, which is the nearest integer below that of these, or above it, if there is
/// such a fact. Growth is refused as `NoMemory`.
fn nearest<'a>(
    alloc: Global,
    lower: bool,
    alpha: &'a AlphaMemory,
    join: usize,
    values: &JoinValues,
) -> Result<Option<&'a JoinValues>, NoMemory>
    ensures { IfOk result (λ found. (fields : List Field) (known : List Joined) (w : ℤ) → HasJoin alpha.now join fields
        → values.now ≡ known ++ Int w ∷ [] → length values.now ≡ length fields
        → IsNearest lower fields alpha.now known w (option_copied found)) }
{
    if lower {
        below(alloc, alpha, join, values)
    } else {
        above(alloc, alpha, join, values)
    }
}

/// The same below.
fn below<'a>(
    alloc: Global,
    alpha: &'a AlphaMemory,
    join: usize,
    values: &JoinValues,
) -> Result<Option<&'a JoinValues>, NoMemory>
    ensures { IfOk result (λ found. (fields : List Field) (known : List Joined) (w : ℤ) → HasJoin alpha.now join fields
        → values.now ≡ known ++ Int w ∷ [] → length values.now ≡ length fields
        → IsNearest true fields alpha.now known w (option_copied found)) }
{
    let low = before_all(alloc, values)?;
    Ok(if_integer(alpha.last_within(join, &low, values)))
}

/// The same above.
fn above<'a>(
    alloc: Global,
    alpha: &'a AlphaMemory,
    join: usize,
    values: &JoinValues,
) -> Result<Option<&'a JoinValues>, NoMemory>
    ensures { IfOk result (λ found. (fields : List Field) (known : List Joined) (w : ℤ) → HasJoin alpha.now join fields
        → values.now ≡ known ++ Int w ∷ [] → length values.now ≡ length fields
        → IsNearest false fields alpha.now known w (option_copied found)) }
{
    let low = behind(alloc, values)?;
    let high = behind_all(alloc, values)?;
    Ok(if_integer(alpha.first_within(join, &low, &high)))
}

/// These values, if the last is an integer.
fn if_integer(found: Option<&JoinValues>) -> Option<&JoinValues>
    ensures { (values : List Joined) → (option_copied result ≡ Some values)
        ↔ ((option_copied found.entry ≡ Some values) × (ends_in_integer values ≡ true)) }
{
    match found {
        Some(values) if ends_in_integer(values) => Some(values),
        _ => None,
    }
}
