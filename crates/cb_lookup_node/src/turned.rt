//! The partial matches that a change of facts turns: those for which the last fact went, or the first one came.
ghost use Rattle.std.specs.Prelude.{◌≡◌, ◌≢◌, ◌↔◌, ℕ, IfOk, List, None, OnOk, Option, Some, if◌then◌else◌, length, true};
ghost use Rattle.std.specs.Bool.{Decides};
ghost use Rattle.cb_alpha.specs.AlphaMemories.{live};
ghost use Rattle.cb_alpha.specs.Turning.{HasJoin, IsApart};
ghost use Rattle.cb_beta.specs.BetaMemories.{BetaMemoryValue, Loses};
ghost use Rattle.cb_facts.specs.declared.value.Value.{Value as Joined};
ghost use Rattle.cb_fit.specs.declared.join_fields.JoinField.{JoinField as Field};
ghost use Rattle.cb_lookup_node.specs.Internal.{AreOf, Asks, HasTurned, IsFiledBy, IsGained, IsLost, IsSeenBy, is_ordered, values_under};
ghost use Rattle.cb_matches.specs.Chains.{Chain, In};
ghost use Rattle.cb_token_lists.specs.Growth.{Comes};
ghost use Rattle.cb_token_lists.specs.Keeping.{KeepsTokens};

use crate::order::{seeing_alone, sees_in_order};
use crate::passing::pass_all;
use cb_alpha::{AlphaMemory, Buckets, JoinValues};
use cb_beta::BetaMemory;
use cb_fit::Comparison;
use cb_forms::NoMemory;
use std::alloc::Global;

/// Passes on the partial matches that a change of facts turns, or takes them away, where these are the values of the facts that went and
/// came. Growth is refused as `NoMemory`, and then some of it may be done.
pub(crate) fn turn(
    alloc: Global,
    comparison: Option<Comparison>,
    positive: bool,
    partials: &Buckets,
    alpha: &AlphaMemory,
    join: usize,
    went: &Option<JoinValues>,
    came: &Option<JoinValues>,
    own: &mut BetaMemory,
) -> Result<(), NoMemory>
    ensures turned { OnOk result ((fields : List Field)
        → Asks comparison fields alpha.now join partials.now went.now came.now
        → HasTurned positive comparison fields alpha.now partials.now own.old own.new) }
    ensures keeps { OnOk result (KeepsTokens own.old own.new) }
{
    match comparison {
        None => {
            let lost = losing(partials, alpha, join, went);
            let gained = gaining(partials, alpha, join, went, came);
            pass_turned(positive, lost, gained, own)
        }
        Some(comparison) => {
            let lost = losing_in_order(alloc, comparison, partials, alpha, join, went)?;
            let gained = gaining_in_order(alloc, comparison, partials, alpha, join, came)?;
            pass_turned(positive, lost.as_slice(), gained.as_slice(), own)
        }
    }
}

/// Whether a fact that is there is seen by these values, if they are given. Growth is refused as `NoMemory`.
pub(crate) fn sees(
    alloc: Global,
    comparison: Option<Comparison>,
    alpha: &AlphaMemory,
    join: usize,
    values: &Option<JoinValues>,
) -> Result<bool, NoMemory>
    ensures { IfOk result (λ sees. (fields : List Field) → HasJoin alpha.now join fields → is_ordered comparison ≡ true
        → ((vs : List Joined) → values.now ≡ Some vs → length vs ≡ length fields)
        → Decides sees (IsSeenBy comparison fields (live alpha.now) values.now)) }
{
    let Some(values) = values else {
        return Ok(false);
    };
    match comparison {
        None => Ok(!alpha.facts_with(join, values).is_empty()),
        Some(comparison) => sees_in_order(alloc, comparison, alpha, join, values),
    }
}

/// The partial matches for which there was a fact and is none, where these are the values of the fact that went.
pub(crate) fn losing<'a>(
    partials: &'a Buckets,
    alpha: &AlphaMemory,
    join: usize,
    went: &Option<JoinValues>,
) -> &'a [u32]
    ensures are { (fields : List Field) → HasJoin alpha.now join fields → IsApart alpha.now
        → went.now ≡ values_under fields alpha.now alpha.now.gone
        → (n : ℕ) → In n result.now ↔ IsFiledBy (IsLost None fields alpha.now) partials.now n }
    ensures once { Chain (λ (i : ℕ) (j : ℕ). i ≢ j) result.now }
{
    let Some(values) = went else {
        return &[];
    };
    if !alpha.facts_with(join, values).is_empty() {
        return &[];
    }
    partials.members_with(values)
}

/// The partial matches for which there was no fact and is one, where these are the values of the facts that went and came.
pub(crate) fn gaining<'a>(
    partials: &'a Buckets,
    alpha: &AlphaMemory,
    join: usize,
    went: &Option<JoinValues>,
    came: &Option<JoinValues>,
) -> &'a [u32]
    ensures are { (fields : List Field) → HasJoin alpha.now join fields → IsApart alpha.now
        → went.now ≡ values_under fields alpha.now alpha.now.gone
        → came.now ≡ values_under fields alpha.now alpha.now.come
        → (n : ℕ) → In n result.now ↔ IsFiledBy (IsGained None fields alpha.now) partials.now n }
    ensures once { Chain (λ (i : ℕ) (j : ℕ). i ≢ j) result.now }
{
    let Some(values) = came else {
        return &[];
    };
    if are_given(went, values) {
        return &[];
    }
    if alpha.facts_with(join, values).len() > 1 {
        return &[];
    }
    partials.members_with(values)
}

/// Whether these values are given.
fn are_given(given: &Option<JoinValues>, values: &JoinValues) -> bool
    ensures { Decides result (given.now ≡ Some values.now) }
{
    match given {
        Some(others) => others == values,
        None => false,
    }
}

/// The same as `losing`, where the last of the values is compared. Growth is refused as `NoMemory`.
fn losing_in_order(
    alloc: Global,
    comparison: Comparison,
    partials: &Buckets,
    alpha: &AlphaMemory,
    join: usize,
    went: &Option<JoinValues>,
) -> Result<Vec<u32>, NoMemory>
    ensures are { IfOk result (λ all. (fields : List Field) (came : Option (List Joined))
        → Asks (Some comparison) fields alpha.now join partials.now went.now came
        → (n : ℕ) → In n all.items ↔ IsFiledBy (IsLost (Some comparison) fields alpha.now) partials.now n) }
    ensures once { IfOk result (λ all. Chain (λ (i : ℕ) (j : ℕ). i ≢ j) all.items) }
{
    match went {
        Some(values) => seeing_alone(alloc, comparison, partials, alpha, join, None, values),
        None => Ok(Vec::new(alloc)),
    }
}

/// The same as `gaining`, where the last of the values is compared. Growth is refused as `NoMemory`.
fn gaining_in_order(
    alloc: Global,
    comparison: Comparison,
    partials: &Buckets,
    alpha: &AlphaMemory,
    join: usize,
    came: &Option<JoinValues>,
) -> Result<Vec<u32>, NoMemory>
    ensures are { IfOk result (λ all. (fields : List Field) (went : Option (List Joined))
        → Asks (Some comparison) fields alpha.now join partials.now went came.now
        → (n : ℕ) → In n all.items ↔ IsFiledBy (IsGained (Some comparison) fields alpha.now) partials.now n) }
    ensures once { IfOk result (λ all. Chain (λ (i : ℕ) (j : ℕ). i ≢ j) all.items) }
{
    match came {
        Some(values) => {
            let number = alpha.come();
            seeing_alone(alloc, comparison, partials, alpha, join, number, values)
        }
        None => Ok(Vec::new(alloc)),
    }
}

/// Takes away or passes on those for which the last fact went, and those for which the first came, by whether the group is positive.
/// Growth is refused as `NoMemory`, and then some of it may be done.
pub(crate) fn pass_turned(
    positive: bool,
    lost: &[u32],
    gained: &[u32],
    own: &mut BetaMemory,
) -> Result<(), NoMemory>
    ensures passed { OnOk result (Chain (λ (i : ℕ) (j : ℕ). i ≢ j) lost.now → Chain (λ (i : ℕ) (j : ℕ). i ≢ j) gained.now
        → (between : BetaMemoryValue)
        × Loses own.old between (λ t. In t.parent (if positive then lost.now else gained.now))
        × Comes between own.new (AreOf (λ n. In n (if positive then gained.now else lost.now)))) }
    ensures keeps { OnOk result (KeepsTokens own.old own.new) }
{
    own.remove_all_children(one_of(positive, lost, gained))?;
    pass_all(one_of(positive, gained, lost), own)
}

/// One of two lists, by a test.
fn one_of<'a>(first: bool, one: &'a [u32], other: &'a [u32]) -> &'a [u32]
    ensures { result.now ≡ (if first then one.now else other.now) }
{
    if first { one } else { other }
}
