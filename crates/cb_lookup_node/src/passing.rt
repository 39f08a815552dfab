//! What a group of one pattern passes on.
ghost use Rattle.std.specs.Prelude.{◌≡◌, ◌≢◌, ◌⊎◌, ℕ, OnOk, if◌then◌else◌, not, true};
ghost use Rattle.cb_alpha.specs.AlphaMemories.{live};
ghost use Rattle.cb_alpha.specs.Buckets.{Refiles};
ghost use Rattle.cb_alpha.specs.JoinValues.{variable_values};
ghost use Rattle.cb_alpha.specs.Turning.{HasJoin};
ghost use Rattle.cb_beta.specs.BetaMemories.{BetaMemoryValue};
ghost use Rattle.cb_lookup_node.specs.Internal.{AreOf, Stays, is_ordered};
ghost use Rattle.cb_lookup_node.specs.LookupNodes.{AreFiled, ArePassedOn, Passes, SeesOne, filed_by, in_order, passed_on};
ghost use Rattle.cb_matches.specs.Chains.{Chain, In};
ghost use Rattle.cb_token_lists.specs.Growth.{Comes};
ghost use Rattle.cb_token_lists.specs.Keeping.{KeepsTokens};
ghost use Rattle.cb_token_lists.specs.Partials.{partial_at};

use crate::filed::{file, to_file};
use crate::turned::sees;
use cb_alpha::{AlphaMemory, Buckets, values_of_variables};
use cb_beta::{BetaMemory, Token};
use cb_fit::{Comparison, JoinField};
use cb_forms::NoMemory;
use cb_token_lists::TokenLists;

/// Passes on each of these partial matches. Growth is refused as `NoMemory`, and then some of it may be done.
pub(crate) fn pass_all(numbers: &[u32], own: &mut BetaMemory) -> Result<(), NoMemory>
    ensures come { OnOk result (Chain (λ (i : ℕ) (j : ℕ). i ≢ j) numbers.now
        → Comes own.old own.new (AreOf (λ n. In n numbers.now))) }
    ensures keeps { OnOk result (KeepsTokens own.old own.new) }
{
    for number in numbers {
        own.add(Token::bare(*number))?;
    }
    Ok(())
}

/// Files these partial matches, which came before the group, and passes on those for which it holds. Growth is refused as `NoMemory`,
/// and then some of it may be done.
pub(crate) fn pass_come(
    lists: &TokenLists<'_>,
    from: usize,
    comparison: Option<Comparison>,
    fields: &[JoinField],
    positive: bool,
    partials: &mut Buckets,
    alpha: &AlphaMemory,
    join: usize,
    come: &[u32],
    own: &mut BetaMemory,
) -> Result<(), NoMemory>
    ensures filed { OnOk result ((before : BetaMemoryValue)
        → AreFiled comparison fields.now partials.old (partial_at lists.now.sources.now lists.now.lists.now from) (Stays before)
        → AreFiled comparison fields.now partials.new (partial_at lists.now.sources.now lists.now.lists.now from)
        (λ number. Stays before number ⊎ In number come.now)) }
    ensures come { OnOk result (Chain (λ (i : ℕ) (j : ℕ). i ≢ j) come.now
        → HasJoin alpha.now join fields.now → is_ordered comparison ≡ true
        → Comes own.old own.new (ArePassedOn positive (in_order comparison) fields.now (live alpha.now)
        (partial_at lists.now.sources.now lists.now.lists.now from) (λ number. In number come.now))) }
    ensures keeps { OnOk result (KeepsTokens own.old own.new) }
{
    for number in come {
        pass_one(
            lists, from, comparison, fields, positive, partials, alpha, join, *number, own,
        )?;
    }
    Ok(())
}

/// The same for one partial match.
fn pass_one(
    lists: &TokenLists<'_>,
    from: usize,
    comparison: Option<Comparison>,
    fields: &[JoinField],
    positive: bool,
    partials: &mut Buckets,
    alpha: &AlphaMemory,
    join: usize,
    number: u32,
    own: &mut BetaMemory,
) -> Result<(), NoMemory>
    ensures filed { OnOk result (Refiles partials.old partials.new number
        (filed_by comparison (variable_values fields.now (partial_at lists.now.sources.now lists.now.lists.now from number).env))) }
    ensures come { OnOk result (HasJoin alpha.now join fields.now → is_ordered comparison ≡ true
        → Comes own.old own.new (λ t. Passes positive (SeesOne comparison fields.now (live alpha.now)
        (partial_at lists.now.sources.now lists.now.lists.now from number)) × (t ≡ passed_on number))) }
    ensures keeps { OnOk result (KeepsTokens own.old own.new) }
{
    let reading = lists.reading(from, number);
    let values = values_of_variables(lists.alloc, fields, &reading)?;
    let one = sees(lists.alloc, comparison, alpha, join, &values)?;
    file(partials, number, to_file(comparison, values))?;
    pass_if(passes_by(positive, one), number, own)
}

/// Whether the group passes a partial match on, by whether there is a fact for it.
pub(crate) fn passes_by(positive: bool, one: bool) -> bool
    ensures { result ≡ (if positive then one else not one) }
{
    if positive { one } else { !one }
}

/// Passes on a partial match, if it is to be. Growth is refused as `NoMemory`.
fn pass_if(passes: bool, number: u32, own: &mut BetaMemory) -> Result<(), NoMemory>
    ensures { OnOk result (Comes own.old own.new (λ t. (passes ≡ true) × (t ≡ passed_on number))) }
{
    if !passes {
        return Ok(());
    }
    own.add(Token::bare(number))?;
    Ok(())
}
