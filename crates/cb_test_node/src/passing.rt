//! What a change does behind a test.
ghost use Rattle.std.specs.Prelude.{◌≡◌, ◌≢◌, ℕ, List, OnOk, Some, slice_get};
ghost use Rattle.cb_beta.specs.BetaMemories.{BetaMemoryValue};
ghost use Rattle.cb_exprs.specs.Terms.{term_of};
ghost use Rattle.cb_matches.specs.Chains.{Chain, In};
ghost use Rattle.cb_matches.specs.Matches.{Partial};
ghost use Rattle.cb_test_node.specs.Tests.{ArePassed, IsAfter, IsBefore, IsPassed};
ghost use Rattle.cb_token_lists.specs.Growth.{Comes};
ghost use Rattle.cb_token_lists.specs.Keeping.{KeepsTokens};
ghost use Rattle.cb_token_lists.specs.Partials.{partial_at};

use cb_beta::{BetaMemory, Token};
use cb_exprs::Expr;
use cb_forms::NoMemory;
use cb_token_lists::TokenLists;

/// Changes the tokens behind a test, in `own`. The list before it, with the number `from`, has changed already. Growth is refused as
/// `NoMemory`, and then some of the change may be done.
pub fn change_test(
    lists: &TokenLists<'_>,
    from: usize,
    test: &Expr,
    own: &mut BetaMemory,
) -> Result<(), NoMemory>
    ensures after { OnOk result ((before : BetaMemoryValue) (old new : List Partial)
        → slice_get lists.now.lists.now from ≡ Some before
        → IsBefore (term_of test.now) (partial_at lists.now.sources.now lists.now.lists.now from)
        before own.old old new
        → IsAfter (term_of test.now) (partial_at lists.now.sources.now lists.now.lists.now from)
        before own.new old new) }
    ensures keeps { OnOk result (KeepsTokens own.old own.new) }
{
    let Some(before) = lists.lists.get(from) else {
        return Ok(());
    };
    own.remove_all_children(before.gone())?;
    pass_all(lists, from, test, before.come(), own)
}

/// Passes on those of these partial matches for which the test holds.
fn pass_all(
    lists: &TokenLists<'_>,
    from: usize,
    test: &Expr,
    come: &[u32],
    own: &mut BetaMemory,
) -> Result<(), NoMemory>
    ensures come { OnOk result (Chain (λ (i : ℕ) (j : ℕ). i ≢ j) come.now → Comes own.old own.new
        (ArePassed (term_of test.now) (partial_at lists.now.sources.now lists.now.lists.now from)
        (λ number. In number come.now))) }
    ensures keeps { OnOk result (KeepsTokens own.old own.new) }
{
    for number in come {
        pass_one(lists, from, test, *number, own)?;
    }
    Ok(())
}

/// Passes on a partial match, if the test holds for it.
fn pass_one(
    lists: &TokenLists<'_>,
    from: usize,
    test: &Expr,
    number: u32,
    own: &mut BetaMemory,
) -> Result<(), NoMemory>
    ensures { OnOk result (Comes own.old own.new (IsPassed (term_of test.now)
        (partial_at lists.now.sources.now lists.now.lists.now from) number)) }
{
    if !lists.holds(test, &lists.reading(from, number))? {
        return Ok(());
    }
    own.add(Token::bare(number))?;
    Ok(())
}
