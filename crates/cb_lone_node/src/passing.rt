//! What a group of one pattern that stands alone passes on, and what it takes back.
ghost use Rattle.std.specs.Prelude.{◌≡◌, ◌≢◌, ◌↔◌, ℕ, OnOk, true};
ghost use Rattle.cb_lone_node.specs.Internal.{AreOf, Arrives, Leaves};
ghost use Rattle.cb_matches.specs.Chains.{Chain, In};
ghost use Rattle.cb_token_lists.specs.Growth.{Comes};
ghost use Rattle.cb_token_lists.specs.Keeping.{KeepsTokens};

use cb_beta::{BetaMemory, Token};
use cb_forms::NoMemory;
use cb_groups::Groups;

/// The partial matches that were passed on and aren't any more: all that are there, if the group held and doesn't hold now.
pub(crate) fn leaving<'a>(held: bool, holds: bool, parents: &'a Groups) -> &'a [u32]
    ensures { (n : ℕ) → In n result.now ↔ Leaves held holds parents.now n }
{
    if holds || !held {
        return &[];
    }
    parents.members(0)
}

/// The partial matches that are passed on now: if the group holds, those that came, and where it didn't hold all that are there.
pub(crate) fn arriving<'a>(
    held: bool,
    holds: bool,
    come: &'a [u32],
    parents: &'a Groups,
) -> &'a [u32]
    ensures are { (n : ℕ) → In n result.now ↔ Arrives held holds come.now parents.now n }
    ensures once { Chain (λ (i : ℕ) (j : ℕ). i ≢ j) come.now → Chain (λ (i : ℕ) (j : ℕ). i ≢ j) result.now }
{
    if !holds {
        return &[];
    }
    if held {
        return come;
    }
    parents.members(0)
}

/// Passes on each of these partial matches. Growth is refused as `NoMemory`, and then some of it may be done.
pub(crate) fn pass_all(numbers: &[u32], own: &mut BetaMemory) -> Result<(), NoMemory>
    ensures come { OnOk result (Chain (λ (i : ℕ) (j : ℕ). i ≢ j) numbers.now
        → Comes own.old own.new (AreOf (λ n. In n numbers.now))) }
    ensures keeps { OnOk result (KeepsTokens own.old own.new) }
{
    for number in numbers {
        own.add(Token::bare(*number))?;
    }
    Ok(())
}
