//! What a group passes on.
ghost use Rattle.std.specs.Prelude.{◌≡◌, ◌≢◌, ℕ, OnOk};
ghost use Rattle.cb_beta.specs.BetaMemories.{Loses};
ghost use Rattle.cb_group_node.specs.Internal.{ArePassedByGroup, GroupHolds, IsPassedByGroup};
ghost use Rattle.cb_matches.specs.Chains.{Chain, In};
ghost use Rattle.cb_token_lists.specs.Growth.{Comes};
ghost use Rattle.cb_token_lists.specs.Keeping.{KeepsTokens};

use crate::inside::holds;
use cb_beta::{BetaMemory, Token};
use cb_forms::NoMemory;
use cb_groups::Groups;

/// What goes on from those of these tokens goes for which the group doesn't hold. Growth is refused as `NoMemory`, and then some of
/// it may have gone.
pub(crate) fn retract(
    positive: bool,
    inside: &Groups,
    numbers: &[u32],
    own: &mut BetaMemory,
) -> Result<(), NoMemory>
    ensures { OnOk result (Loses own.old own.new
        (λ t. In t.parent numbers.now × (GroupHolds positive inside.now t.parent → ⊥))) }
{
    for number in numbers {
        retract_one(positive, inside, *number, own)?;
    }
    Ok(())
}

/// The same for one token.
fn retract_one(
    positive: bool,
    inside: &Groups,
    number: u32,
    own: &mut BetaMemory,
) -> Result<(), NoMemory>
    ensures { OnOk result (Loses own.old own.new
        (λ t. (t.parent ≡ number) × (GroupHolds positive inside.now t.parent → ⊥))) }
{
    if holds(positive, inside, number) {
        return Ok(());
    }
    own.remove_children(number)
}

/// Passes on those of these tokens for which the group holds. Growth is refused as `NoMemory`, and then some of it may be done.
pub(crate) fn pass_all(
    positive: bool,
    inside: &Groups,
    numbers: &[u32],
    own: &mut BetaMemory,
) -> Result<(), NoMemory>
    ensures come { OnOk result (Chain (λ (i : ℕ) (j : ℕ). i ≢ j) numbers.now → Comes own.old own.new
        (ArePassedByGroup positive inside.now (λ n. In n numbers.now))) }
    ensures keeps { OnOk result (KeepsTokens own.old own.new) }
{
    for number in numbers {
        pass_one(positive, inside, *number, own)?;
    }
    Ok(())
}

/// Passes on a token, if the group holds for it. Growth is refused as `NoMemory`.
fn pass_one(
    positive: bool,
    inside: &Groups,
    number: u32,
    own: &mut BetaMemory,
) -> Result<(), NoMemory>
    ensures { OnOk result (Comes own.old own.new (IsPassedByGroup positive inside.now number)) }
{
    if !holds(positive, inside, number) {
        return Ok(());
    }
    own.add(Token::bare(number))?;
    Ok(())
}
