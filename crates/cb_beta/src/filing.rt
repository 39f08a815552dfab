//! Tokens among those that they are found by: the children of their parents, and those with their facts.
ghost use Rattle.std.specs.Prelude.{◌≡◌, ◌≢◌, ◌∷◌, ◌++◌, ℕ, [], IfOk, None, OnErr, OnOk, Some};
ghost use Rattle.cb_groups.specs.Groups.{Updates, group_of};
ghost use Rattle.cb_beta.specs.BetaMemories.{live_in};
ghost use Rattle.cb_beta.specs.Internal.{AreLeft, IsForgotten, IsInserted, KeepsOthers};
ghost use Rattle.cb_beta.specs.Tokens.{token_at};

use crate::token::Token;
use cb_forms::NoMemory;
use cb_groups::LinkedGroups;
use slab::Slab;

/// Puts a token under a free number, and returns that. Growth is refused as `NoMemory`, and then nothing has changed.
pub(crate) fn insert(tokens: &mut Slab<Token>, token: Token) -> Result<u32, NoMemory>
    ensures ok { IfOk result (λ number. IsInserted tokens.old.slots tokens.new.slots number token) }
    ensures err { OnErr result (tokens.new.slots ≡ tokens.old.slots) }
{
    let Ok(number) = u32::try_from(tokens.vacant_key()) else {
        return Err(NoMemory);
    };
    if tokens.capacity() == 0 {
        tokens.reserve_exact(1)?;
    }
    tokens.insert(token)?;
    Ok(number)
}

/// Puts a number that has no groups into those of its parent and its fact, and behind those that came. Growth is refused as
/// `NoMemory`, and then the number may stand in groups.
pub(crate) fn file(
    children: &mut LinkedGroups,
    with_fact: &mut LinkedGroups,
    come: &mut Vec<u32>,
    parent: u32,
    candidate: Option<u32>,
    number: u32,
) -> Result<(), NoMemory>
    requires no_parent { group_of children.old number ≡ None }
    requires no_fact { group_of with_fact.old number ≡ None }
    ensures children { OnOk result (Updates children.old children.new number (Some parent)) }
    ensures with_fact { OnOk result (Updates with_fact.old with_fact.new number candidate) }
    ensures come { OnOk result (come.new.items ≡ come.old.items ++ number ∷ []) }
    ensures other_children { KeepsOthers children.old children.new number }
    ensures other_facts { KeepsOthers with_fact.old with_fact.new number }
    ensures err { OnErr result (come.new.items ≡ come.old.items) }
{
    children.add(parent, number)?;
    file_fact(with_fact, candidate, number)?;
    come.push(number)?;
    Ok(())
}

/// Puts a number that has no group into this one, if one is given. Growth is refused as `NoMemory`.
fn file_fact(
    with_fact: &mut LinkedGroups,
    candidate: Option<u32>,
    number: u32,
) -> Result<(), NoMemory>
    requires { group_of with_fact.old number ≡ None }
    ensures ok { OnOk result (Updates with_fact.old with_fact.new number candidate) }
    ensures others { KeepsOthers with_fact.old with_fact.new number }
{
    match candidate {
        Some(candidate) => with_fact.add(candidate, number),
        None => Ok(()),
    }
}

/// There is no token with this number any more, and the number is in no group.
pub(crate) fn forget(
    tokens: &mut Slab<Token>,
    children: &mut LinkedGroups,
    with_fact: &mut LinkedGroups,
    number: u32,
)
    ensures tokens { IsForgotten tokens.old.slots tokens.new.slots number }
    ensures children { Updates children.old children.new number None }
    ensures with_fact { Updates with_fact.old with_fact.new number None }
{
    tokens.try_remove(number as usize);
    children.remove(number);
    with_fact.remove(number);
}

/// These numbers leave their groups.
pub(crate) fn leave(groups: &mut LinkedGroups, numbers: &[u32])
    ensures { AreLeft groups.old groups.new numbers.now }
{
    for number in numbers {
        groups.remove(*number);
    }
}

/// Frees these numbers.
pub(crate) fn free(tokens: &mut Slab<Token>, numbers: &[u32])
    ensures { (i : ℕ) → token_at tokens.new.slots i ≡ live_in tokens.old.slots numbers.now i }
{
    for number in numbers {
        tokens.try_remove(*number as usize);
    }
}
