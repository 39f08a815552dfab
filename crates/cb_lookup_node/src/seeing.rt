//! Which facts partial matches see.
ghost use Rattle.std.specs.Prelude.{◌≡◌, ◌++◌, ◌∷◌, ℕ, [], IfOk, None, OnOk, Some, false, filter, if◌then◌else◌, true};
ghost use Rattle.cb_alpha.specs.AlphaMemories.{candidate_in};
ghost use Rattle.cb_lookup_node.specs.LookupNodes.{compares_with};
ghost use Rattle.cb_matches.specs.Chains.{In};
ghost use Rattle.cb_token_lists.specs.Partials.{partial_at};

use cb_alpha::{AlphaMemory, Candidate};
use cb_fit::ComparedField;
use cb_forms::NoMemory;
use cb_scopes::compare_all;
use cb_token_lists::TokenLists;

/// Whether the fields of a fact that are compared compare so with what a partial match gives to their variables. It is refused as
/// `NoMemory` where a count of sharers is full, or where a look-up is.
fn compares(
    lists: &TokenLists<'_>,
    from: usize,
    compared: &[ComparedField],
    alpha: &AlphaMemory,
    number: u32,
    candidate: u32,
) -> Result<bool, NoMemory>
    ensures { IfOk result (λ so. so ≡ compares_with compared.now (candidate_in alpha.now.candidates candidate)
        (partial_at lists.now.sources.now lists.now.lists.now from number)) }
{
    match alpha.candidate(candidate) {
        Some(one) => compares_one(lists, from, compared, number, one),
        None => Ok(false),
    }
}

/// The same of a fact that can be read.
fn compares_one(
    lists: &TokenLists<'_>,
    from: usize,
    compared: &[ComparedField],
    number: u32,
    one: &Candidate,
) -> Result<bool, NoMemory>
    ensures { IfOk result (λ so. so ≡ compares_with compared.now (Some one.now)
        (partial_at lists.now.sources.now lists.now.lists.now from number)) }
{
    let known = lists.reading(from, number);
    compare_all(compared, &known, &one.fact)
}

/// The first of these facts that compares so with a partial match, if one does. It is refused as the above is.
pub(crate) fn first_seen(
    lists: &TokenLists<'_>,
    from: usize,
    compared: &[ComparedField],
    alpha: &AlphaMemory,
    number: u32,
    candidates: &[u32],
) -> Result<Option<u32>, NoMemory>
    ensures some { IfOk result (λ found. (k : ℕ) → found ≡ Some k → In k candidates.now
        × (compares_with compared.now (candidate_in alpha.now.candidates k)
        (partial_at lists.now.sources.now lists.now.lists.now from number) ≡ true)) }
    ensures none { IfOk result (λ found. (k : ℕ) → found ≡ None → In k candidates.now
        → compares_with compared.now (candidate_in alpha.now.candidates k)
        (partial_at lists.now.sources.now lists.now.lists.now from number) ≡ false) }
{
    for candidate in candidates {
        let so = compares(lists, from, compared, alpha, number, *candidate)?;
        if so {
            return Ok(Some(*candidate));
        }
    }
    Ok(None)
}

/// Of these partial matches those with which a fact compares so. It is refused as the above is, and where growth is.
pub(crate) fn seeing(
    lists: &TokenLists<'_>,
    from: usize,
    compared: &[ComparedField],
    alpha: &AlphaMemory,
    candidate: u32,
    numbers: &[u32],
) -> Result<Vec<u32>, NoMemory>
    ensures { IfOk result (λ all. all.items ≡ filter (λ n. compares_with compared.now
        (candidate_in alpha.now.candidates candidate)
        (partial_at lists.now.sources.now lists.now.lists.now from n)) numbers.now) }
{
    let mut all = Vec::new(lists.alloc);
    for number in numbers {
        if compares(lists, from, compared, alpha, *number, candidate)? {
            all.push(*number)?;
        }
    }
    Ok(all)
}

/// Adds a number to a list, if it is to be. Growth is refused as `NoMemory`.
pub(crate) fn keep_if(wanted: bool, number: u32, all: &mut Vec<u32>) -> Result<(), NoMemory>
    ensures { OnOk result
        (all.new.items ≡ (if wanted then all.old.items ++ number ∷ [] else all.old.items)) }
{
    if wanted {
        all.push(number)?;
    }
    Ok(())
}
