//! What is taken on the way down from a token.
ghost use Rattle.std.specs.Prelude.{◌≡◌, OnOk};
ghost use Rattle.cb_beta.specs.Tokens.{with_taken};
ghost use Rattle.cb_matches.specs.Matches.{Partial};
ghost use Rattle.cb_token_lists.specs.Internal.{with_path};

use crate::source::Source;
use cb_beta::Token;
use cb_facts::Name;
use cb_forms::NoMemory;
use smallvec::SmallVec;

/// A token that took a fact, and the variable of the fact's address.
#[derive(Clone, Copy)]
pub(crate) struct Step<'a> {
    pub(crate) address: &'a Option<Name>,
    pub(crate) token: &'a Token,
}

/// What is taken in the steps down from a token, from the last to the first. Eight steps take no memory. They are in a vector, since a
/// branch may have more lists than a stack has room for calls. Each is an `Option`, since a free place of the vector holds one too.
pub(crate) type Path<'a> = SmallVec<Option<Step<'a>>, 8>;

/// Adds the step from a token to its parent; one that took nothing adds none. Growth is refused as `NoMemory`.
pub(crate) fn add_step<'a>(
    path: &mut Path<'a>,
    source: &'a Source,
    token: &'a Token,
) -> Result<(), NoMemory>
    ensures { OnOk result ((m : Partial) → with_path path.new.items m
        ≡ with_path path.old.items (with_taken source.now.address token.now.taken m)) }
{
    if token.taken().is_none() {
        return Ok(());
    }
    path.push(Some(Step {
        address: &source.address,
        token,
    }))?;
    Ok(())
}
