//! What a filling begins with.
ghost use Rattle.std.specs.Prelude.{OnOk};
ghost use Rattle.cb_branch.specs.Internal.{BeginsFilling};

use cb_beta::{BetaMemory, Token};
use cb_forms::NoMemory;

/// The one partial match of no parts comes to the list before the first element. Growth is refused as `NoMemory`.
pub(crate) fn add_first(lists: &mut [BetaMemory]) -> Result<(), NoMemory>
    ensures { OnOk result (BeginsFilling lists.old lists.new) }
{
    if lists.is_empty() {
        return Ok(());
    }
    let first = &mut lists[0];
    first.add(Token::bare(0))?;
    Ok(())
}
