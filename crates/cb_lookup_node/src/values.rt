//! The values of fields in a fact.
ghost use Rattle.std.specs.Prelude.{◌≡◌, IfOk};
ghost use Rattle.cb_lookup_node.specs.Internal.{values_under};

use cb_alpha::{AlphaMemory, JoinValues, values_of_fact};
use cb_fit::JoinField;
use cb_forms::NoMemory;
use std::alloc::Global;

/// The values of these fields in the fact of a number; `None` where no number is given, and where the fact lacks a field. It is refused
/// as `NoMemory` where growth is, or where a count of sharers is full.
pub(crate) fn values_of_number(
    alloc: Global,
    fields: &[JoinField],
    alpha: &AlphaMemory,
    number: Option<u32>,
) -> Result<Option<JoinValues>, NoMemory>
    ensures { IfOk result (λ found. found ≡ values_under fields.now alpha.now number) }
{
    let Some(number) = number else {
        return Ok(None);
    };
    match alpha.candidate(number) {
        Some(one) => values_of_fact(alloc, fields, &one.fact),
        None => Ok(None),
    }
}
