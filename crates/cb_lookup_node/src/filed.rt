//! Partial matches by the values that they give to fields.
ghost use Rattle.std.specs.Prelude.{◌≡◌, OnOk};
ghost use Rattle.cb_alpha.specs.Buckets.{Refiles};
ghost use Rattle.cb_lookup_node.specs.Internal.{AreForgotten};
ghost use Rattle.cb_lookup_node.specs.LookupNodes.{filed_by};

use crate::places::ends_in_integer;
use cb_alpha::{Buckets, JoinValues};
use cb_fit::Comparison;
use cb_forms::NoMemory;

/// Files a partial match by these values, or nowhere where none are given. Growth is refused as `NoMemory`.
pub(crate) fn file(
    partials: &mut Buckets,
    number: u32,
    values: Option<JoinValues>,
) -> Result<(), NoMemory>
    ensures { OnOk result (Refiles partials.old partials.new number values) }
{
    partials.remove(number);
    match values {
        Some(values) => partials.add(number, values),
        None => Ok(()),
    }
}

/// The values by which a partial match is filed, of those that it gives: where the last of them is compared, and is no integer, none.
pub(crate) fn to_file(
    comparison: Option<Comparison>,
    values: Option<JoinValues>,
) -> Option<JoinValues>
    ensures { result ≡ filed_by comparison values }
{
    let Some(values) = values else {
        return None;
    };
    if comparison.is_some() && !ends_in_integer(&values) {
        return None;
    }
    Some(values)
}

/// Takes these partial matches out.
pub(crate) fn forget_all(partials: &mut Buckets, numbers: &[u32])
    ensures { AreForgotten partials.old partials.new numbers.now }
{
    for number in numbers {
        partials.remove(*number);
    }
}
