//! By which of the two a pattern is looked up: by the order of values, or by witnesses.
ghost use Rattle.std.specs.Prelude.{◌≡◌, ◌++◌, IfOk, OnOk, map, option_to_list, true};
ghost use Rattle.cb_lookup_node.specs.LookupNodes.{compared_join};
ghost use Rattle.cb_lookup_node.specs.LookupNodes.{are_by_order, is_by_order};

use cb_fit::{ComparedField, Comparison, JoinField};
use cb_forms::NoMemory;

/// Whether no field is compared, or one by the order of integers.
pub(crate) fn are_by_order(compared: &[ComparedField]) -> bool
    ensures { result ≡ are_by_order compared.now }
{
    match compared {
        [] => true,
        [field] => is_by_order(field.comparison),
        _ => false,
    }
}

/// Whether a comparison is one by the order of integers.
fn is_by_order(comparison: Comparison) -> bool
    ensures { result ≡ is_by_order comparison }
{
    match comparison {
        Comparison::Less
        | Comparison::LessOrEqual
        | Comparison::Greater
        | Comparison::GreaterOrEqual => true,
        Comparison::Equal | Comparison::NotEqual | Comparison::Same | Comparison::Differs => false,
    }
}

/// Adds the field that is compared, if one is. The answer is how. Growth is refused as `NoMemory`.
pub(crate) fn add_compared(
    compared: Vec<ComparedField>,
    fields: &mut Vec<JoinField>,
) -> Result<Option<Comparison>, NoMemory>
    requires { are_by_order compared.items ≡ true }
    ensures fields { OnOk result
        (fields.new.items ≡ fields.old.items ++ map compared_join compared.items) }
    ensures comparison { IfOk result (λ comparison. option_to_list comparison
        ≡ map (λ c. c.comparison) compared.items) }
{
    match compared.into_iter().next() {
        Some(field) => {
            fields.push(JoinField {
                variable: field.variable,
                slot: field.place.slot,
                field: field.place.field,
            })?;
            Ok(Some(field.comparison))
        }
        None => Ok(None),
    }
}
