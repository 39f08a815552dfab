//! Fields of a fact that are compared with variables.
ghost use Rattle.std.specs.Prelude.{◌≡◌, IfOk};
ghost use Rattle.cb_constraints.specs.Holding.{tested_value};
ghost use Rattle.cb_fit.specs.Comparisons.{compares};
ghost use Rattle.cb_scopes.specs.Compared.{all_compare, compares_so};

use cb_constraints::Tested;
use cb_exprs::Lookup;
use cb_facts::{Fact, Value};
use cb_fit::{ComparedField, Comparison};
use cb_forms::NoMemory;

/// Whether each of these fields of a fact is compared so with its variable, where both have values. It is refused as `NoMemory` where a
/// look-up is, or where a count of sharers is full.
pub fn compare_all<L: Lookup>(
    fields: &[ComparedField],
    known: &L,
    fact: &Fact,
) -> Result<bool, NoMemory>
    ensures { IfOk result
        (λ so. so ≡ all_compare fields.now (L.bindings known.now) fact.now.content) }
{
    for field in fields {
        if !compare_one(field, known, fact)? {
            return Ok(false);
        }
    }
    Ok(true)
}

/// The same of one field.
fn compare_one<L: Lookup>(field: &ComparedField, known: &L, fact: &Fact) -> Result<bool, NoMemory>
    ensures { IfOk result
        (λ so. so ≡ compares_so (L.bindings known.now) fact.now.content field.now) }
{
    let Some(own) = field.place.field_in(fact) else {
        return Ok(false);
    };
    let Some(other) = known.variable(&field.variable)? else {
        return Ok(false);
    };
    compare_both(field.comparison, own, &other)
}

/// Whether a field of a fact is compared so with a value. It is refused as `NoMemory` only where a count of sharers is full.
pub fn compare_both(
    comparison: Comparison,
    own: Tested<'_>,
    other: &Value,
) -> Result<bool, NoMemory>
    ensures { IfOk result (λ so. so ≡ compares comparison (tested_value own.entry) other.now) }
{
    match own {
        Tested::Whole(own) => Ok(comparison.holds(own, other)),
        Tested::Field(_) => {
            let own = own.to_value()?;
            Ok(comparison.holds(&own, other))
        }
    }
}
