//! What compared variables have by a partial match, read once for several facts.
ghost use Rattle.std.specs.Prelude.{◌≡◌, IfOk};
ghost use Rattle.cb_exprs.specs.Bindings.{Bindings};
ghost use Rattle.cb_join_node.specs.KnownValues.{IsRead, compared_values};
ghost use Rattle.cb_scopes.specs.Compared.{all_compare, both_compare};
ghost use Rattle.cb_fit.specs.FieldPlaces.{field_value};

use cb_exprs::Lookup;
use cb_facts::{Fact, Value};
use cb_fit::ComparedField;
use cb_forms::NoMemory;
use cb_scopes::{compare_all, compare_both};
use smallvec::SmallVec;
use std::alloc::Global;

/// What variables have, one after another; `None` for one without a value. Up to four take no memory.
pub(crate) type KnownValues = SmallVec<Option<Value>, 4>;

/// What the variables have with which these fields are compared. Growth is refused as `NoMemory`, and so is a count of sharers that is
/// full.
pub(crate) fn read_values<L: Lookup>(
    alloc: Global,
    fields: &[ComparedField],
    known: &L,
) -> Result<KnownValues, NoMemory>
    ensures { IfOk result
        (λ values. values.items ≡ compared_values fields.now (L.bindings known.now)) }
{
    let mut values = SmallVec::new(alloc);
    for field in fields {
        values.push(known.variable(&field.variable)?)?;
    }
    Ok(values)
}

/// Whether each of these fields of a fact is compared so with its variable, by what was read, or else by what is known. It is refused
/// as `NoMemory` where a look-up is, or where a count of sharers is full.
pub(crate) fn compare_known<L: Lookup>(
    fields: &[ComparedField],
    known: &L,
    read: &Option<KnownValues>,
    fact: &Fact,
) -> Result<bool, NoMemory>
    requires { IsRead fields.now (L.bindings known.now) read.now }
    ensures { IfOk result
        (λ so. so ≡ all_compare fields.now (L.bindings known.now) fact.now.content) }
{
    match read {
        Some(values) => compare_read(fields, values.as_slice(), fact),
        None => compare_all(fields, known, fact),
    }
}

/// The same by these values of the variables.
fn compare_read(
    fields: &[ComparedField],
    values: &[Option<Value>],
    fact: &Fact,
) -> Result<bool, NoMemory>
    ensures { IfOk result (λ so. (env : Bindings) → values.now ≡ compared_values fields.now env
        → so ≡ all_compare fields.now env fact.now.content) }
{
    let mut left = values;
    for field in fields {
        let Some((value, others)) = left.split_first() else {
            return Ok(false);
        };
        if !compare_with(field, value, fact)? {
            return Ok(false);
        }
        left = others;
    }
    Ok(true)
}

/// The same of one field.
fn compare_with(field: &ComparedField, value: &Option<Value>, fact: &Fact) -> Result<bool, NoMemory>
    ensures { IfOk result (λ so. so ≡ both_compare field.now.comparison
        (field_value field.now.place.slot field.now.place.field fact.now.content) value.now) }
{
    let Some(other) = value else {
        return Ok(false);
    };
    match field.place.field_in(fact) {
        Some(own) => compare_both(field.comparison, own, other),
        None => Ok(false),
    }
}
