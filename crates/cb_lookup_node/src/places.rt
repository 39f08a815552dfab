//! Lists of values as places in the order of such lists.
ghost use Rattle.std.specs.Prelude.{◌≡◌, ◌++◌, ◌∷◌, [], IfOk, List, pos, true};
ghost use Rattle.cb_facts.specs.declared.value.Value.TheVariants.{Fact, Int};
ghost use Rattle.cb_facts.specs.declared.value.Value.{Value as Joined};
ghost use Rattle.cb_fit.specs.Comparisons.{integer_so};
ghost use Rattle.cb_lookup_node.specs.LookupNodes.{ends_in_integer};

use cb_alpha::JoinValues;
use cb_facts::Value;
use cb_forms::NoMemory;
use std::alloc::Global;

/// Whether the last of these values is an integer.
pub(crate) fn ends_in_integer(values: &JoinValues) -> bool
    ensures { result ≡ ends_in_integer values.now }
{
    match values.as_slice().last() {
        Some(last) => is_integer(last),
        None => false,
    }
}

/// Whether it is an integer.
fn is_integer(value: &Value) -> bool
    ensures { result ≡ integer_so (λ n. true) value.now }
{
    match value {
        Value::Int(_) => true,
        _ => false,
    }
}

/// These values without the last: a place before all that begin so and have one more. Growth is refused as `NoMemory`.
pub(crate) fn before_all(alloc: Global, values: &JoinValues) -> Result<JoinValues, NoMemory>
    ensures { IfOk result (λ place. (known : List Joined) (v : Joined) → values.now ≡ known ++ v ∷ [] → place ≡ known) }
{
    Ok(JoinValues::many(copied(alloc, without_last(values))?))
}

/// A place behind all that begin as these values, but for the last, and have an integer there. Growth is refused as `NoMemory`.
pub(crate) fn behind_all(alloc: Global, values: &JoinValues) -> Result<JoinValues, NoMemory>
    ensures { IfOk result (λ place. (known : List Joined) (v : Joined) → values.now ≡ known ++ v ∷ []
        → place ≡ known ++ Fact 0 ∷ []) }
{
    let mut all = copied(alloc, without_last(values))?;
    all.push(Value::Fact(0))?;
    Ok(JoinValues::many(all))
}

/// A place behind these values, and before all that are greater and as many. Growth is refused as `NoMemory`.
pub(crate) fn behind(alloc: Global, values: &JoinValues) -> Result<JoinValues, NoMemory>
    ensures { IfOk result (λ place. place ≡ values.now ++ Int (pos 0) ∷ []) }
{
    let mut all = copied(alloc, values.as_slice())?;
    all.push(Value::Int(0))?;
    Ok(JoinValues::many(all))
}

/// These values without the last.
fn without_last(values: &JoinValues) -> &[Value]
    ensures { (known : List Joined) (v : Joined) → values.now ≡ known ++ v ∷ [] → result.now ≡ known }
{
    let all = values.as_slice();
    if all.is_empty() {
        return all;
    }
    &all[..all.len() - 1]
}

/// The same values. Growth is refused as `NoMemory`.
fn copied(alloc: Global, values: &[Value]) -> Result<Vec<Value>, NoMemory>
    ensures { IfOk result (λ copy. copy.items ≡ values.now) }
{
    let mut copy = Vec::new(alloc);
    for value in values {
        copy.push(value.clone()?)?;
    }
    Ok(copy)
}
