//! What a pattern is joined on, by the variables that have values before it.
ghost use Rattle.std.specs.Prelude.{◌≡◌, ◌≢◌, ℕ, [], false, IfOk, IfSome, List, Some, filter, map, not};
ghost use Rattle.std.specs.List.{list_any};
ghost use Rattle.std.specs.Str.{bytes_eq};
ghost use Rattle.cb_branch.specs.Internal.ByValues.{IsElsewhere, IsJoinedBy, is_own};
ghost use Rattle.cb_exprs.specs.Terms.{term_of};
ghost use Rattle.cb_fit.specs.JoinFields.{giving_fields, join_fields};
ghost use Rattle.cb_fit.specs.Plain.{is_named};
ghost use Rattle.cb_join_node.specs.Nodes.{IsByValues};
ghost use Rattle.cb_nodes.specs.Patterns.{AreJoinFields};
ghost use Rattle.cb_scopes.specs.Decided.{known_fields, unknown_fields};

use crate::bound::Bound;
use crate::copies::copy_all;
use cb_beta::TakenFields;
use cb_exprs::Expr;
use cb_facts::Name;
use cb_fit::{ComparedField, JoinField, Pattern};
use cb_forms::NoMemory;
use cb_join_node::{ByValues, Joining};
use std::alloc::Global;
use std::rc::Rc;

/// What a pattern that is decided by values asks beside the fields that it is joined on.
#[derive(Drop)]
struct Asked {
    /// The fields that it compares.
    compared: Vec<ComparedField>,
    /// Its conditions.
    conditions: Vec<Expr>,
}

/// What is asked of a fact by a pattern without tests, where these variables have values before it. Growth is refused as `NoMemory`, and
/// so is a count of sharers that is full.
pub(crate) fn asked_by<T>(
    alloc: Global,
    address: Option<Name>,
    pattern: Pattern<T>,
    bound: &Bound,
) -> Result<Joining<T>, NoMemory>
    ensures address { IfOk result (λ asked. asked.address ≡ address) }
    ensures pattern { IfOk result (λ asked. asked.pattern ≡ pattern) }
    ensures tests { IfOk result (λ asked. asked.tests.items ≡ []) }
    ensures fields { IfOk result
        (λ asked. AreJoinFields asked.fields.items asked.address asked.pattern) }
    ensures by_values { IfOk result
        (λ asked. IfSome asked.by_values (λ by. IsByValues bound.now asked by)) }
{
    let known = known_fields_of(alloc, &pattern, bound)?;
    match decided_by(alloc, &address, &pattern)? {
        Some(by) => {
            let fields = unknown_fields_of(alloc, &pattern, bound)?;
            let taken = TakenFields::new(fields, pattern.ones(alloc)?);
            let by_values = ByValues {
                taken: Rc::new(alloc, taken)?,
                compared: by.compared,
                conditions: by.conditions,
            };
            Ok(Joining {
                address,
                pattern,
                tests: Vec::new(alloc),
                fields: known,
                by_values: Some(by_values),
            })
        }
        None => Ok(Joining {
            fields: others(alloc, &address, known)?,
            address,
            pattern,
            tests: Vec::new(alloc),
            by_values: None,
        }),
    }
}

/// The fields of a pattern that have to be equal to variables that have values before it. Growth is refused as `NoMemory`, and so is a
/// count of sharers that is full.
pub(crate) fn known_fields_of<T>(
    alloc: Global,
    pattern: &Pattern<T>,
    bound: &Bound,
) -> Result<Vec<JoinField>, NoMemory>
    ensures { IfOk result
        (λ known. known.items ≡ known_fields (join_fields pattern.now.parts) bound.now) }
{
    let mut known = Vec::new(alloc);
    for field in pattern.join_fields(alloc)? {
        if bound.contains(&field.variable) {
            known.push(field)?;
        }
    }
    known.shrink_to_fit();
    Ok(known)
}

/// The fields that give variables their values, where these have none before it. Growth is refused as `NoMemory`, and so is a count of
/// sharers that is full.
fn unknown_fields_of<T>(
    alloc: Global,
    pattern: &Pattern<T>,
    bound: &Bound,
) -> Result<Vec<JoinField>, NoMemory>
    ensures { IfOk result
        (λ unknown. unknown.items ≡ unknown_fields (giving_fields pattern.now.parts) bound.now) }
{
    let mut unknown = Vec::new(alloc);
    for field in pattern.giving_fields(alloc)? {
        if !bound.contains(&field.variable) {
            unknown.push(field)?;
        }
    }
    unknown.shrink_to_fit();
    Ok(unknown)
}

/// These fields, but for those with the variable of the pattern's own address.
fn others(
    alloc: Global,
    address: &Option<Name>,
    fields: Vec<JoinField>,
) -> Result<Vec<JoinField>, NoMemory>
    ensures { IfOk result (λ left. left.items
        ≡ filter (λ j. not (is_own address.now j.variable)) fields.items) }
{
    let mut left = Vec::new(alloc);
    for field in fields {
        if !is_own(address, &field.variable) {
            left.push(field)?;
        }
    }
    left.shrink_to_fit();
    Ok(left)
}

/// Whether a variable is that of an address.
fn is_own(address: &Option<Name>, variable: &Name) -> bool
    ensures { result ≡ is_own address.now variable.now }
{
    match address {
        Some(name) => name == variable,
        None => false,
    }
}

/// The fields that a pattern compares and its conditions, where it is decided by values, whatever its address is: it has no alternatives,
/// and the variable of the address doesn't stand in it.
fn decided_by<T>(
    alloc: Global,
    address: &Option<Name>,
    pattern: &Pattern<T>,
) -> Result<Option<Asked>, NoMemory>
    ensures decided { IfOk result (λ found. IfSome found
        (λ by. IsJoinedBy pattern.now by.compared.items (map term_of by.conditions.items))) }
    ensures address { IfOk result
        (λ found. IfSome found (λ by. IsElsewhere address.now pattern.now by.compared.items)) }
{
    let Some(decision) = pattern.decide(alloc)? else {
        return Ok(None);
    };
    if !decision.chosen.is_empty() {
        return Ok(None);
    }
    let names = pattern.bound_names(alloc)?;
    let compared = decision.compared.as_slice();
    if stands_in(address, names.as_slice(), compared) {
        return Ok(None);
    }
    let Some(conditions) = copy_all(alloc, decision.conditions.as_slice())? else {
        return Ok(None);
    };
    Ok(Some(Asked {
        compared: decision.compared,
        conditions,
    }))
}

/// Whether the variable of an address is one of these, or one that a field is compared with.
fn stands_in(address: &Option<Name>, names: &[Name], compared: &[ComparedField]) -> bool
    ensures { result ≡ false → (x : List ℕ) → address.now ≡ Some x
        → (is_named x names.now ≡ false) × (list_any (λ c. bytes_eq x c.variable) compared.now ≡ false) }
{
    match address {
        Some(name) => is_one_of(name, names) || is_compared(name, compared),
        None => false,
    }
}

/// Whether a variable is one of these.
fn is_one_of(name: &Name, names: &[Name]) -> bool
    ensures { result ≡ is_named name.now names.now }
{
    for other in names {
        if name == other {
            return true;
        }
    }
    false
}

/// Whether one of these fields is compared with a variable.
fn is_compared(name: &Name, fields: &[ComparedField]) -> bool
    ensures { result ≡ list_any (λ c. bytes_eq name.now c.variable) fields.now }
{
    for field in fields {
        if *name == field.variable {
            return true;
        }
    }
    false
}
