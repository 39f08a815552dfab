//! The fields that a row of constraints is for.
ghost use Rattle.std.specs.Prelude.{◌≡◌, false, ◌∷◌, ◌+◌, ◌<◌, ◌^◌, ◌≤◌, [], drop, length, slice_range, IfOk, IfSome, MatchOption};
ghost use Rattle.cb_constraints.specs.Holding.{tested_value};
ghost use Rattle.cb_facts.specs.Values.{fields_in, is_multifield, value_of_field};
ghost use Rattle.cb_facts.specs.declared.single.Single.{Single};
ghost use Rattle.cb_constraints.specs.Internal.RowFields.{IsFirst, row_fields};

use crate::tested::Tested;
use cb_facts::{Multifield, Value, splice};
use cb_forms::NoMemory;
use std::alloc::Global;
use std::slice;

/// The fields that a row of constraints is for.
#[derive(Clone, Copy)]
pub enum Fields<'a> {
    /// Those of an ordered fact.
    All(&'a Multifield),
    /// Those of a slot's value: of a multifield its fields, or the value itself.
    Slot(&'a Value),
}

impl<'a> Fields<'a> {
    /// How many there are.
    pub fn len(self) -> usize
        ensures { result ≡ length (row_fields self.entry) }
    {
        match self {
            Fields::All(fields) => fields.as_slice().len(),
            Fields::Slot(value) => count(value),
        }
    }

    /// The field at a place, or `None` after the last.
    pub fn get(self, at: usize) -> Option<Tested<'a>>
        ensures within { IfSome result (λ tested. at < length (row_fields self.entry)) }
        ensures room { IfSome result (λ tested. at + 1 < 2 ^ 64) }
        ensures first { MatchOption result (drop at (row_fields self.entry) ≡ [])
            (λ tested. IsFirst (tested_value tested)
            (drop (at + 1) (row_fields self.entry)) (drop at (row_fields self.entry))) }
    {
        match self {
            Fields::All(fields) => Some(Tested::Field(fields.as_slice().get(at)?)),
            Fields::Slot(value) => get_in(value, at),
        }
    }

    /// The multifield of the fields from `from` up to and without `to`, which it shares.
    pub fn segment(self, alloc: Global, from: usize, to: usize) -> Result<Value, NoMemory>
        requires order { from ≤ to }
        requires within { to ≤ length (row_fields self) }
        ensures { IfOk result (λ v. v ≡ Value.Multi (slice_range (row_fields self.entry) from to)) }
    {
        match self {
            Fields::All(fields) => Ok(Value::Multi(fields.part(from, to)?)),
            Fields::Slot(value) => segment_of(alloc, value, from, to),
        }
    }
}

/// How many fields a value has.
fn count(value: &Value) -> usize
    ensures { result ≡ length (fields_in value.now) }
{
    match value {
        Value::Multi(fields) => fields.as_slice().len(),
        Value::Symbol(_) | Value::Str(_) | Value::Int(_) | Value::Fact(_) => 1,
    }
}

/// The field of a value at a place, or `None` after the last.
fn get_in<'a>(value: &'a Value, at: usize) -> Option<Tested<'a>>
    ensures within { IfSome result (λ tested. at < length (fields_in value.now)) }
    ensures room { IfSome result (λ tested. at + 1 < 2 ^ 64) }
    ensures first { MatchOption result (drop at (fields_in value.now) ≡ [])
        (λ tested. IsFirst (tested_value tested)
        (drop (at + 1) (fields_in value.now)) (drop at (fields_in value.now))) }
{
    match value {
        Value::Multi(fields) => Some(Tested::Field(fields.as_slice().get(at)?)),
        Value::Symbol(_) | Value::Str(_) | Value::Int(_) | Value::Fact(_) => whole_at(value, at),
    }
}

/// The same of a value that is one field.
#[tactic(auto, using(crate::proofs::Alone::whole, crate::proofs::Alone::after_whole))]
fn whole_at<'a>(value: &'a Value, at: usize) -> Option<Tested<'a>>
    requires { is_multifield value.now ≡ false }
    ensures within { IfSome result (λ tested. at < length (fields_in value.now)) }
    ensures room { IfSome result (λ tested. at + 1 < 2 ^ 64) }
    ensures first { MatchOption result (drop at (fields_in value.now) ≡ [])
        (λ tested. IsFirst (tested_value tested)
        (drop (at + 1) (fields_in value.now)) (drop at (fields_in value.now))) }
{
    if at > 0 {
        return None;
    }
    Some(Tested::Whole(value))
}

/// The multifield of fields of a value.
fn segment_of(alloc: Global, value: &Value, from: usize, to: usize) -> Result<Value, NoMemory>
    requires order { from ≤ to }
    requires within { to ≤ length (fields_in value.now) }
    ensures { IfOk result (λ v. v ≡ Value.Multi (slice_range (fields_in value.now) from to)) }
{
    if let Value::Multi(fields) = value {
        return Ok(Value::Multi(fields.part(from, to)?));
    }
    let fields = Multifield::from_vec(splice(alloc, slice::from_ref(value))?)?;
    Ok(Value::Multi(fields.part(from, to)?))
}
