//! The value in the place of a constraint.
ghost use Rattle.std.specs.Prelude.{◌≡◌, IfOk};
ghost use Rattle.cb_constraints.specs.Holding.{tested_value};
ghost use Rattle.cb_eval.specs.Comparison.{same};
ghost use Rattle.cb_facts.specs.Values.{value_of_field};

use cb_facts::{Single, Value, value_of};
use cb_forms::NoMemory;

/// The value in the place of a constraint. It is borrowed, so testing copies no field.
#[derive(Clone, Copy)]
pub enum Tested<'a> {
    /// A field.
    Field(&'a Single),
    /// A value, such as the multifield of a segment.
    Whole(&'a Value),
}

impl Tested<'_> {
    /// Whether it is equal to a value.
    pub(crate) fn is(self, value: &Value) -> bool
        ensures { result ≡ same (tested_value self.entry) value.now }
    {
        match self {
            Tested::Field(field) => is_field(field, value),
            Tested::Whole(whole) => whole == value,
        }
    }

    /// It as a value that shares its bytes or fields. It takes no memory, and is refused as `NoMemory` only where the count
    /// of the sharers is full.
    pub fn to_value(self) -> Result<Value, NoMemory>
        ensures { IfOk result (λ v. v ≡ tested_value self.entry) }
    {
        match self {
            Tested::Field(field) => Ok(value_of(field.clone()?)),
            Tested::Whole(whole) => Ok(whole.clone()?),
        }
    }
}

/// Whether a field is equal to a value.
fn is_field(field: &Single, value: &Value) -> bool
    ensures { result ≡ same (value_of_field field.now) value.now }
{
    match (field, value) {
        (Single::Symbol(name), Value::Symbol(other)) => name == other,
        (Single::Str(name), Value::Str(other)) => name == other,
        (Single::Int(number), Value::Int(other)) => number == other,
        (Single::Fact(ix), Value::Fact(other)) => ix == other,
        _ => false,
    }
}
