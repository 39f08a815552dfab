//! Comparisons of a field with a variable.
ghost use Rattle.std.specs.Prelude.{◌≡◌, true};
ghost use Rattle.cb_fit.specs.Comparisons.{compares, turned};
ghost use Rattle.cb_fit.specs.Internal.Integers.{needs_integers};
ghost use Rattle.cb_facts.specs.declared.value.Value.TheVariants.{Int};

use crate::field_place::FieldPlace;
use cb_facts::{Name, Value};

/// How the value of a field is compared with that of a variable. The first six hold of integers alone, the last two of any values.
#[derive(Clone, Copy, PartialEq, Eq, PartialOrd, Ord)]
pub enum Comparison {
    /// The field is less.
    Less,
    /// It is less or equal.
    LessOrEqual,
    /// It is greater.
    Greater,
    /// It is greater or equal.
    GreaterOrEqual,
    /// Both are integers, and equal.
    Equal,
    /// Both are integers, and differ.
    NotEqual,
    /// They have one type and one content.
    Same,
    /// They haven't.
    Differs,
}

impl Comparison {
    /// Whether the value of a field stands so to the value of a variable. What is no integer is in no order.
    pub fn holds(self, field: &Value, other: &Value) -> bool
        ensures { result ≡ compares self field.now other.now }
    {
        match self {
            Comparison::Same => field == other,
            Comparison::Differs => !(field == other),
            _ => self.holds_of_integers(field, other),
        }
    }

    /// The same comparison with the second value first.
    pub fn turned(self) -> Comparison
        ensures { result ≡ turned self }
    {
        match self {
            Comparison::Less => Comparison::Greater,
            Comparison::LessOrEqual => Comparison::GreaterOrEqual,
            Comparison::Greater => Comparison::Less,
            Comparison::GreaterOrEqual => Comparison::LessOrEqual,
            Comparison::Equal => Comparison::Equal,
            Comparison::NotEqual => Comparison::NotEqual,
            Comparison::Same => Comparison::Same,
            Comparison::Differs => Comparison::Differs,
        }
    }

    /// The same, where both have to be integers.
    fn holds_of_integers(self, field: &Value, other: &Value) -> bool
        requires { needs_integers self ≡ true }
        ensures { result ≡ compares self field.now other.now }
    {
        match (field, other) {
            (Value::Int(n), Value::Int(m)) => self.holds_of_both(*n, *m),
            _ => false,
        }
    }

    /// The same of two integers.
    fn holds_of_both(self, field: i64, other: i64) -> bool
        ensures { result ≡ compares self (Int field) (Int other) }
    {
        match self {
            Comparison::Less => field < other,
            Comparison::LessOrEqual => field <= other,
            Comparison::Greater => other < field,
            Comparison::GreaterOrEqual => other <= field,
            Comparison::Equal | Comparison::Same => field == other,
            Comparison::NotEqual | Comparison::Differs => field != other,
        }
    }
}

/// A field of a fact that a pattern compares with a variable.
#[derive(Drop)]
pub struct ComparedField {
    /// The place of the field.
    pub place: FieldPlace,
    /// How it is compared.
    pub comparison: Comparison,
    /// The variable.
    pub variable: Name,
}
