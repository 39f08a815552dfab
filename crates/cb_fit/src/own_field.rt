//! Fields of one fact that are compared with constants and with one another.
ghost use Rattle.std.specs.Prelude.{◌≡◌, IfOk};
ghost use Rattle.cb_fit.specs.Comparisons.{all_own_hold, operand_value, own_holds};

use crate::comparison::Comparison;
use crate::field_place::FieldPlace;
use cb_facts::{Fact, Value};
use cb_forms::NoMemory;
use std::alloc::AllocError;

/// What a field of a fact is compared with. A clone shares the bytes and the fields of a constant. It takes no memory, and is refused as
/// `NoMemory` only where a count of sharers is full.
#[derive(PartialEq, Eq, PartialOrd, Ord, Drop)]
pub enum Operand {
    /// The field at this place of the same fact.
    Field(FieldPlace),
    /// A constant.
    Constant(Value),
}

impl Clone for Operand {
    ghost is_clone = { λ o copy. copy ≡ o };

    fn clone(&self) -> Result<Operand, AllocError> {
        match self {
            Operand::Field(place) => Ok(Operand::Field(*place)),
            Operand::Constant(value) => Ok(Operand::Constant(value.clone()?)),
        }
    }
}

impl Operand {
    /// Its value, or `None` where the fact has no such field. It takes no memory, and is refused as `NoMemory` only where a count of
    /// sharers is full.
    pub fn value_in(&self, fact: &Fact) -> Result<Option<Value>, NoMemory>
        ensures { IfOk result (λ v. v ≡ operand_value self.now fact.now.content) }
    {
        match self {
            Operand::Field(place) => place.value_in(fact),
            Operand::Constant(value) => Ok(Some(value.clone()?)),
        }
    }
}

/// A field of a fact that a pattern compares with a constant or with another field of the same fact: the first with a variable of which
/// the pattern asks again there, or with which it compares the field. A clone shares what `other` has, and is refused as that is.
#[derive(PartialEq, Eq, PartialOrd, Ord, Drop)]
pub struct OwnField {
    /// The place of the field.
    pub place: FieldPlace,
    /// How it is compared.
    pub comparison: Comparison,
    /// With what it is compared.
    pub other: Operand,
}

impl Clone for OwnField {
    ghost is_clone = { λ o copy. copy ≡ o };

    fn clone(&self) -> Result<OwnField, AllocError> {
        let other = self.other.clone()?;
        Ok(OwnField {
            place: self.place,
            comparison: self.comparison,
            other,
        })
    }
}

impl OwnField {
    /// Whether the field of a fact compares so with the other, or with the constant; not where the fact lacks one of the fields. It takes
    /// no memory, and is refused as `NoMemory` only where a count of sharers is full.
    pub fn holds(&self, fact: &Fact) -> Result<bool, NoMemory>
        ensures { IfOk result (λ yes. yes ≡ own_holds fact.now.content self.now) }
    {
        match (self.place.value_in(fact)?, self.other.value_in(fact)?) {
            (Some(value), Some(other)) => Ok(self.comparison.holds(&value, &other)),
            _ => Ok(false),
        }
    }
}

/// Whether all of these do.
pub(crate) fn all_hold(fields: &[OwnField], fact: &Fact) -> Result<bool, NoMemory>
    ensures { IfOk result (λ yes. yes ≡ all_own_hold fields.now fact.now.content) }
{
    for field in fields {
        if !field.holds(fact)? {
            return Ok(false);
        }
    }
    Ok(true)
}
