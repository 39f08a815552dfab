//! What variables have where a constraint of a pattern is tested.
ghost use Rattle.std.specs.Prelude.{◌≡◌, IfOk, Some, length, slice_index_or, true};
ghost use Rattle.cb_constraints.specs.Holding.{tested_value};
ghost use Rattle.cb_constraints.specs.Internal.Known.{before_check};
ghost use Rattle.cb_constraints.specs.Internal.Values.{values};
ghost use Rattle.cb_exprs.specs.Bindings.{value_at};

use crate::body::Body;
use crate::place::Place;
use crate::taken::Taken;
use crate::tested::Tested;
use cb_exprs::Lookup;
use cb_facts::{Name, Value};
use cb_forms::NoMemory;

/// What variables have where the constraint after those that took values is tested for one: what they had before the pattern,
/// and beside that what the constraints gave them, which is read from the values that these took.
#[derive_where(Clone, Copy)]
pub struct Known<'a, L> {
    /// What variables had before the pattern.
    pub before: &'a L,
    /// The pattern.
    pub body: &'a Body,
    /// What its constraints took so far.
    pub took: &'a Taken<'a>,
    /// The value that is tested.
    pub tested: Tested<'a>,
}

impl<L: Lookup> Known<'_, L> {
    /// The value that a variable has before a check, or `None` where it has none. A check of those that the constraint joins by
    /// `&` may give a variable the value that is tested, and those after it see that; so it is asked for a check, by its number
    /// from 0. The value shares its bytes or fields. It is refused as `NoMemory` where a count of sharers is full, or where
    /// memory for it is.
    pub(crate) fn variable(&self, name: &Name, check: usize) -> Result<Option<Value>, NoMemory>
        ensures { IfOk result (λ found. found
            ≡ value_at name.now (before_check L.bindings self.now check).variables) }
    {
        if let Some(value) = self.before.variable(name)? {
            return Ok(Some(value));
        }
        let count = self.took.count();
        match self.body.first_before(name, count, check) {
            Some(place) => value_at_one(self.took, self.tested, count, place),
            None => Ok(None),
        }
    }

    /// Whether a check is where the pattern first gives a variable a value, if it has none before the pattern: before this check it
    /// has what it had before the pattern. The answer may be `false` where it is one of many variables.
    pub(crate) fn takes_first(&self, name: &Name, check: usize) -> bool
        ensures { result ≡ true
            → value_at name.now (before_check L.bindings self.now check).variables
            ≡ value_at name.now (L.bindings self.now.before.now).variables }
    {
        self.body.is_first(name, self.took.count(), check)
    }

    /// The value of a global variable before a check, in the same way.
    pub(crate) fn global(&self, name: &Name, check: usize) -> Result<Option<Value>, NoMemory>
        ensures { IfOk result (λ found. found
            ≡ value_at name.now (before_check L.bindings self.now check).globals) }
    {
        self.before.global_variable(name)
    }
}

/// What variables have before one check.
#[derive_where(Clone, Copy)]
pub(crate) struct AtCheck<'a, L> {
    pub(crate) known: &'a Known<'a, L>,
    pub(crate) check: usize,
}

impl<L: Lookup> Lookup for AtCheck<'_, L> {
    ghost use Rattle.cb_constraints.specs.Internal.Known.{before_check};

    ghost bindings = { λ at. before_check L.bindings at.known.now at.check };

    fn variable(&self, name: &Name) -> Result<Option<Value>, NoMemory> {
        self.known.variable(name, self.check)
    }

    fn global_variable(&self, name: &Name) -> Result<Option<Value>, NoMemory> {
        self.known.global(name, self.check)
    }
}

/// The value that a variable took at this place: that of its constraint, or the one that is tested, for the constraint that comes next.
fn value_at_one(
    took: &Taken<'_>,
    tested: Tested<'_>,
    count: usize,
    place: Place,
) -> Result<Option<Value>, NoMemory>
    requires { count ≡ length (values took.now) }
    ensures { IfOk result (λ value. value
        ≡ Some (slice_index_or (values took.entry.now) place.constraint (tested_value tested.entry))) }
{
    if place.constraint < count {
        return Ok(Some(took.value(place.constraint)?));
    }
    Ok(Some(tested.to_value()?))
}
