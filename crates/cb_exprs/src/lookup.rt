//! Where variables have their values.
ghost use Rattle.std.specs.Prelude.{◌≡◌, IfOk, option_copied};
ghost use Rattle.cb_exprs.specs.Bindings.{Bindings, value_at};

use crate::env::Env;
use cb_facts::{Name, Value};
use cb_forms::NoMemory;

/// What says which values variables and global variables have: an `Env`, which keeps them, or a test of a pattern, which reads
/// them from the fact.
pub trait Lookup {
    // the values
    ghost bindings: { Self → Bindings };

    /// The value of a variable, or `None` where it has none. It shares its bytes or fields. It is refused as `NoMemory` where a
    /// count of sharers is full, or where memory for it is.
    fn variable(&self, name: &Name) -> Result<Option<Value>, NoMemory>
        ensures { IfOk result (λ found. found ≡ value_at name.now (bindings self.now).variables) };

    /// The value of a global variable, in the same way.
    fn global_variable(&self, name: &Name) -> Result<Option<Value>, NoMemory>
        ensures { IfOk result (λ found. found ≡ value_at name.now (bindings self.now).globals) };
}

impl Lookup for Env {
    ghost bindings = { λ env. env };

    fn variable(&self, name: &Name) -> Result<Option<Value>, NoMemory> {
        copied(self.get(name))
    }

    fn global_variable(&self, name: &Name) -> Result<Option<Value>, NoMemory> {
        copied(self.global(name))
    }
}

/// A copy of what was found.
fn copied(found: Option<&Value>) -> Result<Option<Value>, NoMemory>
    ensures { IfOk result (λ copy. copy ≡ option_copied found.entry) }
{
    match found {
        Some(value) => Ok(Some(value.clone()?)),
        None => Ok(None),
    }
}
