//! The symbols that functions return.
ghost use Rattle.std.specs.Prelude.{◌≡◌, IfOk};
ghost use Rattle.cb_eval.specs.Constants.{nil_symbol, truth};
ghost use Rattle.cb_facts.specs.declared.value.Value.TheVariants as value;

use cb_facts::{Name, Value};
use cb_forms::NoMemory;
use std::alloc::Global;
use std::marker::Model;

/// The symbols TRUE, FALSE and nil. Each is made once, and a function that returns one shares it.
///
/// Contracts see nothing of it, since its symbols are always these.
#[derive(Drop)]
pub struct Constants {
    yes: Value,
    no: Value,
    nil: Value,
}

impl Model for Constants {
    ghost use Rattle.std.specs.Prelude.{◌≡◌};
    ghost use Rattle.cb_eval.specs.Constants.{false_symbol, nil_symbol, true_symbol};

    ghost Value = { Unit {0} };

    ghost view = { λ c. tt };

    ghost invariant = { λ c. (c.yes ≡ true_symbol) × (c.no ≡ false_symbol) × (c.nil ≡ nil_symbol) };
}

impl Constants {
    /// The symbols, made. Growth is refused as `NoMemory`.
    pub fn new(alloc: Global) -> Result<Constants, NoMemory> {
        Ok(Constants {
            yes: make_symbol(alloc, b"TRUE")?,
            no: make_symbol(alloc, b"FALSE")?,
            nil: make_symbol(alloc, b"nil")?,
        })
    }

    /// The symbols that are kept; they are made if they are not there yet. Growth is refused as `NoMemory`.
    pub fn made(alloc: Global, kept: &mut Option<Constants>) -> Result<&Constants, NoMemory> {
        if kept.is_none() {
            *kept = Some(Constants::new(alloc)?);
        }
        kept.as_ref().ok_or(NoMemory)
    }

    /// TRUE where something holds, and else FALSE. It takes no memory, and is refused as `NoMemory` only where the count of
    /// the sharers is full; so is `nil`.
    pub fn truth(&self, holds: bool) -> Result<Value, NoMemory>
        ensures { IfOk result (λ v. v ≡ truth holds) }
    {
        if holds {
            Ok(self.yes.clone()?)
        } else {
            Ok(self.no.clone()?)
        }
    }

    /// nil.
    pub fn nil(&self) -> Result<Value, NoMemory>
        ensures { IfOk result (λ v. v ≡ nil_symbol) }
    {
        Ok(self.nil.clone()?)
    }
}

fn make_symbol(alloc: Global, bytes: &[u8]) -> Result<Value, NoMemory>
    ensures { IfOk result (λ v. v ≡ value.Symbol bytes.now) }
{
    Ok(Value::Symbol(Name::new(alloc, bytes)?))
}
