//! The values that many names have.
ghost use Rattle.std.specs.Prelude.{◌≡◌, [], None, IfErr, OnErr, OnOk, option_copied};
ghost use Rattle.cb_exprs.specs.Bindings.{value_at, with_value, without_value};

use crate::tree::Tree;
use cb_facts::{Name, Value};
use cb_forms::NoMemory;
use std::alloc::{AllocError, Global};
use std::marker::Model;

/// Names, each with its value, found in logarithmic time, whatever the names are.
///
/// A clone shares all of it until one of the two changes. It takes no memory, and is refused only where the count of sharers
/// is full.
///
/// Contracts see the list of the pairs, in the order of the names.
#[derive(Drop)]
pub(crate) struct Values {
    alloc: Global,
    by_name: Tree,
}

impl Model for Values {
    ghost use Rattle.cb_exprs.specs.Bindings.{Values as Pairs};
    ghost use Rattle.cb_exprs.specs.Internal.Trees.{IsOrdered, pairs_of};

    ghost Value = { Pairs };

    ghost view = { λ v. pairs_of v.by_name };

    ghost invariant = { λ v. IsOrdered (pairs_of v.by_name) };
}

impl Clone for Values {
    ghost is_clone = { λ values copy. copy ≡ values };

    fn clone(&self) -> Result<Values, AllocError> {
        let by_name = self.by_name.clone()?;
        Ok(Values {
            alloc: self.alloc,
            by_name,
        })
    }
}

impl Values {
    /// No name has a value. It takes no memory yet.
    pub(crate) fn new(alloc: Global) -> Values
        ensures { result ≡ [] }
    {
        Values {
            alloc,
            by_name: Tree::Empty,
        }
    }

    /// The value that a name has.
    pub(crate) fn get(&self, name: &Name) -> Option<&Value>
        ensures { option_copied result ≡ value_at name.now self.now }
    {
        self.by_name.get(name)
    }

    /// Writes a value in place of the one that a name has. Where the name has none, or a clone shares the way to it, the value is
    /// returned and nothing has changed. It takes no memory.
    pub(crate) fn write(&mut self, name: &Name, value: Value) -> Result<(), Value>
        ensures ok { OnOk result (self.new ≡ with_value name.now value self.old) }
        ensures err { OnErr result (self.new ≡ self.old) }
        ensures back { IfErr result (λ v. v ≡ value) }
    {
        self.by_name.write(name, value)
    }

    /// Gives a name a value, in place of the one that it has, if it has one. Growth is refused as `NoMemory`, and then
    /// nothing has changed; a name that has a value takes no memory where no clone shares the way to it.
    pub(crate) fn set(&mut self, name: &Name, value: Value) -> Result<(), NoMemory>
        ensures ok { OnOk result (self.new ≡ with_value name.now value self.old) }
        ensures err { OnErr result (self.new ≡ self.old) }
    {
        let Err(value) = self.write(name, value) else {
            return Ok(());
        };
        let by_name = self.by_name.with(self.alloc, name, value)?;
        self.by_name = by_name;
        Ok(())
    }

    /// Takes the value of a name away, if it has one. Growth is refused as `NoMemory`, and then nothing has changed; a name that
    /// has no value takes no memory.
    pub(crate) fn unset(&mut self, name: &Name) -> Result<(), NoMemory>
        ensures taken { OnOk result (self.new ≡ without_value name.now self.old) }
        ensures gone { OnOk result (value_at name.now self.new ≡ None) }
        ensures err { OnErr result (self.new ≡ self.old) }
    {
        if self.get(name).is_none() {
            return Ok(());
        }
        let by_name = self.by_name.without(self.alloc, name)?;
        self.by_name = by_name;
        Ok(())
    }
}
