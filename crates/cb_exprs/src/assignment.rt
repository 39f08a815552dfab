//! The values that names have.
ghost use Rattle.std.specs.Prelude.{◌≡◌, [], None, IfOk, OnErr, OnOk, option_copied};
ghost use Rattle.cb_exprs.specs.Bindings.{value_at, with_value, without_value};
ghost use Rattle.cb_exprs.specs.Internal.Frames.{with_each};

use crate::frames::Frames;
use cb_facts::{Name, Value};
use cb_forms::NoMemory;
use std::alloc::{AllocError, Global};
use std::marker::Model;
use std::rc::Rc;

/// Names, each with its value: while they are few in frames, and then in a search tree, so that each is found in logarithmic time,
/// whatever the names are.
///
/// A clone shares all of it until one of the two changes. It takes no memory, and is refused only where the count of sharers
/// is full.
///
/// Contracts see the list of the pairs, in the order of the names.
#[derive(Drop)]
pub(crate) struct Assignment {
    alloc: Global,
    frames: Frames,
}

impl Model for Assignment {
    ghost use Rattle.cb_exprs.specs.Bindings.{Values as Pairs};
    ghost use Rattle.cb_exprs.specs.Internal.Frames.{pairs_in};

    ghost Value = { Pairs };

    ghost view = { λ a. pairs_in a.frames };
}

impl Clone for Assignment {
    ghost is_clone = { λ assignment copy. copy ≡ assignment };

    fn clone(&self) -> Result<Assignment, AllocError> {
        let frames = self.frames.clone()?;
        Ok(Assignment {
            alloc: self.alloc,
            frames,
        })
    }
}

impl Assignment {
    /// No name has a value. It takes no memory yet.
    pub(crate) fn new(alloc: Global) -> Assignment
        ensures { result ≡ [] }
    {
        Assignment {
            alloc,
            frames: Frames::Empty,
        }
    }

    /// The value that a name has.
    pub(crate) fn get(&self, name: &Name) -> Option<&Value>
        ensures { option_copied result ≡ value_at name.now self.now }
    {
        self.frames.get(name)
    }

    /// Gives a name a value, in place of the one that it has, if it has one. Growth is refused as `NoMemory`, and then
    /// nothing has changed; a name that was set before takes no memory where no clone shares the way to its value.
    pub(crate) fn set(&mut self, name: &Name, value: Value) -> Result<(), NoMemory>
        ensures ok { OnOk result (self.new ≡ with_value name.now value self.old) }
        ensures err { OnErr result (self.new ≡ self.old) }
    {
        let Err(value) = self.frames.write(name, value) else {
            return Ok(());
        };
        let frames = self.frames.with_one(self.alloc, name, value)?;
        self.frames = frames;
        Ok(())
    }

    /// A copy in which names have these values, given in order; of two for one name the later counts. Growth is refused as
    /// `NoMemory`.
    pub(crate) fn with(&self, bindings: Vec<(Name, Value)>) -> Result<Assignment, NoMemory>
        ensures { IfOk result (λ a. a ≡ with_each bindings.items self.now) }
    {
        let frames = self.frames.with(self.alloc, bindings)?;
        Ok(Assignment {
            alloc: self.alloc,
            frames,
        })
    }

    /// Takes the value of a name away, if it has one. Growth is refused as `NoMemory`, and then nothing has changed; a name that
    /// has no value takes no memory.
    pub(crate) fn unset(&mut self, name: &Name) -> Result<(), NoMemory>
        ensures taken { OnOk result (self.new ≡ without_value name.now self.old) }
        ensures gone { OnOk result (value_at name.now self.new ≡ None) }
        ensures err { OnErr result (self.new ≡ self.old) }
    {
        if self.get(name).is_none() {
            return Ok(());
        }
        let mut values = self.frames.to_values(self.alloc)?;
        values.unset(name)?;
        self.frames = Frames::Many(Rc::new(self.alloc, values)?);
        Ok(())
    }
}
