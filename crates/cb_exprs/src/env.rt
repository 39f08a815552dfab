//! The values that variables and global variables have.
ghost use Rattle.std.specs.Prelude.{◌≡◌, [], None, IfOk, OnOk, OnErr, option_copied};
ghost use Rattle.cb_exprs.specs.Bindings.{no_bindings, value_at, with_global, with_variable, with_variables, without_variable};

use crate::assignment::Assignment;
use cb_facts::{Name, Value};
use cb_forms::NoMemory;
use std::alloc::{AllocError, Global};
use std::marker::Model;
use std::mem;

/// The values that variables and global variables have. A variable and a global variable of the same name are
/// distinct.
///
/// Each is found in logarithmic time, whatever the names are. A clone shares all of them until one of the two changes: it takes
/// no memory, and is refused only where a count of sharers is full.
///
/// Contracts see the pairs of a name and its value, those of the variables and those of the globals, each in the order of
/// the names.
#[derive(Drop)]
pub struct Env {
    variables: Assignment,
    globals: Assignment,
}

impl Model for Env {
    ghost use Rattle.cb_exprs.specs.Bindings.{Bindings};

    ghost Value = { Bindings };

    ghost view = { λ e. record { variables = e.variables; globals = e.globals } };
}

impl Clone for Env {
    ghost is_clone = { λ env copy. copy ≡ env };

    fn clone(&self) -> Result<Env, AllocError> {
        let variables = self.variables.clone()?;
        let globals = self.globals.clone()?;
        Ok(Env { variables, globals })
    }
}

impl Env {
    /// No variable has a value. It takes no memory yet.
    pub fn new(alloc: Global) -> Env
        ensures { result ≡ no_bindings }
    {
        Env {
            variables: Assignment::new(alloc),
            globals: Assignment::new(alloc),
        }
    }

    /// The value of a variable, or `None` where it has none.
    pub fn get(&self, name: &Name) -> Option<&Value>
        ensures { option_copied result ≡ value_at name.now self.now.variables }
    {
        self.variables.get(name)
    }

    /// Gives a variable a value, in place of the one that it has, if it has one. Growth is refused as `NoMemory`, and then
    /// nothing has changed. A variable of a loop, which is given one value after another, takes no memory from the second time
    /// on, unless a clone shares the way to it.
    pub fn set(&mut self, name: &Name, value: Value) -> Result<(), NoMemory>
        ensures ok { OnOk result (self.new ≡ with_variable name.now value self.old) }
        ensures err { OnErr result (self.new ≡ self.old) }
    {
        self.variables.set(name, value)
    }

    /// A copy in which these variables are set, in order; of two values for one variable the later counts. It shares with
    /// the original what it does not change. Growth is refused as `NoMemory`.
    #[tactic(auto, using(crate::proofs::FrameLaws::variables_with_each))]
    pub fn with(&self, bindings: Vec<(Name, Value)>) -> Result<Env, NoMemory>
        ensures ok { IfOk result (λ env. env ≡ with_variables bindings.items self.now) }
    {
        let variables = self.variables.with(bindings)?;
        let globals = self.globals.clone()?;
        Ok(Env { variables, globals })
    }

    /// Takes the value of a variable away, if it has one. Growth is refused as `NoMemory`, and then nothing has changed; a
    /// variable that has no value takes no memory.
    pub fn unset(&mut self, name: &Name) -> Result<(), NoMemory>
        ensures taken { OnOk result (self.new ≡ without_variable name.now self.old) }
        ensures gone { OnOk result (value_at name.now self.new.variables ≡ None) }
        ensures err { OnErr result (self.new ≡ self.old) }
    {
        self.variables.unset(name)
    }

    /// Takes the values of all variables away. The globals keep theirs.
    pub fn drop_variables(&mut self, alloc: Global)
        ensures { self.new ≡ record { variables = []; globals = self.old.globals } }
    {
        self.variables = Assignment::new(alloc);
    }

    /// Gives the variables the values that they have in another, and those of the other the values that they had here. The
    /// globals of both keep theirs.
    pub fn swap_variables(&mut self, other: &mut Env)
        ensures here { self.new ≡ record { variables = other.old.variables; globals = self.old.globals } }
        ensures there { other.new ≡ record { variables = self.old.variables; globals = other.old.globals } }
    {
        mem::swap(&mut self.variables, &mut other.variables);
    }

    /// The value of a global variable, or `None` where it has none.
    pub fn global(&self, name: &Name) -> Option<&Value>
        ensures { option_copied result ≡ value_at name.now self.now.globals }
    {
        self.globals.get(name)
    }

    /// Gives a global variable a value, as `set` does a variable.
    pub fn set_global(&mut self, name: &Name, value: Value) -> Result<(), NoMemory>
        ensures ok { OnOk result (self.new ≡ with_global name.now value self.old) }
        ensures err { OnErr result (self.new ≡ self.old) }
    {
        self.globals.set(name, value)
    }
}
