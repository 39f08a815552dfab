//! What a token gives variables.
ghost use Rattle.std.specs.Prelude.{◌≡◌, ◌++◌, IfOk, None, OnOk, false, option_copied};
ghost use Rattle.std.specs.Option.{option_map};
ghost use Rattle.std.specs.Rc.{rc_value};
ghost use Rattle.cb_beta.specs.GivenValues.{IsTaken, values_read, way_by_fields, way_in};
ghost use Rattle.cb_constraints.specs.Holding.{tested_value};
ghost use Rattle.cb_exprs.specs.Bindings.{no_bindings, value_at, with_variables};
ghost use Rattle.cb_fit.specs.WayValues.{way_of};

use crate::marks::Sought;
use crate::taken_fields::TakenFields;
use cb_constraints::Tested;
use cb_facts::{Fact, Name, Value};
use cb_fit::Way;
use cb_forms::NoMemory;
use std::alloc::Global;
use std::marker::Model;
use std::rc::Rc;

/// What a token gives variables by the fact that it takes, and the lengths of the segments.
///
/// Where a pattern is joined by values, all its tokens share the list of the fields, and the values are read in the fact. Contracts see
/// the way.
#[derive(Drop)]
pub struct Given {
    held: Held,
}

/// Where the values are.
#[derive(Drop)]
pub(crate) enum Held {
    /// Nowhere: no fact is taken.
    Nothing,
    /// In a way that a test of the pattern found, in a block of its own, so that a token of the other kind has no place for it.
    Found(Box<Way>),
    /// In these fields of the fact.
    Fields(Rc<TakenFields>, Fact),
}

impl Model for Given {
    ghost use Rattle.cb_beta.specs.GivenValues.{IsTaken, way_in};
    ghost use Rattle.cb_fit.specs.Ways.{WayValue};

    ghost Value = { WayValue };

    ghost view = { λ g. way_in g.held };

    ghost invariant = { λ g. IsTaken g.held };
}

impl Given {
    /// What a way gives that a test of the pattern found. It takes one block, which is refused as `NoMemory`.
    pub fn found(alloc: Global, way: Way) -> Result<Given, NoMemory>
        ensures { IfOk result (λ given. given ≡ way_of way) }
    {
        let way = Box::new(alloc, way)?;
        Ok(Given {
            held: Held::Found(way),
        })
    }

    /// What these fields of a fact give, both shared. It takes no memory, and is refused as `NoMemory` only where a count of sharers is
    /// full.
    pub fn of_fields(taken: &Rc<TakenFields>, fact: &Fact) -> Result<Given, NoMemory>
        ensures { IfOk result
            (λ given. given ≡ way_by_fields (rc_value taken.now) fact.now.content) }
    {
        let taken = taken.clone()?;
        let fact = fact.clone()?;
        Ok(Given {
            held: Held::Fields(taken, fact),
        })
    }

    /// The values, to read.
    pub fn read(&self) -> Gives<'_>
        ensures { values_read result ≡ self.now.bound }
    {
        Gives { held: &self.held }
    }

    /// Where the values are.
    pub(crate) fn into_held(self) -> Held
        ensures way { way_in result ≡ self }
        ensures taken { IsTaken result }
    {
        self.held
    }
}

/// What a token gives variables, to read.
#[derive(Clone, Copy)]
pub struct Gives<'a> {
    pub(crate) held: &'a Held,
}

impl<'a> Gives<'a> {
    /// What it gives a variable, borrowed: the last of its values, or `None` where it gives none.
    pub fn find(self, name: &Sought<'_>) -> Option<Tested<'a>>
        ensures { option_map tested_value result
            ≡ value_at name.now (with_variables (values_read self.entry) no_bindings).variables }
    {
        match self.held {
            Held::Nothing => None,
            Held::Found(way) => Some(Tested::Whole(value_in(way.bound.as_slice(), name.name())?)),
            Held::Fields(taken, fact) => taken.field(fact, name),
        }
    }

    /// Whether it may give a variable a value. Where it doesn't, that is mostly seen, and without a look at names.
    pub fn may_give(self, name: &Sought<'_>) -> bool
        ensures { result ≡ false
            → value_at name.now (with_variables (values_read self.entry) no_bindings).variables ≡ None }
    {
        match self.held {
            Held::Nothing => false,
            Held::Found(way) => !way.bound.is_empty(),
            Held::Fields(taken, _) => taken.may_give(name),
        }
    }

    /// Adds what it gives variables behind these, in order. Growth is refused as `NoMemory`, and so is a count of sharers that is full.
    pub fn add_to(self, bindings: &mut Vec<(Name, Value)>) -> Result<(), NoMemory>
        ensures { OnOk result (bindings.new.items ≡ bindings.old.items ++ values_read self.entry) }
    {
        match self.held {
            Held::Nothing => Ok(()),
            Held::Found(way) => add_all(bindings, way.bound.as_slice()),
            Held::Fields(taken, fact) => taken.add_to(bindings, fact),
        }
    }
}

/// The value that these give a variable, of which the last counts.
fn value_in<'a>(bound: &'a [(Name, Value)], name: &Name) -> Option<&'a Value>
    ensures { option_copied result
        ≡ value_at name.now (with_variables bound.now no_bindings).variables }
{
    let mut left = bound;
    while let Some((last, others)) = left.split_last() {
        if *name == last.0 {
            return Some(&last.1);
        }
        left = others;
    }
    None
}

/// Adds variables and their values behind these.
fn add_all(bindings: &mut Vec<(Name, Value)>, bound: &[(Name, Value)]) -> Result<(), NoMemory>
    ensures { OnOk result (bindings.new.items ≡ bindings.old.items ++ bound.now) }
{
    for (name, value) in bound.iter() {
        bindings.push((name.clone()?, value.clone()?))?;
    }
    Ok(())
}
