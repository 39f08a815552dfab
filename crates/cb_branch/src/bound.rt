//! The variables to which the elements before a pattern give values.
ghost use Rattle.std.specs.Prelude.{◌≡◌, ◌++◌, [], ◌∷◌, ◌-◌, OnOk, length, option_to_list, take};
ghost use Rattle.cb_fit.specs.Plain.{bound_names, is_named};
ghost use Rattle.cb_branch.specs.Internal.Bounds.{with_name, with_names};

use cb_facts::Name;
use cb_fit::Pattern;
use cb_forms::NoMemory;
use std::alloc::Global;
use std::collections::BTreeSet;
use std::marker::Model;

/// The variables to which the elements before give values.
///
/// Contracts see them in the order in which they came, each once.
#[derive(Drop)]
pub(crate) struct Bound {
    names: BTreeSet<Name>,
    /// The same in the order in which they came, so that those of a group can be taken away again.
    order: Vec<Name>,
}

impl Model for Bound {
    ghost use Rattle.std.specs.Prelude.{◌≡◌, List, ℕ, true};
    ghost use Rattle.std.specs.BTreeSet.{contains};
    ghost use Rattle.std.specs.Cmp.Lexicographic.{slice_cmp};
    ghost use Rattle.std.specs.Ordering.{nat_cmp};
    ghost use Rattle.cb_fit.specs.Plain.{are_apart, is_named};

    ghost Value = { List (List ℕ) };

    ghost view = { λ b. b.order.items };

    ghost invariant = { λ b. (are_apart b.order.items ≡ true) × ((x : List ℕ) → contains (slice_cmp nat_cmp) b.names x ≡ is_named x b.order.items) };
}

impl Bound {
    /// None. It takes no memory yet.
    pub(crate) fn new(alloc: Global) -> Bound
        ensures { result ≡ [] }
    {
        Bound {
            names: BTreeSet::new(alloc),
            order: Vec::new(alloc),
        }
    }

    /// Whether a variable is one of them.
    pub(crate) fn contains(&self, name: &Name) -> bool
        ensures { result ≡ is_named name.now self.now }
    {
        self.names.contains(name)
    }

    /// How many they are.
    pub(crate) fn count(&self) -> usize
        ensures { result ≡ length self.now }
    {
        self.order.len()
    }

    /// Adds a variable, if it isn't there. Growth is refused as `NoMemory`, and so is a count of sharers that is full.
    fn add(&mut self, name: Name) -> Result<(), NoMemory>
        ensures { OnOk result (self.new ≡ with_name name self.old) }
    {
        if self.names.contains(&name) {
            return Ok(());
        }
        self.order.push(name.clone()?)?;
        if self.names.insert(name).is_err() {
            self.order.pop();
            return Err(NoMemory);
        }
        Ok(())
    }

    /// Takes away all but so many that came first.
    pub(crate) fn keep_first(&mut self, count: usize)
        ensures { self.new ≡ take count self.old }
    {
        while self.order.len() > count {
            self.take_last();
        }
    }

    /// Takes away the last one.
    fn take_last(&mut self)
        ensures { self.new ≡ take (length self.old - 1) self.old }
    {
        if let Some(name) = self.order.pop() {
            self.names.remove(&name);
        }
    }
}

/// Adds the variables to which a pattern gives values, and that of its address. Growth is refused as `NoMemory`, and so is a count of
/// sharers that is full.
pub(crate) fn bind_pattern<T>(
    alloc: Global,
    address: &Option<Name>,
    pattern: &Pattern<T>,
    bound: &mut Bound,
) -> Result<(), NoMemory>
    ensures { OnOk result (bound.new
        ≡ with_names (option_to_list address.now ++ bound_names pattern.now) bound.old) }
{
    if let Some(name) = address {
        bound.add(name.clone()?)?;
    }
    for name in pattern.bound_names(alloc)? {
        bound.add(name)?;
    }
    Ok(())
}
