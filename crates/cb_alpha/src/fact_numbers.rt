//! The numbers of facts, by their indices.
ghost use Rattle.std.specs.Prelude.{◌≡◌, ℕ, None, OnErr, OnOk, Some};
ghost use Rattle.cb_alpha.specs.Internal.FactNumbers.{AreSameNumbers, number_by, number_in, number_within};
ghost use Rattle.cb_number_map.specs.Filed.{ChangesAt};

use cb_forms::NoMemory;
use cb_number_map::NumberMap;
use std::alloc::Global;
use std::collections::BTreeMap;

/// The numbers of facts, by their indices. Before the first comes they take no memory, so that patterns for which nothing is there take
/// little.
///
/// Contracts see the number under each index.
#[derive(Drop)]
pub(crate) struct FactNumbers {
    alloc: Global,
    tables: Option<Box<Tables>>,
}

#[derive(Drop)]
struct Tables {
    /// Those of indices of 32 bits.
    short: NumberMap,
    /// Those of greater ones.
    long: BTreeMap<u64, u32>,
}

impl FactNumbers {
    /// No number. It takes no memory.
    pub(crate) fn new(alloc: Global) -> FactNumbers
        ensures { (index : ℕ) → number_by result index ≡ None }
    {
        FactNumbers {
            alloc,
            tables: None,
        }
    }

    /// The number under an index, if one is there.
    pub(crate) fn get(&self, index: u64) -> Option<u32>
        ensures { result ≡ number_by self.now index }
    {
        match &self.tables {
            Some(tables) => tables.get(index),
            None => None,
        }
    }

    /// Adds a number under an index that has none. Growth is refused as `NoMemory`, and then nothing has changed.
    pub(crate) fn insert(&mut self, index: u64, number: u32) -> Result<(), NoMemory>
        requires { number_by self.old index ≡ None }
        ensures ok { OnOk result
            (ChangesAt (number_by self.old) (number_by self.new) index (Some number)) }
        ensures err { OnErr result (AreSameNumbers (number_by self.old) (number_by self.new)) }
    {
        insert_into(self.alloc, &mut self.tables, index, number)
    }

    /// Takes the number under an index out, if there is one, and returns it. It takes no memory.
    pub(crate) fn remove(&mut self, index: u64) -> Option<u32>
        ensures number { result ≡ number_by self.old index }
        ensures same { result ≡ None → self.new ≡ self.old }
        ensures gone { ChangesAt (number_by self.old) (number_by self.new) index None }
    {
        let number = self.get(index)?;
        remove_from(&mut self.tables, index);
        Some(number)
    }
}

impl Tables {
    /// No number. It takes no memory.
    fn new(alloc: Global) -> Tables
        ensures { (index : ℕ) → number_in result index ≡ None }
    {
        Tables {
            short: NumberMap::new(alloc),
            long: BTreeMap::new(alloc),
        }
    }

    /// The number under an index, if one is there.
    fn get(&self, index: u64) -> Option<u32>
        ensures { result ≡ number_in self.now index }
    {
        match u32::try_from(index) {
            Ok(short) => self.short.get(short),
            Err(_) => self.long.get(&index).copied(),
        }
    }

    /// Adds a number under an index that has none. Growth is refused as `NoMemory`, and then nothing has changed.
    fn insert(&mut self, index: u64, number: u32) -> Result<(), NoMemory>
        requires { number_in self.old index ≡ None }
        ensures ok { OnOk result
            (ChangesAt (number_in self.old) (number_in self.new) index (Some number)) }
        ensures err { OnErr result (AreSameNumbers (number_in self.old) (number_in self.new)) }
    {
        match u32::try_from(index) {
            Ok(short) => self.short.insert(short, number),
            Err(_) => {
                self.long.insert(index, number)?;
                Ok(())
            }
        }
    }

    /// Takes the number under an index out, if there is one.
    fn remove(&mut self, index: u64)
        ensures { ChangesAt (number_in self.old) (number_in self.new) index None }
    {
        match u32::try_from(index) {
            Ok(short) => self.short.remove(short),
            Err(_) => {
                self.long.remove(&index);
            }
        }
    }
}

/// Adds a number under an index that has none. Growth is refused as `NoMemory`, and then nothing has changed.
fn insert_into(
    alloc: Global,
    tables: &mut Option<Box<Tables>>,
    index: u64,
    number: u32,
) -> Result<(), NoMemory>
    requires { number_within tables.old index ≡ None }
    ensures ok { OnOk result
        (ChangesAt (number_within tables.old) (number_within tables.new) index (Some number)) }
    ensures err { OnErr result
        (AreSameNumbers (number_within tables.old) (number_within tables.new)) }
{
    match tables {
        Some(tables) => tables.insert(index, number),
        None => {
            let mut first = Box::new(alloc, Tables::new(alloc))?;
            first.insert(index, number)?;
            *tables = Some(first);
            Ok(())
        }
    }
}

/// Takes the number under an index out, if there is one.
fn remove_from(tables: &mut Option<Box<Tables>>, index: u64)
    ensures { ChangesAt (number_within tables.old) (number_within tables.new) index None }
{
    if let Some(tables) = tables {
        tables.remove(index);
    }
}
