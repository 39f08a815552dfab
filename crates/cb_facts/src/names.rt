//! The names that were read.
ghost use Rattle.std.specs.Prelude.{◌≡◌, IfOk, IfSome};
ghost use Rattle.cb_facts.specs.Internal.Hashes.{hash_of_bytes};

use crate::name::{Name, hash_of_bytes};
use cb_forms::NoMemory;
use std::alloc::Global;
use std::collections::BTreeMap;

// What is kept of the names before the first sweep, in bytes.
const LEAST_LIMIT: usize = 65_536;

// What a name takes beside its bytes, with its place among the others: about so many bytes.
const NAME_COST: usize = 64;

/// The names that were read, so that a name that is read again shares the bytes of the first.
///
/// Each is found by the hash of its bytes, in time logarithmic in the number of names. Where two names have the same hash,
/// only the later is kept, and the other shares its bytes no more: so no choice of names makes a search long.
///
/// What nothing else holds is kept for a while: once the names have grown to twice what they took after the last sweep,
/// those that nothing else holds go. That takes time in proportion to the bytes that were read.
///
/// After `NoMemory` it may have any names.
#[derive(Drop)]
pub struct Names {
    alloc: Global,
    by_hash: BTreeMap<u64, Name>,
    size: usize,
    limit: usize,
}

impl Names {
    /// No names yet. It takes no memory.
    pub fn new(alloc: Global) -> Names {
        Names {
            alloc,
            by_hash: BTreeMap::new(alloc),
            size: 0,
            limit: LEAST_LIMIT,
        }
    }

    /// The allocator of the names.
    pub fn alloc(&self) -> Global {
        self.alloc
    }

    /// The name with these bytes. Growth is refused as `NoMemory`.
    pub fn name(&mut self, bytes: &[u8]) -> Result<Name, NoMemory>
        ensures { IfOk result (λ name. name ≡ bytes.now) }
    {
        let hash = hash_of_bytes(bytes);
        match self.find(hash, bytes) {
            Some(known) => Ok(known.clone()?),
            None => self.add(hash, bytes),
        }
    }

    fn find(&self, hash: u64, bytes: &[u8]) -> Option<&Name>
        ensures { IfSome result (λ name. name.now ≡ bytes.now) }
    {
        let name = self.by_hash.get(&hash)?;
        if name.as_slice() == bytes {
            Some(name)
        } else {
            None
        }
    }

    fn add(&mut self, hash: u64, bytes: &[u8]) -> Result<Name, NoMemory>
        requires { hash ≡ hash_of_bytes bytes.now }
        ensures { IfOk result (λ name. name ≡ bytes.now) }
    {
        let name = Name::with_hash(self.alloc, bytes, hash)?;
        if self.size > self.limit {
            self.sweep();
        }
        self.size = self.size.saturating_add(size_of_name(&name));
        self.by_hash.insert(hash, name.clone()?)?;
        Ok(name)
    }

    /// Lets go what nothing else holds.
    fn sweep(&mut self) {
        let mut size = 0;
        self.by_hash.retain(|_, name| {
            let is_shared = name.is_shared();
            if is_shared {
                size = size_of_name(name).saturating_add(size);
            }
            is_shared
        });
        self.size = size;
        self.limit = size.saturating_mul(2).max(LEAST_LIMIT);
    }
}

fn size_of_name(name: &Name) -> usize {
    name.as_slice().len().saturating_add(NAME_COST)
}
