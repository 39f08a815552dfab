//! How many facts name each relation.
ghost use Rattle.std.specs.Prelude.{◌≡◌, ◌+◌, OnOk, OnErr};
ghost use Rattle.cb_facts.specs.RelationCounts.{HasOneLess, HasOneMore, IsEmpty, count_of};

use crate::name::Name;
use cb_forms::NoMemory;
use std::alloc::Global;
use std::collections::BTreeMap;
use std::marker::Model;

/// How many facts name each relation.
///
/// A relation is found in logarithmic time, whatever the relations are. One that no fact names takes no memory.
///
/// Contracts see a table of relations and numbers, and read it by `count_of`.
#[derive(Debug, Drop)]
pub struct RelationCounts {
    counts: BTreeMap<Name, u64>,
}

impl Model for RelationCounts {
    ghost use Rattle.cb_facts.specs.RelationCounts.{Counts};

    ghost Value = { Counts };

    ghost view = { λ c. c.counts.entries };
}

impl RelationCounts {
    /// Of no facts. It takes no memory yet.
    pub fn new(alloc: Global) -> RelationCounts
        ensures { IsEmpty result }
    {
        RelationCounts {
            counts: BTreeMap::new(alloc),
        }
    }

    /// How many facts name a relation.
    pub fn count(&self, relation: &Name) -> u64
        ensures { result ≡ count_of self.now relation.now }
    {
        self.counts.get(relation).copied().unwrap_or(0)
    }

    /// Counts one fact more that names a relation. Growth is refused as `NoMemory`, and so is the 2^64th fact; then nothing
    /// has changed.
    pub fn add(&mut self, relation: &Name) -> Result<(), NoMemory>
        ensures ok { OnOk result (HasOneMore self.old self.new relation.now) }
        ensures err { OnErr result (self.new ≡ self.old) }
    {
        match self.counts.get_mut(relation) {
            Some(count) => one_more(count),
            None => {
                let shared = relation.clone()?;
                self.counts.insert(shared, 1)?;
                Ok(())
            }
        }
    }

    /// Counts one fact less that names a relation, if one does.
    pub fn remove(&mut self, relation: &Name)
        ensures { HasOneLess self.old self.new relation.now }
    {
        let Some(count) = self.counts.get_mut(relation) else {
            return;
        };
        if *count > 1 {
            *count -= 1;
            return;
        }
        self.counts.remove(relation);
    }
}

/// One more. The 2^64th is refused as `NoMemory`.
fn one_more(count: &mut u64) -> Result<(), NoMemory>
    ensures ok { OnOk result (count.new ≡ count.old + 1) }
    ensures err { OnErr result (count.new ≡ count.old) }
{
    let Some(more) = count.checked_add(1) else {
        return Err(NoMemory);
    };
    *count = more;
    Ok(())
}
