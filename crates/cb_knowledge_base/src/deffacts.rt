//! The facts that `deffacts` keeps for `reset`.
ghost use Rattle.std.specs.Prelude.{◌≡◌, ◌++◌, ◌∷◌, [], None, OnOk};
ghost use Rattle.std.specs.Map.{lookup, remove_entry};
ghost use Rattle.std.specs.Str.{bytes_eq};
ghost use Rattle.cb_knowledge_base.specs.Deffacts.{is_named_in_deffacts, with_deffacts};
ghost use Rattle.cb_knowledge_base.specs.Internal.GroupCounts.{AreCounted, HasLess, HasMore, IsLessByGroup};

use crate::groups::{Deffacts, Groups};
use cb_exprs::FactExpr;
use cb_facts::{Name, RelationCounts};
use cb_forms::NoMemory;
use std::alloc::Global;
use std::collections::btree_map::Values;
use std::marker::Model;

/// The facts of each `deffacts`, by its name, in the order of their definition.
///
/// A group is found by its name in logarithmic time, whatever the names are.
///
/// Contracts see the list of the pairs of a name and its facts.
#[derive(Drop)]
pub struct DeffactsTable {
    alloc: Global,
    groups: Groups,
    counts: RelationCounts,
}

impl Model for DeffactsTable {
    ghost use Rattle.std.specs.Coded.{codes};
    ghost use Rattle.cb_knowledge_base.specs.Deffacts.{DeffactsTable as Table};
    ghost use Rattle.cb_knowledge_base.specs.Internal.GroupCounts.{AreCounted};
    ghost use Rattle.cb_knowledge_base.specs.Internal.{table_code};

    ghost Value = { Table };

    ghost coded = { table_code (Prim.hlevel codes) (Prim.hlevel codes) (Prim.hlevel codes) };

    ghost view = { λ g. g.groups };

    ghost invariant = { λ g. AreCounted g.counts g.groups };
}

impl DeffactsTable {
    /// No groups. It takes no memory yet.
    pub fn new(alloc: Global) -> DeffactsTable
        ensures { result ≡ [] }
    {
        DeffactsTable {
            alloc,
            groups: Groups::new(alloc),
            counts: RelationCounts::new(alloc),
        }
    }

    /// Keeps facts under a name, after the other groups, and in place of the group that had the name. Growth is refused
    /// as `NoMemory`; then it may have any groups.
    pub fn define(&mut self, name: Name, facts: Vec<FactExpr>) -> Result<(), NoMemory>
        ensures { OnOk result (self.new ≡ with_deffacts self.old name facts.items) }
    {
        forget(&mut self.groups, &mut self.counts, &name);
        if let Err(error) = keep(&mut self.groups, &mut self.counts, name, facts) {
            *self = DeffactsTable::new(self.alloc);
            return Err(error);
        }
        Ok(())
    }

    /// Whether a fact of a group names a relation. It takes logarithmic time, whatever the relations are.
    pub fn mentions(&self, relation: &Name) -> bool
        ensures { result ≡ is_named_in_deffacts relation.now self.now }
    {
        self.counts.count(relation) > 0
    }

    /// The groups, in order.
    pub fn iter(&self) -> Values<'_, u64, Deffacts>
        ensures { result ≡ self.now }
    {
        self.groups.iter()
    }
}

/// Takes the group with a name out, if there is one, and counts its facts no more.
fn forget(groups: &mut Groups, counts: &mut RelationCounts, name: &Name)
    requires { AreCounted counts.old groups.old }
    ensures taken { groups.new ≡ remove_entry (bytes_eq name.now) groups.old }
    ensures absent { lookup (bytes_eq name.now) groups.new ≡ None }
    ensures counted { AreCounted counts.new groups.new }
{
    discount(counts, groups.take(name));
}

/// Counts the facts of a group no more, if there is one.
fn discount(counts: &mut RelationCounts, group: Option<Deffacts>)
    ensures { IsLessByGroup group counts.old counts.new }
{
    match group {
        Some(group) => remove_all(counts, group.facts()),
        None => {}
    }
}

fn remove_all(counts: &mut RelationCounts, facts: &[FactExpr])
    ensures { HasLess counts.old counts.new facts.now }
{
    for fact in facts {
        counts.remove(fact.shape().relation());
    }
}

/// Keeps a group after the others, and counts its facts.
fn keep(
    groups: &mut Groups,
    counts: &mut RelationCounts,
    name: Name,
    facts: Vec<FactExpr>,
) -> Result<(), NoMemory>
    requires absent { lookup (bytes_eq name) groups.old ≡ None }
    requires counted { AreCounted counts.old groups.old }
    ensures kept { OnOk result (groups.new ≡ groups.old ++ (name, facts.items) ∷ []) }
    ensures counted { OnOk result (AreCounted counts.new groups.new) }
{
    add_all(counts, facts.as_slice())?;
    groups.push(name, facts)?;
    Ok(())
}

fn add_all(counts: &mut RelationCounts, facts: &[FactExpr]) -> Result<(), NoMemory>
    ensures { OnOk result (HasMore counts.old counts.new facts.now) }
{
    for fact in facts {
        counts.add(fact.shape().relation())?;
    }
    Ok(())
}
