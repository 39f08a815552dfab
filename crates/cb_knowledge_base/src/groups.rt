//! Facts by the names of their groups, in the order in which the groups were kept.
ghost use Rattle.std.specs.Prelude.{◌≡◌, ◌++◌, ◌∷◌, ◌+◌, [], ℕ, None, IfOk, OnOk, OnErr, option_map};
ghost use Rattle.std.specs.List.{sum_by};
ghost use Rattle.std.specs.Map.{lookup, remove_entry};
ghost use Rattle.std.specs.Option.{unwrap_or};
ghost use Rattle.std.specs.Str.{bytes_eq};
ghost use Rattle.cb_knowledge_base.specs.Internal.Groups.{Group, IsAfterAll};

use cb_exprs::FactExpr;
use cb_facts::Name;
use cb_forms::NoMemory;
use std::alloc::Global;
use std::collections::BTreeMap;
use std::collections::btree_map::Values;
use std::marker::Model;

/// The facts of one `deffacts`, and its name.
///
/// Contracts see the pair of the name and the list of the facts.
#[derive(Drop)]
pub struct Deffacts {
    name: Name,
    facts: Vec<FactExpr>,
}

impl Model for Deffacts {
    ghost use Rattle.std.specs.Coded.{codes};
    ghost use Rattle.cb_knowledge_base.specs.Internal.Groups.{Group};
    ghost use Rattle.cb_knowledge_base.specs.Internal.{group_code};

    ghost Value = { Group };

    ghost coded = { group_code (Prim.hlevel codes) (Prim.hlevel codes) (Prim.hlevel codes) };

    ghost view = { λ g. (g.name, g.facts.items) };
}

impl Deffacts {
    /// The facts.
    pub fn facts(&self) -> &[FactExpr]
        ensures { result.now ≡ self.now.1 }
    {
        self.facts.as_slice()
    }
}

/// Groups of facts, no two with one name, in the order in which they were kept.
///
/// Each has a number, and the numbers rise. A group is kept and taken out in logarithmic time, whatever the names are.
///
/// Contracts see the list of the pairs of a name and its facts.
#[derive(Drop)]
pub(crate) struct Groups {
    groups: BTreeMap<u64, Deffacts>,
    numbers: BTreeMap<Name, u64>,
}

impl Model for Groups {
    ghost use Rattle.std.specs.BTreeMap.{get};
    ghost use Rattle.std.specs.Cmp.Lexicographic.{slice_cmp};
    ghost use Rattle.std.specs.Map.{values_of};
    ghost use Rattle.std.specs.Ordering.{nat_cmp};
    ghost use Rattle.std.specs.Coded.{codes};
    ghost use Rattle.cb_knowledge_base.specs.Deffacts.{DeffactsTable as Table};
    ghost use Rattle.cb_knowledge_base.specs.Internal.Groups.{AreNumbered};
    ghost use Rattle.cb_knowledge_base.specs.Internal.{table_code};

    ghost Value = { Table };

    ghost coded = { table_code (Prim.hlevel codes) (Prim.hlevel codes) (Prim.hlevel codes) };

    ghost view = { λ g. values_of g.groups.entries };

    ghost invariant = { λ g. AreNumbered g.groups.entries (get (slice_cmp nat_cmp) g.numbers) };
}

impl Groups {
    /// No groups. It takes no memory yet.
    pub(crate) fn new(alloc: Global) -> Groups
        ensures { result ≡ [] }
    {
        Groups {
            groups: BTreeMap::new(alloc),
            numbers: BTreeMap::new(alloc),
        }
    }

    /// The groups, in order.
    pub(crate) fn iter(&self) -> Values<'_, u64, Deffacts>
        ensures { result ≡ self.now }
    {
        self.groups.values()
    }

    /// Takes the group with a name out, if there is one, and returns it.
    pub(crate) fn take(&mut self, name: &Name) -> Option<Deffacts>
        ensures taken { self.new ≡ remove_entry (bytes_eq name.now) self.old }
        ensures absent { lookup (bytes_eq name.now) self.new ≡ None }
        // What is returned is the group that went.
        ensures sums { (f : Group → ℕ)
            → sum_by f self.new + unwrap_or (option_map f result) 0 ≡ sum_by f self.old }
    {
        let number = self.numbers.remove(name)?;
        self.groups.remove(&number)
    }

    /// Keeps a group after the others. Growth is refused as `NoMemory`, and so is a group after the number 2^64 - 1; then
    /// nothing has changed.
    pub(crate) fn push(&mut self, name: Name, facts: Vec<FactExpr>) -> Result<(), NoMemory>
        requires { lookup (bytes_eq name) self.old ≡ None }
        ensures ok { OnOk result (self.new ≡ self.old ++ (name, facts.items) ∷ []) }
        ensures err { OnErr result (self.new ≡ self.old) }
    {
        let number = next_number(&self.groups)?;
        let shared = name.clone()?;
        self.numbers.insert(shared, number)?;
        match self.groups.insert(number, Deffacts { name, facts }) {
            Ok(_) => Ok(()),
            Err(refused) => {
                let (_, group) = refused.value;
                self.numbers.remove(&group.name);
                Err(NoMemory)
            }
        }
    }
}

/// A number after those of all groups.
fn next_number(groups: &BTreeMap<u64, Deffacts>) -> Result<u64, NoMemory>
    ensures { IfOk result (λ number. IsAfterAll groups.now.entries number) }
{
    match groups.last_key_value() {
        Some((last, _)) => last.checked_add(1).ok_or(NoMemory),
        None => Ok(0),
    }
}
