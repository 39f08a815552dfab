//! Lists of names.
ghost use Rattle.std.specs.Prelude.{◌≡◌, ◌++◌, ◌∷◌, ◌-◌, [], OnErr, OnOk, length, take};
ghost use Rattle.cb_expr_forms.specs.Scopes.{is_known};
ghost use Rattle.cb_facts.specs.Internal.NamePlaces.{NotesPlace};

use cb_facts::Name;
use cb_forms::NoMemory;
use std::alloc::Global;
use std::collections::BTreeMap;
use std::marker::Model;

/// Names in the order in which they were added, each found in logarithmic time, whatever the names are.
///
/// Contracts see the list of the names.
#[derive(Drop)]
pub struct NameList {
    names: Vec<Name>,
    firsts: BTreeMap<Name, usize>,
}

impl Model for NameList {
    ghost use Rattle.std.specs.Prelude.{List, ℕ};
    ghost use Rattle.cb_facts.specs.Internal.NamePlaces.{HasPlaces};

    ghost Value = { List (List ℕ) };

    ghost view = { λ g. g.names.items };

    ghost invariant = { λ g. HasPlaces g.firsts g.names.items };
}

impl NameList {
    /// No names. It takes no memory yet.
    pub fn new(alloc: Global) -> NameList
        ensures { result ≡ [] }
    {
        NameList {
            names: Vec::new(alloc),
            firsts: BTreeMap::new(alloc),
        }
    }

    /// How many names there are, each as often as it was added.
    pub fn len(&self) -> usize
        ensures { result ≡ length self.now }
    {
        self.names.len()
    }

    /// Whether a name is among them.
    #[tactic(auto, using(crate::proofs::Known::known_place))]
    pub fn has(&self, name: &Name) -> bool
        ensures { result ≡ is_known self.now name.now }
    {
        self.firsts.contains_key(name)
    }

    /// Adds a name after the others. Growth is refused as `NoMemory`; then it may be any names.
    pub fn push(&mut self, name: &Name) -> Result<(), NoMemory>
        ensures { OnOk result (self.new ≡ self.old ++ name.now ∷ []) }
    {
        let shared = name.clone()?;
        self.names.reserve(1)?;
        note(&mut self.firsts, name, self.names.len())?;
        self.names.push(shared)?;
        Ok(())
    }

    /// Keeps the first `len` names and takes the others away, in logarithmic time for each. It takes no memory.
    pub fn truncate(&mut self, len: usize)
        ensures { self.new ≡ take len self.old }
    {
        while self.len() > len {
            self.pop();
        }
    }

    /// Takes the last name away, if there is one.
    fn pop(&mut self)
        ensures { self.new ≡ take (length self.old - 1) self.old }
    {
        let Some(name) = self.names.pop() else {
            return;
        };
        if self.firsts.get(&name).copied() == Some(self.names.len()) {
            self.firsts.remove(&name);
        }
    }

    /// The names.
    pub fn into_vec(self) -> Vec<Name>
        ensures { result.items ≡ self }
    {
        self.names
    }
}

/// Notes the place of a name, if it has none yet.
fn note(firsts: &mut BTreeMap<Name, usize>, name: &Name, place: usize) -> Result<(), NoMemory>
    ensures ok { OnOk result (NotesPlace firsts.old firsts.new name.now place) }
    ensures err { OnErr result (firsts.new.entries ≡ firsts.old.entries) }
{
    if firsts.contains_key(name) {
        return Ok(());
    }
    let shared = name.clone()?;
    firsts.insert(shared, place)?;
    Ok(())
}
