//! The places of names in a list.
ghost use Rattle.std.specs.Prelude.{◌≡◌, ◌++◌, ◌∷◌, [], IfOk, OnOk, OnErr, is_some, length, not};
ghost use Rattle.cb_facts.specs.Places.{place_in};
ghost use Rattle.cb_facts.specs.Internal.NamePlaces.{NotesPlace, place_at};

use crate::name::Name;
use cb_forms::NoMemory;
use cb_io::History;
use std::alloc::Global;
use std::collections::BTreeMap;
use std::marker::Model;

/// The first place of each name in a list of names, found in logarithmic time, whatever the names are.
///
/// Contracts see the list of the names.
#[derive(Drop)]
pub struct Places {
    firsts: BTreeMap<Name, usize>,
    names: History<Name>,
}

impl Model for Places {
    ghost use Rattle.std.specs.Prelude.{List, ℕ};
    ghost use Rattle.cb_facts.specs.Internal.NamePlaces.{HasPlaces};

    ghost Value = { List (List ℕ) };

    ghost view = { λ p. p.names.items };

    ghost invariant = { λ p. HasPlaces p.firsts p.names.items };
}

impl Places {
    /// Of no names. It takes no memory yet.
    pub fn new(alloc: Global) -> Places
        ensures { result ≡ [] }
    {
        Places {
            firsts: BTreeMap::new(alloc),
            names: History::new(),
        }
    }

    /// The first place of a name, or `None` where the name is not in the list.
    pub fn find(&self, name: &Name) -> Option<usize>
        ensures { result ≡ place_in self.now name.now }
    {
        self.firsts.get(name).copied()
    }

    /// Notes one name more, at the end of the list, and returns whether it is new there. Growth is refused as `NoMemory`,
    /// and then nothing has changed.
    pub fn push(&mut self, name: &Name, place: usize) -> Result<bool, NoMemory>
        requires { place ≡ length self.old }
        ensures new { IfOk result (λ is_new. is_new ≡ not (is_some (place_in self.old name.now))) }
        ensures ok { OnOk result (self.new ≡ self.old ++ name.now ∷ []) }
        ensures err { OnErr result (self.new ≡ self.old) }
    {
        let is_new = note(&mut self.firsts, name, place)?;
        self.names = self.names.and(name);
        Ok(is_new)
    }
}

/// Notes the place of a name, and returns true, if it has none yet.
fn note(firsts: &mut BTreeMap<Name, usize>, name: &Name, place: usize) -> Result<bool, NoMemory>
    ensures new { IfOk result (λ is_new. is_new ≡ not (is_some (place_at firsts.old name.now))) }
    ensures ok { OnOk result (NotesPlace firsts.old firsts.new name.now place) }
    ensures err { OnErr result (firsts.new.entries ≡ firsts.old.entries) }
{
    if firsts.contains_key(name) {
        return Ok(false);
    }
    let shared = name.clone()?;
    firsts.insert(shared, place)?;
    Ok(true)
}
