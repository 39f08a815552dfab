//! The initial expressions that `defglobal` keeps for `reset`.
ghost use Rattle.std.specs.Prelude.{◌≡◌, [], None, OnOk};
ghost use Rattle.cb_knowledge_base.specs.Globals.{with_initial, with_initials};
ghost use Rattle.cb_knowledge_base.specs.Internal.GlobalPlaces.{place_of_global};

use cb_exprs::GlobalExpr;
use cb_facts::Name;
use cb_forms::NoMemory;
use std::alloc::Global;
use std::collections::BTreeMap;
use std::marker::Model;

/// Globals, each with its initial expression, in the order of their definition.
///
/// A global is found in logarithmic time, whatever the names are.
///
/// Contracts see the list of the pairs of a name and its expression.
#[derive(Drop)]
pub struct GlobalTable {
    alloc: Global,
    globals: Vec<GlobalExpr>,
    places: BTreeMap<Name, usize>,
}

impl Model for GlobalTable {
    ghost use Rattle.std.specs.Coded.{codes, coded_list};
    ghost use Rattle.std.specs.Prelude.{List};
    ghost use Rattle.cb_exprs.specs.GlobalTerms.{GlobalTerm};
    ghost use Rattle.cb_exprs.specs.Internal.{global_code};
    ghost use Rattle.cb_knowledge_base.specs.Internal.GlobalPlaces.{AreFound};

    ghost Value = { List GlobalTerm };

    ghost coded = { coded_list (global_code (Prim.hlevel codes) (Prim.hlevel codes)) };

    ghost view = { λ t. t.globals.items };

    ghost invariant = { λ t. AreFound t.places t.globals.items };
}

impl GlobalTable {
    /// No globals. It takes no memory yet.
    pub fn new(alloc: Global) -> GlobalTable
        ensures { result ≡ [] }
    {
        GlobalTable {
            alloc,
            globals: Vec::new(alloc),
            places: BTreeMap::new(alloc),
        }
    }

    /// The globals, in order.
    pub fn as_slice(&self) -> &[GlobalExpr]
        ensures { result.now ≡ self.now }
    {
        self.globals.as_slice()
    }

    /// Gives globals these initial expressions, one after another: one that is there at its old place, a new one after
    /// all others. Growth is refused as `NoMemory`; then it may have any globals.
    pub fn define_all(&mut self, globals: Vec<GlobalExpr>) -> Result<(), NoMemory>
        ensures { OnOk result (self.new ≡ with_initials globals.items self.old) }
    {
        for global in globals {
            self.define(global)?;
        }
        Ok(())
    }

    fn define(&mut self, global: GlobalExpr) -> Result<(), NoMemory>
        ensures { OnOk result (self.new ≡ with_initial global self.old) }
    {
        match self.places.get(global.name()) {
            Some(place) => {
                let place = *place;
                self.globals[place] = global;
                Ok(())
            }
            None => self.push(global),
        }
    }

    /// Keeps a global after the others.
    fn push(&mut self, global: GlobalExpr) -> Result<(), NoMemory>
        requires { place_of_global global.0 self.old ≡ None }
        ensures { OnOk result (self.new ≡ with_initial global self.old) }
    {
        let name = global.name().clone()?;
        let place = self.globals.len();
        self.globals.push(global)?;
        if let Err(_) = self.places.insert(name, place) {
            *self = GlobalTable::new(self.alloc);
            return Err(NoMemory);
        }
        Ok(())
    }
}
