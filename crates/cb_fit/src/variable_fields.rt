//! Fields with variables, found by these.
ghost use Rattle.std.specs.Prelude.{◌≡◌, ◌++◌, ◌∷◌, [], ℕ, IfOk, List, OnOk};
ghost use Rattle.std.specs.BTreeMap.{get};
ghost use Rattle.std.specs.Cmp.Lexicographic.{slice_cmp};
ghost use Rattle.std.specs.Option.{option_or};
ghost use Rattle.std.specs.Ordering.{nat_cmp};
ghost use Rattle.cb_constraints.specs.Binders.{binders};
ghost use Rattle.cb_constraints.specs.Constraints.{demand_of};
ghost use Rattle.cb_fit.specs.Comparisons.{field_of};
ghost use Rattle.cb_fit.specs.JoinFields.{fields_for};

use crate::field_place::FieldPlace;
use crate::join_fields::{JoinField, add_demand};
use cb_constraints::Demand;
use cb_facts::Name;
use cb_forms::NoMemory;
use std::alloc::Global;
use std::collections::BTreeMap;
use std::marker::Model;

/// Fields with variables, in the order in which they were added. The first field with a variable is found in logarithmic time, so a pattern
/// of very many variables takes no time that grows with their square.
///
/// Contracts see the list of the fields.
#[derive(Drop)]
pub(crate) struct VariableFields {
    fields: Vec<JoinField>,
    /// The place of the first field with each variable.
    first: BTreeMap<Name, FieldPlace>,
}

impl Model for VariableFields {
    ghost use Rattle.std.specs.Prelude.{◌≡◌, List, ℕ};
    ghost use Rattle.std.specs.BTreeMap.{get};
    ghost use Rattle.std.specs.Cmp.Lexicographic.{slice_cmp};
    ghost use Rattle.std.specs.Ordering.{nat_cmp};
    ghost use Rattle.cb_fit.specs.Comparisons.{field_of};
    ghost use Rattle.cb_fit.specs.declared.join_fields.JoinField.{JoinField as Field};

    ghost Value = { List Field };

    ghost view = { λ k. k.fields.items };

    ghost invariant = { λ k. (x : List ℕ) → get (slice_cmp nat_cmp) k.first x ≡ field_of k.fields.items x };
}

impl VariableFields {
    /// None. It takes no memory yet.
    pub(crate) fn new(alloc: Global) -> VariableFields
        ensures { result ≡ [] }
    {
        VariableFields {
            fields: Vec::new(alloc),
            first: BTreeMap::new(alloc),
        }
    }

    /// The place of the first field with a variable.
    pub(crate) fn field_of(&self, name: &Name) -> Option<FieldPlace>
        ensures { result ≡ field_of self.now name.now }
    {
        self.first.get(name).copied()
    }

    /// These fields and one more. Growth is refused as `NoMemory`, and so is a count of sharers that is full.
    pub(crate) fn with(self, field: JoinField) -> Result<VariableFields, NoMemory>
        ensures { IfOk result (λ known. known ≡ self ++ field ∷ []) }
    {
        let VariableFields {
            mut fields,
            mut first,
        } = self;
        note(&mut first, &field)?;
        fields.push(field)?;
        Ok(VariableFields { fields, first })
    }

    /// These fields, and then the field at this place with each variable that is asked of it. Growth is refused as `NoMemory`, and so is a
    /// count of sharers that is full.
    pub(crate) fn with_demand(
        self,
        alloc: Global,
        place: FieldPlace,
        demand: &Demand,
    ) -> Result<VariableFields, NoMemory>
        ensures { IfOk result
            (λ known. known ≡ self ++ fields_for place (binders (demand_of demand.now))) }
    {
        let mut more = Vec::new(alloc);
        add_demand(place, demand, &mut more)?;
        let mut known = self;
        for field in more {
            known = known.with(field)?;
        }
        Ok(known)
    }

    /// The fields.
    pub(crate) fn into_fields(self) -> Vec<JoinField>
        ensures { result.items ≡ self }
    {
        self.fields
    }
}

/// Notes the place of a field under its variable, if none is noted there. Growth is refused as `NoMemory`, and so is a count of sharers
/// that is full.
fn note(first: &mut BTreeMap<Name, FieldPlace>, field: &JoinField) -> Result<(), NoMemory>
    ensures { OnOk result ((x : List ℕ) → get (slice_cmp nat_cmp) first.new x
        ≡ option_or (get (slice_cmp nat_cmp) first.old x) (field_of (field.now ∷ []) x)) }
{
    if first.contains_key(&field.variable) {
        return Ok(());
    }
    let variable = field.variable.clone()?;
    first.insert(variable, field.place())?;
    Ok(())
}
