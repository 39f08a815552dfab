//! What is known of a fact before its values are.
ghost use Rattle.std.specs.Prelude.{◌≡◌, IfOk, None, Some, option_copied};

use cb_facts::Name;
use cb_forms::NoMemory;
use std::alloc::Global;
use std::marker::Model;

/// A fact's relation, and the names of the slots that it gives, in the order in which they are written; an ordered fact
/// gives none.
///
/// Contracts see the relation and the list of the names.
#[derive(Drop)]
pub struct FactShape {
    relation: Name,
    /// In a block of their own, so that an ordered fact has no place for them.
    slots: Option<Box<Vec<Name>>>,
}

impl Model for FactShape {
    ghost use Rattle.std.specs.Prelude.{option_map};
    ghost use Rattle.cb_exprs.specs.Shapes.{Shape};

    ghost Value = { Shape };

    ghost view = { λ s. record { relation = s.relation; slots = option_map (λ names. names.value.items) s.slots } };
}

impl FactShape {
    /// Of an ordered fact.
    pub fn ordered(relation: Name) -> FactShape
        ensures { result ≡ record { relation = relation; slots = None } }
    {
        FactShape {
            relation,
            slots: None,
        }
    }

    /// Of a fact that gives slots of these names. Nothing checks that they differ, or that a template has them. It takes one block,
    /// which is refused as `NoMemory`.
    pub fn with_slots(
        alloc: Global,
        relation: Name,
        slots: Vec<Name>,
    ) -> Result<FactShape, NoMemory>
        ensures { IfOk result
            (λ shape. shape ≡ record { relation = relation; slots = Some slots.items }) }
    {
        let slots = Box::new(alloc, slots)?;
        Ok(FactShape {
            relation,
            slots: Some(slots),
        })
    }

    /// The fact's relation.
    pub fn relation(&self) -> &Name
        ensures { result.now ≡ self.now.relation }
    {
        &self.relation
    }

    /// The names of the slots that it gives, or `None` of an ordered fact.
    pub fn slots(&self) -> Option<&[Name]>
        ensures { option_copied result ≡ self.now.slots }
    {
        match &self.slots {
            Some(slots) => Some(slots.as_slice()),
            None => None,
        }
    }
}
