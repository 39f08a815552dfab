//! The slots that a `modify` gives new values.
ghost use Rattle.std.specs.Prelude.{◌≡◌, IfOk};

use cb_facts::Name;
use cb_forms::NoMemory;
use std::alloc::Global;
use std::marker::Model;

/// A slot that a `modify` names, and how many expressions it gives for it.
///
/// Contracts see the pair of the name and the number.
#[derive(Drop)]
pub struct ModifiedSlot {
    name: Name,
    count: usize,
}

impl Model for ModifiedSlot {
    ghost use Rattle.std.specs.Prelude.{List, ℕ};

    ghost Value = { List ℕ × ℕ };

    ghost view = { λ s. (s.name, s.count) };
}

impl ModifiedSlot {
    /// A slot of this name, with so many expressions.
    pub fn new(name: Name, count: usize) -> ModifiedSlot
        ensures { result ≡ (name, count) }
    {
        ModifiedSlot { name, count }
    }

    /// The slot's name.
    pub fn name(&self) -> &Name
        ensures { result.now ≡ self.now.0 }
    {
        &self.name
    }

    /// How many expressions are given for it.
    pub fn count(&self) -> usize
        ensures { result ≡ self.now.1 }
    {
        self.count
    }
}

/// The slots that a `modify` names, in the order in which they are written. Nothing checks that they differ, or that a template
/// has them.
///
/// Contracts see the list of the slots.
#[derive(Drop)]
pub struct ModifiedSlots {
    /// In a block of their own, so that other effects have no place for them.
    slots: Box<Vec<ModifiedSlot>>,
}

impl Model for ModifiedSlots {
    ghost use Rattle.cb_exprs.specs.Shapes.{SlotCounts};

    ghost Value = { SlotCounts };

    ghost view = { λ s. s.slots.value.items };
}

impl ModifiedSlots {
    /// These slots. It takes one block, which is refused as `NoMemory`.
    pub fn new(alloc: Global, slots: Vec<ModifiedSlot>) -> Result<ModifiedSlots, NoMemory>
        ensures { IfOk result (λ all. all ≡ slots.items) }
    {
        let slots = Box::new(alloc, slots)?;
        Ok(ModifiedSlots { slots })
    }

    /// The slots.
    pub fn as_slice(&self) -> &[ModifiedSlot]
        ensures { result.now ≡ self.now }
    {
        self.slots.as_slice()
    }
}
