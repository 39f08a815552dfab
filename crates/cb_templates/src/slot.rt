//! The slots of a template.
ghost use Rattle.std.specs.Prelude.{◌≡◌, ◌↔◌, IsTrue, None, Some, MatchOption, IfOk};
ghost use Rattle.std.specs.List.{list_any, list_all};
ghost use Rattle.cb_templates.specs.contracts.slot_type.SlotTypePartialEq.TheImpl as type_eq;
ghost use Rattle.cb_templates.specs.Slots.{allows, allows_all, are_only, is_of, slot_named};

use crate::slot_type::SlotType;
use cb_facts::{Name, Single, Value};
use cb_forms::NoMemory;
use std::marker::Model;

/// The types that a slot names, if it names any.
///
/// Contracts see the list of the types, or `None` where any value may stand.
#[derive(Drop)]
pub(crate) struct Types {
    named: Option<Vec<SlotType>>,
}

impl Model for Types {
    ghost use Rattle.std.specs.Prelude.{option_map};
    ghost use Rattle.cb_templates.specs.Slots.{Types};

    ghost Value = { Types };

    ghost view = { λ t. option_map (λ named. named.items) t.named };
}

impl Types {
    /// Any value.
    pub(crate) fn any() -> Types
        ensures { result ≡ None }
    {
        Types { named: None }
    }

    /// The values of these types.
    pub(crate) fn of(named: Vec<SlotType>) -> Types
        ensures { result ≡ Some named.items }
    {
        Types { named: Some(named) }
    }

    /// Whether they are this type alone, which may be named more than once.
    pub(crate) fn are_only(&self, wanted: SlotType) -> bool
        ensures { result ≡ are_only wanted self.now }
    {
        match &self.named {
            None => false,
            Some(named) => are_all(wanted, named.as_slice()),
        }
    }

    /// Whether a field is of one of them.
    pub(crate) fn allow(&self, field: &Single) -> bool
        ensures { result ≡ allows self.now field.now }
    {
        match &self.named {
            None => true,
            Some(named) => any_has(named.as_slice(), field),
        }
    }

    /// Whether each field of a value is of one of them. It takes no memory, and is refused only where the count of sharers
    /// is full.
    pub(crate) fn allow_all(&self, value: &Value) -> Result<bool, NoMemory>
        ensures { IfOk result (λ yes. yes ≡ allows_all self.now value.now) }
    {
        Ok(match value {
            Value::Symbol(bytes) => self.allow(&Single::Symbol(bytes.clone()?)),
            Value::Str(bytes) => self.allow(&Single::Str(bytes.clone()?)),
            Value::Int(number) => self.allow(&Single::Int(*number)),
            Value::Fact(ix) => self.allow(&Single::Fact(*ix)),
            Value::Multi(many) => self.allow_each(many.as_slice()),
        })
    }

    fn allow_each(&self, fields: &[Single]) -> bool
        ensures { result ≡ list_all (allows self.now) fields.now }
    {
        fields.iter().all(|field| self.allow(field))
    }
}

fn are_all(wanted: SlotType, types: &[SlotType]) -> bool
    ensures { result ≡ list_all (λ t. type_eq.ghosts.eq t wanted) types.now }
{
    types.iter().all(|t| *t == wanted)
}

fn any_has(types: &[SlotType], field: &Single) -> bool
    ensures { result ≡ list_any (λ t. is_of t field.now) types.now }
{
    types.iter().any(|t| t.has(field))
}

/// A slot of a template (`docs/LANGUAGE.md`, "Templates").
///
/// Contracts see its name, whether it is a multislot, the types that its fields may have, and its default.
#[derive(Drop)]
pub struct Slot {
    name: Name,
    is_multi: bool,
    types: Types,
    default: Option<Value>,
}

impl Model for Slot {
    ghost use Rattle.cb_templates.specs.Slots.{SlotShape};

    ghost Value = { SlotShape };

    ghost view = { λ s. record { name = s.name; is_multi = s.is_multi; types = s.types; default = s.default } };
}

impl Slot {
    /// A slot.
    pub(crate) fn new(name: Name, is_multi: bool, types: Types, default: Option<Value>) -> Slot
        ensures { result
            ≡ record { name = name; is_multi = is_multi; types = types; default = default } }
    {
        Slot {
            name,
            is_multi,
            types,
            default,
        }
    }

    /// Its name.
    pub fn name(&self) -> &Name
        ensures { result.now ≡ self.now.name }
    {
        &self.name
    }

    /// Whether it holds a multifield, as a multislot does, and not one value.
    pub fn multi(&self) -> bool
        ensures { result ≡ self.now.is_multi }
    {
        self.is_multi
    }

    /// Whether each fact must give it, as it has no default.
    pub fn required(&self) -> bool
        ensures { IsTrue result ↔ (self.now.default ≡ None) }
    {
        self.default.is_none()
    }

    /// Its value in a fact that doesn't give it, or `None` where each fact must.
    pub fn default(&self) -> Option<&Value>
        ensures { MatchOption result (self.now.default ≡ None)
            (λ v. self.now.default ≡ Some v.now) }
    {
        self.default.as_ref()
    }

    /// Whether a field may stand in it by its types.
    pub fn allows(&self, field: &Single) -> bool
        ensures { result ≡ allows self.now.types field.now }
    {
        self.types.allow(field)
    }

    /// Whether each field of a value may stand in it by its types. It takes no memory, and is refused as `NoMemory` only
    /// where the count of sharers is full.
    pub fn allows_all(&self, value: &Value) -> Result<bool, NoMemory>
        ensures { IfOk result (λ yes. yes ≡ allows_all self.now.types value.now) }
    {
        self.types.allow_all(value)
    }
}

/// The slot with a name, if there is one.
pub fn find_slot<'a>(slots: &'a [Slot], name: &[u8]) -> Option<&'a Slot>
    ensures { MatchOption result (slot_named slots.now name.now ≡ None)
        (λ s. slot_named slots.now name.now ≡ Some s.now) }
{
    for slot in slots {
        if slot.name.as_slice() == name {
            return Some(slot);
        }
    }
    None
}
