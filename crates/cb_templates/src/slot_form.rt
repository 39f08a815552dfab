//! The slots of a template as they are written.
ghost use Rattle.std.specs.Prelude.{◌≡◌, [], Ok, Err, IfOk, IfErr};
ghost use Rattle.cb_forms.specs.Members.{call_of, head_and_rest, members};
ghost use Rattle.cb_forms.specs.Trees.{tree_of};
ghost use Rattle.cb_facts.specs.Results.{Returns};
ghost use Rattle.cb_templates.specs.Internal.{finished, slot_defined, slot_by, slot_with};
ghost use Rattle.cb_templates.specs.SlotForms.{derived, derived_one};

use crate::attribute::{Attributes, SlotDefault, read_attributes};
use crate::slot::{Slot, Types};
use crate::slot_type::SlotType;
use crate::template::Template;
use cb_facts::{Multifield, Name, Names, Refused, Value};
use cb_forms::{Fault, Form, NoMemory, split_head};

/// The slot that a form is, after the slots of the template so far, or its first fault.
pub(crate) fn read_slot(
    names: &mut Names,
    template: &Template,
    form: &Form,
) -> Result<Slot, Refused>
    ensures { Returns result (slot_by template.now (call_of (tree_of form.now))) }
{
    let Some((head, forms)) = form.call() else {
        return Err(Refused::Fault(Fault::MalformedForm));
    };
    if head == b"slot".as_slice() {
        return read_named(names, template, false, forms);
    }
    if head == b"multislot".as_slice() {
        return read_named(names, template, true, forms);
    }
    Err(Refused::Fault(Fault::MalformedForm))
}

/// The slot that the forms after `slot` or `multislot` make.
fn read_named(
    names: &mut Names,
    template: &Template,
    is_multi: bool,
    forms: &[Form],
) -> Result<Slot, Refused>
    ensures { Returns result
        (slot_defined template.now is_multi (head_and_rest (members forms.now))) }
{
    let Some((name, forms)) = split_head(forms) else {
        return Err(Refused::Fault(Fault::MalformedForm));
    };
    let name = names.name(name)?;
    if template.find(&name).is_some() {
        return Err(Refused::Fault(Fault::MalformedForm));
    }
    let attributes = read_attributes(names, is_multi, forms)?;
    finish(names, name, is_multi, attributes)
}

/// The slot with these attributes.
fn finish(
    names: &mut Names,
    name: Name,
    is_multi: bool,
    attributes: Attributes,
) -> Result<Slot, Refused>
    ensures { Returns result (finished name is_multi attributes) }
{
    let Attributes { types, default } = attributes;
    match types {
        Some(types) => slot_with(names, name, is_multi, types, default),
        None => slot_with(names, name, is_multi, Types::any(), default),
    }
}

/// The slot of these types with what its `default` attribute says, if it has one.
fn slot_with(
    names: &mut Names,
    name: Name,
    is_multi: bool,
    types: Types,
    default: Option<SlotDefault>,
) -> Result<Slot, Refused>
    ensures { Returns result (slot_with name is_multi types default) }
{
    match default {
        None | Some(SlotDefault::Derived) => {
            let value = derived(names, is_multi, &types)?;
            Ok(Slot::new(name, is_multi, types, Some(value)))
        }
        Some(SlotDefault::Required) => Ok(Slot::new(name, is_multi, types, None)),
        Some(SlotDefault::Fixed(value)) => {
            if !types.allow_all(&value)? {
                return Err(Refused::Fault(Fault::ValueNotAllowed));
            }
            Ok(Slot::new(name, is_multi, types, Some(value)))
        }
    }
}

/// The value of a slot of these types where nothing says which.
fn derived(names: &mut Names, is_multi: bool, types: &Types) -> Result<Value, NoMemory>
    ensures { IfOk result (λ value. value ≡ derived is_multi types.now) }
{
    if is_multi {
        return Ok(Value::Multi(Multifield::from_vec(Vec::new(names.alloc()))?));
    }
    derived_one(names, types)
}

fn derived_one(names: &mut Names, types: &Types) -> Result<Value, NoMemory>
    ensures { IfOk result (λ value. value ≡ derived_one types.now) }
{
    if types.are_only(SlotType::Str) {
        return Ok(Value::Str(names.name(b"")?));
    }
    if types.are_only(SlotType::Integer) || types.are_only(SlotType::Number) {
        return Ok(Value::Int(0));
    }
    Ok(Value::Symbol(names.name(b"nil")?))
}
