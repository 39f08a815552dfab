//! The attributes of a slot as they are written.
ghost use Rattle.std.specs.Prelude.{◌≡◌, [], None, Ok, Err, IfOk, IfErr, OnOk};
ghost use Rattle.std.specs.List.{list_any};
ghost use Rattle.cb_forms.specs.Members.{call_of, head_and_rest, members, symbol_of};
ghost use Rattle.cb_forms.specs.Trees.{tree_of};
ghost use Rattle.cb_facts.specs.Results.{Returns, Settles};
ghost use Rattle.cb_templates.specs.Internal.{attribute_by, attributes_after, default_constant, default_constants, default_of, multi_default, default_added, no_attributes, one_default, some_types, types_added, type_by, types_after, types_of};
ghost use Rattle.cb_templates.specs.SlotForms.{is_variable, is_variable_form, is_variable_token, no_call, no_constant};
ghost use Rattle.cb_templates.specs.Slots.{with_type};
ghost use Rattle.cb_templates.specs.contracts.slot_type.SlotTypePartialEq.TheImpl as type_eq;

use crate::slot::Types;
use crate::slot_type::SlotType;
use cb_facts::{Multifield, Names, Refused, Value, splice};
use cb_forms::{Fault, Form, NoMemory, Token, split_head};
use std::alloc::Global;

/// What a `default` attribute says (`docs/LANGUAGE.md`, "Templates").
#[derive(Drop)]
pub enum SlotDefault {
    /// `?NONE`: each fact must give the slot.
    Required,
    /// `?DERIVE`: the value follows from the types.
    Derived,
    /// This value.
    Fixed(Value),
}

/// The attributes of a slot that are given.
#[derive(Drop)]
pub(crate) struct Attributes {
    /// What `type` says.
    pub(crate) types: Option<Types>,
    /// What `default` says.
    pub(crate) default: Option<SlotDefault>,
}

/// The attributes that forms are, or the first fault.
pub(crate) fn read_attributes(
    names: &mut Names,
    is_multi: bool,
    forms: &[Form],
) -> Result<Attributes, Refused>
    ensures { Returns result (attributes_after is_multi no_attributes (members forms.now)) }
{
    let mut attributes = Attributes {
        types: None,
        default: None,
    };
    for form in forms {
        add_attribute(names, is_multi, &mut attributes, form)?;
    }
    Ok(attributes)
}

/// Adds the attribute that a form is, if it isn't given yet, or finds its first fault.
fn add_attribute(
    names: &mut Names,
    is_multi: bool,
    attributes: &mut Attributes,
    form: &Form,
) -> Result<(), Refused>
    ensures { Settles (λ _. attributes.new) result
        (attribute_by is_multi attributes.old (call_of (tree_of form.now))) }
{
    let Some((name, forms)) = form.call() else {
        return Err(Refused::Fault(Fault::MalformedForm));
    };
    if name == b"type".as_slice() {
        return add_types(names.alloc(), attributes, forms);
    }
    if name == b"default".as_slice() {
        return add_default(names, is_multi, attributes, forms);
    }
    Err(Refused::Fault(Fault::NotInProfile))
}

/// Adds the attribute `type`, by the forms after it.
fn add_types(alloc: Global, attributes: &mut Attributes, forms: &[Form]) -> Result<(), Refused>
    ensures { Settles (λ _. attributes.new) result
        (types_added attributes.old (members forms.now)) }
{
    if attributes.types.is_some() {
        return Err(Refused::Fault(Fault::MalformedForm));
    }
    attributes.types = Some(read_types(alloc, forms)?);
    Ok(())
}

/// Adds the attribute `default`, likewise.
fn add_default(
    names: &mut Names,
    is_multi: bool,
    attributes: &mut Attributes,
    forms: &[Form],
) -> Result<(), Refused>
    ensures { Settles (λ _. attributes.new) result
        (default_added is_multi attributes.old (members forms.now)) }
{
    if attributes.default.is_some() {
        return Err(Refused::Fault(Fault::MalformedForm));
    }
    attributes.default = Some(read_default(names, is_multi, forms)?);
    Ok(())
}

/// What `type` says, by the forms after it.
fn read_types(alloc: Global, forms: &[Form]) -> Result<Types, Refused>
    ensures { Returns result (types_of (members forms.now)) }
{
    if is_variable(b"VARIABLE", forms) {
        return Ok(Types::any());
    }
    let Some(_) = forms.split_first() else {
        return Err(Refused::Fault(Fault::MalformedForm));
    };
    Ok(Types::of(read_type_names(alloc, forms)?))
}

/// The types that forms name, each once: so a field is compared with no more types than there are.
fn read_type_names(alloc: Global, forms: &[Form]) -> Result<Vec<SlotType>, Refused>
    ensures { Settles (λ types. types.items) result (types_after [] (members forms.now)) }
{
    let mut types = Vec::new(alloc);
    for form in forms {
        add_type(&mut types, read_type(form)?)?;
    }
    Ok(types)
}

/// Adds a type, if it isn't among these.
fn add_type(types: &mut Vec<SlotType>, more: SlotType) -> Result<(), NoMemory>
    ensures { OnOk result (types.new.items ≡ with_type types.old.items more) }
{
    if is_one_of(types.as_slice(), more) {
        return Ok(());
    }
    types.push(more)?;
    Ok(())
}

fn is_one_of(types: &[SlotType], wanted: SlotType) -> bool
    ensures { result ≡ list_any (λ t. type_eq.ghosts.eq t wanted) types.now }
{
    types.iter().any(|t| *t == wanted)
}

fn read_type(form: &Form) -> Result<SlotType, Refused>
    ensures { Returns result (type_by (symbol_of (tree_of form.now))) }
{
    let Some(name) = form.symbol() else {
        return Err(Refused::Fault(Fault::MalformedForm));
    };
    match SlotType::named(name) {
        Some(type_named) => Ok(type_named),
        None => Err(Refused::Fault(Fault::NotInProfile)),
    }
}

/// What `default` says, by the forms after it.
fn read_default(names: &mut Names, is_multi: bool, forms: &[Form]) -> Result<SlotDefault, Refused>
    ensures { Returns result (default_of is_multi (members forms.now)) }
{
    if is_variable(b"NONE", forms) {
        return Ok(SlotDefault::Required);
    }
    if is_variable(b"DERIVE", forms) {
        return Ok(SlotDefault::Derived);
    }
    if is_multi {
        read_multi_default(names, forms)
    } else {
        read_one_default(names, forms)
    }
}

fn read_one_default(names: &mut Names, forms: &[Form]) -> Result<SlotDefault, Refused>
    ensures { Returns result (one_default (members forms.now)) }
{
    let Some((form, rest)) = forms.split_first() else {
        return Err(Refused::Fault(Fault::MalformedForm));
    };
    match rest.split_first() {
        None => Ok(SlotDefault::Fixed(read_constant(names, form)?)),
        Some(_) => Err(Refused::Fault(Fault::MalformedForm)),
    }
}

fn read_multi_default(names: &mut Names, forms: &[Form]) -> Result<SlotDefault, Refused>
    ensures { Returns result (multi_default (members forms.now)) }
{
    let values = read_constants(names, forms)?;
    let fields = splice(names.alloc(), values.as_slice())?;
    Ok(SlotDefault::Fixed(Value::Multi(Multifield::from_vec(fields)?)))
}

fn read_constants(names: &mut Names, forms: &[Form]) -> Result<Vec<Value>, Refused>
    ensures { Settles (λ values. values.items) result (default_constants (members forms.now)) }
{
    let mut values = Vec::new(names.alloc());
    for form in forms {
        values.push(read_constant(names, form)?)?;
    }
    Ok(values)
}

fn read_constant(names: &mut Names, form: &Form) -> Result<Value, Refused>
    ensures { Returns result (default_constant (tree_of form.now)) }
{
    match form {
        Form::Atom(token) => match Value::constant(names, token)? {
            Some(value) => Ok(value),
            None => Err(Refused::Fault(no_constant(token))),
        },
        Form::List(forms) => Err(Refused::Fault(no_call(forms))),
    }
}

/// What is wrong with a token that is no constant.
fn no_constant(token: &Token) -> Fault
    ensures { result ≡ no_constant token.now }
{
    match token {
        Token::Global(_) => Fault::NotInProfile,
        _ => Fault::MalformedForm,
    }
}

/// What is wrong with a list where a constant is wanted.
fn no_call(forms: &[Form]) -> Fault
    ensures { result ≡ no_call (head_and_rest (members forms.now)) }
{
    match split_head(forms) {
        Some(_) => Fault::NotInProfile,
        None => Fault::MalformedForm,
    }
}

/// Whether forms are the variable of a name alone.
fn is_variable(name: &[u8], forms: &[Form]) -> bool
    ensures { result ≡ is_variable name.now (members forms.now) }
{
    let Some((form, rest)) = forms.split_first() else {
        return false;
    };
    match rest.split_first() {
        None => is_variable_form(name, form),
        Some(_) => false,
    }
}

fn is_variable_form(name: &[u8], form: &Form) -> bool
    ensures { result ≡ is_variable_form name.now (tree_of form.now) }
{
    match form {
        Form::Atom(token) => is_variable_token(name, token),
        Form::List(_) => false,
    }
}

fn is_variable_token(name: &[u8], token: &Token) -> bool
    ensures { result ≡ is_variable_token name.now token.now }
{
    match token {
        Token::Var(variable) => variable.as_slice() == name,
        _ => false,
    }
}
