//! The condition elements of a rule, read.
ghost use Rattle.std.specs.Prelude.{◌≡◌, ◌++◌, ◌∷◌, [], IfOk, map, option_map};
ghost use Rattle.std.specs.List.{flat_map};
ghost use Rattle.cb_facts.specs.FaultLists.{ReadsAs};
ghost use Rattle.cb_forms.specs.Members.{members};
ghost use Rattle.cb_rule_forms.specs.PatternFaults.{pattern_faults};
ghost use Rattle.cb_rule_forms.specs.Patterns.{pattern_of};
ghost use Rattle.cb_rule_forms.specs.Elements.{each_written, element_faults, elements_faults, written_elements};
ghost use Rattle.cb_rule_forms.specs.Internal.{form_value, way_seen, writtens, written_seen};
ghost use Rattle.cb_rules.specs.Elements.{pattern};

use crate::pattern::read_pattern;
use crate::written::Written;
use cb_constraints::PatternParts;
use cb_expr_forms::{Scope, read_expr};
use cb_exprs::Expr;
use cb_facts::{Name, Names, Refused};
use cb_forms::{Form, NoMemory};

/// An element as it was read.
#[derive(Drop)]
pub(crate) enum ElementForm {
    /// A pattern.
    Pattern(PatternForm),
    /// `(test expression)`
    Test(Expr),
    /// A group: `exists` where it is positive, else `not`.
    Group(bool, Vec<ElementForm>),
}

/// A pattern as it was read, with the variable that takes the fact's address.
#[derive(Drop)]
pub(crate) struct PatternForm {
    /// The variable.
    pub(crate) address: Option<Name>,
    /// The relation of the facts that the pattern is for.
    pub(crate) relation: Name,
    /// What it asks of them.
    pub(crate) parts: PatternParts,
}

/// Adds the elements that stand in these, one after another, or gives the first fault.
#[cycle(reading)]
pub(crate) fn read_each(
    names: &mut Names,
    scope: &Scope<'_>,
    each: &[Written<'_>],
    elements: &mut Vec<ElementForm>,
) -> Result<(), Refused>
    ensures { ReadsAs (λ _. map form_value elements.new.items) result
        (elements_faults scope.now (writtens (map written_seen each.now)))
        (map form_value elements.old.items
        ++ each_written scope.now.templates (writtens (map written_seen each.now))) }
{
    for written in each {
        read_written(names, scope, written, elements)?;
    }
    Ok(())
}

/// Adds the elements that stand in this one, or gives its first fault.
///
/// It calls itself as deep as the elements are nested.
#[cycle(reading)]
pub(crate) fn read_written(
    names: &mut Names,
    scope: &Scope<'_>,
    written: &Written<'_>,
    elements: &mut Vec<ElementForm>,
) -> Result<(), Refused>
    ensures { ReadsAs (λ _. map form_value elements.new.items) result
        (element_faults scope.now (written_seen written.now))
        (map form_value elements.old.items
        ++ written_elements scope.now.templates (written_seen written.now)) }
{
    match written {
        Written::Wrong(fault) => Err(Refused::Fault(*fault)),
        Written::Pattern(address, relation, forms) => {
            let pattern = read_called(names, scope, *address, relation, forms)?;
            Ok(elements.push(pattern)?)
        }
        Written::Test(form) => {
            let expr = read_expr(names, scope, form)?;
            Ok(elements.push(ElementForm::Test(expr))?)
        }
        Written::All(members) | Written::One(members) => {
            read_each(names, scope, members.as_slice(), elements)
        }
        Written::Group(positive, members) => {
            let mut inner = Vec::new(names.alloc());
            read_each(names, scope, members.as_slice(), &mut inner)?;
            Ok(elements.push(ElementForm::Group(*positive, inner))?)
        }
    }
}

/// The pattern of this relation with what follows it, or its first fault.
fn read_called(
    names: &mut Names,
    scope: &Scope<'_>,
    address: Option<&[u8]>,
    relation: &[u8],
    forms: &[Form],
) -> Result<ElementForm, Refused>
    ensures { ReadsAs form_value result (pattern_faults scope.now relation.now (members forms.now))
        (pattern (option_map (λ x. x.now) address.entry)
        (pattern_of scope.now.templates relation.now (members forms.now))) }
{
    let (relation, parts) = read_pattern(names, scope, relation, forms)?;
    Ok(ElementForm::Pattern(PatternForm {
        address: name_address(names, address)?,
        relation,
        parts,
    }))
}

/// The variable that takes an address, as a name.
fn name_address(names: &mut Names, address: Option<&[u8]>) -> Result<Option<Name>, NoMemory>
    ensures { IfOk result (λ name. name ≡ option_map (λ x. x.now) address.entry) }
{
    match address {
        Some(bytes) => Ok(Some(names.name(bytes)?)),
        None => Ok(None),
    }
}

/// The elements of one way through a left side, or the first fault of those that stand in it.
pub(crate) fn read_way(
    names: &mut Names,
    scope: &Scope<'_>,
    way: Vec<&Written<'_>>,
) -> Result<Vec<ElementForm>, Refused>
    ensures { ReadsAs (λ es. map form_value es.items) result
        (flat_map (element_faults scope.now) (way_seen way.entry))
        (flat_map (written_elements scope.now.templates) (way_seen way.entry)) }
{
    let mut elements = Vec::new(names.alloc());
    for written in way {
        read_written(names, scope, written, &mut elements)?;
    }
    Ok(elements)
}
