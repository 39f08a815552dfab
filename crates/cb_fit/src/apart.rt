//! Names that don't stand among others.
ghost use Rattle.std.specs.Prelude.{◌≡◌, map};
ghost use Rattle.std.specs.List.{list_all};
ghost use Rattle.cb_fit.specs.Comparisons.{is_other};
ghost use Rattle.cb_fit.specs.Decisions.{choice_field_of};
ghost use Rattle.cb_fit.specs.Internal.Reading.{compared_of};
ghost use Rattle.cb_fit.specs.Plain.{is_named};

use crate::checks::Compared;
use crate::choice_field::ChoiceField;
use cb_facts::Name;

/// Whether none of the variables of these comparisons is among these names.
pub(crate) fn are_others_compared(names: &[Name], comparisons: &[Compared<'_>]) -> bool
    ensures { result ≡ list_all (λ it. is_other names.now it.1) (map compared_of comparisons.now) }
{
    for compared in comparisons {
        if is_named(compared.variable, names) {
            return false;
        }
    }
    true
}

/// Whether none of the variables that are alternatives of these fields is.
pub(crate) fn are_others_chosen(names: &[Name], fields: &[ChoiceField]) -> bool
    ensures { result ≡ list_all (λ c. list_all (is_other names.now) c.variables)
        (map choice_field_of fields.now) }
{
    for field in fields {
        if !are_others(names, field.variables.as_slice()) {
            return false;
        }
    }
    true
}

/// Whether none of the variables is among these names.
fn are_others(names: &[Name], variables: &[Name]) -> bool
    ensures { result ≡ list_all (is_other names.now) variables.now }
{
    for variable in variables {
        if is_named(variable, names) {
            return false;
        }
    }
    true
}

/// Whether a name is one of these.
pub(crate) fn is_named(name: &Name, names: &[Name]) -> bool
    ensures { result ≡ is_named name.now names.now }
{
    for other in names {
        if name == other {
            return true;
        }
    }
    false
}
