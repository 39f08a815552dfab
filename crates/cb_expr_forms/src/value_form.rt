//! The fields of an ordered fact and the values of a slot.
ghost use Rattle.std.specs.Prelude.{◌≡◌};
ghost use Rattle.std.specs.Option.{option_and_then};
ghost use Rattle.cb_expr_forms.specs.ExprFaults.{equals_faults, type_faults};
ghost use Rattle.cb_exprs.specs.Terms.{term_of};
ghost use Rattle.cb_forms.specs.Members.{members};
ghost use Rattle.cb_forms.specs.Trees.{tree_of};
ghost use Rattle.cb_facts.specs.FaultLists.{ReadsAs};

use crate::words::{begins_with_list, is_symbol};
use cb_exprs::Expr;
use cb_facts::Refused;
use cb_forms::{Fault, Form};
use cb_templates::Slot;

/// Whether a form may be one of them before those that follow it: `=` before a list may not.
pub(crate) fn check_equals(form: &Form, following: &[Form]) -> Result<(), Refused>
    ensures { ReadsAs (λ _. tt {0}) result
        (equals_faults (tree_of form.now) (members following.now)) tt }
{
    if is_symbol(form, b"=") && begins_with_list(following) {
        return Err(Refused::Fault(Fault::NotInProfile));
    }
    Ok(())
}

/// A value that may stand in a slot by its types, or its fault.
pub(crate) fn fit_type(slot: Option<&Slot>, value: Expr) -> Result<Expr, Refused>
    ensures { ReadsAs term_of result
        (type_faults (option_and_then (λ s. s.now.types) slot.entry) (term_of value))
        (term_of value) }
{
    check_type(slot, &value)?;
    Ok(value)
}

/// Whether a value may stand in a slot by its types: what is computed may be anything.
fn check_type(slot: Option<&Slot>, value: &Expr) -> Result<(), Refused>
    ensures { ReadsAs (λ _. tt {0}) result
        (type_faults (option_and_then (λ s. s.now.types) slot.entry) (term_of value.now)) tt }
{
    let Some(slot) = slot else {
        return Ok(());
    };
    match value {
        Expr::Constant(value) => {
            if !slot.allows_all(value)? {
                return Err(Refused::Fault(Fault::ValueNotAllowed));
            }
            Ok(())
        }
        _ => Ok(()),
    }
}
