//! The checks of a constraint.
ghost use Rattle.std.specs.Prelude.{◌≡◌};
ghost use Rattle.cb_constraints.specs.Constraints.{check_of, asked_test};
ghost use Rattle.cb_facts.specs.FaultLists.{ReadsAs};
ghost use Rattle.cb_rule_forms.specs.RowFaults.{single_faults, written_faults};
ghost use Rattle.cb_rule_forms.specs.Rows.{check_in, single_test, test_in};
ghost use Rattle.cb_rule_forms.specs.Internal.RowReading.{written_of};

use crate::member::WrittenCheck;
use cb_constraints::{Check, Test};
use cb_expr_forms::{Scope, read_boxed};
use cb_facts::{Names, Refused, Value};
use cb_forms::{Fault, Token};

/// The check that is written so, or its first fault.
pub(crate) fn read_check(
    names: &mut Names,
    scope: &Scope<'_>,
    is_negated: bool,
    written: WrittenCheck<'_>,
) -> Result<Check, Refused>
    ensures { ReadsAs check_of result (written_faults scope.now (written_of written.entry))
        (check_in scope.now.templates is_negated (written_of written.entry)) }
{
    let test = read_test(names, scope, written)?;
    Ok(Check { is_negated, test })
}

fn read_test(
    names: &mut Names,
    scope: &Scope<'_>,
    written: WrittenCheck<'_>,
) -> Result<Test, Refused>
    ensures { ReadsAs asked_test result (written_faults scope.now (written_of written.entry))
        (test_in scope.now.templates (written_of written.entry)) }
{
    match written {
        WrittenCheck::Single(token) => read_single(names, token),
        WrittenCheck::Predicate(list) => Ok(Test::Predicate(read_boxed(names, scope, list)?)),
        WrittenCheck::ReturnValue(list) => Ok(Test::ReturnValue(read_boxed(names, scope, list)?)),
        WrittenCheck::Stray => Err(Refused::Fault(Fault::FactDoesNotFit)),
        WrittenCheck::Missing => Err(Refused::Fault(Fault::MalformedForm)),
    }
}

/// The test that an atom is.
fn read_single(names: &mut Names, token: &Token) -> Result<Test, Refused>
    ensures { ReadsAs asked_test result (single_faults token.now) (single_test token.now) }
{
    match token {
        Token::Var(name) | Token::MultiVar(name) => {
            Ok(Test::Variable(names.name(name.as_slice())?))
        }
        Token::Global(_) => Err(Refused::Fault(Fault::NotOnLeftSide)),
        _ => match Value::constant(names, token)? {
            Some(value) => Ok(Test::Constant(value)),
            None => Err(Refused::Fault(Fault::MalformedForm)),
        },
    }
}
