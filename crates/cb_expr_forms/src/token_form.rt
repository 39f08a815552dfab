//! Atoms as they are written.
ghost use Rattle.std.specs.Prelude.{◌≡◌};
ghost use Rattle.cb_expr_forms.specs.ExprFaults.{token_faults};
ghost use Rattle.cb_expr_forms.specs.ExprForms.{token_expr};
ghost use Rattle.cb_exprs.specs.Terms.{term_of};
ghost use Rattle.cb_facts.specs.FaultLists.{ReadsAs};

use crate::scope::Scope;
use cb_exprs::Expr;
use cb_facts::{Name, Names, Refused, Value};
use cb_forms::{Fault, Token};

/// The expression that an atom is in this scope, or its fault.
pub(crate) fn read_token(
    names: &mut Names,
    scope: &Scope<'_>,
    token: &Token,
) -> Result<Expr, Refused>
    ensures { ReadsAs term_of result (token_faults scope.now token.now) (token_expr token.now) }
{
    match token {
        Token::Var(name) | Token::MultiVar(name) => {
            Ok(Expr::Variable(known_variable(names, scope, name.as_slice())?))
        }
        Token::Global(name) => Ok(Expr::Global(known_global(names, scope, name.as_slice())?)),
        _ => match Value::constant(names, token)? {
            Some(value) => Ok(Expr::Constant(value)),
            None => Err(Refused::Fault(Fault::MalformedForm)),
        },
    }
}

/// The name of a variable that may stand there.
pub(crate) fn known_variable(
    names: &mut Names,
    scope: &Scope<'_>,
    name: &[u8],
) -> Result<Name, Refused>
    ensures { ReadsAs (λ n. n) result (token_faults scope.now (Token.Var name.now)) name.now }
{
    let name = names.name(name)?;
    if !scope.takes_variable(&name) {
        return Err(Refused::Fault(Fault::UnboundVariable));
    }
    Ok(name)
}

/// The same of a global variable.
pub(crate) fn known_global(
    names: &mut Names,
    scope: &Scope<'_>,
    name: &[u8],
) -> Result<Name, Refused>
    ensures { ReadsAs (λ n. n) result (token_faults scope.now (Token.Global name.now)) name.now }
{
    if !scope.side.may_use_globals() {
        return Err(Refused::Fault(Fault::NotOnLeftSide));
    }
    let name = names.name(name)?;
    if !scope.knows_global(&name) {
        return Err(Refused::Fault(Fault::UnknownGlobal));
    }
    Ok(name)
}
