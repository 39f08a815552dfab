//! Calls as they are written.
ghost use Rattle.std.specs.Prelude.{◌≡◌, ◌≢◌, MatchResult, Some, true};
ghost use Rattle.cb_expr_forms.specs.Internal.{IsCall, IsCallFault, IsHeaded, IsHeadedFault};
ghost use Rattle.cb_expr_forms.specs.Scopes.{may_act};
ghost use Rattle.cb_facts.specs.Results.{Reports};
ghost use Rattle.cb_forms.specs.Members.{members};

use crate::action_form::{ActionForm, arguments_fault, split_action};
use crate::scope::Side;
use cb_facts::Refused;
use cb_forms::{Fault, Form, split_head};
use cb_words::{Action, Function, Head, read_head};

/// A call that may stand where it does and whose arguments are right in number and shape, by what of it is read next.
#[derive(Drop)]
pub(crate) enum CallForm<'a> {
    /// Of a function without an effect.
    Function(Function, &'a [Form]),
    /// `(assert fact ..)`
    Assert(&'a [Form]),
    /// `(modify fact slot ..)`
    Modify(&'a Form, &'a [Form]),
    /// Of another function with an effect.
    Action(ActionForm<'a>),
}

/// The call that a list is, or its first fault before those of its arguments.
pub(crate) fn split_call<'a>(side: Side, forms: &'a [Form]) -> Result<CallForm<'a>, Refused>
    ensures { MatchResult result (IsCall side (members forms.now))
        (λ r. Reports r (IsCallFault side (members forms.now))) }
{
    let Some((name, args)) = split_head(forms) else {
        return Err(Refused::Fault(Fault::MalformedForm));
    };
    match read_head(name) {
        Some(Head::Function(function)) => split_function(function, args),
        Some(Head::Action(action)) => split_acting(side, action, args),
        Some(_) => Err(Refused::Fault(Fault::NotInProfile)),
        None => Err(Refused::Fault(Fault::UnknownFunction)),
    }
}

#[tactic(auto, using(crate::proofs::Heads::count_members))]
fn split_function<'a>(function: Function, args: &'a [Form]) -> Result<CallForm<'a>, Refused>
    ensures { (side : Side) → MatchResult result
        (IsHeaded side (Some (Head.Function function)) (members args.now))
        (λ r. Reports r (IsHeadedFault side (Some (Head.Function function)) (members args.now))) }
{
    if !function.arity().takes(args.len()) {
        return Err(Refused::Fault(Fault::WrongArguments));
    }
    Ok(CallForm::Function(function, args))
}

fn split_acting<'a>(side: Side, action: Action, args: &'a [Form]) -> Result<CallForm<'a>, Refused>
    ensures { MatchResult result
        (IsHeaded side (Some (Head.Action action)) (members args.now))
        (λ r. Reports r (IsHeadedFault side (Some (Head.Action action)) (members args.now))) }
{
    if !side.may_act() {
        return Err(Refused::Fault(side.effect_fault()));
    }
    match action {
        Action::Assert => split_assert(args),
        Action::Modify => split_modify(args),
        _ => split_other(action, args),
    }
}

/// A call with an effect other than `assert` and `modify`.
fn split_other<'a>(action: Action, args: &'a [Form]) -> Result<CallForm<'a>, Refused>
    requires assert { action ≢ Action.Assert }
    requires modify { action ≢ Action.Modify }
    ensures { (side : Side) → may_act side ≡ true → MatchResult result
        (IsHeaded side (Some (Head.Action action)) (members args.now))
        (λ r. Reports r (IsHeadedFault side (Some (Head.Action action)) (members args.now))) }
{
    match split_action(action, args) {
        Some(plan) => Ok(CallForm::Action(plan)),
        None => Err(Refused::Fault(arguments_fault(action))),
    }
}

fn split_assert<'a>(args: &'a [Form]) -> Result<CallForm<'a>, Refused>
    ensures { (side : Side) → may_act side ≡ true → MatchResult result
        (IsHeaded side (Some (Head.Action Action.Assert)) (members args.now))
        (λ r. Reports r (IsHeadedFault side (Some (Head.Action Action.Assert)) (members args.now))) }
{
    match args.split_first() {
        Some(_) => Ok(CallForm::Assert(args)),
        None => Err(Refused::Fault(Fault::WrongArguments)),
    }
}

fn split_modify<'a>(args: &'a [Form]) -> Result<CallForm<'a>, Refused>
    ensures { (side : Side) → may_act side ≡ true → MatchResult result
        (IsHeaded side (Some (Head.Action Action.Modify)) (members args.now))
        (λ r. Reports r (IsHeadedFault side (Some (Head.Action Action.Modify)) (members args.now))) }
{
    match args.split_first() {
        Some((fact, slots)) => Ok(CallForm::Modify(fact, slots)),
        None => Err(Refused::Fault(Fault::WrongArguments)),
    }
}
