//! Calls with an effect as they are written.
ghost use Rattle.std.specs.Prelude.{◌≡◌, ◌≤◌, codes};
ghost use Rattle.std.specs.List.{list_any};
ghost use Rattle.cb_expr_forms.specs.Actions.{after_do, is_else};
ghost use Rattle.cb_expr_forms.specs.ExprFaults.{all_faults, arguments_fault, is_this_symbol};
ghost use Rattle.cb_expr_forms.specs.ExprForms.{exprs_of};
ghost use Rattle.cb_expr_forms.specs.Internal.{HasPlan, IsCutAtElse};
ghost use Rattle.cb_expr_forms.specs.Scopes.{Scope};
ghost use Rattle.cb_expr_forms.specs.Internal.Sizes.{trees_size};
ghost use Rattle.cb_forms.specs.Members.{members};
ghost use Rattle.cb_forms.specs.Trees.{tree_of};
ghost use Rattle.cb_templates.specs.Templates.{Templates};

use crate::words::{is_symbol, named_channel};
use cb_exprs::Effect;
use cb_forms::{Fault, Form, Token};
use cb_words::Action;

/// A call with an effect whose arguments are right in number and shape, by what of it is read next.
#[derive(Drop)]
pub(crate) enum ActionForm<'a> {
    /// An effect of these values.
    Of(Effect, &'a [Form]),
    /// `(bind ?name value ..)` or `(bind ?*name* value ..)`
    Bind(Bound<'a>, &'a [Form]),
    /// `(if test then action .. else action ..)`
    If(&'a Form, &'a [Form], &'a [Form]),
    /// `(while test do action ..)`
    While(&'a Form, &'a [Form]),
}

/// What a `bind` gives a value, by the bytes of its name.
#[derive(Clone, Copy)]
pub(crate) enum Bound<'a> {
    /// A variable.
    Variable(&'a [u8]),
    /// A global variable.
    Global(&'a [u8]),
}

/// A call with an effect, by its arguments; `None` where their number or shape is wrong.
pub(crate) fn split_action<'a>(action: Action, args: &'a [Form]) -> Option<ActionForm<'a>>
    ensures { HasPlan action (members args.now) result }
{
    match action {
        Action::Assert | Action::Modify => None,
        Action::Retract => split_retract(args),
        Action::Bind => split_bind(args),
        Action::If => split_if(args),
        Action::While => split_while(args),
        Action::Printout => split_printout(args),
        Action::Print => Some(ActionForm::Of(Effect::Print, args)),
        Action::Println => Some(ActionForm::Of(Effect::Println, args)),
        Action::Halt => split_halt(args),
    }
}

/// The fault of wrong arguments.
pub(crate) fn arguments_fault(action: Action) -> Fault
    ensures { result ≡ arguments_fault action }
{
    match action {
        Action::Printout => Fault::NotInProfile,
        _ => Fault::WrongArguments,
    }
}

fn split_retract<'a>(args: &'a [Form]) -> Option<ActionForm<'a>>
    ensures { HasPlan Action.Retract (members args.now) result }
{
    match args.split_first() {
        Some(_) => Some(ActionForm::Of(Effect::Retract, args)),
        None => None,
    }
}

#[tactic(auto, using(crate::proofs::Compounds::compound_bind, crate::proofs::Compounds::list_compound))]
fn split_bind<'a>(args: &'a [Form]) -> Option<ActionForm<'a>>
    ensures { HasPlan Action.Bind (members args.now) result }
{
    let (first, values) = args.split_first()?;
    let Some(_) = values.split_first() else {
        return None;
    };
    match first {
        Form::Atom(Token::Var(name)) | Form::Atom(Token::MultiVar(name)) => {
            Some(ActionForm::Bind(Bound::Variable(name.as_slice()), values))
        }
        Form::Atom(Token::Global(name)) => {
            Some(ActionForm::Bind(Bound::Global(name.as_slice()), values))
        }
        _ => None,
    }
}

fn split_if<'a>(args: &'a [Form]) -> Option<ActionForm<'a>>
    ensures { HasPlan Action.If (members args.now) result }
{
    let (test, rest) = args.split_first()?;
    let (word, actions) = rest.split_first()?;
    if !is_symbol(word, b"then") {
        return None;
    }
    let (yes, no) = split_else(actions);
    if has_else(no) {
        return None;
    }
    Some(ActionForm::If(test, yes, no))
}

/// The actions before the first `else`, and those after it.
fn split_else<'a>(actions: &'a [Form]) -> (&'a [Form], &'a [Form])
    ensures { IsCutAtElse (members actions.now) (members result.0.now) (members result.1.now) }
{
    let mut rest = actions;
    let mut count = 0;
    while let Some((first, following)) = rest.split_first() {
        if is_else(first) {
            return (&actions[..count], following);
        }
        count += 1;
        rest = following;
    }
    (actions, rest)
}

fn has_else(actions: &[Form]) -> bool
    ensures { (t : Templates) → result ≡ list_any is_else (exprs_of t (members actions.now)) }
{
    for form in actions {
        if is_else(form) {
            return true;
        }
    }
    false
}

fn is_else(form: &Form) -> bool
    ensures { result ≡ is_this_symbol (codes "else") (tree_of form.now) }
{
    is_symbol(form, b"else")
}

fn split_while<'a>(args: &'a [Form]) -> Option<ActionForm<'a>>
    ensures { HasPlan Action.While (members args.now) result }
{
    let (test, rest) = args.split_first()?;
    Some(ActionForm::While(test, after_do(rest)))
}

/// The actions of a `while`, before which `do` may stand.
#[tactic(auto, using(crate::proofs::Heads::word_symbol))]
fn after_do<'a>(forms: &'a [Form]) -> &'a [Form]
    ensures actions { (t : Templates) → exprs_of t (members result.now)
        ≡ after_do (exprs_of t (members forms.now)) }
    ensures faults { (s : Scope) → all_faults s (members forms.now)
        ≡ all_faults s (members result.now) }
    ensures sizes { trees_size (members result.now) ≤ trees_size (members forms.now) }
{
    let Some((word, actions)) = forms.split_first() else {
        return forms;
    };
    if is_symbol(word, b"do") {
        return actions;
    }
    forms
}

#[tactic(auto, using(crate::proofs::Compounds::compound_printout, crate::proofs::Compounds::list_compound))]
fn split_printout<'a>(args: &'a [Form]) -> Option<ActionForm<'a>>
    ensures { HasPlan Action.Printout (members args.now) result }
{
    let (first, values) = args.split_first()?;
    let channel = named_channel(first.symbol()?)?;
    Some(ActionForm::Of(Effect::Printout(channel), values))
}

fn split_halt<'a>(args: &'a [Form]) -> Option<ActionForm<'a>>
    ensures { HasPlan Action.Halt (members args.now) result }
{
    match args.split_first() {
        Some(_) => None,
        None => Some(ActionForm::Of(Effect::Halt, args)),
    }
}
