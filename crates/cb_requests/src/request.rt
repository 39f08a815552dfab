//! What items ask for, and commands among them, a row each.
ghost use Rattle.cb_facts.specs.Results.{Settles};
ghost use Rattle.cb_forms.specs.Members.{members};
ghost use Rattle.cb_forms.specs.Trees.{reading_of, tree_of};
ghost use Rattle.cb_requests.specs.Arguments.{alone};
ghost use Rattle.cb_requests.specs.Reads.{top_scope};
ghost use Rattle.cb_requests.specs.Requests.{act_request, command_request, form_request, request_by, request_of};
ghost use Rattle.cb_requests.specs.Uses.{is_in_use};

use crate::arguments::{read_item, read_optional, read_rule_name, read_strategy};
use crate::construct::read_construct;
use crate::context::Context;
use crate::top_expr::read_top;
use cb_agenda::Strategy;
use cb_exprs::{Env, Expr, FactExpr, GlobalExpr};
use cb_facts::{Name, Names, Refused};
use cb_forms::{Fault, Form, Item};
use cb_knowledge_base::Mark;
use cb_matches::Matcher;
use cb_rules::Rule;
use cb_templates::{Relations, Template};
use cb_words::{Command, Head, WatchItem, read_head};

/// What an item asks for.
#[derive(Drop)]
pub enum Request {
    /// To carry out an expression, and to show its value.
    Act(Expr),
    /// To define a template for a relation.
    DefineTemplate(Name, Template),
    /// To keep facts under a name for `reset`.
    DefineDeffacts(Name, Vec<FactExpr>),
    /// To define globals, one after another.
    DefineGlobals(Vec<GlobalExpr>),
    /// To define a rule, in place of one with its name.
    DefineRule(Rule<Mark>),
    /// To list the facts.
    ListFacts,
    /// To list the activations.
    ListAgenda,
    /// To list the names of the rules.
    ListRules,
    /// To begin anew with the facts that are kept for it.
    Reset,
    /// To drop the facts, the variables and all that is defined.
    Clear,
    /// To fire rules: as many as the expression says, or all without one.
    Run(Option<Expr>),
    /// To end the script, with the status that the expression says, if there is one.
    Exit(Option<Expr>),
    /// To drop the rule with a name, or without one all rules.
    Undefine(Option<Name>),
    /// To watch an item from now on (`true`), or no more.
    Watch(WatchItem, bool),
    /// To take another strategy.
    SetStrategy(Strategy),
}

/// What an item asks for, by what there is, or its first fault (`docs/LANGUAGE.md`, "The order of the faults"). Growth is
/// refused as `NoMemory`.
pub fn read_request<M: Matcher<Mark>>(
    names: &mut Names,
    context: &Context<'_, M>,
    item: &Item,
) -> Result<Request, Refused>
    ensures { Settles request_by result (request_of context.now.relations.now context.now.env.now
        (is_in_use context.now.memory.now.memory context.now.rules.now context.now.deffacts.now)
        (reading_of item.now)) }
{
    match item {
        Item::Form(form) => read_form(names, context, form),
        Item::Bad(fault) => Err(Refused::Fault(*fault)),
    }
}

fn read_form<M: Matcher<Mark>>(
    names: &mut Names,
    context: &Context<'_, M>,
    form: &Form,
) -> Result<Request, Refused>
    ensures { Settles request_by result (form_request context.now.relations.now context.now.env.now
        (is_in_use context.now.memory.now.memory context.now.rules.now context.now.deffacts.now)
        (tree_of form.now)) }
{
    let Some((name, args)) = form.call() else {
        return read_act(names, context.relations, context.env, form);
    };
    match read_head(name) {
        Some(Head::Construct(construct)) => read_construct(names, context, construct, args),
        Some(Head::Command(command)) => {
            read_command(names, context.relations, context.env, form, command, args)
        }
        _ => read_act(names, context.relations, context.env, form),
    }
}

/// An expression.
fn read_act(
    names: &mut Names,
    relations: &Relations,
    env: &Env,
    form: &Form,
) -> Result<Request, Refused>
    ensures { Settles request_by result (act_request relations.now env.now (tree_of form.now)) }
{
    Ok(Request::Act(read_top(names, relations, env, form, form)?))
}

/// What a command asks for by its arguments, or their first fault. The whole form, which it begins, binds what variables its
/// expression may name.
fn read_command(
    names: &mut Names,
    relations: &Relations,
    env: &Env,
    whole: &Form,
    command: Command,
    args: &[Form],
) -> Result<Request, Refused>
    ensures { Settles request_by result (command_request
        (top_scope relations.now env.now (tree_of whole.now)) command (members args.now)) }
{
    match command {
        Command::Facts => read_alone(Request::ListFacts, args),
        Command::Agenda => read_alone(Request::ListAgenda, args),
        Command::Rules => read_alone(Request::ListRules, args),
        Command::Reset => read_alone(Request::Reset, args),
        Command::Clear => read_alone(Request::Clear, args),
        Command::Run => Ok(Request::Run(read_optional(names, relations, env, whole, args)?)),
        Command::Exit => Ok(Request::Exit(read_optional(names, relations, env, whole, args)?)),
        Command::Undefrule => Ok(Request::Undefine(read_rule_name(names, args)?)),
        Command::Watch => Ok(Request::Watch(read_item(args)?, true)),
        Command::Unwatch => Ok(Request::Watch(read_item(args)?, false)),
        Command::SetStrategy => Ok(Request::SetStrategy(read_strategy(args)?)),
    }
}

/// What a command without arguments asks for. An argument is CB07.
fn read_alone(request: Request, args: &[Form]) -> Result<Request, Refused>
    ensures { Settles request_by result (alone (request_by request) (members args.now)) }
{
    match args.split_first() {
        None => Ok(request),
        Some(_) => Err(Refused::Fault(Fault::WrongArguments)),
    }
}
