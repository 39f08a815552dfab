//! Constructs.
ghost use Rattle.cb_facts.specs.Results.{Settles};
ghost use Rattle.cb_forms.specs.Members.{head_and_rest, members};
ghost use Rattle.cb_requests.specs.Reads.{rule_in};
ghost use Rattle.cb_requests.specs.Requests.{construct_request, deffacts_request, globals_request, request_by, rule_request, template_request};
ghost use Rattle.cb_requests.specs.Uses.{is_in_use};
ghost use Rattle.cb_rules.specs.RuleValues.{rule_value};

use crate::context::Context;
use crate::fact_list::read_kept_facts;
use crate::global_list::read_globals;
use crate::request::Request;
use cb_eval::Constants;
use cb_exprs::Env;
use cb_facts::{Names, Refused};
use cb_forms::{Fault, Form, split_head};
use cb_knowledge_base::Mark;
use cb_matches::Matcher;
use cb_rule_forms::read_rule;
use cb_rules::Rule;
use cb_templates::{Relations, read_template, without_comment};
use cb_words::Construct;

/// What a construct asks for by the forms after its word, or their first fault.
pub(crate) fn read_construct<M: Matcher<Mark>>(
    names: &mut Names,
    context: &Context<'_, M>,
    construct: Construct,
    args: &[Form],
) -> Result<Request, Refused>
    ensures { Settles request_by result
        (construct_request context.now.relations.now context.now.env.now
        (is_in_use context.now.memory.now.memory context.now.rules.now context.now.deffacts.now)
        construct (members args.now)) }
{
    match construct {
        Construct::Deftemplate => read_deftemplate(names, context, args),
        Construct::Deffacts => read_deffacts(names, context.relations, context.env, args),
        Construct::Defglobal => read_defglobal(names, context.relations, context.env, args),
        Construct::Defrule => read_defrule(names, context.relations, context.env, args),
    }
}

fn read_deftemplate<M: Matcher<Mark>>(
    names: &mut Names,
    context: &Context<'_, M>,
    args: &[Form],
) -> Result<Request, Refused>
    ensures { Settles request_by result (template_request
        (is_in_use context.now.memory.now.memory context.now.rules.now context.now.deffacts.now)
        (members args.now)) }
{
    let Some((relation, _)) = split_head(args) else {
        return Err(Refused::Fault(Fault::MalformedForm));
    };
    let in_use = context.is_in_use(&names.name(relation)?)?;
    let (relation, template) = read_template(names, args, in_use)?;
    Ok(Request::DefineTemplate(relation, template))
}

fn read_deffacts(
    names: &mut Names,
    relations: &Relations,
    env: &Env,
    args: &[Form],
) -> Result<Request, Refused>
    ensures { Settles request_by result
        (deffacts_request relations.now env.now (head_and_rest (members args.now))) }
{
    let Some((name, forms)) = split_head(args) else {
        return Err(Refused::Fault(Fault::MalformedForm));
    };
    let facts = read_kept_facts(names, relations, env, without_comment(forms))?;
    Ok(Request::DefineDeffacts(names.name(name)?, facts))
}

fn read_defglobal(
    names: &mut Names,
    relations: &Relations,
    env: &Env,
    args: &[Form],
) -> Result<Request, Refused>
    ensures { Settles request_by result
        (globals_request relations.now env.now (members args.now)) }
{
    Ok(Request::DefineGlobals(read_globals(names, relations, env, args)?))
}

fn read_defrule(
    names: &mut Names,
    relations: &Relations,
    env: &Env,
    args: &[Form],
) -> Result<Request, Refused>
    ensures { Settles request_by result (rule_request relations.now env.now (members args.now)) }
{
    Ok(Request::DefineRule(read_new_rule(names, relations, env, args)?))
}

/// The rule that the forms after its word are, or their first fault.
#[tactic(auto, unfolding(crate::specs::Reads::rule_in), using(crate::proofs::Readings::settled))]
fn read_new_rule(
    names: &mut Names,
    relations: &Relations,
    env: &Env,
    args: &[Form],
) -> Result<Rule<Mark>, Refused>
    ensures { Settles rule_value result (rule_in relations.now env.now (members args.now)) }
{
    let constants = Constants::new(names.alloc())?;
    read_rule(names, &constants, relations, env, args)
}
