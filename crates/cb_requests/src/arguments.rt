//! What commands take.
ghost use Rattle.std.specs.Prelude.{◌≡◌, None, Some, MatchOption, ok_or, option_map};
ghost use Rattle.cb_exprs.specs.Terms.{term_of};
ghost use Rattle.cb_facts.specs.Results.{Returns, Settles};
ghost use Rattle.cb_forms.specs.Members.{members};
ghost use Rattle.cb_forms.specs.Trees.{tree_of};
ghost use Rattle.cb_forms.specs.declared.fault.Fault.TheVariants.{NotInProfile};
ghost use Rattle.cb_requests.specs.Arguments.{item_in, only_symbol, optional_in, rule_name_in, strategy_in, strategy_of, symbol_in};
ghost use Rattle.cb_requests.specs.Reads.{top_scope};

use crate::top_expr::read_top;
use cb_agenda::Strategy;
use cb_exprs::{Env, Expr};
use cb_facts::{Name, Names, Refused};
use cb_forms::{Fault, Form};
use cb_templates::Relations;
use cb_words::{WatchItem, read_watch_item};

/// No expression, or the one that the form is, in a whole form at the top level. More forms are CB07.
pub(crate) fn read_optional(
    names: &mut Names,
    relations: &Relations,
    env: &Env,
    whole: &Form,
    args: &[Form],
) -> Result<Option<Expr>, Refused>
    ensures { Settles (option_map term_of) result
        (optional_in (top_scope relations.now env.now (tree_of whole.now)) (members args.now)) }
{
    let Some((form, others)) = args.split_first() else {
        return Ok(None);
    };
    if let Some(_) = others.split_first() {
        return Err(Refused::Fault(Fault::WrongArguments));
    }
    Ok(Some(read_top(names, relations, env, whole, form)?))
}

/// The name of a rule, or `None` for `*`, which says all rules.
pub(crate) fn read_rule_name(names: &mut Names, args: &[Form]) -> Result<Option<Name>, Refused>
    ensures { Returns result (rule_name_in (members args.now)) }
{
    let name = read_symbol(args)?;
    if name == b"*".as_slice() {
        return Ok(None);
    }
    Ok(Some(names.name(name)?))
}

/// What can be watched.
pub(crate) fn read_item(args: &[Form]) -> Result<WatchItem, Refused>
    ensures { Returns result (item_in (members args.now)) }
{
    in_profile(read_watch_item(read_symbol(args)?))
}

/// A strategy.
pub(crate) fn read_strategy(args: &[Form]) -> Result<Strategy, Refused>
    ensures { Returns result (strategy_in (members args.now)) }
{
    in_profile(strategy_of(read_symbol(args)?))
}

/// What a word names. One that names nothing is CB14.
fn in_profile<T>(named: Option<T>) -> Result<T, Refused>
    ensures { Returns result (ok_or named NotInProfile) }
{
    match named {
        Some(known) => Ok(known),
        None => Err(Refused::Fault(Fault::NotInProfile)),
    }
}

fn strategy_of(word: &[u8]) -> Option<Strategy>
    ensures { result ≡ strategy_of word.now }
{
    if word == b"depth".as_slice() {
        return Some(Strategy::Depth);
    }
    if word == b"breadth".as_slice() {
        return Some(Strategy::Breadth);
    }
    None
}

/// The one symbol. Anything else, and more or less of it, is CB07.
fn read_symbol(args: &[Form]) -> Result<&[u8], Refused>
    ensures { Settles (λ word. word.now) result (symbol_in (members args.now)) }
{
    match only_symbol(args) {
        Some(word) => Ok(word),
        None => Err(Refused::Fault(Fault::WrongArguments)),
    }
}

/// The symbol that the one form is.
fn only_symbol(args: &[Form]) -> Option<&[u8]>
    ensures { MatchOption result (only_symbol (members args.now) ≡ None)
        (λ word. only_symbol (members args.now) ≡ Some word.now) }
{
    let (form, others) = args.split_first()?;
    match others.split_first() {
        None => form.symbol(),
        Some(_) => None,
    }
}
