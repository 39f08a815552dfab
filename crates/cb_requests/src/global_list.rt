//! The globals of a `defglobal`.
ghost use Rattle.std.specs.Prelude.{◌≡◌, ◌<◌, ◌++◌, ◌∷◌, [], None, Some, IfOk, IfSome, MatchOption, OnOk, codes, length};
ghost use Rattle.cb_expr_forms.specs.ExprFaults.{is_this_symbol};
ghost use Rattle.cb_exprs.specs.Terms.{term_of};
ghost use Rattle.cb_facts.specs.Results.{Returns, Settles, ok_then};
ghost use Rattle.cb_forms.specs.Members.{members};
ghost use Rattle.cb_forms.specs.Trees.{tree, tree_of};
ghost use Rattle.cb_expr_forms.specs.Scopes.{plain_scope};
ghost use Rattle.cb_requests.specs.Reads.{expr_in, globals_in, name_given};
ghost use Rattle.cb_requests.specs.Internal.{IsGlobal, IsNoGlobal, ReadsGlobal};

use cb_expr_forms::{NameList, Scope, Side, read_expr};
use cb_exprs::{Env, Expr, GlobalExpr};
use cb_facts::{Names, Refused};
use cb_forms::{Fault, Form, NoMemory, Token};
use cb_templates::Relations;
use std::alloc::Global;

/// The globals that were read, with their names, which the expressions of those after them may name.
#[derive(Drop)]
struct GlobalList {
    globals: Vec<GlobalExpr>,
    given: NameList,
}

impl GlobalList {
    /// No globals, without an allocation.
    fn new(alloc: Global) -> GlobalList
        ensures globals { result.globals.items ≡ [] }
        ensures given { result.given ≡ [] }
    {
        GlobalList {
            globals: Vec::new(alloc),
            given: NameList::new(alloc),
        }
    }

    /// Adds a global after the others.
    fn push(&mut self, global: GlobalExpr) -> Result<(), NoMemory>
        ensures globals { OnOk result (self.new.globals.items
            ≡ self.old.globals.items ++ global ∷ []) }
        ensures given { OnOk result (self.new.given ≡ self.old.given ++ global.0 ∷ []) }
    {
        self.given.push(global.name())?;
        self.globals.push(global)?;
        Ok(())
    }
}

/// The globals that forms give, each with the expression of its initial value, or the first fault.
pub(crate) fn read_globals(
    names: &mut Names,
    relations: &Relations,
    env: &Env,
    forms: &[Form],
) -> Result<Vec<GlobalExpr>, Refused>
    ensures { Settles (λ globals. globals.items) result
        (globals_in relations.now env.now [] (members forms.now)) }
{
    let mut read = GlobalList::new(names.alloc());
    let mut rest = forms;
    while let Some((first, following)) = rest.split_first() {
        let (global, others) = read_next(names, relations, env, &read.given, first, following)?;
        read.push(global)?;
        rest = others;
    }
    Ok(read.globals)
}

/// The first global, after those with these names, and the forms after it, or its first fault.
fn read_next<'a>(
    names: &mut Names,
    relations: &Relations,
    env: &Env,
    given: &NameList,
    first: &'a Form,
    following: &'a [Form],
) -> Result<(GlobalExpr, &'a [Form]), Refused>
    ensures parts { ReadsGlobal (λ fs. members fs.now) relations.now env.now given.now
        (tree (tree_of first.now) (members following.now)) result }
    ensures smaller { IfOk result (λ g. length g.1.now < length following.now) }
{
    let Some((name, form, others)) = split_global(first, following) else {
        return Err(Refused::Fault(Fault::MalformedForm));
    };
    Ok((
        read_global(names, relations, env, given, name, form)?,
        others,
    ))
}

/// The name of the first global, the form of its expression, and the forms after that; `None` where its shape is wrong.
fn split_global<'a>(
    first: &'a Form,
    following: &'a [Form],
) -> Option<(&'a [u8], &'a Form, &'a [Form])>
    ensures parts { MatchOption result (IsNoGlobal (tree_of first.now) (members following.now))
        (λ g. IsGlobal (tree_of first.now) (members following.now)
        g.0.now (tree_of g.1.now) (members g.2.now)) }
    ensures smaller { IfSome result (λ g. length g.2.now < length following.now) }
{
    let (word, rest) = following.split_first()?;
    let (form, others) = rest.split_first()?;
    Some((name_given(first, word)?, form, others))
}

/// The name of a global that is given, before the word that follows it.
fn name_given<'a>(first: &'a Form, word: &Form) -> Option<&'a [u8]>
    ensures { MatchOption result (name_given (tree_of first.now) (tree_of word.now) ≡ None)
        (λ name. name_given (tree_of first.now) (tree_of word.now) ≡ Some name.now) }
{
    match first {
        Form::Atom(Token::Global(name)) if is_equals(word) => Some(name.as_slice()),
        _ => None,
    }
}

fn is_equals(form: &Form) -> bool
    ensures { result ≡ is_this_symbol (codes "=") (tree_of form.now) }
{
    match form.symbol() {
        Some(name) => name == b"=".as_slice(),
        None => false,
    }
}

/// The global with this name and this expression, after those with these names, or its first fault.
fn read_global(
    names: &mut Names,
    relations: &Relations,
    env: &Env,
    given: &NameList,
    name: &[u8],
    form: &Form,
) -> Result<GlobalExpr, Refused>
    ensures { Returns result (ok_then (λ e. (name.now, e))
        (expr_in (plain_scope relations.now env.now given.now) (tree_of form.now))) }
{
    let name = names.name(name)?;
    let expr = read_initial(names, relations, env, given, form)?;
    Ok(GlobalExpr::new(name, expr))
}

/// The expression of a global, after those with these names, or its first fault.
fn read_initial(
    names: &mut Names,
    relations: &Relations,
    env: &Env,
    given: &NameList,
    form: &Form,
) -> Result<Expr, Refused>
    ensures { Settles term_of result
        (expr_in (plain_scope relations.now env.now given.now) (tree_of form.now)) }
{
    let none = NameList::new(names.alloc());
    let scope = Scope {
        side: Side::Plain,
        env,
        bound: &none,
        given,
        relations,
    };
    read_expr(names, &scope, form)
}
