//! What an expression may name and do where it stands.
ghost use Rattle.std.specs.Prelude.{◌≡◌, ◌++◌};
ghost use Rattle.cb_expr_forms.specs.Scopes.{effect_fault, is_known, may_act, may_name, may_use_globals, names_of};

use crate::name_list::NameList;
use cb_exprs::Env;
use cb_facts::Name;
use cb_forms::Fault;
use cb_templates::Relations;
use std::marker::Model;

/// Where an expression stands.
#[derive(Clone, Copy, Debug, PartialEq, Eq)]
pub enum Side {
    /// At the top level: it may have an effect.
    Top,
    /// In a `defglobal`, a `deffacts` or the salience of a rule: it names no variable and has no effect.
    Plain,
    /// On the left side of a rule: it names no global and has no effect. Any variable may stand there; whether a pattern
    /// binds it is to be seen by the caller.
    Left,
    /// In the actions of a rule: it may have an effect, and names none of the top level's variables.
    Actions,
}

impl Side {
    /// Whether an expression with an effect may stand there.
    pub(crate) fn may_act(self) -> bool
        ensures { result ≡ may_act self }
    {
        match self {
            Side::Top | Side::Actions => true,
            Side::Plain | Side::Left => false,
        }
    }

    /// The fault of one where it may not.
    pub(crate) fn effect_fault(self) -> Fault
        ensures { result ≡ effect_fault self }
    {
        match self {
            Side::Left => Fault::NotOnLeftSide,
            _ => Fault::NotInProfile,
        }
    }

    /// Whether a global may stand there.
    pub(crate) fn may_use_globals(self) -> bool
        ensures { result ≡ may_use_globals self }
    {
        match self {
            Side::Top | Side::Plain | Side::Actions => true,
            Side::Left => false,
        }
    }
}

/// What an expression may name and do where it stands.
///
/// Contracts see the side, the names of the known variables and globals, and the templates: see `scope_on`.
#[derive(Drop)]
pub struct Scope<'a> {
    /// Where the expression stands.
    pub side: Side,
    /// The variables of the top level and the globals, those that have a value.
    pub env: &'a Env,
    /// At the top level the variables that a `bind` of the whole form names. In the actions of a rule all that are known:
    /// those that every branch of its left side binds, and those that a `bind` of its actions names.
    pub bound: &'a NameList,
    /// The globals that the form has defined so far.
    pub given: &'a NameList,
    /// The templates.
    pub relations: &'a Relations,
}

impl<'a> Model for Scope<'a> {
    ghost use Rattle.std.specs.Prelude.{◌++◌};
    ghost use Rattle.cb_expr_forms.specs.Scopes.{Scope as View, names_of, scope_on};

    ghost Value = { View };

    ghost view = { λ s. scope_on s.side (names_of s.env.now.variables) s.bound.now (names_of s.env.now.globals ++ s.given.now) s.relations.now };
}

impl Scope<'_> {
    /// Whether a variable may stand there.
    pub(crate) fn takes_variable(&self, name: &Name) -> bool
        ensures { result ≡ may_name self.now.side self.now.variables name.now }
    {
        match self.side {
            Side::Top => has_variable(self.env, self.bound, name),
            Side::Plain => false,
            Side::Left => true,
            Side::Actions => self.bound.has(name),
        }
    }

    /// Whether a global is known.
    pub(crate) fn knows_global(&self, name: &Name) -> bool
        ensures { result ≡ is_known self.now.globals name.now }
    {
        self.env.global(name).is_some() || self.given.has(name)
    }
}

/// Whether a variable has a value or is one of these.
fn has_variable(env: &Env, bound: &NameList, name: &Name) -> bool
    ensures { result ≡ is_known (names_of env.now.variables ++ bound.now) name.now }
{
    env.get(name).is_some() || bound.has(name)
}
