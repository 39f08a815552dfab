//! The members of a row of constraints.
ghost use Rattle.std.specs.Prelude.{◌≡◌, ◌<◌, ◌≤◌, ◌∷◌, [], false, true, IfSome, MatchOption, length};
ghost use Rattle.cb_forms.specs.Members.{members};
ghost use Rattle.cb_forms.specs.Trees.{atom, tree, tree_of};
ghost use Rattle.cb_rule_forms.specs.Members.{check, members_in, tilde_before};
ghost use Rattle.cb_rule_forms.specs.Rows.{is_several};
ghost use Rattle.cb_rule_forms.specs.Internal.RowReading.{IsMark, member_of, written_of};

use cb_forms::{Form, Token};

/// What a check is written as, after the `~` that may stand before it.
#[derive(Clone, Copy)]
pub(crate) enum WrittenCheck<'a> {
    /// An atom.
    Single(&'a Token),
    /// `:` and this list.
    Predicate(&'a Form),
    /// `=` and this list.
    ReturnValue(&'a Form),
    /// A list after neither.
    Stray,
    /// Nothing: no check follows `~`.
    Missing,
}

impl WrittenCheck<'_> {
    /// Whether its constraint takes a segment.
    pub(crate) fn is_several(self) -> bool
        ensures { result ≡ is_several (written_of self.entry) }
    {
        match self {
            WrittenCheck::Single(Token::MultiVar(_)) => true,
            _ => false,
        }
    }
}

/// A member of a row of constraints.
#[derive(Clone, Copy)]
pub(crate) enum Member<'a> {
    /// `?`, or `$?` where it is true.
    Wildcard(bool),
    /// `&`
    Both,
    /// `|`
    OneOf,
    /// A check, and whether `~` stands before it.
    Check(bool, WrittenCheck<'a>),
}

/// The member that the forms begin with, and the forms after it; `None` where there are no forms.
pub(crate) fn split_member<'a>(forms: &'a [Form]) -> Option<(Member<'a>, &'a [Form])>
    ensures member { MatchOption result (members_in (members forms.now) ≡ [])
        (λ split. members_in (members forms.now)
        ≡ member_of split.0 ∷ members_in (members split.1.now)) }
    ensures shorter { IfSome result (λ split. length split.1.now < length forms.now) }
{
    let (first, following) = forms.split_first()?;
    match split_check(first, following) {
        Some((written, rest)) => Some((Member::Check(false, written), rest)),
        None => Some(split_mark(first, following)),
    }
}

/// A check without `~`, and the forms after it; `None` where the first form is a wildcard, a connective or `~`.
fn split_check<'a>(first: &'a Form, following: &'a [Form]) -> Option<(WrittenCheck<'a>, &'a [Form])>
    ensures check { MatchOption result (IsMark (tree_of first.now))
        (λ split. members_in (tree (tree_of first.now) (members following.now))
        ≡ check false (written_of split.0) ∷ members_in (members split.1.now)) }
    ensures shorter { IfSome result (λ split. length split.1.now ≤ length following.now) }
{
    let Form::Atom(token) = first else {
        return Some((WrittenCheck::Stray, following));
    };
    match token {
        Token::Symbol(name) => Some(split_symbol(token, name.as_slice(), following)),
        Token::Any | Token::MultiAny | Token::And | Token::Or | Token::Not => None,
        _ => Some((WrittenCheck::Single(token), following)),
    }
}

/// The check that begins with a symbol, by the symbol's bytes: where a list follows `:` or `=`, the check goes up to its end.
fn split_symbol<'a>(
    token: &'a Token,
    name: &[u8],
    following: &'a [Form],
) -> (WrittenCheck<'a>, &'a [Form])
    requires { token.now ≡ Token.Symbol name.now }
    ensures check { members_in (tree (atom (Token.Symbol name.now)) (members following.now))
        ≡ check false (written_of result.0) ∷ members_in (members result.1.now) }
    ensures shorter { length result.1.now ≤ length following.now }
{
    let Some((list, rest)) = following.split_first() else {
        return (WrittenCheck::Single(token), following);
    };
    let Form::List(_) = list else {
        return (WrittenCheck::Single(token), following);
    };
    if name == b":".as_slice() {
        return (WrittenCheck::Predicate(list), rest);
    }
    if name == b"=".as_slice() {
        return (WrittenCheck::ReturnValue(list), rest);
    }
    (WrittenCheck::Single(token), following)
}

/// The member that begins with a wildcard, a connective or `~`, and the forms after it.
fn split_mark<'a>(first: &Form, following: &'a [Form]) -> (Member<'a>, &'a [Form])
    requires { IsMark (tree_of first.now) }
    ensures member { members_in (tree (tree_of first.now) (members following.now))
        ≡ member_of result.0 ∷ members_in (members result.1.now) }
    ensures shorter { length result.1.now ≤ length following.now }
{
    match first {
        Form::Atom(Token::Any) => (Member::Wildcard(false), following),
        Form::Atom(Token::MultiAny) => (Member::Wildcard(true), following),
        Form::Atom(Token::And) => (Member::Both, following),
        Form::Atom(Token::Or) => (Member::OneOf, following),
        _ => split_negated(following),
    }
}

/// The check that `~` before these forms makes.
fn split_negated<'a>(forms: &'a [Form]) -> (Member<'a>, &'a [Form])
    ensures member { tilde_before (members_in (members forms.now))
        ≡ member_of result.0 ∷ members_in (members result.1.now) }
    ensures shorter { length result.1.now ≤ length forms.now }
{
    let Some((first, following)) = forms.split_first() else {
        return (Member::Check(true, WrittenCheck::Missing), forms);
    };
    match split_check(first, following) {
        Some((written, rest)) => (Member::Check(true, written), rest),
        None => (Member::Check(true, WrittenCheck::Missing), forms),
    }
}
