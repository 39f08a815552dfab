//! The left side of a rule as it is written: a tree of condition elements.
ghost use Rattle.std.specs.Prelude.{◌≡◌, ◌<◌, ◌≤◌, ◌+◌, Bool, IfOk, IfSome, MatchOption, length, map};
ghost use Rattle.cb_expr_forms.specs.Internal.Sizes.{trees_size};
ghost use Rattle.cb_forms.specs.Members.{members};
ghost use Rattle.cb_forms.specs.Trees.{tree_of};
ghost use Rattle.cb_rule_forms.specs.Internal.{next_size, next_seen, writtens, written_seen};
ghost use Rattle.cb_rule_forms.specs.WrittenElements.{address_of, addressed, gathered, kind_of, listed, members_inside, negated, none_written, plain_form, quantified, variable_of, written_in};
ghost use Rattle.cb_rule_forms.specs.WrittenElements as element;

use crate::sections::only_of;
use cb_expr_forms::is_symbol;
use cb_forms::{Fault, Form, NoMemory, Token};
use cb_words::is_reserved;
use std::alloc::Global;

/// A condition element as it is written.
#[derive(Drop)]
pub(crate) enum Written<'a> {
    /// None, for this reason.
    Wrong(Fault),
    /// `(relation term ..)`: the variable before `<-`, if there is one, the relation and what follows it.
    Pattern(Option<&'a [u8]>, &'a [u8], &'a [Form]),
    /// `(test expression)`
    Test(&'a Form),
    /// `(and element ..)`
    All(Vec<Written<'a>>),
    /// `(or element ..)`
    One(Vec<Written<'a>>),
    /// `(exists element ..)` where it is positive, else `(not element)`.
    Group(bool, Vec<Written<'a>>),
}

/// The kinds of elements that have elements as members.
#[derive(Clone, Copy)]
pub(crate) enum Kind {
    /// `and`
    And,
    /// `or`
    Or,
    /// `not`
    Not,
    /// `exists`
    Exists,
    /// `forall`
    Forall,
}

/// The next forms of a left side.
#[derive(Clone, Copy)]
pub(crate) enum Next<'a> {
    /// A form.
    Alone(&'a Form),
    /// `?name <-` and the form after it, if one follows.
    Addressed(&'a [u8], Option<&'a Form>),
}

/// The elements that forms are, in a group or not.
///
/// It calls itself as deep as the forms are nested.
#[cycle(writing)]
pub(crate) fn write_elements<'a>(
    alloc: Global,
    inside: bool,
    forms: &'a [Form],
) -> Result<Vec<Written<'a>>, NoMemory>
    ensures { IfOk result (λ ws. writtens (map written_seen ws.items)
        ≡ written_in inside (members forms.now)) }
{
    let mut elements = Vec::new(alloc);
    let mut rest = forms;
    while let Some((next, others)) = split_next(rest) {
        elements.push(write_next(alloc, inside, next)?)?;
        rest = others;
    }
    Ok(elements)
}

/// The first element, and the forms after it; `None` where there are no forms.
fn split_next<'a>(forms: &'a [Form]) -> Option<(Next<'a>, &'a [Form])>
    ensures parts { (inside : Bool) → MatchOption result
        (written_in inside (members forms.now) ≡ none_written)
        (λ split. written_in inside (members forms.now)
        ≡ element.written (next_seen inside split.0) (written_in inside (members split.1.now))) }
    ensures shorter { IfSome result (λ split. length split.1.now < length forms.now) }
    ensures smaller { IfSome result (λ split. next_size split.0 + trees_size (members split.1.now)
        ≤ trees_size (members forms.now)) }
{
    let (first, following) = forms.split_first()?;
    let Some((word, after)) = following.split_first() else {
        return Some((Next::Alone(first), following));
    };
    let Some(name) = address_of(first, word) else {
        return Some((Next::Alone(first), following));
    };
    match after.split_first() {
        Some((form, others)) => Some((Next::Addressed(name, Some(form)), others)),
        None => Some((Next::Addressed(name, None), after)),
    }
}

/// The variable that is given an address, if `<-` comes after it.
fn address_of<'a>(form: &'a Form, word: &Form) -> Option<&'a [u8]>
    ensures { MatchOption result
        (address_of (variable_of (tree_of form.now)) (tree_of word.now) ≡ None)
        (λ name. address_of (variable_of (tree_of form.now)) (tree_of word.now) ≡ Some name.now) }
{
    if !is_symbol(word, b"<-") {
        return None;
    }
    match form {
        Form::Atom(Token::Var(name)) => Some(name.as_slice()),
        _ => None,
    }
}

/// What the next forms are as an element.
#[cycle(writing)]
fn write_next<'a>(alloc: Global, inside: bool, next: Next<'a>) -> Result<Written<'a>, NoMemory>
    ensures { IfOk result (λ w. written_seen w ≡ next_seen inside next.entry) }
{
    match next {
        Next::Alone(form) => match form.call() {
            None => Ok(Written::Wrong(Fault::MalformedForm)),
            Some((word, forms)) => write_list(alloc, inside, word, forms),
        },
        Next::Addressed(name, form) => Ok(write_addressed(inside, name, form)),
    }
}

/// What a list is that begins with this word.
#[cycle(writing)]
fn write_list<'a>(
    alloc: Global,
    inside: bool,
    word: &'a [u8],
    forms: &'a [Form],
) -> Result<Written<'a>, NoMemory>
    ensures { IfOk result (λ w. written_seen w
        ≡ listed inside (Some word.now) (members forms.now) (λ g. written_in g (members forms.now))) }
{
    if !is_reserved(word) {
        return Ok(Written::Pattern(None, word, forms));
    }
    match kind_of(inside, word) {
        None => Ok(write_plain(word, forms)),
        Some(kind) => {
            let elements = write_elements(alloc, members_inside(inside, kind), forms)?;
            gather(kind, elements)
        }
    }
}

/// The kind of element that has elements as members, by its word; in a group `or` may not stand.
fn kind_of(inside: bool, word: &[u8]) -> Option<Kind>
    ensures { result ≡ kind_of inside word.now }
{
    if word == b"and".as_slice() {
        return Some(Kind::And);
    }
    if word == b"not".as_slice() {
        return Some(Kind::Not);
    }
    if word == b"exists".as_slice() {
        return Some(Kind::Exists);
    }
    if word == b"forall".as_slice() {
        return Some(Kind::Forall);
    }
    if word == b"or".as_slice() && !inside {
        return Some(Kind::Or);
    }
    None
}

/// Whether the members of an element stand in a group.
fn members_inside(inside: bool, kind: Kind) -> bool
    ensures { result ≡ members_inside inside kind }
{
    match kind {
        Kind::And | Kind::Or => inside,
        Kind::Not | Kind::Exists | Kind::Forall => true,
    }
}

/// The element of these members, of which there must be one or more, for `not` one and for `forall` two or more.
fn gather<'a>(kind: Kind, elements: Vec<Written<'a>>) -> Result<Written<'a>, NoMemory>
    ensures { IfOk result (λ w. written_seen w
        ≡ gathered kind (writtens (map written_seen elements.entry.items))) }
{
    if elements.is_empty() {
        return Ok(Written::Wrong(Fault::MalformedForm));
    }
    match kind {
        Kind::And => Ok(Written::All(elements)),
        Kind::Or => Ok(Written::One(elements)),
        Kind::Not => Ok(negate(elements)),
        Kind::Exists => Ok(Written::Group(true, elements)),
        Kind::Forall => quantify(elements),
    }
}

/// What `not` makes of its members, which must be one.
fn negate<'a>(elements: Vec<Written<'a>>) -> Written<'a>
    ensures { written_seen result ≡ negated (writtens (map written_seen elements.entry.items)) }
{
    if elements.len() == 1 {
        Written::Group(false, elements)
    } else {
        Written::Wrong(Fault::MalformedForm)
    }
}

/// What `forall` makes of its members, which must be two or more: `(forall A B ..)` is `(not (and A (not (and B ..))))`.
fn quantify<'a>(elements: Vec<Written<'a>>) -> Result<Written<'a>, NoMemory>
    ensures { IfOk result (λ w. written_seen w
        ≡ quantified (writtens (map written_seen elements.entry.items))) }
{
    if elements.len() < 2 {
        return Ok(Written::Wrong(Fault::MalformedForm));
    }
    let mut members = elements;
    let others = members.split_off(1)?;
    members.push(Written::Group(false, others))?;
    Ok(Written::Group(false, members))
}

/// What a list is that begins with another reserved word.
fn write_plain<'a>(word: &[u8], forms: &'a [Form]) -> Written<'a>
    ensures { written_seen result ≡ plain_form word.now (members forms.now) }
{
    if word == b"test".as_slice() {
        return match only_of(forms) {
            Some(form) => Written::Test(form),
            None => Written::Wrong(Fault::MalformedForm),
        };
    }
    if word == b"declare".as_slice() {
        return Written::Wrong(Fault::MalformedForm);
    }
    Written::Wrong(Fault::NotInProfile)
}

/// What follows `?name <-`, where only a pattern may stand, and in a group none.
fn write_addressed<'a>(inside: bool, name: &'a [u8], form: Option<&'a Form>) -> Written<'a>
    ensures { written_seen result ≡ next_seen inside (Next.Addressed name.entry form.entry) }
{
    let Some(form) = form else {
        return Written::Wrong(Fault::NotInProfile);
    };
    match form.call() {
        Some((word, forms)) if !inside && !is_reserved(word) => {
            Written::Pattern(Some(name), word, forms)
        }
        _ => Written::Wrong(Fault::NotInProfile),
    }
}
