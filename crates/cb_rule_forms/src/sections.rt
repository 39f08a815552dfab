//! What a rule is made of.
ghost use Rattle.std.specs.Prelude.{◌≡◌, ◌<◌, None, Some, IfSome, MatchOption, is_some, length};
ghost use Rattle.cb_forms.specs.Members.{call_of, members};
ghost use Rattle.cb_forms.specs.Trees.{tree_of};
ghost use Rattle.cb_rule_forms.specs.Sections.{declared_in, divided, members_after, only_of, sections_of, without_declaration};
ghost use Rattle.cb_rule_forms.specs.Internal.SectionPlaces.{arrow_place, sections_seen};

use cb_expr_forms::is_symbol;
use cb_forms::{Form, split_head};
use cb_templates::without_comment;

/// What a rule is made of.
#[derive(Clone, Copy)]
pub(crate) struct Sections<'a> {
    /// Its name.
    pub(crate) name: &'a [u8],
    /// The members of its declaration after `declare`, if it has one.
    pub(crate) declared: Option<&'a [Form]>,
    /// Its condition elements.
    pub(crate) elements: &'a [Form],
    /// Its actions.
    pub(crate) actions: &'a [Form],
}

/// The sections of a rule, by what follows the word `defrule`; `None` where it has no name or no `=>` after that.
pub(crate) fn split_sections<'a>(forms: &'a [Form]) -> Option<Sections<'a>>
    ensures { MatchOption result (sections_of (members forms.now) ≡ None)
        (λ s. sections_of (members forms.now) ≡ Some (sections_seen s)) }
{
    let (name, rest) = split_head(forms)?;
    if name == b"=>".as_slice() {
        return None;
    }
    let (left, actions) = split_arrow(rest)?;
    let left = without_comment(left);
    let declared = find_declaration(left);
    Some(Sections {
        name,
        declared,
        elements: after_declaration(left, declared.is_some()),
        actions,
    })
}

/// What stands before the first `=>`, and after it.
fn split_arrow(forms: &[Form]) -> Option<(&[Form], &[Form])>
    ensures { MatchOption result (divided (members forms.now) ≡ None)
        (λ p. divided (members forms.now) ≡ Some (members p.0.now, members p.1.now)) }
{
    let place = find_arrow(forms)?;
    let (left, _) = forms.split_at(place);
    let (_, right) = forms.split_at(place + 1);
    Some((left, right))
}

/// The place of the first `=>`.
fn find_arrow(forms: &[Form]) -> Option<usize>
    ensures place { result ≡ arrow_place (members forms.now) }
    ensures within { IfSome result (λ place. place < length forms.now) }
{
    let mut place = 0;
    for form in forms {
        if is_symbol(form, b"=>") {
            return Some(place);
        }
        place += 1;
    }
    None
}

/// The members of the declaration, which may come first.
fn find_declaration(forms: &[Form]) -> Option<&[Form]>
    ensures { MatchOption result (declared_in (members forms.now) ≡ None)
        (λ ts. declared_in (members forms.now) ≡ Some (members ts.now)) }
{
    let (first, _) = forms.split_first()?;
    members_after(first, b"declare")
}

/// The members of a list after this word, if it begins with it.
pub(crate) fn members_after<'a>(form: &'a Form, word: &[u8]) -> Option<&'a [Form]>
    ensures { MatchOption result (members_after word.now (call_of (tree_of form.now)) ≡ None)
        (λ ts. members_after word.now (call_of (tree_of form.now)) ≡ Some (members ts.now)) }
{
    let (name, members) = form.call()?;
    if name != word {
        return None;
    }
    Some(members)
}

/// The one form, where there is one.
pub(crate) fn only_of(forms: &[Form]) -> Option<&Form>
    ensures { MatchOption result (only_of (members forms.now) ≡ None)
        (λ form. only_of (members forms.now) ≡ Some (tree_of form.now)) }
{
    let (form, following) = forms.split_first()?;
    match following.split_first() {
        None => Some(form),
        Some(_) => None,
    }
}

/// What follows the declaration, if there is one.
fn after_declaration<'a>(forms: &'a [Form], is_declared: bool) -> &'a [Form]
    requires { is_declared ≡ is_some (declared_in (members forms.now)) }
    ensures { members result.now ≡ without_declaration (members forms.now) }
{
    match forms.split_first() {
        Some((_, rest)) if is_declared => rest,
        _ => forms,
    }
}
