//! Words among forms.
ghost use Rattle.std.specs.Prelude.{◌≡◌, None, Some, MatchOption};
ghost use Rattle.cb_expr_forms.specs.Actions.{named_channel};
ghost use Rattle.cb_expr_forms.specs.ExprFaults.{begins_with_list, is_this_symbol};
ghost use Rattle.cb_forms.specs.Members.{members};
ghost use Rattle.cb_forms.specs.Trees.{tree_of};

use cb_exprs::Channel;
use cb_forms::Form;

/// Whether a form is the symbol with these bytes.
pub fn is_symbol(form: &Form, word: &[u8]) -> bool
    ensures { result ≡ is_this_symbol word.now (tree_of form.now) }
{
    match form.symbol() {
        Some(name) => name == word,
        None => false,
    }
}

/// Whether the first of the forms is a list.
pub fn begins_with_list(forms: &[Form]) -> bool
    ensures { result ≡ begins_with_list (members forms.now) }
{
    match forms.first() {
        Some(Form::List(_)) => true,
        _ => false,
    }
}

/// The channel of a name.
pub(crate) fn named_channel(name: &[u8]) -> Option<Channel>
    ensures { result ≡ named_channel name.now }
{
    if name == b"t".as_slice() || name == b"stdout".as_slice() {
        return Some(Channel::Output);
    }
    if name == b"nil".as_slice() {
        return Some(Channel::Nowhere);
    }
    None
}
