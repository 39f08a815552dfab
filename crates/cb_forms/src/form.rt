//! What a script is made of.
ghost use Rattle.std.specs.Prelude.{◌≡◌, None, Some, MatchOption};
ghost use Rattle.cb_forms.specs.Members.{call_of, head_and_rest, members, symbol_of};
ghost use Rattle.cb_forms.specs.Trees.{tree_of};

use crate::fault::Fault;
use crate::token::Token;

/// An atom, or a list of forms.
#[derive(Debug, Drop, PartialEq, Eq)]
pub enum Form {
    /// An atom.
    Atom(Token),
    /// A list, which may be empty. Lists nest at most 200 deep.
    List(Vec<Form>),
}

impl Form {
    /// The bytes of the symbol that the form is; `None` of any other form.
    pub fn symbol(&self) -> Option<&[u8]>
        ensures { MatchOption result (symbol_of (tree_of self.now) ≡ None)
            (λ name. symbol_of (tree_of self.now) ≡ Some name.now) }
    {
        match self {
            Form::Atom(token) => token.symbol(),
            Form::List(_) => None,
        }
    }

    /// The symbol that a list begins with, and the members after it; `None` of an atom and of a list that begins with
    /// anything else or is empty.
    pub fn call(&self) -> Option<(&[u8], &[Form])>
        ensures { MatchOption result (call_of (tree_of self.now) ≡ None)
            (λ call. call_of (tree_of self.now) ≡ Some (call.0.now, members call.1.now)) }
    {
        match self {
            Form::Atom(_) => None,
            Form::List(forms) => split_head(forms),
        }
    }
}

/// The symbol that forms begin with, and the forms after it; `None` where they begin with anything else or are none.
pub fn split_head(forms: &[Form]) -> Option<(&[u8], &[Form])>
    ensures { MatchOption result (head_and_rest (members forms.now) ≡ None)
        (λ split. head_and_rest (members forms.now) ≡ Some (split.0.now, members split.1.now)) }
{
    let (first, rest) = forms.split_first()?;
    Some((first.symbol()?, rest))
}

/// An item of a script, as far as its spelling goes.
#[derive(Debug, Drop, PartialEq, Eq)]
pub enum Item {
    /// A form that is spelled without a fault.
    Form(Form),
    /// The item's fault: CB01 where a list or string is open at the script's end, whatever it holds; CB02 for a `)` outside
    /// every list; else the first of CB03 to CB05 in the order of its bytes.
    Bad(Fault),
}
