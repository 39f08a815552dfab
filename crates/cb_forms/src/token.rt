//! The atoms of a script.
ghost use Rattle.std.specs.Prelude.{◌≡◌, None, Some, MatchOption};
ghost use Rattle.cb_forms.specs.Members.{token_symbol};

use crate::byte_string::ByteString;

/// An atom: a word by its class, a string, or a connective (`docs/LANGUAGE.md`, "Tokens").
#[derive(Debug, Drop, PartialEq, Eq)]
pub enum Token {
    /// A word that is nothing else.
    Symbol(ByteString),
    /// A string's content, its escapes resolved.
    Str(ByteString),
    /// A signed 64-bit integer.
    Int(i64),
    /// `?n`, by its name n.
    Var(ByteString),
    /// `$?n`, by its name n.
    MultiVar(ByteString),
    /// `?`
    Any,
    /// `$?`
    MultiAny,
    /// `?*n*` or `$?*n*`, by its name n.
    Global(ByteString),
    /// `&`
    And,
    /// `|`
    Or,
    /// `~`
    Not,
}

impl Token {
    /// The bytes of a symbol; `None` of any other atom.
    pub fn symbol(&self) -> Option<&[u8]>
        ensures { MatchOption result (token_symbol self.now ≡ None)
            (λ name. token_symbol self.now ≡ Some name.now) }
    {
        match self {
            Token::Symbol(name) => Some(name.as_slice()),
            _ => None,
        }
    }
}
