//! Values of one field.
use crate::name::Name;

/// A value that is one field. Of two variants the first here is the lesser.
#[derive(Clone, Debug, PartialEq, Eq, PartialOrd, Ord, Hash, Drop)]
pub enum Single {
    /// A symbol, by its bytes.
    Symbol(Name),
    /// A string, by its content.
    Str(Name),
    /// A signed 64-bit integer.
    Int(i64),
    /// A fact's address, by the fact's index.
    Fact(u64),
}
