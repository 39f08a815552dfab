//! The words that are never the relation of a fact.
ghost use Rattle.std.specs.Prelude.{◌≡◌};
ghost use Rattle.cb_words.specs.Reserved.{is_reserved};

use crate::among::is_among;

/// They name condition elements of rules.
pub(crate) const RESERVED_WORDS: [&str; 9] = [
    "test", "and", "or", "not", "declare", "logical", "object", "exists", "forall",
];

/// Whether a word is never the relation of a fact, as it names a condition element of a rule (`docs/LANGUAGE.md`, "Facts").
pub fn is_reserved(word: &[u8]) -> bool
    ensures { result ≡ is_reserved word.now }
{
    is_among(&RESERVED_WORDS, word)
}
