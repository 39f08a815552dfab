//! The class of a word (`docs/LANGUAGE.md`, "Tokens").
ghost use Rattle.std.specs.Prelude.{◌≡◌, IfOk, MatchOption, true, false};
ghost use Rattle.cb_forms.specs.Words as spec;

use crate::byte_string::ByteString;
use crate::fault::Fault;
use crate::number::{integer, is_float, is_integer};
use crate::token::Token;
use cb_io::NoMemory;
use std::alloc::Global;

/// The token that a word is, or the fault of one that spells a float or an integer out of range.
pub(crate) fn read_word(alloc: Global, word: &[u8]) -> Result<Result<Token, Fault>, NoMemory>
    ensures { IfOk result (λ r. r ≡ spec.token_of word.now) }
{
    match word {
        [b'?', rest @ ..] => Ok(Ok(read_variable(alloc, rest)?)),
        [b'$', b'?', rest @ ..] => Ok(Ok(read_multivariable(alloc, rest)?)),
        _ => read_plain(alloc, word),
    }
}

/// A word that begins with `?`, by what follows it.
fn read_variable(alloc: Global, text: &[u8]) -> Result<Token, NoMemory>
    ensures { IfOk result (λ t. t ≡ spec.variable_token text.now) }
{
    if text.is_empty() {
        return Ok(Token::Any);
    }
    match between_stars(text) {
        Some(name) => Ok(Token::Global(ByteString::new(alloc, name)?)),
        None => Ok(Token::Var(ByteString::new(alloc, text)?)),
    }
}

/// A word that begins with `$?`, by what follows it.
fn read_multivariable(alloc: Global, text: &[u8]) -> Result<Token, NoMemory>
    ensures { IfOk result (λ t. t ≡ spec.multivariable_token text.now) }
{
    if text.is_empty() {
        return Ok(Token::MultiAny);
    }
    match between_stars(text) {
        Some(name) => Ok(Token::Global(ByteString::new(alloc, name)?)),
        None => Ok(Token::MultiVar(ByteString::new(alloc, text)?)),
    }
}

/// The name of one byte or more that stands between two stars.
fn between_stars(text: &[u8]) -> Option<&[u8]>
    ensures { MatchOption result
        (spec.is_starred text.now ≡ false)
        (λ name. (spec.is_starred text.now ≡ true) × (name.now ≡ spec.without_stars text.now)) }
{
    match text {
        [b'*', name @ .., b'*'] if !name.is_empty() => Some(name),
        _ => None,
    }
}

/// A word that is a number or a symbol.
fn read_plain(alloc: Global, word: &[u8]) -> Result<Result<Token, Fault>, NoMemory>
    ensures { IfOk result (λ r. r ≡ spec.plain_token word.now) }
{
    if is_integer(word) {
        return Ok(
            integer(word)
                .map(Token::Int)
                .ok_or(Fault::IntegerOutOfRange),
        );
    }
    if is_float(word) {
        return Ok(Err(Fault::FloatNotSupported));
    }
    Ok(Ok(Token::Symbol(ByteString::new(alloc, word)?)))
}
