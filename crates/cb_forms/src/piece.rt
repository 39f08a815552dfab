//! The pieces of a text.
ghost use Rattle.std.specs.Prelude.{◌≡◌, ◌<◌, ◌∷◌, length, IfOk};
ghost use Rattle.cb_forms.specs.Pieces.{pieces, lexeme_of, string_token};
ghost use Rattle.cb_forms.specs.Strings.{is_unclosed};

use crate::byte_kinds::is_blank;
use crate::fault::Fault;
use crate::lex_mode::LexMode;
use crate::lexeme::Lexeme;
use crate::string::read_content;
use crate::token::Token;
use crate::word::read_word;
use cb_io::NoMemory;
use std::alloc::Global;

/// The first piece of a text, and what stands after it.
pub(crate) fn split_piece(text: &[u8]) -> (&[u8], &[u8])
    requires { 0 < length text.now }
    ensures cut { pieces text.now ≡ result.0.now ∷ pieces result.1.now }
    ensures shorter { length result.1.now < length text.now }
{
    let mut mode = LexMode::fresh(text[0]);
    let mut end = 1;
    while end < text.len() {
        let (_, rest) = text.split_at(end);
        end += mode.run(rest);
        if end == text.len() || !mode.takes(text[end]) {
            break;
        }
        mode = mode.after(text[end]);
        end += 1;
    }
    text.split_at(end)
}

/// What a piece is. Growth is refused as `NoMemory`.
pub(crate) fn read_piece(alloc: Global, piece: &[u8]) -> Result<Lexeme, NoMemory>
    ensures { IfOk result (λ lexeme. lexeme ≡ lexeme_of piece.now) }
{
    let [first, body @ ..] = piece else {
        return Ok(Lexeme::Gap);
    };
    match *first {
        b'(' => Ok(Lexeme::Opening),
        b')' => Ok(Lexeme::Closing),
        b'&' => Ok(Lexeme::Atom(Ok(Token::And))),
        b'|' => Ok(Lexeme::Atom(Ok(Token::Or))),
        b'~' => Ok(Lexeme::Atom(Ok(Token::Not))),
        b';' => Ok(Lexeme::Gap),
        b'"' => read_string(alloc, body),
        byte if is_blank(byte) => Ok(Lexeme::Gap),
        _ => Ok(Lexeme::Atom(read_word(alloc, piece)?)),
    }
}

/// A string, by the bytes after its opening quote.
fn read_string(alloc: Global, body: &[u8]) -> Result<Lexeme, NoMemory>
    ensures { IfOk result (λ lexeme. lexeme ≡ Lexeme.Atom (string_token body.now)) }
{
    if is_unclosed(body) {
        return Ok(Lexeme::Atom(Err(Fault::FormNotClosed)));
    }
    Ok(Lexeme::Atom(Ok(Token::Str(read_content(alloc, body)?))))
}

/// Whether no closing quote stands in the bytes after an opening one.
fn is_unclosed(body: &[u8]) -> bool
    ensures { result ≡ is_unclosed body.now }
{
    let mut escaped = false;
    for byte in body {
        if escaped {
            escaped = false;
        } else if *byte == b'"' {
            return false;
        } else {
            escaped = *byte == b'\\';
        }
    }
    true
}
