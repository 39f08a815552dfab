//! What a piece of a script is.
use crate::fault::Fault;
use crate::token::Token;

/// What a piece of a script is, a piece being a blank, a comment, a parenthesis, a connective, a string or a word.
#[derive(Drop)]
pub enum Lexeme {
    /// A blank or a comment.
    Gap,
    /// `(`
    Opening,
    /// `)`
    Closing,
    /// A connective, a string or a word: its token, or its fault.
    Atom(Result<Token, Fault>),
}
