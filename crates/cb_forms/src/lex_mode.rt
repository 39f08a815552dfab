//! What a piece of a script is waiting for.
ghost use Rattle.std.specs.Prelude.{◌≡◌, ◌≤◌, true, false, length, take};
ghost use Rattle.cb_forms.specs.Bytes.{is_line_end};
ghost use Rattle.cb_forms.specs.Internal.ScanStates.{StaysIn, mode_takes, fresh_mode, continued_mode, next_mode, mode_is_open};

use crate::byte_kinds::{is_delimiter, is_line_end, is_single};

/// How the piece that a byte was just added to may go on.
#[derive(Clone, Copy)]
pub(crate) enum LexMode {
    /// It has ended with that byte.
    Ended,
    /// It is a comment, up to a line end.
    Comment,
    /// It is a word, up to a delimiter.
    Word,
    /// It is a string that isn't closed.
    Quoted,
    /// It is a string, and the byte was a backslash that takes the next byte.
    Escaped,
}

impl LexMode {
    /// The mode of a piece that the byte begins.
    pub(crate) fn fresh(byte: u8) -> LexMode
        ensures { result ≡ fresh_mode byte }
    {
        match byte {
            b';' => LexMode::Comment,
            b'"' => LexMode::Quoted,
            _ if is_single(byte) => LexMode::Ended,
            _ => LexMode::Word,
        }
    }

    /// Whether the piece goes on with the byte.
    pub(crate) fn takes(self, byte: u8) -> bool
        ensures { result ≡ mode_takes self byte }
    {
        match self {
            LexMode::Ended => false,
            LexMode::Comment => !is_line_end(byte),
            LexMode::Word => !is_delimiter(byte),
            LexMode::Quoted | LexMode::Escaped => true,
        }
    }

    /// The mode after one more byte, in the same piece or in the next.
    pub(crate) fn after(self, byte: u8) -> LexMode
        ensures { result ≡ next_mode self byte }
    {
        match self {
            LexMode::Quoted => LexMode::in_string(byte),
            LexMode::Escaped => LexMode::Quoted,
            _ if self.takes(byte) => self,
            _ => LexMode::fresh(byte),
        }
    }

    /// The mode after a byte of a string that no backslash stands before.
    fn in_string(byte: u8) -> LexMode
        ensures { result ≡ continued_mode LexMode.Quoted byte }
    {
        match byte {
            b'"' => LexMode::Ended,
            b'\\' => LexMode::Escaped,
            _ => LexMode::Quoted,
        }
    }

    /// How many of the first of these bytes the piece plainly goes on with, and waits for the same as before.
    pub(crate) fn run(self, bytes: &[u8]) -> usize
        ensures within { result ≤ length bytes.now }
        ensures stays { StaysIn self (take result bytes.now) }
    {
        let mut end = 0;
        while end < bytes.len() && self.stays(bytes[end]) {
            end += 1;
        }
        end
    }

    /// Whether the piece goes on with the byte, and waits for the same as before.
    pub(crate) fn stays(self, byte: u8) -> bool
        ensures { result ≡ true
            → (mode_takes self byte ≡ true) × (continued_mode self byte ≡ self) }
    {
        match self {
            LexMode::Word => !is_delimiter(byte),
            LexMode::Comment => !is_line_end(byte),
            LexMode::Quoted => byte != b'"' && byte != b'\\',
            LexMode::Ended | LexMode::Escaped => false,
        }
    }

    /// Whether it is a comment, and the comment goes on with the byte.
    pub(crate) fn is_comment_with(self, byte: u8) -> bool
        ensures yes { result ≡ true → (self ≡ LexMode.Comment) × (is_line_end byte ≡ false) }
        ensures no { result ≡ false → self ≡ LexMode.Comment → is_line_end byte ≡ true }
    {
        match self {
            LexMode::Comment => !is_line_end(byte),
            LexMode::Ended | LexMode::Word | LexMode::Quoted | LexMode::Escaped => false,
        }
    }

    /// Whether an item whose last piece has this mode may go on.
    pub(crate) fn is_open(self) -> bool
        ensures { result ≡ mode_is_open self }
    {
        matches!(self, LexMode::Word | LexMode::Quoted | LexMode::Escaped)
    }
}
