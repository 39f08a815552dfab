//! The kinds of bytes of a script.
ghost use Rattle.std.specs.Prelude.{◌≡◌};
ghost use Rattle.cb_forms.specs.Bytes.{is_blank, is_line_end, is_single, is_delimiter};

pub(crate) fn is_blank(byte: u8) -> bool
    ensures { result ≡ is_blank byte }
{
    byte <= 32 || byte == 127
}

pub(crate) fn is_line_end(byte: u8) -> bool
    ensures { result ≡ is_line_end byte }
{
    byte == b'\n' || byte == b'\r'
}

/// Whether the byte is a piece of its own: a blank, a parenthesis or a connective.
pub(crate) fn is_single(byte: u8) -> bool
    ensures { result ≡ is_single byte }
{
    is_blank(byte) || matches!(byte, b'(' | b')' | b'&' | b'|' | b'~')
}

/// Whether a word ends before the byte.
pub(crate) fn is_delimiter(byte: u8) -> bool
    ensures { result ≡ is_delimiter byte }
{
    is_single(byte) || matches!(byte, b'"' | b';' | b'<')
}
