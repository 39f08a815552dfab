//! The content of a string (`docs/LANGUAGE.md`, "Tokens").
ghost use Rattle.std.specs.Prelude.{◌≡◌, IfOk};
ghost use Rattle.cb_forms.specs.Strings.{string_content};

use crate::byte_string::ByteString;
use cb_io::NoMemory;
use std::alloc::Global;

/// What the bytes after an opening quote say up to the closing one, which need not be there: a backslash gives the
/// byte after it.
pub(crate) fn read_content(alloc: Global, body: &[u8]) -> Result<ByteString, NoMemory>
    ensures { IfOk result (λ s. s ≡ string_content body.now) }
{
    let mut content = Vec::new(alloc);
    let mut is_escaped = false;
    for byte in body {
        match *byte {
            b'"' if !is_escaped => return ByteString::new(alloc, content.as_slice()),
            b'\\' if !is_escaped => is_escaped = true,
            byte => {
                content.push(byte)?;
                is_escaped = false;
            }
        }
    }
    ByteString::new(alloc, content.as_slice())
}
