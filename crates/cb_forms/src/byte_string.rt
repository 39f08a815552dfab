//! Bytes that a script spells, as a value.
ghost use Rattle.std.specs.Prelude.{◌≡◌, IfOk, nat_eq};
ghost use Rattle.std.specs.Cmp.Lexicographic.{pointwise};
ghost use Rattle.std.specs.Cmp.Rules.{comparing};
ghost use Rattle.std.proofs.Common.{rules};

use crate::kept_bytes::KeptBytes;
use cb_io::NoMemory;
use std::alloc::Global;
use std::fmt;
use std::marker::Model;

/// The bytes of a symbol, a string or a variable's name. Nothing checks them as UTF-8.
///
/// Up to 22 bytes stand in the value itself, so that most words take no memory of their own.
///
/// Contracts see its list of bytes.
#[derive(Drop)]
pub struct ByteString {
    bytes: KeptBytes,
}

impl Model for ByteString {
    ghost use Rattle.std.specs.Prelude.{List, ℕ};
    ghost use Rattle.cb_forms.specs.Internal.KeptBytes.{bytes_in, IsWithin};

    ghost Value = { List ℕ };

    ghost view = { λ s. bytes_in s.bytes };

    ghost invariant = { λ s. IsWithin s.bytes };
}

impl ByteString {
    /// These bytes. Growth is refused as `NoMemory`.
    pub fn new(alloc: Global, bytes: &[u8]) -> Result<ByteString, NoMemory>
        ensures { IfOk result (λ s. s ≡ bytes.now) }
    {
        Ok(ByteString {
            bytes: KeptBytes::new(alloc, bytes)?,
        })
    }

    /// The bytes, of which there may be none.
    pub fn as_slice(&self) -> &[u8]
        ensures { result.now ≡ self.now }
    {
        self.bytes.as_slice()
    }
}

impl PartialEq for ByteString {
    ghost eq = { pointwise nat_eq };

    ghost laws = { Prim.search (comparing, rules) };

    fn eq(&self, other: &ByteString) -> bool {
        self.as_slice() == other.as_slice()
    }
}

impl Eq for ByteString {
    ghost laws = { Prim.search (comparing, rules) };
}

impl fmt::Debug for ByteString {
    fn fmt<W: fmt::Write>(&self, f: &mut fmt::Formatter<W>) -> fmt::Result {
        self.as_slice().fmt(f)
    }
}
