//! Where bytes that are kept stand.
ghost use Rattle.std.specs.Prelude.{◌≡◌, ◌≤◌, IfOk, length};
ghost use Rattle.cb_forms.specs.Internal.KeptBytes.{bytes_in, IsWithin};

use cb_io::NoMemory;
use std::alloc::Global;

const MAX_INLINE: usize = 22;

/// Bytes where they are kept. The value takes 24 bytes, so in a shared block with its two counts 40, for which the system's
/// allocator takes 48.
#[derive(Drop)]
pub(crate) enum KeptBytes {
    /// Up to 22 in the value itself. The number says how many.
    Inline(u8, [u8; 22]),
    /// In an allocation of their own.
    Apart(Box<Vec<u8>>),
}

impl KeptBytes {
    /// A copy of these bytes, in the value itself where they fit. Growth is refused as `NoMemory`.
    pub(crate) fn new(alloc: Global, bytes: &[u8]) -> Result<KeptBytes, NoMemory>
        ensures bytes { IfOk result (λ kept. bytes_in kept ≡ bytes.now) }
        ensures within { IfOk result IsWithin }
    {
        if bytes.len() <= MAX_INLINE {
            Ok(inline(bytes))
        } else {
            let copy = bytes.to_vec(alloc)?;
            Ok(KeptBytes::Apart(Box::new(alloc, copy)?))
        }
    }

    /// The bytes.
    pub(crate) fn as_slice(&self) -> &[u8]
        requires { IsWithin self.now }
        ensures { result.now ≡ bytes_in self.now }
    {
        match self {
            KeptBytes::Inline(count, bytes) => &bytes[..*count as usize],
            KeptBytes::Apart(bytes) => bytes.as_slice(),
        }
    }
}

fn inline(bytes: &[u8]) -> KeptBytes
    requires { length bytes.now ≤ 22 }
    ensures bytes { bytes_in result ≡ bytes.now }
    ensures within { IsWithin result }
{
    let mut kept = [0; 22];
    kept[..bytes.len()].copy_from_slice(bytes);
    KeptBytes::Inline(bytes.len() as u8, kept)
}
