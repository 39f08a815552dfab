//! The bytes of an item that is open.
ghost use Rattle.std.specs.Prelude.{◌≡◌, ◌==◌, ◌<◌, ◌^◌, [], ◌∷◌, ◌++◌, length, OnOk};
ghost use Rattle.cb_forms.specs.Lines.{line_feeds};

use cb_io::NoMemory;
use std::alloc::Global;
use std::marker::Model;

/// The bytes of an item that is open, and how many of them are line feeds; no bytes, where none is open.
///
/// Contracts see the bytes.
#[derive(Drop)]
pub(crate) struct ItemBytes {
    bytes: Vec<u8>,
    feeds: usize,
}

impl Model for ItemBytes {
    ghost use Rattle.std.specs.Prelude.{◌≡◌, ℕ, List};
    ghost use Rattle.cb_forms.specs.Lines.{line_feeds};

    ghost Value = { List ℕ };

    ghost view = { λ item. item.bytes.items };

    ghost invariant = { λ item. item.feeds ≡ line_feeds item.bytes.items };
}

impl ItemBytes {
    pub(crate) fn new(alloc: Global) -> ItemBytes
        ensures { result ≡ [] }
    {
        ItemBytes {
            bytes: Vec::new(alloc),
            feeds: 0,
        }
    }

    pub(crate) fn push(&mut self, byte: u8) -> Result<(), NoMemory>
        ensures { OnOk result (self.new ≡ self.old ++ byte ∷ []) }
    {
        self.bytes.push(byte)?;
        self.feeds += count_line_feeds(&[byte]);
        Ok(())
    }

    pub(crate) fn extend(&mut self, run: &[u8]) -> Result<(), NoMemory>
        ensures { OnOk result (self.new ≡ self.old ++ run.now) }
    {
        self.bytes.extend_from_slice(run)?;
        self.feeds += count_line_feeds(run);
        Ok(())
    }

    pub(crate) fn clear(&mut self)
        ensures { self.new ≡ [] }
    {
        self.bytes.clear();
        self.feeds = 0;
    }

    pub(crate) fn as_slice(&self) -> &[u8]
        ensures { result.now ≡ self.now }
    {
        self.bytes.as_slice()
    }

    pub(crate) fn len(&self) -> usize
        ensures value { result ≡ length self.now }
        ensures fits { result < 2 ^ 63 }
    {
        self.bytes.len()
    }

    pub(crate) fn is_empty(&self) -> bool
        ensures { result ≡ (length self.now == 0) }
    {
        self.bytes.is_empty()
    }

    /// How many of the bytes are line feeds.
    pub(crate) fn line_feeds(&self) -> usize
        ensures value { result ≡ line_feeds self.now }
        ensures fits { result < 2 ^ 63 }
    {
        self.feeds
    }
}

/// How many of these bytes are line feeds.
pub(crate) fn count_line_feeds(bytes: &[u8]) -> usize
    ensures { result ≡ line_feeds bytes.now }
{
    let mut count = 0;
    for byte in bytes {
        if *byte == b'\n' {
            count += 1;
        }
    }
    count
}
