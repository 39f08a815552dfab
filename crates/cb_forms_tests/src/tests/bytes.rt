//! Each byte, by what it makes of a text.
use super::shown::Shown;
use cb_forms::{NoMemory, read_items};
use std::alloc::Global;

/// What a byte makes of the texts `b`, `aba` and `(b)`: their items, without the names.
fn class(byte: u8) -> [&'static [u8]; 3] {
    match byte {
        0..=32 | 127 => [b"", b" s: s:", b" ( )"],
        b'(' => [b" CB01", b" s: CB01", b" CB01"],
        b')' => [b" CB02", b" s: CB02 s:", b" ( ) CB02"],
        b'&' => [b" &", b" s: & s:", b" ( & )"],
        b'|' => [b" |", b" s: | s:", b" ( | )"],
        b'~' => [b" ~", b" s: ~ s:", b" ( ~ )"],
        b'"' => [b" CB01", b" s: CB01", b" CB01"],
        b';' => [b"", b" s:", b" CB01"],
        b'<' => [b" s:", b" s: s:", b" ( s: )"],
        b'?' => [b" ?", b" s:", b" ( ? )"],
        b'0'..=b'9' => [b" i:", b" s:", b" ( i: )"],
        _ => [b" s:", b" s:", b" ( s: )"],
    }
}

/// Whether a text reads so.
fn reads_as(alloc: Global, text: &[u8], want: &[u8]) -> Result<bool, NoMemory> {
    let mut shown = Shown::without_names(alloc);
    for item in &read_items(alloc, text)? {
        shown.add_item(item)?;
    }
    Ok(shown.bytes() == want)
}

/// Whether a byte is of its class as the first of a text, within a word and in a list.
fn is_known(alloc: Global, byte: u8) -> Result<bool, NoMemory> {
    let [first, within, listed] = class(byte);
    Ok(
        reads_as(alloc, &[byte], first)?
            && reads_as(alloc, &[b'a', byte, b'a'], within)?
            && reads_as(alloc, &[b'(', byte, b')'], listed)?,
    )
}

#[test]
fn knows_each_byte(rt: HostRuntime) -> Result<(), NoMemory> {
    for byte in 0..=255u8 {
        assert!(rt; is_known(rt.alloc(), byte)?, "{byte}");
    }
    Ok(())
}
