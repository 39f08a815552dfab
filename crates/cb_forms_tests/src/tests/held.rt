//! The bytes of the item that is open.
use cb_forms::{Cutter, NoMemory};
use std::alloc::Global;

/// A text, and what is held after each of its bytes, with a point after each.
const ROWS: [(&[u8], &[u8]); 6] = [
    (b"ab ", b"a.ab.."),
    (b"(c;)\n)", b"(.(c.(c;.(c;).(c;)\n.."),
    (b"\"d\\\"\"", b"\".\"d.\"d\\.\"d\\\".."),
    (b" ;e\n", b"...."),
    (b"?x<y&", b"?.?x.<.<y.."),
    (b")~z(", b"..z.(."),
];

/// One more byte, and what is held after it.
fn hold(cutter: &mut Cutter, byte: u8, held: &mut Vec<u8>) -> Result<(), NoMemory> {
    cutter.step(byte)?;
    held.extend_from_slice(cutter.held())?;
    Ok(())
}

/// What is held after each byte.
fn held(alloc: Global, cutter: &mut Cutter, text: &[u8]) -> Result<Vec<u8>, NoMemory> {
    let mut held = Vec::new(alloc);
    for byte in text {
        hold(cutter, *byte, &mut held)?;
        held.push(b'.')?;
    }
    Ok(held)
}

/// The first row that isn't so. The texts are one script.
fn first_wrong(alloc: Global) -> Result<Option<usize>, NoMemory> {
    let mut cutter = Cutter::new(alloc, 100);
    for (place, (text, want)) in ROWS.iter().enumerate() {
        if held(alloc, &mut cutter, text)?.as_slice() != *want {
            return Ok(Some(place));
        }
    }
    Ok(None)
}

#[test]
fn holds_the_open_item(rt: HostRuntime) -> Result<(), NoMemory> {
    assert_eq!(rt; first_wrong(rt.alloc())?, None);
    Ok(())
}
