//! The line on which each item begins.
use cb_forms::{Cut, Cutter, Item, NoMemory};
use std::alloc::Global;

/// A text, and the digit of each of its items' line.
type Row = (&'static [u8], &'static [u8]);

const ROWS: [Row; 12] = [
    (b"(a\n b\n)c", b"13"),
    (b"a\nb\r\nc\rd\n\re", b"12334"),
    (b";x\n;y\r\n z ;w\n\"s\n;t\" u", b"345"),
    (b"\n\n(;)\n\")\n\") ~\n)&", b"3566"),
    (b"a\"b\nc\"d", b"112"),
    (b"ab&\n&", b"112"),
    (b"a\n&b\n\"\\\n\"c", b"12234"),
    (b"\n(a\nb", b"2"),
    (b"x\n\n", b"1"),
    (b"\n\"a\\\nb\n", b"2"),
    (b"\n(1.5\n) 99999999999999999999\n", b"23"),
    (b"\n;a\n \n", b""),
];

/// How many items a byte completes.
fn completed(cutter: &mut Cutter, byte: u8) -> Result<usize, NoMemory> {
    Ok(match cutter.step(byte)? {
        Cut::More | Cut::TooLong => 0,
        Cut::Item(_) => 1,
        Cut::TwoItems(_, _) => 2,
    })
}

/// The digit of the line on which the open item or the next byte stands.
fn digit(cutter: &Cutter) -> u8 {
    let line = cutter.line();
    if line < 10 { b'0' + line as u8 } else { b'+' }
}

/// A byte more, and the line of each item that it completes.
fn add(cutter: &mut Cutter, byte: u8, lines: &mut Vec<u8>) -> Result<(), NoMemory> {
    let line = digit(cutter);
    for _ in 0..completed(cutter, byte)? {
        lines.push(line)?;
    }
    Ok(())
}

/// The end, and the line of the item that is open there.
fn add_last(cutter: &mut Cutter, lines: &mut Vec<u8>) -> Result<(), NoMemory> {
    let line = digit(cutter);
    if is_some(cutter.end()?) {
        lines.push(line)?;
    }
    Ok(())
}

fn is_some(item: Option<Item>) -> bool {
    item.is_some()
}

/// The lines of the items, where the text comes byte by byte.
fn by_bytes(alloc: Global, cutter: &mut Cutter, text: &[u8]) -> Result<Vec<u8>, NoMemory> {
    let mut lines = Vec::new(alloc);
    for byte in text {
        add(cutter, *byte, &mut lines)?;
    }
    add_last(cutter, &mut lines)?;
    Ok(lines)
}

/// A run of bytes and the byte after it. What follows them is returned.
fn add_run<'a>(
    cutter: &mut Cutter,
    text: &'a [u8],
    lines: &mut Vec<u8>,
) -> Result<&'a [u8], NoMemory> {
    let taken = cutter.step_run(text)?;
    let (_, rest) = text.split_at(taken);
    let Some((byte, more)) = rest.split_first() else {
        return Ok(rest);
    };
    add(cutter, *byte, lines)?;
    Ok(more)
}

/// The same, where it comes in runs.
fn by_runs(alloc: Global, cutter: &mut Cutter, text: &[u8]) -> Result<Vec<u8>, NoMemory> {
    let mut lines = Vec::new(alloc);
    let mut rest = text;
    for _ in text {
        rest = add_run(cutter, rest, &mut lines)?;
    }
    add_last(cutter, &mut lines)?;
    Ok(lines)
}

/// The first row whose items begin on other lines where the text comes byte by byte.
fn first_wrong(alloc: Global) -> Result<Option<usize>, NoMemory> {
    let mut cutter = Cutter::new(alloc, 100);
    for (place, (text, want)) in ROWS.iter().enumerate() {
        if by_bytes(alloc, &mut cutter, text)?.as_slice() != *want {
            return Ok(Some(place));
        }
    }
    Ok(None)
}

/// The first where it comes in runs.
fn first_wrong_by_runs(alloc: Global) -> Result<Option<usize>, NoMemory> {
    let mut cutter = Cutter::new(alloc, 100);
    for (place, (text, want)) in ROWS.iter().enumerate() {
        if by_runs(alloc, &mut cutter, text)?.as_slice() != *want {
            return Ok(Some(place));
        }
    }
    Ok(None)
}

#[test]
fn knows_the_line_of_each_item(rt: HostRuntime) -> Result<(), NoMemory> {
    assert_eq!(rt; first_wrong(rt.alloc())?, None);
    Ok(())
}

#[test]
fn knows_it_after_runs(rt: HostRuntime) -> Result<(), NoMemory> {
    assert_eq!(rt; first_wrong_by_runs(rt.alloc())?, None);
    Ok(())
}
