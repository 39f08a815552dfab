//! Items that are too long.
use cb_forms::{Cut, Cutter, NoMemory};
use std::alloc::Global;

/// A text with one item at most, which begins at a place and has a length. Blanks and comments around it don't count.
struct Row {
    text: &'static [u8],
    start: usize,
    length: usize,
}

const ROWS: [Row; 5] = [
    Row {
        text: b"&",
        start: 0,
        length: 1,
    },
    Row {
        text: b" ;c\nabc ;d\n",
        start: 4,
        length: 3,
    },
    Row {
        text: b" \"a\\\" b\" ;",
        start: 1,
        length: 7,
    },
    Row {
        text: b"\t(a ;)\n (b) ) ",
        start: 1,
        length: 12,
    },
    Row {
        text: b" \r;abc\n ;",
        start: 0,
        length: 0,
    },
];

/// How many bytes of the text fit: all, or those before the item's first byte after the limit.
fn fitting(row: &Row, limit: usize) -> usize {
    if limit < row.length {
        row.start.saturating_add(limit)
    } else {
        row.text.len()
    }
}

/// Whether the item is too long from that byte on, and not before.
fn is_told(cutter: &mut Cutter, text: &[u8], fitting: usize) -> Result<bool, NoMemory> {
    for (place, byte) in text.iter().enumerate() {
        let is_too_long = matches!(cutter.step(*byte)?, Cut::TooLong);
        if is_too_long != (fitting <= place) {
            return Ok(false);
        }
    }
    Ok(true)
}

/// The first limit that isn't kept to.
fn first_broken(alloc: Global, row: &Row) -> Result<Option<usize>, NoMemory> {
    for limit in 0..14 {
        let mut cutter = Cutter::new(alloc, limit);
        if !is_told(&mut cutter, row.text, fitting(row, limit))? {
            return Ok(Some(limit));
        }
    }
    Ok(None)
}

/// The first row at which one isn't.
fn first_wrong(alloc: Global) -> Result<Option<usize>, NoMemory> {
    for (place, row) in ROWS.iter().enumerate() {
        if first_broken(alloc, row)?.is_some() {
            return Ok(Some(place));
        }
    }
    Ok(None)
}

#[test]
fn keeps_to_its_limit(rt: HostRuntime) -> Result<(), NoMemory> {
    assert_eq!(rt; first_wrong(rt.alloc())?, None);
    Ok(())
}
