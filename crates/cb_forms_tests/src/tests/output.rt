//! Bytes that are put, and what the sink has of them.
use cb_io::{MemSink, NoMemory, Out, WriteFault};
use std::alloc::Global;

/// The sink's room, the most that a write takes, the write that fails, and what the sink has in the end.
type Row = (usize, usize, Option<u64>, &'static [u8]);

/// `abcdefgh` is put. Each write of one byte fails in turn: by a fault, and by want of room.
const ROWS: [Row; 19] = [
    (8, 1, None, b"abcdefgh"),
    (8, 3, None, b"abcdefgh"),
    (8, 99, None, b"abcdefgh"),
    (8, 1, Some(1), b""),
    (8, 1, Some(2), b"a"),
    (8, 1, Some(3), b"ab"),
    (8, 1, Some(4), b"abc"),
    (8, 1, Some(5), b"abcd"),
    (8, 1, Some(6), b"abcde"),
    (8, 1, Some(7), b"abcdef"),
    (8, 1, Some(8), b"abcdefg"),
    (0, 1, None, b""),
    (1, 1, None, b"a"),
    (2, 1, None, b"ab"),
    (3, 1, None, b"abc"),
    (4, 1, None, b"abcd"),
    (5, 1, None, b"abcde"),
    (6, 1, None, b"abcdef"),
    (7, 1, None, b"abcdefg"),
];

/// Three puts and a flush.
fn put_all(out: &mut Out<MemSink>) -> Result<(), WriteFault> {
    out.put(b"abc")?;
    out.put(b"")?;
    out.put(b"defgh")?;
    out.flush()
}

/// Whether a `WriteFault` is returned exactly where bytes are missing, by a later flush too, and the sink has these bytes.
fn ends_with(out: &mut Out<MemSink>, want: &[u8]) -> bool {
    let is_whole = want.len() == 8;
    put_all(out).is_ok() == is_whole
        && out.flush().is_ok() == is_whole
        && out.sink().bytes() == want
}

/// The first row that isn't so.
fn first_wrong(alloc: Global) -> Result<Option<usize>, NoMemory> {
    for (place, (room, chunk, fail_at, want)) in ROWS.iter().enumerate() {
        let mut out = Out::new(MemSink::new(alloc, *room, *chunk, *fail_at)?);
        if !ends_with(&mut out, want) {
            return Ok(Some(place));
        }
    }
    Ok(None)
}

#[test]
fn passes_all_on_or_stops(rt: HostRuntime) -> Result<(), NoMemory> {
    assert_eq!(rt; first_wrong(rt.alloc())?, None);
    Ok(())
}

/// So many letters.
fn letters(alloc: Global, count: usize) -> Result<Vec<u8>, NoMemory> {
    let mut letters = Vec::new(alloc);
    for i in 0..count {
        letters.push(b'a' + (i % 26) as u8)?;
    }
    Ok(letters)
}

/// Two bytes, these and one more.
fn put_between(out: &mut Out<MemSink>, long: &[u8]) -> Result<(), WriteFault> {
    out.put(b"<>")?;
    out.put(long)?;
    out.put(b".")?;
    out.flush()
}

/// Whether the bytes are some others between `<>` and a point.
fn is_between(bytes: &[u8], long: &[u8]) -> bool {
    match bytes {
        [b'<', b'>', between @ .., b'.'] => between == long,
        _ => false,
    }
}

/// Whether so many bytes pass whole to a sink that takes so many at once.
fn passes(alloc: Global, count: usize, chunk: usize) -> Result<bool, NoMemory> {
    let long = letters(alloc, count)?;
    let mut out = Out::new(MemSink::new(alloc, 20_000, chunk, None)?);
    let is_put = put_between(&mut out, long.as_slice()).is_ok();
    Ok(is_put && is_between(out.sink().bytes(), long.as_slice()))
}

// Two bytes are pending when these come, which fit the block or not.
#[test]
fn passes_long_bytes_on(rt: HostRuntime) -> Result<(), NoMemory> {
    for count in [4093, 4094, 4095, 4096, 4097, 10_000] {
        for chunk in [1, 7, 20_000] {
            assert!(rt; passes(rt.alloc(), count, chunk)?, "{count} by {chunk}");
        }
    }
    Ok(())
}

/// Whether a write that fails leaves the sink with these bytes: what is pending is written first, in two writes of 4
/// bytes or less, and then come the long bytes.
fn stops_with(alloc: Global, fail_at: u64, want: &[u8]) -> Result<bool, NoMemory> {
    let long = letters(alloc, 4096)?;
    let mut out = Out::new(MemSink::new(alloc, 20_000, 4, Some(fail_at))?);
    let are_told = out.put(b"<-->=").is_ok()
        && out.put(long.as_slice()).is_err()
        && out.flush().is_err();
    Ok(are_told && out.sink().bytes() == want)
}

const STOPS: [(u64, &[u8]); 4] = [(1, b""), (2, b"<-->"), (3, b"<-->="), (4, b"<-->=abcd")];

#[test]
fn stops_in_long_bytes(rt: HostRuntime) -> Result<(), NoMemory> {
    for (fail_at, want) in &STOPS {
        assert!(rt; stops_with(rt.alloc(), *fail_at, want)?, "{fail_at}");
    }
    Ok(())
}
