//! The source and the sink over memory.
use cb_io::{MemSink, MemSource, NoMemory, ReadFault, Sink, Source, WriteFault};
use std::alloc::Global;

/// The most that a read gives, the read that fails, and what seven reads by a buffer of 4 bytes answer: how many bytes,
/// or `!` for a fault.
type Reads = (usize, Option<u64>, &'static [u8]);

/// Reads of 5 bytes, of which each fails in turn.
const READS: [Reads; 20] = [
    (1, None, b"1111100"),
    (2, None, b"2210000"),
    (3, None, b"3200000"),
    (4, None, b"4100000"),
    (9, None, b"4100000"),
    (1, Some(0), b"1111100"),
    (1, Some(1), b"!111110"),
    (1, Some(2), b"1!11110"),
    (1, Some(3), b"11!1110"),
    (1, Some(4), b"111!110"),
    (1, Some(5), b"1111!10"),
    (1, Some(6), b"11111!0"),
    (2, Some(1), b"!221000"),
    (2, Some(2), b"2!21000"),
    (2, Some(3), b"22!1000"),
    (2, Some(4), b"221!000"),
    (3, Some(2), b"3!20000"),
    (9, Some(1), b"!410000"),
    (9, Some(2), b"4!10000"),
    (9, Some(3), b"41!0000"),
];

/// One read: what it answers. The bytes that it gives come after those that there are.
fn read(source: &mut MemSource<'_>, given: &mut Vec<u8>) -> Result<u8, NoMemory> {
    let mut buf = [0; 4];
    match source.read(&mut buf) {
        Ok(n) => {
            given.extend_from_slice(&buf[..n])?;
            Ok(b'0' + n as u8)
        }
        Err(ReadFault) => Ok(b'!'),
    }
}

/// Whether each read answers so, and all bytes are given.
fn gives_all(alloc: Global, source: &mut MemSource<'_>, answers: &[u8]) -> Result<bool, NoMemory> {
    let mut given = Vec::new(alloc);
    for answer in answers {
        if read(source, &mut given)? != *answer {
            return Ok(false);
        }
    }
    Ok(given.as_slice() == b"abcde".as_slice())
}

/// The first row that isn't so.
fn first_wrong_read(alloc: Global) -> Result<Option<usize>, NoMemory> {
    for (place, (chunk, fail_at, answers)) in READS.iter().enumerate() {
        let mut source = MemSource::new(b"abcde", (*chunk).max(1), *fail_at);
        if !gives_all(alloc, &mut source, answers)? {
            return Ok(Some(place));
        }
    }
    Ok(None)
}

#[test]
fn gives_all_but_fails_once(rt: HostRuntime) -> Result<(), NoMemory> {
    assert_eq!(rt; first_wrong_read(rt.alloc())?, None);
    Ok(())
}

/// The room, the most that a write takes, the write that fails, what three writes of `abcde` and one of nothing answer,
/// and all that is taken.
type Writes = (usize, usize, Option<u64>, &'static [u8], &'static [u8]);

const WRITES: [Writes; 9] = [
    (9, 9, None, b"5400", b"abcdeabcd"),
    (9, 2, None, b"2220", b"ababab"),
    (5, 4, None, b"4100", b"abcda"),
    (3, 1, None, b"1110", b"aaa"),
    (0, 1, None, b"0000", b""),
    (9, 9, Some(0), b"5400", b"abcdeabcd"),
    (9, 9, Some(1), b"!540", b"abcdeabcd"),
    (9, 9, Some(2), b"5!40", b"abcdeabcd"),
    (9, 9, Some(3), b"54!0", b"abcdeabcd"),
];

/// What one write answers.
fn write(sink: &mut MemSink, bytes: &[u8; 5]) -> u8 {
    match sink.write(bytes) {
        Ok(n) => b'0' + n as u8,
        Err(WriteFault) => b'!',
    }
}

/// What each write answers.
fn answers(sink: &mut MemSink) -> [u8; 4] {
    let first = write(sink, b"abcde");
    let second = write(sink, b"abcde");
    let third = write(sink, b"abcde");
    let none = if sink.write(b"") == Ok(0) { b'0' } else { b'!' };
    [first, second, third, none]
}

/// The first row that isn't so.
fn first_wrong_write(alloc: Global) -> Result<Option<usize>, NoMemory> {
    for (place, (room, chunk, fail_at, want, taken)) in WRITES.iter().enumerate() {
        let mut sink = MemSink::new(alloc, *room, *chunk, *fail_at)?;
        if answers(&mut sink).as_slice() != *want || sink.bytes() != *taken {
            return Ok(Some(place));
        }
    }
    Ok(None)
}

#[test]
fn takes_what_fits_but_fails_once(rt: HostRuntime) -> Result<(), NoMemory> {
    assert_eq!(rt; first_wrong_write(rt.alloc())?, None);
    Ok(())
}
