//! At which byte an item is given, and which bytes are taken in runs.
ghost use Rattle.std.specs.Prelude.{◌≤◌, IfOk, length};

use super::shown::Shown;
use cb_forms::{Cutter, NoMemory};
use std::alloc::Global;

/// A text, and what is shown of each of its bytes.
type Row = (&'static [u8], &'static [u8]);

/// A point for each byte and for the end, and the items that come with it.
const ITEMS: [Row; 7] = [
    (b"ab c", b"... s:ab.. s:c"),
    (b"ab (c d)e", b"... s:ab..... ( s:c s:d ).. s:e"),
    (b"a\"b\"&c)", b".. s:a.. t:b. &.. s:c CB02."),
    (b"a(1.5)(", b".. s:a.... CB05.. CB01"),
    (b"a<b ;c\n d", b".. s:a.. s:<b...... s:d"),
    (b"\"a\\\"b\" ?x~", b"...... t:a\"b.... v:x ~."),
    (b"))", b". CB02. CB02."),
];

/// A limit, a text, and what is shown of it where `step_run` is offered all that is left, again and again: a point for
/// each byte of a run, and a colon for a byte that is left to `step`, with the items that come with it.
type Runs = (usize, &'static [u8], &'static [u8]);

const RUNS: [Runs; 12] = [
    (100, b"abc\nd \t?x\n", b"...: s:abc.: s:d...: v:x"),
    (100, b" ;a b\n;c\n \n", b"..........."),
    (100, b"\"a b\\\"c\\\\\" d", b".........: t:a b\"c\\.. s:d"),
    (
        100,
        b"(ab \"c )\" e)f",
        b"...........: ( s:ab t:c ) s:e ). s:f",
    ),
    (
        100,
        b"((a) ; )\n~<\\)",
        b"............: ( ( s:a ) ~ s:<\\ )",
    ),
    (100, b"(;)\r(\")\"))", b".........: ( ( t:) ) )"),
    (100, b"a<b&c|~", b".: s:a.: s:<b &.: s:c |: ~"),
    (100, b"))()", b": CB02: CB02.: ( )"),
    (4, b" (abcdef)", b".....::::"),
    (4, b"abcd (e f g)", b"....: s:abcd....:::"),
    (3, b"\"ab\" ;cdef", b"...:::::::"),
    (0, b" ;a\nb", b"....:"),
];

/// Shows what one more byte gives.
fn show_step(shown: &mut Shown, cutter: &mut Cutter, byte: u8) -> Result<(), NoMemory> {
    let cut = cutter.step(byte)?;
    shown.add_cut(&cut)
}

/// Shows what the end gives.
fn show_end(shown: &mut Shown, cutter: &mut Cutter) -> Result<(), NoMemory> {
    let item = cutter.end()?;
    shown.add_some(item.as_ref())
}

/// What each byte and the end give.
fn given(alloc: Global, cutter: &mut Cutter, text: &[u8]) -> Result<Shown, NoMemory> {
    let mut shown = Shown::new(alloc);
    for byte in text {
        shown.add(b".")?;
        show_step(&mut shown, cutter, *byte)?;
    }
    shown.add(b".")?;
    show_end(&mut shown, cutter)?;
    Ok(shown)
}

/// The first row whose items don't come so.
fn first_wrong(alloc: Global) -> Result<Option<usize>, NoMemory> {
    let mut cutter = Cutter::new(alloc, 100);
    for (place, (text, want)) in ITEMS.iter().enumerate() {
        if given(alloc, &mut cutter, text)?.bytes() != *want {
            return Ok(Some(place));
        }
    }
    Ok(None)
}

#[test]
fn gives_items_as_they_end(rt: HostRuntime) -> Result<(), NoMemory> {
    assert_eq!(rt; first_wrong(rt.alloc())?, None);
    Ok(())
}

/// How many bytes the next run has.
fn run_of(cutter: &mut Cutter, text: &[u8]) -> Result<usize, NoMemory>
    ensures { IfOk result (λ n. n ≤ length text.now) }
{
    cutter.step_run(text)
}

/// Shows the next run of bytes and the byte after it. What follows them is returned.
fn show_run<'a>(
    cutter: &mut Cutter,
    shown: &mut Shown,
    text: &'a [u8],
) -> Result<&'a [u8], NoMemory> {
    let taken = run_of(cutter, text)?;
    for _ in 0..taken {
        shown.add(b".")?;
    }
    let (_, rest) = text.split_at(taken);
    let Some((byte, more)) = rest.split_first() else {
        return Ok(rest);
    };
    shown.add(b":")?;
    show_step(shown, cutter, *byte)?;
    Ok(more)
}

/// What the runs of a text give, and the bytes between them, and the end.
fn given_by_runs(alloc: Global, limit: usize, text: &[u8]) -> Result<Shown, NoMemory> {
    let mut cutter = Cutter::new(alloc, limit);
    let mut shown = Shown::new(alloc);
    let mut rest = text;
    for _ in text {
        rest = show_run(&mut cutter, &mut shown, rest)?;
    }
    show_end(&mut shown, &mut cutter)?;
    Ok(shown)
}

/// The first row whose runs and items don't come so.
fn first_wrong_by_runs(alloc: Global) -> Result<Option<usize>, NoMemory> {
    for (place, (limit, text, want)) in RUNS.iter().enumerate() {
        if given_by_runs(alloc, *limit, text)?.bytes() != *want {
            return Ok(Some(place));
        }
    }
    Ok(None)
}

#[test]
fn takes_long_runs(rt: HostRuntime) -> Result<(), NoMemory> {
    assert_eq!(rt; first_wrong_by_runs(rt.alloc())?, None);
    Ok(())
}
