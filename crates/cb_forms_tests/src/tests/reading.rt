//! Texts and their items, by the rules in `docs/LANGUAGE.md`, "Tokens" and "Items".
use super::shown::Shown;
use cb_forms::{Cutter, NoMemory, read_items};
use std::alloc::Global;

/// A text, and its items as they are shown.
type Row = (&'static [u8], &'static [u8]);

/// Words that spell integers, up to the ends of 64 bits.
const INTEGERS: [Row; 14] = [
    (b"0", b" i:0"),
    (b"9", b" i:9"),
    (b"1234567890", b" i:1234567890"),
    (b"007", b" i:7"),
    (b"+5", b" i:5"),
    (b"-5", b" i:-5"),
    (b"-1", b" i:-1"),
    (b"-0", b" i:0"),
    (b"9223372036854775807", b" i:9223372036854775807"),
    (b"+9223372036854775807", b" i:9223372036854775807"),
    (b"-9223372036854775807", b" i:-9223372036854775807"),
    (b"-9223372036854775808", b" i:-9223372036854775808"),
    (
        b"0000000000000000000000009223372036854775807",
        b" i:9223372036854775807",
    ),
    (
        b"-0000000000000000000000009223372036854775808",
        b" i:-9223372036854775808",
    ),
];

/// Integers that don't fit 64 bits, and numbers with a point or an exponent.
const OTHER_NUMBERS: [Row; 24] = [
    (b"9223372036854775808", b" CB04"),
    (b"+9223372036854775808", b" CB04"),
    (b"-9223372036854775809", b" CB04"),
    (b"18446744073709551615", b" CB04"),
    (b"18446744073709551616", b" CB04"),
    (b"-18446744073709551616", b" CB04"),
    (b"18446744073709551617", b" CB04"),
    (
        b"100000000000000000000000000000000000000000000000000",
        b" CB04",
    ),
    (b"3.25", b" CB05"),
    (b"-3.25", b" CB05"),
    (b"+3.25", b" CB05"),
    (b"1.", b" CB05"),
    (b".5", b" CB05"),
    (b"-.5", b" CB05"),
    (b"-1e3", b" CB05"),
    (b"1E3", b" CB05"),
    (b"1e+3", b" CB05"),
    (b"1e-3", b" CB05"),
    (b"1.e5", b" CB05"),
    (b"+.5E-3", b" CB05"),
    (b"-12.34e+56", b" CB05"),
    (b"0.0", b" CB05"),
    (b"99999999999999999999e5", b" CB05"),
    (b"99999999999999999999.", b" CB05"),
];

/// Words that are nothing else, of which many look like the beginning of something.
const SYMBOLS: [Row; 9] = [
    (b"$ $ab $1 a?b", b" s:$ s:$ab s:$1 s:a?b"),
    (b"abc Abc-d_e * *ab*", b" s:abc s:Abc-d_e s:* s:*ab*"),
    (b"+ - . +. -. -.e5", b" s:+ s:- s:. s:+. s:-. s:-.e5"),
    (
        b"e5 .e5 1- 1e 1e+ 1.e",
        b" s:e5 s:.e5 s:1- s:1e s:1e+ s:1.e",
    ),
    (
        b"1.5e 1e1.5 1e2e3 1.5.2",
        b" s:1.5e s:1e1.5 s:1e2e3 s:1.5.2",
    ),
    (
        b"1..5 0x1 --5 +-5 1e+-5",
        b" s:1..5 s:0x1 s:--5 s:+-5 s:1e+-5",
    ),
    (b"1_0 1a a1 5+", b" s:1_0 s:1a s:a1 s:5+"),
    (b"/ : 1/2 1:2", b" s:/ s:: s:1/2 s:1:2"),
    (b"=> <= abc d abcd", b" s:=> s:<= s:abc s:d s:abcd"),
];

/// Wildcards, variables and globals.
const VARIABLES: [Row; 14] = [
    (b"? $? ?x $?x ?*x* $?*x*", b" ? $? v:x m:x g:x g:x"),
    (b"?ab $?ab", b" v:ab m:ab"),
    (b"?* $?* ?** $?**", b" v:* m:* v:** m:**"),
    (b"?*ab $?*ab ?ab* $?ab*", b" v:*ab m:*ab v:ab* m:ab*"),
    (b"?f:slot $?f:slot", b" v:f:slot m:f:slot"),
    (b"?12 $?12", b" v:12 m:12"),
    (b"?? $??", b" v:? m:?"),
    (b"?$ $?$ ?$? $?$?", b" v:$ m:$ v:$? m:$?"),
    (b"?*a* $?*a*", b" g:a g:a"),
    (b"?*ab* $?*ab*", b" g:ab g:ab"),
    (b"?*** $?***", b" g:* g:*"),
    (b"?**** $?****", b" g:** g:**"),
    (b"?*a*b* $?*a*b*", b" g:a*b g:a*b"),
    (b"?*?a* $?*?a*", b" g:?a g:?a"),
];

/// Where words end, and what stands between them.
const BORDERS: [Row; 8] = [
    (b"", b""),
    (b" \t\n", b""),
    (b" \t\r\n\x00\x0c\x7f", b""),
    (b"a ; b)", b" s:a"),
    (b"a ; b", b" s:a"),
    (b"a;b\nc", b" s:a s:c"),
    (b"a<b&c|d~e\"f\"g;h", b" s:a s:<b & s:c | s:d ~ s:e t:f s:g"),
    (b"\"a\\\\b\" 007 +5 -0", b" t:a\\b i:7 i:5 i:0"),
];

/// Strings, their escapes, and those that aren't closed.
const STRINGS: [Row; 24] = [
    (b"\"\"", b" t:"),
    (b"\"ab\"", b" t:ab"),
    (b"\"a\"b\"c\"", b" t:a s:b t:c"),
    (b"\"ab\"cd\"", b" t:ab s:cd CB01"),
    (b"\"a\nb\r\"", b" t:a\nb\r"),
    (b"\"a\\\nb\"", b" t:a\nb"),
    (b"\"\\\n\"", b" t:\n"),
    (b"\"\\n\"", b" t:n"),
    (b"\"a\\\"b\"", b" t:a\"b"),
    (b"\"ab\\\"\"", b" t:ab\""),
    (b"\"a\\\\b\"", b" t:a\\b"),
    (b"\"a\\\\\"", b" t:a\\"),
    (b"\"\\\\\\\"\"", b" t:\\\""),
    (b"\"(;)~?\"", b" t:(;)~?"),
    (b"\"(a) ; ~?x\"", b" t:(a) ; ~?x"),
    (b"\"\xc3\xa9\x00\"", b" t:\xc3\xa9\x00"),
    (b"\"\xc3\xa9\xff\x00\"", b" t:\xc3\xa9\xff\x00"),
    (b"(\"\\\"\")", b" ( t:\" )"),
    (b"\"", b" CB01"),
    (b"\"a", b" CB01"),
    (b"a \"b", b" s:a CB01"),
    (b"\"a\\\"", b" CB01"),
    (b"\"a\\", b" CB01"),
    (b"(\"\\\")", b" CB01"),
];

/// Lists without a fault.
const LISTS: [Row; 9] = [
    (b"()", b" ( )"),
    (b"(rules)", b" ( s:rules )"),
    (
        b"(printout t \"a\\\"b\" crlf)",
        b" ( s:printout s:t t:a\"b s:crlf )",
    ),
    (
        b"(create$ $ 1- <= \"q\")",
        b" ( s:create$ s:$ s:1- s:<= t:q )",
    ),
    (b"(a;)\nb)", b" ( s:a s:b )"),
    (b"(a ; )\n b)", b" ( s:a s:b )"),
    (b"((a)()(b c))", b" ( ( s:a ) ( ) ( s:b s:c ) )"),
    (b"()&|~<", b" ( ) & | ~ s:<"),
    (b"(()(a()))", b" ( ( ) ( s:a ( ) ) )"),
];

/// A fault is an item like others, and a list has one at most.
const FAULTS: [Row; 20] = [
    (b"(assert (a)) (assert (b", b" ( s:assert ( s:a ) ) CB01"),
    (b"(", b" CB01"),
    (b")", b" CB02"),
    (b"a)", b" s:a CB02"),
    (b")(", b" CB02 CB01"),
    (b"())", b" ( ) CB02"),
    (b"(a))", b" ( s:a ) CB02"),
    (b"(;)", b" CB01"),
    (b"(a ;b)", b" CB01"),
    (b"(a \"b)", b" CB01"),
    (b"99999999999999999999 1", b" CB04 i:1"),
    (b"1.5)2", b" CB05 CB02 i:2"),
    (b"(+ 1 1.5)(+ 1 99999999999999999999)", b" CB05 CB04"),
    (b"((1.5) 99999999999999999999)", b" CB05"),
    (b"((99999999999999999999) 1.5)", b" CB04"),
    (b"(a (1.5) 99999999999999999999)b", b" CB05 s:b"),
    (b"(a (99999999999999999999) 1.5)b", b" CB04 s:b"),
    (b"(1.5", b" CB01"),
    (b"((99999999999999999999) a", b" CB01"),
    (b"(1.5 \"b)", b" CB01"),
];

/// The items of a text, read at once.
fn read_at_once(alloc: Global, text: &[u8]) -> Result<Shown, NoMemory> {
    let mut shown = Shown::new(alloc);
    for item in &read_items(alloc, text)? {
        shown.add_item(item)?;
    }
    Ok(shown)
}

/// Adds what one more byte cuts.
fn add_step(cutter: &mut Cutter, byte: u8, shown: &mut Shown) -> Result<(), NoMemory> {
    let cut = cutter.step(byte)?;
    shown.add_cut(&cut)
}

/// Adds what the end cuts.
fn add_end(cutter: &mut Cutter, shown: &mut Shown) -> Result<(), NoMemory> {
    let end = cutter.end()?;
    shown.add_some(end.as_ref())
}

/// The items of a text, read byte by byte.
fn read_by_steps(alloc: Global, cutter: &mut Cutter, text: &[u8]) -> Result<Shown, NoMemory> {
    let mut shown = Shown::new(alloc);
    for byte in text {
        add_step(cutter, *byte, &mut shown)?;
    }
    add_end(cutter, &mut shown)?;
    Ok(shown)
}

/// Whether a text reads so in both ways.
fn reads_as(
    alloc: Global,
    cutter: &mut Cutter,
    text: &[u8],
    want: &[u8],
) -> Result<bool, NoMemory> {
    let at_once = read_at_once(alloc, text)?;
    let by_steps = read_by_steps(alloc, cutter, text)?;
    Ok(at_once.bytes() == want && by_steps.bytes() == want)
}

/// The first row that doesn't read so. One cutter reads all texts, one after another.
fn first_wrong(alloc: Global, rows: &[Row]) -> Result<Option<usize>, NoMemory> {
    let mut cutter = Cutter::new(alloc, 1000);
    for (place, (text, want)) in rows.iter().enumerate() {
        if !reads_as(alloc, &mut cutter, text, want)? {
            return Ok(Some(place));
        }
    }
    Ok(None)
}

#[test]
fn reads_integers(rt: HostRuntime) -> Result<(), NoMemory> {
    assert_eq!(rt; first_wrong(rt.alloc(), &INTEGERS)?, None);
    Ok(())
}

#[test]
fn reads_other_numbers(rt: HostRuntime) -> Result<(), NoMemory> {
    assert_eq!(rt; first_wrong(rt.alloc(), &OTHER_NUMBERS)?, None);
    Ok(())
}

#[test]
fn reads_symbols(rt: HostRuntime) -> Result<(), NoMemory> {
    assert_eq!(rt; first_wrong(rt.alloc(), &SYMBOLS)?, None);
    Ok(())
}

#[test]
fn reads_variables(rt: HostRuntime) -> Result<(), NoMemory> {
    assert_eq!(rt; first_wrong(rt.alloc(), &VARIABLES)?, None);
    Ok(())
}

#[test]
fn knows_where_words_end(rt: HostRuntime) -> Result<(), NoMemory> {
    assert_eq!(rt; first_wrong(rt.alloc(), &BORDERS)?, None);
    Ok(())
}

#[test]
fn reads_strings(rt: HostRuntime) -> Result<(), NoMemory> {
    assert_eq!(rt; first_wrong(rt.alloc(), &STRINGS)?, None);
    Ok(())
}

#[test]
fn reads_lists(rt: HostRuntime) -> Result<(), NoMemory> {
    assert_eq!(rt; first_wrong(rt.alloc(), &LISTS)?, None);
    Ok(())
}

#[test]
fn reads_faults(rt: HostRuntime) -> Result<(), NoMemory> {
    assert_eq!(rt; first_wrong(rt.alloc(), &FAULTS)?, None);
    Ok(())
}

/// So many lists, each in the one before it, of which so many are closed.
fn nested(alloc: Global, depth: usize, closed: usize) -> Result<Vec<u8>, NoMemory> {
    let mut text = vec![in alloc; b'('; depth]?;
    text.resize(depth.saturating_add(closed), b')')?;
    Ok(text)
}

/// Lists as deep as that, with nothing in the last, as they are shown.
fn shown_nested(alloc: Global, depth: usize) -> Result<Vec<u8>, NoMemory> {
    let mut shown = Vec::new(alloc);
    for mark in nested(alloc, depth, depth)? {
        shown.extend_from_slice(&[b' ', mark])?;
    }
    Ok(shown)
}

/// Whether lists as deep as that read so: none of them closed, all but the first, and all.
fn nests(alloc: Global, depth: usize, want: &[u8]) -> Result<bool, NoMemory> {
    let mut cutter = Cutter::new(alloc, 1000);
    let open = nested(alloc, depth, 0)?;
    let half = nested(alloc, depth, depth.saturating_sub(1))?;
    let whole = nested(alloc, depth, depth)?;
    Ok(
        reads_as(alloc, &mut cutter, open.as_slice(), b" CB01")?
            && reads_as(alloc, &mut cutter, half.as_slice(), b" CB01")?
            && reads_as(alloc, &mut cutter, whole.as_slice(), want)?,
    )
}

#[test]
fn nests_200_lists(rt: HostRuntime) -> Result<(), NoMemory> {
    let alloc = rt.alloc();
    for depth in [1, 2, 199, 200] {
        assert!(rt;
            nests(alloc, depth, shown_nested(alloc, depth)?.as_slice())?,
            "{depth}"
        );
    }
    Ok(())
}

#[test]
fn nests_no_more_than_200_lists(rt: HostRuntime) -> Result<(), NoMemory> {
    for depth in [201, 202] {
        assert!(rt; nests(rt.alloc(), depth, b" CB03")?, "{depth}");
    }
    Ok(())
}
