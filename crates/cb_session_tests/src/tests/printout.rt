//! What `printout` writes.
use super::*;

const PRINTED: [Row; 2] = [
    Row {
        steps: &[
            (
                b"(printout stdout a tab \"tab\" vtab ff)",
                b"a\ttab\x0b\x0c",
            ),
            (b"(printout nil a)", b""),
            (b"(printout nil a = b)", b""),
            (b"(printout t)", b""),
            (b"(printout stdout a crlf)", b"a\n"),
        ],
        status: DONE,
    },
    Row {
        steps: &[
            (b"(printout)", CB14),
            (b"(printout \"t\" ?x)", CB14),
            (b"(printout file ?x)", CB14),
            (b"(printout t = (b))", CB06),
            (b"(printout nil (assert (a)))", b""),
            (b"(printout t 1 ?x ?*g*)", CB11),
            (b"(facts)", b"f-1     (a)\nFor a total of 1 fact.\n"),
        ],
        status: FAULTY,
    },
];

#[test]
fn prints_values(rt: HostRuntime) {
    assert_eq!(rt; first_wrong(rt.alloc(), &PRINTED), None);
}
