//! Deffacts, reset and clear, and the mark of a fault, which stays.
use super::*;

const GROUPS: [Row; 6] = [
    // With a comment or without one, under any name.
    Row {
        steps: &[
            (b"(deffacts d)", b""),
            (b"(deffacts d \"a comment\")", b""),
            (b"(deffacts d \"a comment\" (a) (b 1))", b""),
            (b"(deffacts assert (a))", b""),
            (b"(reset)", b""),
            (
                b"(facts)",
                b"f-1     (a)\nf-2     (b 1)\nFor a total of 2 facts.\n",
            ),
        ],
        status: DONE,
    },
    // A deffacts that is refused leaves the old one.
    Row {
        steps: &[
            (b"(deffacts a (x))", b""),
            (b"(deffacts a (test))", CB09),
            (b"(reset)", b""),
            (b"(facts)", b"f-1     (x)\nFor a total of 1 fact.\n"),
        ],
        status: FAULTY,
    },
    // A fact that stands twice is asserted once.
    Row {
        steps: &[
            (b"(deffacts a (x) (y) (x))", b""),
            (b"(deffacts b \"c\" (x) (z))", b""),
            (b"(reset)", b""),
            (
                b"(facts)",
                b"f-1     (x)\nf-2     (y)\nf-3     (z)\nFor a total of 3 facts.\n",
            ),
        ],
        status: DONE,
    },
    // A fact of a template.
    Row {
        steps: &[
            (b"(deftemplate p (slot q))", b""),
            (b"(deffacts d (p))", b""),
            (b"(reset)", b""),
            (b"(facts)", b"f-1     (p (q nil))\nFor a total of 1 fact.\n"),
        ],
        status: DONE,
    },
    // After a reset the indices begin at 1.
    Row {
        steps: &[
            (b"(assert (a))", b"<Fact-1>\n"),
            (b"(reset)", b""),
            (b"(facts)", b""),
            (b"(assert (b))", b"<Fact-1>\n"),
        ],
        status: DONE,
    },
    // After a clear too, and there are no deffacts.
    Row {
        steps: &[
            (b"(deffacts d (a))", b""),
            (b"(reset)", b""),
            (b"(clear)", b""),
            (b"(facts)", b""),
            (b"(reset)", b""),
            (b"(facts)", b""),
            (b"(assert (b))", b"<Fact-1>\n"),
        ],
        status: DONE,
    },
];

#[test]
fn resets_and_clears(rt: HostRuntime) {
    assert_eq!(rt; first_wrong(rt.alloc(), &GROUPS), None);
}

const MARKS: [Row; 4] = [
    Row {
        steps: &[(b"(clear)", b""), (b"(reset)", b"")],
        status: DONE,
    },
    Row {
        steps: &[(b"(retract 1)", CB20)],
        status: FAULTY,
    },
    Row {
        steps: &[(b"(retract 1)", CB20), (b"(clear)", b"")],
        status: FAULTY,
    },
    Row {
        steps: &[(b"(retract 1)", CB20), (b"(clear)", b""), (b"(reset)", b"")],
        status: FAULTY,
    },
];

#[test]
fn remembers_faults(rt: HostRuntime) {
    assert_eq!(rt; first_wrong(rt.alloc(), &MARKS), None);
}
