//! Facts that are retracted.
use super::*;

const RETRACTED: [Row; 6] = [
    Row {
        steps: &[
            (b"(assert (a))", b"<Fact-1>\n"),
            (b"(retract 1 1)", CB20),
            (b"(facts)", b""),
        ],
        status: FAULTY,
    },
    Row {
        steps: &[
            (b"(assert (a) (b) (c))", b"<Fact-3>\n"),
            (b"(retract 1 7 2)", CB20),
            (
                b"(facts)",
                b"f-2     (b)\nf-3     (c)\nFor a total of 2 facts.\n",
            ),
        ],
        status: FAULTY,
    },
    Row {
        steps: &[
            (b"(assert (a))", b"<Fact-1>\n"),
            (b"(retract 7 \"*\")", CB17),
            (b"(retract \"*\")", CB17),
            (b"(retract -1 * \"a\" 1)", CB17),
            (b"(facts)", b"f-1     (a)\nFor a total of 1 fact.\n"),
        ],
        status: FAULTY,
    },
    Row {
        steps: &[
            (b"(assert (a))", b"<Fact-1>\n"),
            (b"(retract * 1)", CB20),
            (b"(facts)", b""),
        ],
        status: FAULTY,
    },
    Row {
        steps: &[
            (b"(retract *)", b""),
            (b"(retract 0)", CB20),
            (b"(retract -1)", CB20),
            (b"(assert (a))", b"<Fact-1>\n"),
            (b"(retract -1)", CB20),
            (b"(facts)", b"f-1     (a)\nFor a total of 1 fact.\n"),
        ],
        status: FAULTY,
    },
    Row {
        steps: &[
            (b"(assert (a) (b))", b"<Fact-2>\n"),
            (b"(retract 1)", b""),
            (b"(assert (b))", b"<Fact-2>\n"),
            (b"(assert (a))", b"<Fact-3>\n"),
        ],
        status: DONE,
    },
];

#[test]
fn retracts_facts(rt: HostRuntime) {
    assert_eq!(rt; first_wrong(rt.alloc(), &RETRACTED), None);
}
