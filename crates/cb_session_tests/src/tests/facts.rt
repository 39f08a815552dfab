//! Facts that are asserted and listed, and values that are shown.
use super::*;

const FACTS: [Row; 6] = [
    // Of no facts nothing is listed.
    Row {
        steps: &[
            (b"(facts) ", b""),
            (b"abc ", b"abc\n"),
            (b"\"a\\\"b\"", b"\"a\\\"b\"\n"),
            (b" \"a b\"", b"\"a b\"\n"),
            (b" -5 ", b"-5\n"),
        ],
        status: DONE,
    },
    // A fact that is there already keeps its index, and `assert` shows the last one's.
    Row {
        steps: &[
            (b"(assert (color red) (size 7 \"b\"))", b"<Fact-2>\n"),
            (b"(assert (a \"x\" -7) (b))", b"<Fact-4>\n"),
            (b"(assert (c) (b))", b"<Fact-4>\n"),
            (
                b"(facts)",
                b"f-1     (color red)\nf-2     (size 7 \"b\")\nf-3     (a \"x\" -7)\nf-4     (b)\nf-5     (c)\nFor a total of 5 facts.\n",
            ),
        ],
        status: DONE,
    },
    // An index stands in six places, with the `f-` before it.
    Row {
        steps: &[
            (b"(assert (a) (b) (c) (d) (e))", b"<Fact-5>\n"),
            (b"(assert (f) (g) (h) (i) (j))", b"<Fact-10>\n"),
            (
                b"(facts)",
                b"f-1     (a)\nf-2     (b)\nf-3     (c)\nf-4     (d)\nf-5     (e)\nf-6     (f)\nf-7     (g)\nf-8     (h)\nf-9     (i)\nf-10    (j)\nFor a total of 10 facts.\n",
            ),
        ],
        status: DONE,
    },
    // A fact in a slot is listed by its address.
    Row {
        steps: &[
            (b"(deftemplate t (slot a))", b""),
            (b"(assert (t (a (assert (b)))))", b"<Fact-2>\n"),
            (
                b"(facts)",
                b"f-1     (b)\nf-2     (t (a <Fact-1>))\nFor a total of 2 facts.\n",
            ),
        ],
        status: DONE,
    },
    // `=` is a field unless a list follows it.
    Row {
        steps: &[
            (b"(assert (a = 1 =) (=))", b"<Fact-2>\n"),
            (
                b"(facts)",
                b"f-1     (a = 1 =)\nf-2     (=)\nFor a total of 2 facts.\n",
            ),
        ],
        status: DONE,
    },
    // A fault in the last fact: none is asserted.
    Row {
        steps: &[
            (b"(assert (a) b)", CB09),
            (b"(run)", b""),
            (b"(facts)", b""),
        ],
        status: FAULTY,
    },
];

#[test]
fn asserts_and_lists(rt: HostRuntime) {
    assert_eq!(rt; first_wrong(rt.alloc(), &FACTS), None);
}
