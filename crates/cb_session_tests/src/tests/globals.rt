//! Globals, and what a reset does with them.
use super::*;

const GLOBALS: [Row; 5] = [
    // The shape of a global comes before its expression, and each global before the next.
    Row {
        steps: &[
            (b"(defglobal ?*a*)", CB08),
            (b"(defglobal ?*a* = )", CB08),
            (b"(defglobal ?*a* 1)", CB08),
            (b"(defglobal a = 1)", CB08),
            (b"(defglobal ?*a* == (bogus))", CB08),
            (b"(defglobal ?*a* = (bogus) ?*b*)", CB06),
            (b"(defglobal ?*a* = ?x ?*b* 1)", CB11),
            (b"(defglobal ?*a* = ?*b* ?*b* = 1)", CB12),
            (b"(defglobal ?*a* = (bind ?x 1))", CB14),
            (b"?*a* ", CB12),
        ],
        status: FAULTY,
    },
    // A later global of a form sees the earlier ones, and none stays where one ends with a fault.
    Row {
        steps: &[
            (b"(defglobal ?*a* = 1 ?*b* = (+ ?*a* 1))", b""),
            (b"?*b* ", b"2\n"),
            (b"(defglobal ?*a* = 5 ?*c* = (div ?*a* 0))", CB19),
            (b"?*a* ", b"1\n"),
            (b"?*c* ", CB12),
            (b"(defglobal ?*c* = 1 ?*c* = (div 1 0))", CB19),
            (b"?*c* ", CB12),
        ],
        status: FAULTY,
    },
    // A global that is defined anew stays at its place, so a reset gives it its value before those after it.
    Row {
        steps: &[
            (b"(defglobal ?*a* = 1 ?*b* = (+ ?*a* 1))", b""),
            (b"(defglobal ?*a* = 10)", b""),
            (b"(bind ?*a* 3)(bind ?*b* 3)", b"3\n3\n"),
            (b"(reset)", b""),
            (b"?*a* ?*b* ", b"10\n11\n"),
        ],
        status: DONE,
    },
    // A reset that ends with a fault at a global leaves the facts and the variables, and the globals before it have their
    // initial values.
    Row {
        steps: &[
            (b"(defglobal ?*d* = 1 ?*a* = 2)", b""),
            (b"(defglobal ?*c* = (div 4 ?*d*) ?*e* = 3)", b""),
            (b"(defglobal ?*d* = 0)(bind ?*d* 2)", b"2\n"),
            (b"(bind ?*a* 7)(bind ?*e* 8)(bind ?x 9)", b"7\n8\n9\n"),
            (b"(assert (f))(assert (g))", b"<Fact-1>\n<Fact-2>\n"),
            (b"(reset)", CB19),
            (b"?*d* ?*a* ?*c* ?*e* ?x ", b"0\n2\n4\n8\n9\n"),
            (
                b"(facts)",
                b"f-1     (f)\nf-2     (g)\nFor a total of 2 facts.\n",
            ),
        ],
        status: FAULTY,
    },
    // One that ends with a fault at a fact has dropped the variables and the facts, and asserted those before it.
    Row {
        steps: &[
            (b"(defglobal ?*d* = 0)(bind ?x 9)", b"9\n"),
            (b"(deffacts a (f 1) (f (div 1 ?*d*)) (f 2))", b""),
            (b"(deffacts b (f 3))", b""),
            (b"(assert (g))", b"<Fact-1>\n"),
            (b"(reset)", CB19),
            (b"(facts)", b"f-1     (f 1)\nFor a total of 1 fact.\n"),
            (b"?x ", CB11),
        ],
        status: FAULTY,
    },
];

#[test]
fn defines_and_resets_globals(rt: HostRuntime) {
    assert_eq!(rt; first_wrong(rt.alloc(), &GLOBALS), None);
}
