//! Variables, branches and loops.
use super::*;

const LOOPS: [Row; 3] = [
    // Three turns in all, and `reset` and `clear` give none back.
    Row {
        steps: &[
            (b"(bind ?i 0)", b"0\n"),
            (b"(while (< ?i 2) do (bind ?i (+ ?i 1)))", b"FALSE\n"),
            (b"(while FALSE)", b"FALSE\n"),
            (b"?i ", b"2\n"),
            (b"(reset)(clear)", b""),
            (b"(bind ?i 2)", b"2\n"),
            (b"(while (< ?i 3) do (bind ?i (+ ?i 1)))", b"FALSE\n"),
        ],
        status: DONE,
    },
    // A variable is known where a `bind` of the item names it, and has a value only once it was carried out.
    Row {
        steps: &[
            (b"(if TRUE then (bind ?x 1) ?x)", b"1\n"),
            (b"(if FALSE then (bind ?y 1) else ?y)", CB11),
            (b"(print ?z)", CB11),
            (
                b"(if TRUE then (print a) ?z (bind ?z 1))",
                b"a[CB11] unbound variable\n",
            ),
            (b"(if nil then 1 else 2)", b"1\n"),
            (b"(if FALSE then 1)", b"FALSE\n"),
        ],
        status: FAULTY,
    },
    // What was done and written before a fault stands.
    Row {
        steps: &[
            (b"(assert (a) (b (div 1 0)) (c))", CB19),
            (b"(print 1 (print 2))", b"2[CB17] wrong type\n"),
            (b"(println (bind ?x 4) (div ?x 0))", CB19),
            (b"?x ", b"4\n"),
            (b"(facts)", b"f-1     (a)\nFor a total of 1 fact.\n"),
        ],
        status: FAULTY,
    },
];

#[test]
fn branches_and_goes_round(rt: HostRuntime) {
    assert_eq!(rt; first_wrong(rt.alloc(), &LOOPS), None);
}
