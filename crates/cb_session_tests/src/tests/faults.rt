//! The first fault of a form, by `docs/LANGUAGE.md`, "Faults".
use super::*;

const FAULTS: [Row; 3] = [
    Row {
        steps: &[
            (b"(assert a)", CB09),
            (b"(assert ())", CB09),
            (b"(assert (1 a))", CB09),
            (b"(assert (forall a))", CB09),
            (b"(assert (logical))", CB09),
            (b"(assert (object 1))", CB09),
            (b"(assert b (a ?x))", CB09),
            (b"(assert (a ?x) b)", CB11),
            (b"(assert (a ?*g* ?x))", CB12),
            (b"(assert (a ()))", CB08),
            (b"(assert (a (b)))", CB06),
            (b"(assert (a (facts)))", CB14),
            (b"(assert (a = (b)))", CB14),
            (b"(assert (a ?x = (b)))", CB11),
            (b"(facts)", b""),
        ],
        status: FAULTY,
    },
    Row {
        steps: &[
            (b"(retract 1 ?x)", CB11),
            (b"(retract ?*g* ?x)", CB12),
            (b"(retract ?)", CB08),
            (b"(retract ())", CB08),
            (b"(retract (a))", CB06),
            (b"(retract (facts))", CB14),
        ],
        status: FAULTY,
    },
    Row {
        steps: &[
            (b"(deffacts)", CB08),
            (b"(deffacts \"c\" (a))", CB08),
            (b"(deffacts (a))", CB08),
            (b"(deffacts d a)", CB09),
            (b"(deffacts d \"c\" \"c\")", CB09),
            (b"(deffacts d \"c\" (test))", CB09),
            (b"(deffacts d (a) \"c\")", CB09),
            (b"(deffacts d (a ?x))", CB11),
            (b"(deffacts d (a = (b)))", CB14),
            (b"(deftemplate logical)", CB08),
            (b"(deftemplate object (slot a))", CB08),
            (b"(reset)", b""),
            (b"(facts)", b""),
        ],
        status: FAULTY,
    },
];

#[test]
fn tells_the_first_fault(rt: HostRuntime) {
    assert_eq!(rt; first_wrong(rt.alloc(), &FAULTS), None);
}
