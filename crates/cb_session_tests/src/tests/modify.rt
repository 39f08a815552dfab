//! Facts that are modified.
use super::*;

const MODIFIED: [Row; 7] = [
    // What is not named stays. What changes nothing has the address, and what is equal to another fact FALSE.
    Row {
        steps: &[
            (b"(deftemplate c (slot n (default 0)) (multislot t))", b""),
            (b"(assert (c) (c (n 1)))", b"<Fact-2>\n"),
            (b"(modify 1 (n 5) (t x y))", b"<Fact-1>\n"),
            (b"(modify 1 (n 5))", b"<Fact-1>\n"),
            (b"(modify 2 (n 5) (t x y))", b"FALSE\n"),
            (b"(modify 9)", CB20),
            (
                b"(facts)",
                b"f-1     (c (n 5) (t x y))\nf-2     (c (n 1) (t))\nFor a total of 2 facts.\n",
            ),
        ],
        status: FAULTY,
    },
    // The lines of both changes.
    Row {
        steps: &[
            (b"(deftemplate c (slot n))", b""),
            (b"(watch all)", b""),
            (b"(defrule r (c (n ?x)) (not (c (n 9))) =>)", b""),
            (
                b"(assert (c (n 1)))",
                b"==> f-1     (c (n 1))\n==> Activation 0      r: f-1,*\n<Fact-1>\n",
            ),
            (
                b"(modify 1 (n 2))",
                b"<== f-1     (c (n 1))\n<== Activation 0      r: f-1,*\n==> f-1     (c (n 2))\n==> Activation 0      r: f-1,*\n<Fact-1>\n",
            ),
        ],
        status: DONE,
    },
    // The first fault.
    Row {
        steps: &[
            (b"(deftemplate c (slot n))", b""),
            (b"(assert (c (n 1)))", b"<Fact-1>\n"),
            (b"(modify 1 (m 2))", CB09),
            (b"(modify a (n 2))", CB17),
            (b"(modify 1 (n 1 2))", CB09),
            (b"(modify)", CB07),
            (b"(modify 1 (n (div 1 0)))", CB19),
            (b"(modify 2 (m (div 1 0)))", CB19),
            (b"(modify 2 (m 1))", CB20),
            (b"(modify 1 n)", CB09),
            (b"(modify 1 (n 1) (n (bogus)))", CB09),
            (b"(modify 1 (n = (f)))", CB14),
        ],
        status: FAULTY,
    },
    // Where it may not stand.
    Row {
        steps: &[
            (b"(defrule r (test (modify 1)) =>)", CB13),
            (b"(defglobal ?*a* = (modify 1))", CB14),
            (b"(deffacts d (c (modify 1)))", CB14),
            (b"(defrule r (declare (salience (modify 1))) =>)", CB14),
        ],
        status: FAULTY,
    },
    // A rule that modifies the fact that it fired for.
    Row {
        steps: &[
            (b"(deftemplate c (slot n))", b""),
            (
                b"(defrule l ?f <-(c(n ?x&:(< ?x 3)))=>(modify ?f(n(+ ?x 1))))",
                b"",
            ),
            (b"(watch rules)", b""),
            (b"(assert (c (n 0)))", b"<Fact-1>\n"),
            (
                b"(run)",
                b"FIRE    1 l: f-1\nFIRE    2 l: f-1\nFIRE    3 l: f-1\n",
            ),
            (b"(facts)", b"f-1     (c (n 3))\nFor a total of 1 fact.\n"),
        ],
        status: DONE,
    },
    // A template that is used through `modify` alone.
    Row {
        steps: &[
            (b"(deftemplate c (slot n) (multislot t))", b""),
            (b"(assert (c (n 1)))", b"<Fact-1>\n"),
            (b"(defrule r (go) => (modify 1 (n 5)))", b""),
            (b"(deftemplate c (slot m))", CB23),
            (b"(retract 1)", b""),
            (b"(deftemplate c (slot m))", b""),
            (b"(assert (c))", b"<Fact-2>\n"),
            (b"(modify 2 (n 1))", CB09),
            (b"(modify 2 (m 1))", b"<Fact-2>\n"),
            (b"(facts)", b"f-2     (c (m 1))\nFor a total of 1 fact.\n"),
        ],
        status: FAULTY,
    },
    // Indices begin anew.
    Row {
        steps: &[
            (b"(deftemplate c (slot n) (multislot t))", b""),
            (b"(assert (c))", b"<Fact-1>\n"),
            (b"(modify 1 (n 2))", b"<Fact-1>\n"),
            (b"(reset)", b""),
            (b"(modify 1 (n 3))", CB20),
            (b"(assert (c (n 3)))", b"<Fact-1>\n"),
            (b"(assert (c (n 4)))", b"<Fact-2>\n"),
            (b"(modify 1 (n 4))", b"FALSE\n"),
        ],
        status: FAULTY,
    },
];

#[test]
fn modifies_facts(rt: HostRuntime) {
    assert_eq!(rt; first_wrong(rt.alloc(), &MODIFIED), None);
}
