//! Facts that are modified.
use super::rows::*;

static MODIFY_ROWS: [Row; 8] = [
    Row {
        name: "a fact that gets other values",
        steps: &[
            (b"(deftemplate c (slot n (default 0)) (multislot t))", b""),
            (b"(assert (c) (c (n 1)))", b"<Fact-2>\n"),
            (b"(modify 1 (n 5) (t x y))", b"<Fact-1>\n"),
            (b"(modify 1 (n 5))", b"<Fact-1>\n"),
            (b"(modify 2 (n 5) (t x y))", b"FALSE\n"),
            (b"(modify 9)", CB20),
            (
                b"(facts)",
                b"f-1     (c (n 5) (t x y))\nf-2     (c (n 1) (t))\nFor a total of 2 facts.\n",
            ),
        ],
        ..FAULTY
    },
    Row {
        name: "what is told of the slots",
        steps: &[
            (b"(deftemplate c (slot n))", b""),
            (b"(assert (c (n 1)))", b"<Fact-1>\n"),
            (b"(modify 1 (m 2))", CB09),
            (b"(modify a (n 2))", CB17),
            (b"(modify 1 (n 1 2))", CB09),
            (
                b"(modify 1 (n (create$ 1 2)))",
                b"[CB22] one value wanted\n",
            ),
            (b"(modify)", CB07),
        ],
        ..FAULTY
    },
    Row {
        name: "the lines of both changes",
        steps: &[
            (b"(deftemplate c (slot n))", b""),
            (b"(watch all)", b""),
            (b"(defrule r (c (n ?x)) (not (c (n 9))) =>)", b""),
            (
                b"(assert (c (n 1)))",
                b"==> f-1     (c (n 1))\n==> Activation 0      r: f-1,*\n<Fact-1>\n",
            ),
            (
                b"(modify 1 (n 2))",
                b"<== f-1     (c (n 1))\n<== Activation 0      r: f-1,*\n==> f-1     (c (n 2))\n==> Activation 0      r: f-1,*\n<Fact-1>\n",
            ),
        ],
        ..CLEAN
    },
    Row {
        name: "a rule that modifies the fact that it fired for",
        steps: &[
            (b"(deftemplate c (slot n))", b""),
            (
                b"(defrule l ?f <- (c (n ?x&:(< ?x 3))) => (modify ?f (n (+ ?x 1))) (printout t ?x crlf))",
                b"",
            ),
            (b"(assert (c (n 0)))", b"<Fact-1>\n"),
            (b"(run)", b"0\n1\n2\n"),
            (b"(facts)", b"f-1     (c (n 3))\nFor a total of 1 fact.\n"),
        ],
        ..CLEAN
    },
    Row {
        name: "a fact that a `not` speaks of",
        steps: &[
            (b"(deftemplate c (slot n) (slot k))(watch activations)", b""),
            (b"(defrule r (a ?x) (not (c (n ?x))) =>)", b""),
            (
                b"(assert (a 1) (c (n 1)))",
                b"==> Activation 0      r: f-1,*\n<== Activation 0      r: f-1,*\n<Fact-2>\n",
            ),
            (
                b"(modify 2 (n 2))",
                b"==> Activation 0      r: f-1,*\n<Fact-2>\n",
            ),
            (b"(modify 2 (k 7))", b"<Fact-2>\n"),
            (
                b"(modify 2 (n 1))",
                b"<== Activation 0      r: f-1,*\n<Fact-2>\n",
            ),
        ],
        ..CLEAN
    },
    Row {
        name: "a `forall` over facts that are modified",
        steps: &[
            (b"(deftemplate c (slot n) (slot d))", b""),
            (
                b"(defrule f (forall (c (n ?n)) (c (n ?n) (d y))) => (println all))",
                b"",
            ),
            (b"(assert (c))", b"<Fact-1>\n"),
            (b"(run)", b""),
            (b"(modify 1 (d y))", b"<Fact-1>\n"),
            (b"(run)", b"all\n"),
        ],
        ..CLEAN
    },
    Row {
        name: "a value that is missing",
        steps: &[
            (b"(deftemplate c (slot n))(assert (c))", b"<Fact-1>\n"),
            (b"(modify 1 (n (print \"x\")))", b"x[CB17] wrong type\n"),
            (
                b"(modify (print \"y\") (n (print \"z\")))",
                b"y[CB17] wrong type\n",
            ),
        ],
        ..FAULTY
    },
    Row {
        name: "a loop in a slot",
        steps: &[
            (b"(deftemplate c (slot n))(assert (c))", b"<Fact-1>\n"),
            (b"(modify 1 (n (while (neq 2 (bind ?i 2)))))", b"<Fact-1>\n"),
            (b"(modify 1 (n (while (print x))))", b"x[CB17] wrong type\n"),
            (b"(modify 1 (n (while TRUE)))", CB93),
        ],
        max_turns: 4,
        ..LIMITED
    },
];

/// Facts that are modified.
pub(super) fn modify_rows() -> &'static [Row] {
    &MODIFY_ROWS
}
