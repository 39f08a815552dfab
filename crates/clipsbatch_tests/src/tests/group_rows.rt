//! Rules with groups and with branches.
use super::rows::*;

static GROUP_ROWS: [Row; 11] = [
    // The match comes anew when the fact is gone, and fires again.
    Row {
        name: "a fact that is not there",
        steps: &[
            (b"(defrule n (not (stop)) => (printout t \"go\" crlf))", b""),
            (b"(run)", b"go\n"),
            (b"(run)", b""),
            (b"(assert (stop))", b"<Fact-1>\n"),
            (b"(retract 1)", b""),
            (b"(run)", b"go\n"),
        ],
        ..CLEAN
    },
    Row {
        name: "two facts that are not there together",
        steps: &[
            (
                b"(defrule g (not (and (a ?x) (b ?x))) => (printout t \"none\" crlf))",
                b"",
            ),
            (b"(assert (a 1))", b"<Fact-1>\n"),
            (b"(assert (b 1))", b"<Fact-2>\n"),
            (b"(run)", b""),
        ],
        ..CLEAN
    },
    Row {
        name: "a rule of two branches",
        steps: &[
            (b"(defrule o (or (a) (b)) => (printout t \"x\" crlf))", b""),
            (b"(assert (a) (b))", b"<Fact-2>\n"),
            (b"(run)", b"x\nx\n"),
        ],
        ..CLEAN
    },
    Row {
        name: "activations that a fact takes away",
        steps: &[
            (b"(watch activations)", b""),
            (b"(defrule m (a ?x) (not (b ?x)) =>)", b""),
            (
                b"(assert (a 1) (a 2))",
                b"==> Activation 0      m: f-1,*\n==> Activation 0      m: f-2,*\n<Fact-2>\n",
            ),
            (
                b"(assert (b 1))",
                b"<== Activation 0      m: f-1,*\n<Fact-3>\n",
            ),
        ],
        ..CLEAN
    },
    Row {
        name: "two facts that have one value",
        steps: &[
            (
                b"(defrule x (exists (a ?n) (b ?n)) => (printout t yes crlf))",
                b"",
            ),
            (b"(assert (a 1) (b 2))", b"<Fact-2>\n"),
            (b"(run)", b""),
            (b"(assert (a 2))", b"<Fact-3>\n"),
            (b"(assert (b 1))", b"<Fact-4>\n"),
            (b"(run)", b"yes\n"),
        ],
        ..CLEAN
    },
    Row {
        name: "a fact that is not there between two others",
        steps: &[
            (
                b"(defrule m (a ?x) (not (b ?x)) (c ?x) => (printout t ?x crlf))",
                b"",
            ),
            (b"(assert (a 1) (a 2) (c 1) (c 2) (b 2))", b"<Fact-5>\n"),
            (b"(run)", b"1\n"),
            (b"(retract 5)", b""),
            (b"(run)", b"2\n"),
        ],
        ..CLEAN
    },
    Row {
        name: "a test in a group",
        steps: &[
            (
                b"(defrule g (not (and (n ?x) (test (> ?x 3)))) => (printout t small crlf))",
                b"",
            ),
            (b"(assert (n 2))", b"<Fact-1>\n"),
            (b"(run)", b"small\n"),
            (b"(assert (n 9))", b"<Fact-2>\n"),
            (b"(retract 2)", b""),
            (b"(run)", b"small\n"),
        ],
        ..CLEAN
    },
    Row {
        name: "a variable of each branch",
        steps: &[
            (
                b"(defrule o (or (p ?x) (q ?x)) => (printout t ?x crlf))",
                b"",
            ),
            (b"(assert (p 1) (q 2))", b"<Fact-2>\n"),
            (b"(run)", b"2\n1\n"),
        ],
        ..CLEAN
    },
    Row {
        name: "a group in a group",
        steps: &[
            (b"(defrule n (not (not (a))) => (printout t x crlf))", b""),
            (b"(run)", b""),
            (b"(assert (a))", b"<Fact-1>\n"),
            (b"(run)", b"x\n"),
        ],
        ..CLEAN
    },
    Row {
        name: "what holds for all",
        steps: &[
            (
                b"(defrule f (forall (task ?t) (done ?t)) => (printout t all crlf))",
                b"",
            ),
            (b"(run)", b"all\n"),
            (b"(assert (task 1))", b"<Fact-1>\n"),
            (b"(assert (done 1))", b"<Fact-2>\n"),
            (b"(run)", b"all\n"),
            (b"(assert (task 2))", b"<Fact-3>\n"),
            (b"(run)", b""),
            (b"(retract 3)", b""),
            (b"(run)", b"all\n"),
        ],
        ..CLEAN
    },
    Row {
        name: "what may not stand in a group",
        steps: &[
            (b"(defrule a (forall (a)) =>)", CB08),
            (b"(defrule b (not (or (a) (b))) =>)", CB14),
        ],
        ..FAULTY
    },
];

static GROUP_CHANGES: [Row; 5] = [
    Row {
        name: "a join whose second pattern's fact is older",
        steps: &[
            (b"(watch activations)", b""),
            (b"(defrule w (a ?x) (b ?y&:(> ?x ?y)) =>)", b""),
            (b"(assert (b 1))", b"<Fact-1>\n"),
            (
                b"(assert (a 2))",
                b"==> Activation 0      w: f-2,f-1\n<Fact-2>\n",
            ),
        ],
        ..CLEAN
    },
    Row {
        name: "a `not` in the middle that opens",
        steps: &[
            (b"(watch activations)", b""),
            (b"(defrule m (a ?x) (not (b ?x)) (c ?x) =>)", b""),
            (b"(assert (b 1) (c 1) (c 2) (a 1))", b"<Fact-4>\n"),
            (b"(retract 1)", b"==> Activation 0      m: f-4,*,f-2\n"),
        ],
        ..CLEAN
    },
    Row {
        name: "a fact that closes one group and opens another",
        steps: &[
            (b"(watch activations)", b""),
            (
                b"(defrule z (a ?x) (not (c ?x)) (exists (c ?)) (c ?y) =>)",
                b"",
            ),
            (b"(assert (a 1) (a 2))", b"<Fact-2>\n"),
            (
                b"(assert (c 1))",
                b"==> Activation 0      z: f-2,*,*,f-3\n<Fact-3>\n",
            ),
            (
                b"(assert (c 2))",
                b"<== Activation 0      z: f-2,*,*,f-3\n<Fact-4>\n",
            ),
            (b"(retract 3)", b"==> Activation 0      z: f-1,*,*,f-4\n"),
        ],
        ..CLEAN
    },
    Row {
        name: "a `not` of a fact that fits in two ways",
        steps: &[
            (
                b"(defrule v (not (d $? x $?)) => (printout t none crlf))",
                b"",
            ),
            (b"(assert (d x x) (d x))", b"<Fact-2>\n"),
            (b"(retract 1)", b""),
            (b"(run)", b""),
            (b"(retract 2)", b""),
            (b"(run)", b"none\n"),
        ],
        ..CLEAN
    },
    Row {
        name: "a group in a group that opens the outer one again",
        steps: &[
            (b"(watch activations)", b""),
            (
                b"(defrule g (p ?x) (not (and (q ?x ?y) (not (r ?y)))) =>)",
                b"",
            ),
            (
                b"(assert (p 1))",
                b"==> Activation 0      g: f-1,*\n<Fact-1>\n",
            ),
            (
                b"(assert (q 1 5))",
                b"<== Activation 0      g: f-1,*\n<Fact-2>\n",
            ),
            (
                b"(assert (r 5))",
                b"==> Activation 0      g: f-1,*\n<Fact-3>\n",
            ),
            (b"(retract 2)", b""),
        ],
        ..CLEAN
    },
];

/// Groups of patterns and tests, and branches.
pub(super) fn group_rows() -> &'static [Row] {
    &GROUP_ROWS
}

/// What facts that come and go do to groups.
pub(super) fn group_changes() -> &'static [Row] {
    &GROUP_CHANGES
}
