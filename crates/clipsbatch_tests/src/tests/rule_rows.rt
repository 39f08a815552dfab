//! Rules: how they fire, and what is refused when they are defined.
use super::rows::*;

static FIRING_ROWS: [Row; 12] = [
    // Under depth the rule that was defined last fires first.
    Row {
        name: "two rules that one fact activates",
        steps: &[
            (b"(defrule a (go) => (printout t a crlf))", b""),
            (b"(defrule b (go) => (printout t b crlf))", b""),
            (b"(assert (go))", b"<Fact-1>\n"),
            (b"(run)", b"b\na\n"),
        ],
        ..CLEAN
    },
    Row {
        name: "two ways of one pattern",
        steps: &[
            (
                b"(defrule r (d $?a x $?b) => (printout t ?a \"|\" ?b crlf))",
                b"",
            ),
            (b"(assert (d x x))", b"<Fact-1>\n"),
            (b"(run)", b"(x)|()\n()|(x)\n"),
        ],
        ..CLEAN
    },
    Row {
        name: "a variable before alternatives",
        steps: &[
            (b"(defrule c (p ?x&red|blue) => (printout t ?x crlf))", b""),
            (b"(assert (p blue) (p green))", b"<Fact-2>\n"),
            (b"(run)", b"blue\n"),
        ],
        ..CLEAN
    },
    // The fact comes again and again, each time with another index.
    Row {
        name: "a rule that fires without end",
        steps: &[
            (
                b"(defrule l ?f <- (n ?x) => (retract ?f) (assert (n (+ ?x 1))))",
                b"",
            ),
            (b"(assert (n 0))", b"<Fact-1>\n"),
            (b"(run)", CB92),
        ],
        max_firings: 2,
        ..LIMITED
    },
    Row {
        name: "a test with a fault",
        steps: &[
            (
                b"(defrule q (n ?x) (test (> ?x 0)) => (printout t ?x crlf))",
                b"",
            ),
            (b"(assert (n a) (n 4))", b"<Fact-2>\n"),
            (b"(run)", b"4\n"),
        ],
        ..CLEAN
    },
    // The other actions of the rule run, and another run goes on.
    Row {
        name: "a halt before another action",
        steps: &[
            (b"(defrule k (a) => (printout t \"k\" crlf))", b""),
            (b"(defrule h (a) => (halt) (printout t \"x\" crlf))", b""),
            (b"(assert (a))", b"<Fact-1>\n"),
            (b"(run)", b"x\n"),
            (b"(printout t \"-\" crlf)", b"-\n"),
            (b"(run)", b"k\n"),
        ],
        ..CLEAN
    },
    Row {
        name: "saliences",
        steps: &[
            (
                b"(defrule lo (declare (salience -5)) (a) => (printout t lo crlf))",
                b"",
            ),
            (
                b"(defrule hi (declare (salience (* 2 5))) (a) => (printout t hi crlf))",
                b"",
            ),
            (b"(assert (a))", b"<Fact-1>\n"),
            (b"(run 1)", b"hi\n"),
            (b"(printout t - crlf)", b"-\n"),
            (b"(run)", b"lo\n"),
        ],
        ..CLEAN
    },
    // It fires again after a reset.
    Row {
        name: "a rule without elements",
        steps: &[
            (b"(defrule e => (printout t e crlf))", b""),
            (b"(run)", b"e\n"),
            (b"(run)", b""),
            (b"(reset)", b""),
            (b"(run)", b"e\n"),
        ],
        ..CLEAN
    },
    Row {
        name: "an address of a fact that is gone",
        steps: &[
            (
                b"(defrule j ?f <- (a ?x) (b ?x) => (retract ?f) (printout t ?f crlf))",
                b"",
            ),
            (b"(assert (a 1) (b 1) (b 2))", b"<Fact-3>\n"),
            (b"(run)", b"<Fact-1>\n"),
        ],
        ..CLEAN
    },
    // All runs of a script have the firings together.
    Row {
        name: "firings of several runs",
        steps: &[
            (b"(defrule r (n ?x) => (printout t ?x crlf))", b""),
            (b"(assert (n 1) (n 2) (n 3))", b"<Fact-3>\n"),
            (b"(run 1)", b"3\n"),
            (b"(run 1)", b"2\n"),
            (b"(run 0)", b""),
            (b"(run 1)", CB92),
        ],
        max_firings: 2,
        ..LIMITED
    },
    // None is due while the agenda is empty, or where no firing is asked for.
    Row {
        name: "firings that are not due",
        steps: &[
            (b"(run)", b""),
            (b"(defrule r (a) =>)", b""),
            (b"(assert (a))", b"<Fact-1>\n"),
            (b"(run 0)", b""),
            (b"(run)", CB92),
        ],
        max_firings: 0,
        ..LIMITED
    },
    // What was done before stays, and the run ends.
    Row {
        name: "a fault in an action",
        steps: &[
            (
                b"(defrule f (a) => (printout t \"1\" crlf) (div 1 0) (printout t \"2\" crlf))",
                b"",
            ),
            (b"(assert (a))", b"<Fact-1>\n"),
            (b"(run)", b"1\n[CB19] division by zero\n"),
            (b"(agenda)", b""),
        ],
        ..FAULTY
    },
];

static RULE_ROWS: [Row; 8] = [
    Row {
        name: "a salience out of range",
        steps: &[(b"(defrule s (declare (salience 10001)) (a) =>)", CB16)],
        ..FAULTY
    },
    // It leaves the old one of its name as it was.
    Row {
        name: "a faulty rule",
        steps: &[
            (b"(defrule r (a) => (printout t one crlf))", b""),
            (
                b"(defrule r (a) (test (> ?z 0)) => (printout t two crlf))",
                CB11,
            ),
            (b"(assert (a))", b"<Fact-1>\n"),
            (b"(run)", b"one\n"),
        ],
        ..FAULTY
    },
    // It fires again for the facts for which the old one has fired.
    Row {
        name: "a rule that is defined again",
        steps: &[
            (b"(assert (a))", b"<Fact-1>\n"),
            (b"(defrule r (a) => (printout t one crlf))", b""),
            (b"(run)", b"one\n"),
            (b"(defrule r (a) => (printout t two crlf))", b""),
            (b"(run)", b"two\n"),
        ],
        ..CLEAN
    },
    Row {
        name: "a relation that a rule uses",
        steps: &[
            (b"(defrule r (k ?x) =>)", b""),
            (b"(deftemplate k (slot v))", CB23),
        ],
        ..FAULTY
    },
    Row {
        name: "a global in a test",
        steps: &[
            (b"(defglobal ?*k* = 1)", b""),
            (b"(defrule r (a) (test (> ?*k* 0)) =>)", CB13),
            (b"(rules)", b""),
        ],
        ..FAULTY
    },
    Row {
        name: "variables without a value",
        steps: &[
            (b"(defrule z (r ?x|red) =>)", CB11),
            (b"(defrule z (r ~?x) =>)", CB11),
            (b"(defrule z (r =(+ ?y 1)) =>)", CB11),
        ],
        ..FAULTY
    },
    Row {
        name: "checks that are missing",
        steps: &[
            (b"(defrule z (r ?&red) =>)", CB08),
            (b"(defrule z (r ~~red) =>)", CB08),
            (b"(defrule z (r red|) =>)", CB08),
        ],
        ..FAULTY
    },
    Row {
        name: "a list in a pattern",
        steps: &[(b"(defrule z (r (x)) =>)", CB09)],
        ..FAULTY
    },
];

/// Rules that fire, and what ends a run.
pub(super) fn firing_rows() -> &'static [Row] {
    &FIRING_ROWS
}

/// Rules that are refused, replaced or in the way of a template.
pub(super) fn rule_rows() -> &'static [Row] {
    &RULE_ROWS
}
