//! Commands about rules and the agenda, what is watched, and exits.
use super::rows::*;
use cb_command_line::{Cause, Outcome};

static AGENDA_ROWS: [Row; 11] = [
    Row {
        name: "two rules under breadth",
        steps: &[
            (b"(set-strategy breadth)", b"depth\n"),
            (b"(defrule a (go) => (printout t a crlf))", b""),
            (b"(defrule b (go) => (printout t b crlf))", b""),
            (b"(assert (go))", b"<Fact-1>\n"),
            (b"(run)", b"a\nb\n"),
        ],
        ..CLEAN
    },
    // The activation that fires is on the agenda no more, so nothing is written when its fact goes.
    Row {
        name: "all that is watched",
        steps: &[
            (b"(watch all)", b""),
            (b"(defrule r (a) => (retract 1))", b""),
            (
                b"(assert (a))",
                b"==> f-1     (a)\n==> Activation 0      r: f-1\n<Fact-1>\n",
            ),
            (b"(run)", b"FIRE    1 r: f-1\n<== f-1     (a)\n"),
        ],
        ..CLEAN
    },
    Row {
        name: "no rules to list",
        steps: &[(b"(rules)", b"")],
        max_form: 7,
        ..CLEAN
    },
    Row {
        name: "lines of the agenda",
        steps: &[
            (b"(defrule lo (declare (salience -5)) (a) =>)", b""),
            (b"(defrule hi (declare (salience 10)) (a) =>)", b""),
            (b"(assert (a))", b"<Fact-1>\n"),
            (
                b"(agenda)",
                b"10     hi: f-1\n-5     lo: f-1\nFor a total of 2 activations.\n",
            ),
        ],
        ..CLEAN
    },
    Row {
        name: "a reset that is watched",
        steps: &[
            (b"(deffacts d (a) (b 2))", b""),
            (b"(assert (z))", b"<Fact-1>\n"),
            (b"(watch facts)", b""),
            (
                b"(reset)",
                b"<== f-1     (z)\n==> f-1     (a)\n==> f-2     (b 2)\n",
            ),
        ],
        ..CLEAN
    },
    Row {
        name: "strategies that change",
        steps: &[
            (b"(defrule a (go ?x) => (printout t ?x))", b""),
            (b"(assert (go 1) (go 2) (go 3))", b"<Fact-3>\n"),
            (b"(run 1)", b"3"),
            (b"(set-strategy breadth)", b"depth\n"),
            (b"(run 1)", b"1"),
            (b"(set-strategy depth)", b"breadth\n"),
            (b"(run)", b"2"),
        ],
        ..CLEAN
    },
    Row {
        name: "rules that are removed",
        steps: &[
            (b"(defrule a (x) =>)", b""),
            (b"(defrule b (x) =>)", b""),
            (b"(assert (x))", b"<Fact-1>\n"),
            (b"(rules)", b"a\nb\nFor a total of 2 defrules.\n"),
            (b"(undefrule a)", b""),
            (b"(undefrule a)", CB21),
            (
                b"(agenda)",
                b"0      b: f-1\nFor a total of 1 activation.\n",
            ),
            (b"(undefrule *)", b""),
            (b"(rules)", b""),
        ],
        ..FAULTY
    },
    Row {
        name: "a rule that is defined again and watched",
        steps: &[
            (b"(watch activations)", b""),
            (b"(assert (a))", b"<Fact-1>\n"),
            (b"(defrule r (a) =>)", b"==> Activation 0      r: f-1\n"),
            (
                b"(defrule r (a) (not (b)) =>)",
                b"<== Activation 0      r: f-1\n==> Activation 0      r: f-1,*\n",
            ),
        ],
        ..CLEAN
    },
    // They come anew at a reset, before the facts.
    Row {
        name: "matches without facts",
        steps: &[
            (b"(watch all)", b""),
            (b"(defrule e =>)", b"==> Activation 0      e: *\n"),
            (b"(defrule n (not (a)) =>)", b"==> Activation 0      n: *\n"),
            (b"(deffacts d (a))", b""),
            (
                b"(reset)",
                b"==> Activation 0      e: *\n==> Activation 0      n: *\n==> f-1     (a)\n<== Activation 0      n: *\n",
            ),
        ],
        ..CLEAN
    },
    Row {
        name: "an exit with a status",
        steps: &[(b"(bogus)", CB06), (b"(exit 7)", b"")],
        rest: (b"(assert (a))", b""),
        outcome: Outcome {
            status: 7,
            cause: Cause::Exit,
        },
        ..CLEAN
    },
    Row {
        name: "exits with a fault, and one without",
        steps: &[(b"(exit 256)", CB17), (b"(exit a)", CB17), (b"(exit)", b"")],
        rest: (b"(rules)", b""),
        outcome: Outcome {
            status: 1,
            cause: Cause::Exit,
        },
        ..CLEAN
    },
];

/// The agenda, its lists and its strategies, what is watched, and exits.
pub(super) fn agenda_rows() -> &'static [Row] {
    &AGENDA_ROWS
}
