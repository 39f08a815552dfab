//! Commands on rules and on what is watched, and their arguments.
use super::*;

const COMMANDS: [Row; 6] = [
    // What is watched is told, each kind by itself.
    Row {
        steps: &[
            (b"(defrule r (a ?x) => (retract 1))", b""),
            (b"(watch activations)", b""),
            (
                b"(assert (a 1))",
                b"==> Activation 0      r: f-1\n<Fact-1>\n",
            ),
            (b"(unwatch activations)", b""),
            (b"(watch rules)", b""),
            (b"(watch facts)", b""),
            (b"(run)", b"FIRE    1 r: f-1\n<== f-1     (a 1)\n"),
            (b"(assert (a 1))", b"==> f-2     (a 1)\n<Fact-2>\n"),
            (b"(unwatch facts)", b""),
            (b"(retract 2)", b""),
            (b"(watch all)", b""),
            (
                b"(assert (a \"b\"))",
                b"==> f-3     (a \"b\")\n==> Activation 0      r: f-3\n<Fact-3>\n",
            ),
            (b"(reset)", b"<== f-3     (a \"b\")\n"),
            (b"(unwatch all)", b""),
            (b"(assert (a))", b"<Fact-1>\n"),
        ],
        status: DONE,
    },
    // Watched, a reset and a clear tell of facts.
    Row {
        steps: &[
            (b"(watch all)", b""),
            (b"(deffacts d (a) (b))", b""),
            (b"(defrule r (a) (test (eq 1 1)) =>)", b""),
            (b"(defrule e =>)", b"==> Activation 0      e: *\n"),
            (b"(assert (c))", b"==> f-1     (c)\n<Fact-1>\n"),
            (
                b"(reset)",
                b"<== f-1     (c)\n==> Activation 0      e: *\n==> f-1     (a)\n==> Activation 0      r: f-1\n==> f-2     (b)\n",
            ),
            (b"(clear)", b"<== f-1     (a)\n<== f-2     (b)\n"),
            (b"(reset)", b""),
        ],
        status: DONE,
    },
    // A strategy orders all that is on the agenda.
    Row {
        steps: &[
            (b"(defrule a (go ?x) => (println ?x))", b""),
            (b"(assert (go 1) (go 2) (go 3))", b"<Fact-3>\n"),
            (b"(set-strategy breadth)", b"depth\n"),
            (
                b"(agenda)",
                b"0      a: f-1\n0      a: f-2\n0      a: f-3\nFor a total of 3 activations.\n",
            ),
            (b"(run 1)", b"1\n"),
            (b"(set-strategy depth)", b"breadth\n"),
            (b"(set-strategy depth)", b"depth\n"),
            (b"(run)", b"3\n2\n"),
        ],
        status: DONE,
    },
    // Rules are dropped by their names, or all.
    Row {
        steps: &[
            (b"(defrule a (x) =>)", b""),
            (b"(defrule b (x) =>)", b""),
            (b"(defrule * (y) =>)", b""),
            (b"(assert (x))", b"<Fact-1>\n"),
            (b"(undefrule b)", b""),
            (
                b"(agenda)",
                b"0      a: f-1\nFor a total of 1 activation.\n",
            ),
            (b"(undefrule b)", CB21),
            (b"(undefrule *)", b""),
            (b"(undefrule *)", b""),
            (b"(agenda)", b""),
            (b"(rules)", b""),
        ],
        status: FAULTY,
    },
    // The number and the kind of arguments.
    Row {
        steps: &[
            (b"(run 1 2)", CB07),
            (b"(run a)", CB17),
            (b"(run \"1\")", CB17),
            (b"(run ?x)", CB11),
            (b"(run (div 1 0))", CB19),
            (b"(run (halt))", CB17),
            (b"(agenda 1)", CB07),
            (b"(rules a)", CB07),
            (b"(exit 1 2)", CB07),
            (b"(exit -1)", CB17),
            (b"(exit 256)", CB17),
            (b"(exit a)", CB17),
            (b"(exit (create$ 1))", CB17),
            (b"(exit ?*g*)", CB12),
            (b"(halt 1)", CB07),
            (b"(+ 1 (run))", CB14),
        ],
        status: FAULTY,
    },
    // Arguments that are words.
    Row {
        steps: &[
            (b"(undefrule)", CB07),
            (b"(undefrule 1)", CB07),
            (b"(undefrule a b)", CB07),
            (b"(undefrule a)", CB21),
            (b"(watch)", CB07),
            (b"(watch 1)", CB07),
            (b"(watch \"facts\")", CB07),
            (b"(watch facts rules)", CB07),
            (b"(watch globals)", CB14),
            (b"(unwatch)", CB07),
            (b"(unwatch (all))", CB07),
            (b"(unwatch statistics)", CB14),
            (b"(set-strategy)", CB07),
            (b"(set-strategy \"depth\")", CB07),
            (b"(set-strategy lex)", CB14),
            (b"(set-strategy depth breadth)", CB07),
        ],
        status: FAULTY,
    },
];

#[test]
fn carries_commands_out(rt: HostRuntime) {
    assert_eq!(rt; first_wrong(rt.alloc(), &COMMANDS), None);
}
