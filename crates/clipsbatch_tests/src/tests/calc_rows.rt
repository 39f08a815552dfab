//! Expressions, variables, globals and loops. A word ends with the delimiter after it, so a word's step has that delimiter too.
use super::rows::*;

static CALC_ROWS: [Row; 9] = [
    Row {
        name: "a sum out of range",
        steps: &[
            (b"(+ 9223372036854775807 1)", b"[CB18] integer overflow\n"),
            (b"(+ 1 2)", b"3\n"),
        ],
        ..FAULTY
    },
    Row {
        name: "symbols that look like others",
        steps: &[(b"(create$ $ 1- <= \"q\")", b"($ 1- <= \"q\")\n")],
        ..CLEAN
    },
    Row {
        name: "facts that fit no template",
        steps: &[
            (b"(deftemplate p (slot n))", b""),
            (
                b"(assert (p (n (create$ 1 2))))",
                b"[CB22] one value wanted\n",
            ),
            (b"(assert (p (m 1)))", CB09),
            (b"(assert (p))", b"<Fact-1>\n"),
            (b"(deftemplate p (slot q))", CB23),
        ],
        ..FAULTY
    },
    Row {
        name: "functions of numbers",
        steps: &[
            (b"(mod -7 3)", b"-1\n"),
            (b"(div -7 2)", b"-3\n"),
            (b"(nth$ 3 (create$ a b))", b"nil\n"),
            (b"(= 2 2 3)", b"FALSE\n"),
            (b"(<> 1 2 1)", b"FALSE\n"),
        ],
        ..CLEAN
    },
    Row {
        name: "a variable with several values",
        steps: &[
            (b"(bind ?m a \"b\" 3)", b"(a \"b\" 3)\n"),
            (b"(length$ ?m)", b"3\n"),
            (b"(member$ \"b\" ?m)", b"2\n"),
            (b"(rest$ (create$))", b"()\n"),
        ],
        ..CLEAN
    },
    Row {
        name: "computed fields",
        steps: &[
            (b"(assert (s (create$ 1 2) x (+ 1 2)))", b"<Fact-1>\n"),
            (b"(facts)", b"f-1     (s 1 2 x 3)\nFor a total of 1 fact.\n"),
        ],
        ..CLEAN
    },
    Row {
        name: "branches",
        steps: &[
            (b"(if (> 1 2) then (+ 1 1))", b"FALSE\n"),
            (
                b"(if TRUE then (str-cat \"q\" 1) else (+ 2 2))",
                b"\"q1\"\n",
            ),
        ],
        ..CLEAN
    },
    Row {
        name: "faults of expressions",
        steps: &[
            (b"(bind ?x (+ ?x 1))", CB11),
            (b"?y(", CB11),
            (
                b"printout t \"a\" (div 1 0) crlf)",
                b"[CB19] division by zero\n",
            ),
        ],
        ..FAULTY
    },
    Row {
        name: "printed values",
        steps: &[
            (b"(println \"a\" (+ 1 1))", b"a2\n"),
            (b"(print b crlf \"c\")", b"b\nc"),
            (b"(println)", b"\n"),
        ],
        ..CLEAN
    },
];

static LOOP_ROWS: [Row; 6] = [
    Row {
        name: "a loop",
        steps: &[
            (b"(bind ?i 0)", b"0\n"),
            (b"(while (< ?i 3) do (bind ?i (+ ?i 1)))", b"FALSE\n"),
        ],
        rest: (b"?i", b"3\n"),
        ..CLEAN
    },
    Row {
        name: "a loop of too many turns",
        steps: &[
            (b"(bind ?i 0)", b"0\n"),
            (b"(while (< ?i 3) do (bind ?i (+ ?i 1)))", CB93),
        ],
        rest: (b"?i", b""),
        max_turns: 2,
        ..LIMITED
    },
    Row {
        name: "a loop of the most turns",
        steps: &[
            (b"(bind ?i 0)", b"0\n"),
            (b"(while (< ?i 3) do (bind ?i (+ ?i 1)))", b"FALSE\n"),
        ],
        rest: (b"?i", b"3\n"),
        max_turns: 3,
        ..CLEAN
    },
    Row {
        name: "a loop of no turn",
        steps: &[(b"(while FALSE)", b"FALSE\n")],
        max_turns: 0,
        ..CLEAN
    },
    // All loops of a script have the turns together, and `reset` and `clear` give none back.
    Row {
        name: "turns of several loops",
        steps: &[
            (b"(bind ?i 0)", b"0\n"),
            (
                b"(while (< ?i 2) do (bind ?i (+ ?i 1)) (print ?i))",
                b"12FALSE\n",
            ),
            (b"(reset)(clear)", b""),
            (b"(print a)", b"a"),
            (
                b"(while TRUE (print \"x\"))",
                b"x[CB93] loop limit reached\n",
            ),
        ],
        max_turns: 3,
        ..LIMITED
    },
    // What an item has written before a limit stands.
    Row {
        name: "a limit within a call",
        steps: &[
            (b"(print 1)", b"1"),
            (b"(println \"x\" (while TRUE))", CB93),
        ],
        max_turns: 2,
        ..LIMITED
    },
];

static GLOBAL_ROWS: [Row; 5] = [
    // A global that is bound has its initial value again after a reset.
    Row {
        name: "a global",
        steps: &[
            (b"(defglobal ?*n* = 1)", b""),
            (b"(bind ?*n* 5)", b"5\n"),
            (b"?*n*(", b"5\n"),
            (b"reset)", b""),
        ],
        rest: (b"?*n*", b"1\n"),
        ..CLEAN
    },
    // A later global of a form sees the earlier ones, and a reset evaluates both anew.
    Row {
        name: "globals of one form",
        steps: &[
            (b"(defglobal ?*a* = 2 ?*b* = (* ?*a* 3))", b""),
            (b"(bind ?*a* 10)", b"10\n"),
            (b"(reset)", b""),
        ],
        rest: (b"?*b*", b"6\n"),
        ..CLEAN
    },
    // A fault in a `defglobal` leaves every global as it was.
    Row {
        name: "a faulty defglobal",
        steps: &[
            (b"(defglobal ?*a* = 1)", b""),
            (
                b"(defglobal ?*b* = 2 ?*a* = 3 ?*c* = (div ?*b* 0))",
                b"[CB19] division by zero\n",
            ),
            (b"?*a* ", b"1\n"),
            (b"?*b* ", CB12),
            (b"(defglobal ?*a* = 7 ?*a* = (+ ?*a* 1))", b""),
            (b"(reset)", b""),
            (b"?*a* ", b"9\n"),
        ],
        ..FAULTY
    },
    // A variable is dropped by `reset` and by `clear`, a global by `clear` alone.
    Row {
        name: "variables and globals that go",
        steps: &[
            (b"(defglobal ?*g* = 1)", b""),
            (b"(bind ?x 2)", b"2\n"),
            (b"(reset)", b""),
            (b"?x ", CB11),
            (b"?*g* ", b"1\n"),
            (b"(bind ?x 3)", b"3\n"),
            (b"(clear)", b""),
            (b"?x ", CB11),
            (b"?*g* ", CB12),
            (b"(reset)", b""),
            (b"?*g* ", CB12),
        ],
        ..FAULTY
    },
    // The facts of a deffacts are computed at each reset, with the values that the globals have then.
    Row {
        name: "computed facts of a deffacts",
        steps: &[
            (b"(defglobal ?*n* = 1)", b""),
            (b"(deffacts d (a ?*n* (+ ?*n* 1)))", b""),
            (b"(bind ?*n* 5)", b"5\n"),
            (b"(reset)", b""),
            (b"(facts)", b"f-1     (a 1 2)\nFor a total of 1 fact.\n"),
            (b"(defglobal ?*n* = 7)", b""),
            (b"(reset)", b""),
            (b"(facts)", b"f-1     (a 7 8)\nFor a total of 1 fact.\n"),
        ],
        ..CLEAN
    },
];

/// Expressions: their values and their faults.
pub(super) fn calc_rows() -> &'static [Row] {
    &CALC_ROWS
}

/// Loops, and the limit of their turns.
pub(super) fn loop_rows() -> &'static [Row] {
    &LOOP_ROWS
}

/// Global variables, and what lasts until `reset` and `clear`.
pub(super) fn global_rows() -> &'static [Row] {
    &GLOBAL_ROWS
}
