//! Templates, deffacts, and the commands that take facts away.
use super::rows::*;

static TEMPLATE_ROWS: [Row; 6] = [
    // Each slot of a template fact is shown, in the order of the template.
    Row {
        name: "shown slots",
        steps: &[
            (b"(deftemplate p (slot n) (multislot h))", b""),
            (b"(assert (p (h x \"y z\")))", b"<Fact-1>\n"),
            (
                b"(facts)",
                b"f-1     (p (n nil) (h x \"y z\"))\nFor a total of 1 fact.\n",
            ),
        ],
        ..CLEAN
    },
    // A default comes from the type.
    Row {
        name: "default of a type",
        steps: &[
            (b"(deftemplate t (slot k (type INTEGER)))", b""),
            (b"(assert (t (k x)))", CB10),
            (b"(assert (t))", b"<Fact-1>\n"),
            (b"(facts)", b"f-1     (t (k 0))\nFor a total of 1 fact.\n"),
        ],
        ..FAULTY
    },
    // Derived defaults.
    Row {
        name: "derived defaults",
        steps: &[
            (
                b"(deftemplate t (slot a (type INTEGER INTEGER)) (slot b (type INTEGER NUMBER)) (slot c (type STRING))",
                b"",
            ),
            (
                b" (slot d (type LEXEME)) (slot e (type NUMBER)) (slot f (type STRING STRING)))",
                b"",
            ),
            (b"(assert (t))", b"<Fact-1>\n"),
            (
                b"(facts)",
                b"f-1     (t (a 0) (b nil) (c \"\") (d nil) (e 0) (f \"\"))\nFor a total of 1 fact.\n",
            ),
        ],
        ..CLEAN
    },
    // The facts of reset take the place of all others.
    Row {
        name: "reset facts",
        steps: &[
            (b"(deffacts d (a) (b 2))", b""),
            (b"(assert (z))", b"<Fact-1>\n"),
            (b"(reset)", b""),
            (
                b"(facts)",
                b"f-1     (a)\nf-2     (b 2)\nFor a total of 2 facts.\n",
            ),
        ],
        ..CLEAN
    },
    // A relation of a fact can't become a template, until clear.
    Row {
        name: "ordered relation in use",
        steps: &[
            (b"(assert (p 1))", b"<Fact-1>\n"),
            (b"(deftemplate p (slot q))", CB23),
            (b"(clear)", b""),
            (b"(deftemplate p (slot q))", b""),
            (b"(assert (p))", b"<Fact-1>\n"),
            (b"(facts)", b"f-1     (p (q nil))\nFor a total of 1 fact.\n"),
        ],
        ..FAULTY
    },
    // A slot that must be given, and a multislot with a default.
    Row {
        name: "slot that must be given",
        steps: &[
            (
                b"(deftemplate t (slot k (default ?NONE)) (multislot m (default 1 \"b\")))",
                b"",
            ),
            (b"(assert (t (m)))", CB09),
            (b"(assert (t (k z)))", b"<Fact-1>\n"),
            (
                b"(facts)",
                b"f-1     (t (k z) (m 1 \"b\"))\nFor a total of 1 fact.\n",
            ),
        ],
        ..FAULTY
    },
];

static FACT_ROWS: [Row; 6] = [
    // Indices go on after facts that are gone.
    Row {
        name: "indices after gone facts",
        steps: &[
            (b"(assert (a) (b) (c))", b"<Fact-3>\n"),
            (b"(retract 2)", b""),
            (b"(retract 2)", CB20),
            (
                b"(facts)",
                b"f-1     (a)\nf-3     (c)\nFor a total of 2 facts.\n",
            ),
            (b"(retract *)", b""),
            (b"(assert (d))", b"<Fact-4>\n"),
        ],
        ..FAULTY
    },
    // A deffacts of a known name takes the last place.
    Row {
        name: "deffacts anew",
        steps: &[
            (b"(deffacts a (x))", b""),
            (b"(deffacts b (y))", b""),
            (b"(deffacts a (z))", b""),
            (b"(reset)", b""),
            (
                b"(facts)",
                b"f-1     (y)\nf-2     (z)\nFor a total of 2 facts.\n",
            ),
        ],
        ..CLEAN
    },
    // After clear there are no deffacts.
    Row {
        name: "clear drops deffacts",
        steps: &[
            (b"(deffacts d (a))", b""),
            (b"(assert (c))", b"<Fact-1>\n"),
            (b"(clear)", b""),
            (b"(facts)", b""),
            (b"(reset)", b""),
            (b"(facts)", b""),
            (b"(assert (b))", b"<Fact-1>\n"),
        ],
        ..CLEAN
    },
    // A fault of a deffacts leaves the old one, and it uses its templates.
    Row {
        name: "faulty deffacts",
        steps: &[
            (b"(deftemplate p (slot n (default 3)))", b""),
            (b"(deffacts d (p))", b""),
            (b"(deffacts d (q) (p (n x y)))", CB09),
            (b"(deftemplate p)", CB23),
            (b"(reset)", b""),
            (b"(facts)", b"f-1     (p (n 3))\nFor a total of 1 fact.\n"),
        ],
        ..FAULTY
    },
    // Values of a wrong type come before any fact goes; an index that no fact has, in its place.
    Row {
        name: "retracted values",
        steps: &[
            (b"(assert (a) (b) (c))", b"<Fact-3>\n"),
            (b"(retract 1 x)", CB17),
            (b"(retract \"*\" 1)", CB17),
            (b"(retract 2 2 3)", CB20),
            (
                b"(facts)",
                b"f-1     (a)\nf-3     (c)\nFor a total of 2 facts.\n",
            ),
        ],
        ..FAULTY
    },
    // Wrong numbers of arguments.
    Row {
        name: "numbers of arguments",
        steps: &[
            (b"(retract)", CB07),
            (b"(reset 1)", CB07),
            (b"(clear a)", CB07),
            (b"(facts b)", CB07),
        ],
        ..FAULTY
    },
];

/// Templates, their slots and their defaults.
pub(super) fn template_rows() -> &'static [Row] {
    &TEMPLATE_ROWS
}

/// Facts that come and go, and `deffacts`.
pub(super) fn fact_rows() -> &'static [Row] {
    &FACT_ROWS
}
