//! Constants, ordered facts and printed lines. A word ends with the delimiter after it, so a word's step has that delimiter
//! too.
use super::rows::*;

static ITEM_ROWS: [Row; 10] = [
    Row {
        name: "an empty script",
        ..CLEAN
    },
    Row {
        name: "a fact",
        steps: &[
            (b"(assert (color red))", b"<Fact-1>\n"),
            (b"(facts)", b"f-1     (color red)\nFor a total of 1 fact.\n"),
        ],
        ..CLEAN
    },
    Row {
        name: "a fact that is there already",
        steps: &[
            (b"(assert (a))", b"<Fact-1>\n"),
            (b"(assert (a))", b"<Fact-1>\n"),
            (b"(facts)", b"f-1     (a)\nFor a total of 1 fact.\n"),
        ],
        ..CLEAN
    },
    Row {
        name: "a list that is too long",
        steps: &[(b"(facts)", b"[CB91] form too long\n")],
        max_form: 6,
        ..LIMITED
    },
    Row {
        name: "a list of the greatest length",
        rest: (b"(facts)", b""),
        max_form: 7,
        ..CLEAN
    },
    Row {
        name: "an open list that is too long",
        steps: &[(b"x ", b"x\n"), (b"(asser", b"[CB91] form too long\n")],
        rest: (b"t (a)) y", b""),
        max_form: 5,
        ..LIMITED
    },
    Row {
        name: "a list that is open at the end",
        steps: &[(b"(assert (a))", b"<Fact-1>\n")],
        rest: (b" (assert (b", b"[CB01] form not closed\n"),
        ..FAULTY
    },
    Row {
        name: "a quote in a printed string",
        steps: &[(b"(printout t \"a\\\"b\" crlf)", b"a\"b\n")],
        ..CLEAN
    },
    Row {
        name: "a list in 200 others",
        steps: &[(
            b"(((((((((((((((((((((((((((((((((((((((((((((((((((((((((((((((((((
(((((((((((((((((((((((((((((((((((((((((((((((((((((((((((((((((((
(((((((((((((((((((((((((((((((((((((((((((((((((((((((((((((((((((
)))))))))))))))))))))))))))))))))))))))))))))))))))))))))))))))))))
)))))))))))))))))))))))))))))))))))))))))))))))))))))))))))))))))))
)))))))))))))))))))))))))))))))))))))))))))))))))))))))))))))))))))",
            b"[CB03] nesting too deep\n",
        )],
        ..FAULTY
    },
    Row {
        name: "a parenthesis too many",
        steps: &[(b"a)", b"a\n[CB02] unmatched closing parenthesis\n")],
        ..FAULTY
    },
];

static COMMAND_ROWS: [Row; 11] = [
    Row {
        name: "constants",
        steps: &[
            (b"\"a\\\\b\"", b"\"a\\\\b\"\n"),
            (b" 007 ", b"7\n"),
            (b"+5 ", b"5\n"),
        ],
        rest: (b"-0", b"0\n"),
        ..CLEAN
    },
    Row {
        name: "numbers out of range",
        steps: &[
            (b"(+ 1 1.5)", b"[CB05] floats are not supported\n"),
            (
                b"(+ 1 99999999999999999999)",
                b"[CB04] integer out of range\n",
            ),
        ],
        ..FAULTY
    },
    Row {
        name: "a printed line",
        steps: &[(b"(printout t \"ok\" crlf)", b"ok\n")],
        ..CLEAN
    },
    Row {
        name: "a fact and a printed line",
        steps: &[
            (b"(assert (color red))", b"<Fact-1>\n"),
            (b"(facts)", b"f-1     (color red)\nFor a total of 1 fact.\n"),
            (b"(printout t \"ok\" crlf)", b"ok\n"),
        ],
        ..CLEAN
    },
    Row {
        name: "a command that is not supported",
        steps: &[(b"(list-defrules)", CB14)],
        ..FAULTY
    },
    Row {
        name: "two facts",
        steps: &[
            (b"(assert (b \"x y\" -3) (a))", b"<Fact-2>\n"),
            (
                b"(facts)",
                b"f-1     (b \"x y\" -3)\nf-2     (a)\nFor a total of 2 facts.\n",
            ),
        ],
        ..CLEAN
    },
    Row {
        name: "where printing goes",
        steps: &[
            (b"(printout nil a crlf)", b""),
            (b"(printout stdout b)", b"b"),
        ],
        ..CLEAN
    },
    Row {
        name: "items that are no value",
        steps: &[
            (b"?x ", CB11),
            (b"?*g* ", CB12),
            (b"? ", CB08),
            (b"&", CB08),
            (b" ()", CB08),
        ],
        ..FAULTY
    },
    Row {
        name: "an unknown command",
        steps: &[(b"(bogus)", CB06)],
        ..FAULTY
    },
    Row {
        name: "wrong facts",
        steps: &[(b"(assert (a) 3)", CB09), (b"(facts)(assert)", CB07)],
        ..FAULTY
    },
    Row {
        name: "a comment",
        rest: (b"; nothing\n  \n", b""),
        ..CLEAN
    },
];

/// How items are cut, and the limit of their length.
pub(super) fn item_rows() -> &'static [Row] {
    &ITEM_ROWS
}

/// Values, facts and printed lines.
pub(super) fn command_rows() -> &'static [Row] {
    &COMMAND_ROWS
}
