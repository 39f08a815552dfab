//! Templates and their facts: which fault comes first.
use super::rows::*;

static TEMPLATE_FAULT_ROWS: [Row; 8] = [
    // A type is SYMBOL, STRING, INTEGER, NUMBER, LEXEME, or ?VARIABLE alone.
    Row {
        name: "types",
        steps: &[
            (b"(deftemplate t (slot a (type FLOAT)))", CB14),
            (b"(deftemplate t (slot a (type 3)))", CB08),
            (b"(deftemplate t (slot a (type ?FOO)))", CB08),
            (b"(deftemplate t (slot a (type $?VARIABLE)))", CB08),
            (b"(deftemplate t (slot a (type ?VARIABLE INTEGER)))", CB08),
            (b"(deftemplate t (slot a (type)))", CB08),
            (b"(deftemplate t (slot a (type (f))))", CB08),
            (b"(deftemplate t (slot a (type 3 FLOAT)))", CB08),
            (b"(deftemplate t (slot a (type FLOAT 3)))", CB14),
        ],
        ..FAULTY
    },
    // A default has constants.
    Row {
        name: "defaults",
        steps: &[
            (b"(deftemplate t (slot a (default ?x)))", CB08),
            (b"(deftemplate t (slot a (default ())))", CB08),
            (b"(deftemplate t (slot a (default (1))))", CB08),
            (b"(deftemplate t (slot a (default (bogus))))", CB14),
            (b"(deftemplate t (slot a (default ?*g*)))", CB14),
            (b"(deftemplate t (slot a (default $?NONE)))", CB08),
            (b"(deftemplate t (multislot a (default ?NONE 1)))", CB08),
            (b"(deftemplate t (multislot a (default 1 ?NONE)))", CB08),
        ],
        ..FAULTY
    },
    // The number of constants comes before them.
    Row {
        name: "numbers of constants",
        steps: &[
            (b"(deftemplate t (slot a (default (+ 1 2) 3)))", CB08),
            (b"(deftemplate t (slot a (default 3 (+ 1 2))))", CB08),
            (b"(deftemplate t (slot a (default)))", CB08),
            (b"(deftemplate u (multislot a (default)))", b""),
            (b"(assert (u))", b"<Fact-1>\n"),
            (b"(facts)", b"f-1     (u (a))\nFor a total of 1 fact.\n"),
        ],
        ..FAULTY
    },
    // What is no slot.
    Row {
        name: "other slots",
        steps: &[
            (b"(deftemplate t (field a))", CB08),
            (b"(deftemplate t (single-slot a))", CB08),
            (b"(deftemplate t a)", CB08),
            (b"(deftemplate t (slot))", CB08),
            (b"(deftemplate t (slot \"a\"))", CB08),
        ],
        ..FAULTY
    },
    // A name that is there already.
    Row {
        name: "repeated names",
        steps: &[
            (b"(deftemplate t (slot a) (slot a (foo)))", CB08),
            (
                b"(deftemplate t (slot a (type INTEGER) (type FLOAT)))",
                CB08,
            ),
            (b"(deftemplate t (slot a (default 1) (default (f))))", CB08),
        ],
        ..FAULTY
    },
    // What is no attribute.
    Row {
        name: "other attributes",
        steps: &[
            (b"(deftemplate t (slot a (range 1 10)))", CB14),
            (b"(deftemplate t (slot a (foo)))", CB14),
            (b"(deftemplate t (slot a foo))", CB08),
            (b"(deftemplate t (slot a ()))", CB08),
            (b"(deftemplate t (slot a (3)))", CB08),
        ],
        ..FAULTY
    },
    // A default is compared with its type after the attributes, before the next slot.
    Row {
        name: "default of another type",
        steps: &[(
            b"(deftemplate t (slot a (default x) (type INTEGER)) (slot b (foo)))",
            CB10,
        )],
        ..FAULTY
    },
    // The name comes before the slots.
    Row {
        name: "names before slots",
        steps: &[
            (b"(assert (p 1))", b"<Fact-1>\n"),
            (b"(deftemplate p (foo))", CB23),
            (b"(deftemplate test (foo))", CB08),
            (b"(deftemplate and)", CB08),
            (b"(deftemplate)", CB08),
            (b"(deftemplate \"c\")", CB08),
            (b"(deftemplate q \"c\" \"d\")", CB08),
        ],
        ..FAULTY
    },
];

static FACT_FAULT_ROWS: [Row; 4] = [
    // Wildcards and connectives in facts.
    Row {
        name: "wildcards in facts",
        steps: &[
            (b"(deftemplate p (slot n) (multislot m))", b""),
            (b"(assert ?)", CB09),
            (b"(assert (p ?))", CB09),
            (b"(assert (p (n ?)))", CB08),
            (b"(assert (p (m 1 $? 2)))", CB08),
            (b"(assert (a ?))", CB08),
            (b"(assert (a b|c))", CB08),
            (b"(assert (p (n 1|2)))", CB09),
        ],
        ..FAULTY
    },
    // The order in a slot, and at the end of a fact.
    Row {
        name: "order in a fact",
        steps: &[
            (
                b"(deftemplate t (slot k (type INTEGER)) (slot r (default ?NONE)) (multislot m (type INTEGER)))",
                b"",
            ),
            (b"(assert (t (k x (bogus))))", CB09),
            (b"(assert (t (m x (bogus))))", CB10),
            (b"(assert (t (m (bogus) x)))", CB06),
            (b"(assert (t (k 1) (bogus 1)))", CB09),
            (b"(assert (t (k 1) ()))", CB09),
            (b"(assert (t (k 1) (k (bogus))))", CB09),
            (b"(assert (t (k 1)))", CB09),
        ],
        ..FAULTY
    },
    // All values of a fact are computed before the first slot is looked at.
    Row {
        name: "calls in a fact",
        steps: &[
            (b"(deftemplate p (slot a) (slot b))", b""),
            (
                b"(assert (p (a (create$ 1)) (b (if TRUE then (println \"late\") 1))))",
                b"late\n[CB22] one value wanted\n",
            ),
        ],
        ..FAULTY
    },
    Row {
        name: "call in a slot",
        steps: &[
            (b"(deftemplate p (slot a))", b""),
            (
                b"(assert (p (a (create$ 1))))",
                b"[CB22] one value wanted\n",
            ),
        ],
        ..FAULTY
    },
];

/// The faults of a template.
pub(super) fn template_fault_rows() -> &'static [Row] {
    &TEMPLATE_FAULT_ROWS
}

/// The faults of a template's facts.
pub(super) fn fact_fault_rows() -> &'static [Row] {
    &FACT_FAULT_ROWS
}
