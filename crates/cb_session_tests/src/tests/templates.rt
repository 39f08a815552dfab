//! Facts of templates, and templates in use.
use super::*;

const SLOTS: [Row; 4] = [
    // The slots of a fact have no order.
    Row {
        steps: &[
            (b"(deftemplate t \"c\" (slot a) (multislot b))", b""),
            (b"(assert (t (b 1 = x) (a =)))", b"<Fact-1>\n"),
            (b"(assert (t (a =) (b 1 = x)))", b"<Fact-1>\n"),
            (
                b"(facts)",
                b"f-1     (t (a =) (b 1 = x))\nFor a total of 1 fact.\n",
            ),
        ],
        status: DONE,
    },
    // What is no slot of the template, or has no single value.
    Row {
        steps: &[
            (b"(deftemplate t (slot a))", b""),
            (b"(assert (t (a 1) (a 1)))", CB09),
            (b"(assert (t (a 1 2)))", CB09),
            (b"(assert (t (a)))", CB09),
            (b"(assert (t (b 1)))", CB09),
            (b"(assert (t 1))", CB09),
            (b"(assert (t a))", CB09),
            (b"(assert (t (1 a)))", CB09),
            (b"(assert (b) (t (c)))", CB09),
            (b"(facts)", b""),
        ],
        status: FAULTY,
    },
    // Each value is compared with the types before the next is read.
    Row {
        steps: &[
            (b"(deftemplate t (multislot a (type INTEGER)))", b""),
            (b"(assert (t (a 1 x)))", CB10),
            (b"(assert (t (a 1 ?x)))", CB11),
            (b"(assert (t (a x ?x)))", CB10),
            (b"(assert (t (a 1 2)))", b"<Fact-1>\n"),
        ],
        status: FAULTY,
    },
    // Calls and variables in slots.
    Row {
        steps: &[
            (b"(deftemplate t (slot a) (multislot b))", b""),
            (b"(assert (t (b = (c))))", CB14),
            (b"(assert (t (a (c))))", CB06),
            (b"(assert (t (a ?x) b))", CB11),
            (b"(facts)", b""),
        ],
        status: FAULTY,
    },
];

#[test]
fn builds_facts_of_templates(rt: HostRuntime) {
    assert_eq!(rt; first_wrong(rt.alloc(), &SLOTS), None);
}

const IN_USE: [Row; 6] = [
    // A deffacts uses its relations until it is redefined.
    Row {
        steps: &[
            (b"(deffacts d (p 1))", b""),
            (b"(deftemplate p)", CB23),
            (b"(deffacts d)", b""),
            (b"(deftemplate p)", b""),
            (b"(assert (p))", b"<Fact-1>\n"),
        ],
        status: FAULTY,
    },
    // It uses them also where no fact does.
    Row {
        steps: &[
            (b"(deffacts d (a) (p))", b""),
            (b"(reset)", b""),
            (b"(retract *)", b""),
            (b"(deftemplate p)", CB23),
        ],
        status: FAULTY,
    },
    // A fact that is gone uses nothing.
    Row {
        steps: &[
            (b"(assert (p))", b"<Fact-1>\n"),
            (b"(retract 1)", b""),
            (b"(deftemplate p (slot q))", b""),
            (b"(assert (p))", b"<Fact-2>\n"),
            (b"(facts)", b"f-2     (p (q nil))\nFor a total of 1 fact.\n"),
        ],
        status: DONE,
    },
    // A template that is not in use is redefined.
    Row {
        steps: &[
            (b"(deftemplate p (slot q))", b""),
            (b"(deftemplate p (slot r))", b""),
            (b"(assert (p (q 1)))", CB09),
            (b"(assert (p (r 1)))", b"<Fact-1>\n"),
            (b"(facts)", b"f-1     (p (r 1))\nFor a total of 1 fact.\n"),
        ],
        status: FAULTY,
    },
    // Templates stay at a reset and go at a clear.
    Row {
        steps: &[
            (b"(deftemplate p (slot q))", b""),
            (b"(reset)", b""),
            (b"(assert (p (q 1)))", b"<Fact-1>\n"),
            (b"(clear)", b""),
            (b"(assert (p (q 1)))", CB06),
            (b"(assert (p q))", b"<Fact-1>\n"),
        ],
        status: FAULTY,
    },
    // A template that is refused leaves the old one.
    Row {
        steps: &[
            (b"(deftemplate p (slot q))", b""),
            (b"(deftemplate p (slot r)(slot r))", CB08),
            (b"(assert (p (q 1)))", b"<Fact-1>\n"),
        ],
        status: FAULTY,
    },
];

#[test]
fn keeps_templates_in_use(rt: HostRuntime) {
    assert_eq!(rt; first_wrong(rt.alloc(), &IN_USE), None);
}
