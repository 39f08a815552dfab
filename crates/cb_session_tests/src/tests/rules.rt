//! Rules: how they are defined, fire, and are in the way of templates.
use super::*;

const RULES: [Row; 8] = [
    // Rules fire from the greatest salience, and the newest first.
    Row {
        steps: &[
            (b"(defrule a (go ?x) => (println a ?x))", b""),
            (
                b"(defrule b \"1\" (declare (salience (+ 1 1))) (go 2) => (print b))",
                b"",
            ),
            (b"(assert (go 1) (go 2))", b"<Fact-2>\n"),
            (
                b"(agenda)",
                b"2      b: f-2\n0      a: f-2\n0      a: f-1\nFor a total of 3 activations.\n",
            ),
            (b"(rules)", b"a\nb\nFor a total of 2 defrules.\n"),
            (b"(run 1)", b"b"),
            (b"(run 0)", b""),
            (b"(run (- 0 1))", b"a2\na1\n"),
            (b"(agenda)", b""),
            (b"(run)", b""),
        ],
        status: DONE,
    },
    // A rule that is defined again is another rule, and its place is the last.
    Row {
        steps: &[
            (b"(assert (go))", b"<Fact-1>\n"),
            (b"(defrule a (go) => (println 1))", b""),
            (b"(defrule b (go) => (println 2))", b""),
            (b"(run)", b"2\n1\n"),
            (b"(defrule a (go) => (println 3))", b""),
            (b"(rules)", b"b\na\nFor a total of 2 defrules.\n"),
            (b"(run)", b"3\n"),
            (b"(defrule a (go ?x) => ?y)", CB11),
            (b"(rules)", b"b\na\nFor a total of 2 defrules.\n"),
        ],
        status: FAULTY,
    },
    // Without elements it comes when it is defined and at each reset.
    Row {
        steps: &[
            (b"(bind ?n 1)", b"1\n"),
            (b"(defrule e => (println e))", b""),
            (b"(run)", b"e\n"),
            (b"(run)", b""),
            (b"(reset)", b""),
            (b"(agenda)", b"0      e: *\nFor a total of 1 activation.\n"),
            (b"(run)", b"e\n"),
            (b"(clear)", b""),
            (b"(reset)", b""),
            (b"(rules)", b""),
        ],
        status: DONE,
    },
    // Facts, tests and segments, and what actions do to the agenda.
    Row {
        steps: &[
            (
                b"(defrule j ?f <- (a ?x $?) (b ?x) => (retract ?f) (println ?f))",
                b"",
            ),
            (
                b"(defrule t (a $? ?x) (test (> ?x 2)) => (assert (b 1)))",
                b"",
            ),
            (b"(assert (a 1) (a 1 3))", b"<Fact-2>\n"),
            (
                b"(agenda)",
                b"0      t: f-2\nFor a total of 1 activation.\n",
            ),
            (b"(run)", b"<Fact-2>\n<Fact-1>\n"),
            (b"(facts)", b"f-3     (b 1)\nFor a total of 1 fact.\n"),
        ],
        status: DONE,
    },
    // Each branch has matches of its own.
    Row {
        steps: &[
            (
                b"(defrule o (or (a ?x) (and (b ?x) (c))) => (println ?x))",
                b"",
            ),
            (b"(assert (a 1) (b 2) (c))", b"<Fact-3>\n"),
            (
                b"(agenda)",
                b"0      o: f-2,f-3\n0      o: f-1\nFor a total of 2 activations.\n",
            ),
            (b"(run)", b"2\n1\n"),
            (b"(assert (a 2))", b"<Fact-4>\n"),
            (b"(run)", b"2\n"),
        ],
        status: DONE,
    },
    // A fault or `halt` ends the run, and what came before stands.
    Row {
        steps: &[
            (
                b"(defrule r (a ?x) => (print ?x) (div 1 ?x) (halt) (print -))",
                b"",
            ),
            (b"(assert (a 1) (a 0) (a 2))", b"<Fact-3>\n"),
            (b"(run)", b"2-"),
            (b"(run)", b"0[CB19] division by zero\n"),
            (b"(run)", b"1-"),
            (b"(halt)", b""),
            (b"(run)", b""),
        ],
        status: FAULTY,
    },
    // Actions of a rule know no variables of the top level.
    Row {
        steps: &[
            (b"(bind ?y 1)", b"1\n"),
            (b"(defrule r => (println ?y))", CB11),
            (b"(defrule r => (bind ?y 2) (println ?y))", b""),
            (b"(run)", b"2\n"),
            (b"?y ", b"1\n"),
        ],
        status: FAULTY,
    },
    // A template is in use where a pattern or an action names its relation.
    Row {
        steps: &[
            (b"(deftemplate k (slot v))", b""),
            (b"(defrule r (k (v ?x)) => (assert (m ?x)))", b""),
            (b"(deftemplate k (slot w))", CB23),
            (b"(deftemplate m (slot v))", CB23),
            (b"(undefrule r)", b""),
            (b"(deftemplate k (slot w))", b""),
            (b"(deftemplate m (slot v))", b""),
        ],
        status: FAULTY,
    },
];

#[test]
fn fires_rules(rt: HostRuntime) {
    assert_eq!(rt; first_wrong(rt.alloc(), &RULES), None);
}

const RULE_FAULTS: [Row; 1] = [
    // The first fault of a rule.
    Row {
        steps: &[
            (b"(defrule)", CB08),
            (b"(defrule 1 =>)", CB08),
            (b"(defrule r)", CB08),
            (b"(defrule r (a))", CB08),
            (b"(defrule r \"c\" \"d\" =>)", CB08),
            (b"(defrule r a =>)", CB08),
            (b"(defrule r () =>)", CB08),
            (b"(defrule r (1) =>)", CB08),
            (b"(defrule r (a (b)) =>)", CB09),
            (b"(defrule r (a ?x&) =>)", CB08),
            (b"(defrule r (a ?&b) =>)", CB08),
            (b"(defrule r (a ~?x) =>)", CB11),
            (b"(defrule r (a :(> ?x 1)) =>)", CB11),
            (b"(defrule r (a :(> ?*g* 1)) =>)", CB13),
            (b"(defrule r (a =(assert (b))) =>)", CB13),
            (b"(defrule r ?f <- (test (a)) =>)", CB14),
            (b"(defrule r ?f <- (a) ?f <- (a) =>)", CB08),
            (b"(defrule r (test) =>)", CB08),
            (b"(defrule r (test (= 1)) =>)", CB07),
            (b"(defrule r (logical (a)) =>)", CB14),
            (b"(defrule r (or) =>)", CB08),
            (b"(defrule r (and) =>)", CB08),
            (b"(defrule r (or (a ?x) (b)) => (println ?x))", CB11),
            (b"(defrule r (declare (salience ?x)) =>)", CB11),
            (b"(defrule r (declare (salience a)) =>)", CB16),
            (b"(defrule r (declare (salience (halt))) =>)", CB14),
            (b"(defrule r (declare (salience (div 1 0))) =>)", CB16),
            (b"(defrule r (declare (salience 10001)) =>)", CB16),
            (b"(defrule r (declare (salience -10000)) =>)", b""),
            (b"(defrule r (declare (auto-focus TRUE)) =>)", CB14),
            (b"(defrule r (declare) =>)", CB08),
            (b"(defrule r (a ?x) => (b ?x))", CB06),
            (b"(defrule r (a ?x) => (println ?y))", CB11),
            (b"(defrule r (a ?x) => (println ?*g*))", CB12),
            (b"(defrule r (a ?x) => (assert (test ?x)))", CB09),
            (b"(defrule r (a ?x) => (run))", CB14),
            (b"(defrule r (a ?x) => =>)", b""),
            (b"(rules)", b"r\nFor a total of 1 defrule.\n"),
        ],
        status: FAULTY,
    },
];

#[test]
fn tells_the_first_fault_of_a_rule(rt: HostRuntime) {
    assert_eq!(rt; first_wrong(rt.alloc(), &RULE_FAULTS), None);
}

const GROUPS: [Row; 3] = [
    // The first fault of a group, and what is bound in it outside.
    Row {
        steps: &[
            (b"(defrule r (not) =>)", CB08),
            (b"(defrule r (not (a) (b)) =>)", CB08),
            (b"(defrule r (exists) =>)", CB08),
            (b"(defrule r (not ?f <- (a)) =>)", CB14),
            (b"(defrule r (not (or (a))) =>)", CB14),
            (b"(defrule r (exists (not (or (a)))) =>)", CB14),
            (b"(defrule r (forall (a)) =>)", CB08),
            (b"(defrule r (forall (a) (logical (b))) =>)", CB14),
            (b"(defrule r (not (forall (a) ?f <- (b))) =>)", CB14),
            (b"(defrule r ?f <- (exists (a)) =>)", CB14),
            (b"(defrule r (exists (a (b))) =>)", CB09),
            (b"(defrule r (exists (a ?x)) (b ~?x) =>)", CB11),
            (b"(defrule r (forall (a ?x) (b ?y)) (c ~?x) =>)", CB11),
            (b"(defrule r (not (and (not (a ?x)) (b ~?x))) =>)", CB11),
            (
                b"(defrule r (forall (a ?x) (exists (b ~?x) (not (c ~?x)))) =>)",
                b"",
            ),
            (b"(defrule r (exists (a ?x)) => (println ?x))", CB11),
        ],
        status: FAULTY,
    },
    // A `not` opens again when the last fact behind it goes; its relation is in use.
    Row {
        steps: &[
            (b"(defrule n (a ?x) (not (b ?x)) => (println ?x))", b""),
            (b"(assert (b 1) (a 1) (a 2))", b"<Fact-3>\n"),
            (b"(run)", b"2\n"),
            (b"(retract 1)", b""),
            (b"(run)", b"1\n"),
            (b"(deftemplate b (slot v))", CB23),
            (b"(undefrule n)", b""),
            (b"(deftemplate b (slot v))", b""),
        ],
        status: FAULTY,
    },
    // What is inside a `forall` is in use too.
    Row {
        steps: &[
            (b"(defrule f (exists (k) (forall (l ?x) (m ?x))) =>)", b""),
            (b"(deftemplate l)", CB23),
            (b"(deftemplate m)", CB23),
            (b"(undefrule f)", b""),
            (b"(deftemplate m)", b""),
        ],
        status: FAULTY,
    },
];

#[test]
fn reads_groups(rt: HostRuntime) {
    assert_eq!(rt; first_wrong(rt.alloc(), &GROUPS), None);
}
