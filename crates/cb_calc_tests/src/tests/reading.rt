//! Which forms are expressions, and the first faults of others.
use super::rows::read;
use cb_calc::{Env, Expr};
use cb_facts::Refused;
use std::alloc::Global;

/// Forms at the top level, and the numbers of their first faults; 0 where there is none. No variable and no global has a
/// value, and no relation has a template.
const FORMS: [(&str, u8); 44] = [
    ("(if TRUE then a else b)", 0),
    ("(if TRUE then then)", 0),
    ("(if FALSE then else)", 0),
    ("(while do a)", 0),
    ("(while FALSE do do)", 0),
    ("(bind ?x 1 (create$))", 0),
    ("(if TRUE then (print ?q) (bind ?q 1))", 0),
    ("(assert (a) (b (+ 1 2) =) (c \"d\" 3))", 0),
    ("(retract * 1)", 0),
    ("(printout nil (println) crlf)", 0),
    // The word that a list begins with.
    ("()", 8),
    ("(1 2)", 8),
    ("(bogus 1)", 6),
    ("(test TRUE)", 6),
    ("(run)", 14),
    ("(duplicate 1)", 14),
    ("(create$ (defrule))", 14),
    // The number and the shape of arguments, before the arguments.
    ("(+ (reset))", 7),
    ("(not 1 2)", 7),
    ("(assert)", 7),
    ("(retract)", 7),
    ("(bind ? 1)", 7),
    ("(bind x 1)", 7),
    ("(bind ?x)", 7),
    ("(if TRUE else a)", 7),
    ("(if (bogus))", 7),
    ("(if TRUE then a else b else c)", 7),
    ("(while)", 7),
    ("(printout)", 14),
    ("(printout \"t\" a)", 14),
    ("(printout (bogus) a)", 14),
    ("(if TRUE then (print ?q) (bind ?q))", 7),
    // The arguments, from left to right.
    ("(+ ? (bogus))", 8),
    ("(+ 1 &)", 8),
    ("(println ?u ?*u*)", 11),
    ("(println ?*u* ?u)", 12),
    ("(bind ?*u* (bogus))", 12),
    ("(bind ?x (bogus))", 6),
    // Facts.
    ("(assert ?)", 9),
    ("(assert (test))", 9),
    ("(assert (1 2))", 9),
    ("(assert (a ?))", 8),
    ("(assert (a b|c))", 8),
    ("(assert (d = (+ 1 2)))", 14),
];

/// Forms that modify a fact, likewise. Which slots there are, and how many values each takes, is seen when they are carried out.
const MODIFYING: [(&str, u8); 26] = [
    ("(modify 1)", 0),
    ("(modify 1 (n) (m \"x\" a) (t ?q (bind ?q 1)))", 0),
    ("(modify (assert (a)) (modify (+ 1 2)))", 0),
    ("(modify = (n =) (m = 1) (bind (create$)))", 0),
    ("(modify)", 7),
    ("(modify ?f)", 11),
    ("(modify ?)", 8),
    ("(modify ?f x)", 11),
    // Each slot is a list that begins with a name of its own.
    ("(modify (bogus) x)", 6),
    ("(modify 1 x)", 9),
    ("(modify 1 ?*u* (n (bogus)))", 9),
    ("(modify 1 ())", 9),
    ("(modify 1 (3 4))", 9),
    ("(modify 1 (\"n\" 4))", 9),
    ("(modify 1 (?n 4))", 9),
    ("(modify 1 = (n 1))", 9),
    // Its values come before the next slot.
    ("(modify 1 (n (bogus)) x)", 6),
    ("(modify 1 (n 1) (n (bogus)))", 9),
    ("(modify 1 (n ?*u*) (n 1))", 12),
    ("(modify 1 (n ?))", 8),
    ("(modify 1 (n a|b))", 8),
    ("(modify 1 (n = (bogus)))", 14),
    ("(modify 1 (n ?u = (+ 1 2)))", 11),
    ("(modify 1 (n (facts)))", 14),
    ("(modify 1 (n (modify)))", 7),
    ("(create$ (modify 1 (n x)) (modify 1 (n ?u) x))", 11),
];

fn number_of(read: Result<Expr, Refused>) -> Option<u8> {
    match read {
        Ok(_) => Some(0),
        Err(Refused::Fault(fault)) => Some(fault.number()),
        Err(Refused::NoMemory) => None,
    }
}

fn is_right(alloc: Global, env: &Env, text: &str, number: u8) -> bool {
    number_of(read(alloc, env, text.as_bytes())) == Some(number)
}

fn first_wrong(alloc: Global, rows: &[(&str, u8)]) -> Option<usize> {
    let env = Env::new(alloc);
    for (i, (text, number)) in rows.iter().enumerate() {
        if !is_right(alloc, &env, text, *number) {
            return Some(i);
        }
    }
    None
}

#[test]
fn reads_or_reports_the_first_fault(rt: HostRuntime) {
    assert!(rt; first_wrong(rt.alloc(), &FORMS).is_none());
}

#[test]
fn reads_what_modifies_a_fact(rt: HostRuntime) {
    assert!(rt; first_wrong(rt.alloc(), &MODIFYING).is_none());
}
