//! Expressions carried out, one after another.
use super::rows::expr;
use cb_actions::{Break, EarlyEnd, Limit, World};
use cb_exprs::Expr;
use cb_facts::{Names, Refused, Value, quoted_text};
use cb_forms::{Fault, Form, Item, MemSink, NoMemory, Out, read_items};
use cb_knowledge_base::Mark;
use cb_matches::Matcher;
use cb_rematch::Rematch;
use cb_templates::read_template;
use cb_words::WatchItem;
use std::alloc::Global;

/// Forms, the turns that there are for them, and what comes of each: what it writes, and then its value on a line, or the
/// number of its fault or limit.
const ROWS: [(&str, u64, &str); 21] = [
    // Loops, their turns, and the limit, within arguments too.
    (
        "(bind ?i 0)(while (< ?i 3) (do (bind ?i (+ ?i 1)) (println ?i)))?i",
        3,
        "0\n1\n2\n3\nFALSE\n3\n",
    ),
    (
        "(bind ?i 0)(while (< ?i 3) (do (bind ?i (+ ?i 1)) (println ?i)))?i",
        2,
        "0\n1\n2\n[CB93]\n2\n",
    ),
    ("(while FALSE 1)(while 1 1)", 0, "FALSE\n[CB93]\n"),
    (
        "(bind ?i 0)(while (< ?i 2) (do (bind ?i (+ ?i 1)) (print ?i)))(println \"x\" (while TRUE 1))",
        4,
        "0\n12FALSE\n[CB93]\n",
    ),
    // Where a value is wanted, one that is missing is reported at once.
    ("(if (print \"1\") (print \"2\") (do))", 0, "1[CB17]\n"),
    ("(assert (a (print \"3\") (print \"4\")))", 0, "3[CB17]\n"),
    ("(and (print \"5\") (print \"6\"))", 0, "5[CB17]\n"),
    (
        "(bind ?x (if TRUE (print \"7\") (do)))?x",
        0,
        "7[CB17]\n[CB11]\n",
    ),
    ("(retract (print \"8\") (print \"9\"))", 0, "8[CB17]\n"),
    // The value of actions is that of the last.
    (
        "(do)(if FALSE 1 (do))(if 0 (do 1 2) 3)(do 1 (print 2))",
        0,
        "FALSE\nFALSE\n2\n2",
    ),
    // What decides a call.
    (
        "(and FALSE (print x))(or 1 (print x))(and 1 (do (print y) 2) FALSE (print x))(and 1 2)",
        0,
        "FALSE\nTRUE\nyFALSE\nTRUE\n",
    ),
    // What comes before a fault stands.
    (
        "(do (println \"x\") (println ?q) (bind ?q 1))?q(if TRUE (do (bind ?q 2) (div 1 0)) (do))?q",
        0,
        "x\n[CB11]\n[CB11]\n[CB19]\n2\n",
    ),
    (
        "?*g*(bind ?*g* 1)?*g* ?g(bind ?g ?*g*)",
        0,
        "[CB12]\n1\n1\n[CB11]\n1\n",
    ),
    // All values come before anything is printed.
    (
        "(printout t \"a\" crlf 1 (create$ 2 b))(printout nil \"x\" (print y))(print tab)(println)",
        0,
        "a\n1(2 b)y[CB17]\n\t\n",
    ),
    (
        "(println \"x\" (div 1 0))(println (if TRUE (do (print \"y\") 1) (do)))",
        0,
        "[CB19]\ny1\n",
    ),
    // Facts.
    (
        "(assert (a 1 (create$) (+ 1 1)))(assert (a 1 2))(assert (a))",
        0,
        "<Fact-1>\n<Fact-1>\n<Fact-2>\n",
    ),
    (
        "(assert (p (a 1) (b red)))(assert (p (b red) (a 1)))(assert (p (a 1)))",
        0,
        "<Fact-1>\n<Fact-1>\n<Fact-2>\n",
    ),
    (
        "(assert (p (c 1)))(assert (q (a 1)))(assert (p (a (create$ 1)) (b (do (println \"late\") 1))))",
        0,
        "[CB09]\n[CB09]\nlate\n[CB22]\n",
    ),
    // All arguments of `retract`, then their types, and then one fact after another.
    (
        "(assert (a))(retract * (assert (b)))(assert (c))(retract 3 3)(assert (d))(retract 4 a)(retract * 4)",
        0,
        "<Fact-1>\n<Fact-3>\n[CB20]\n<Fact-4>\n[CB17]\n[CB20]\n",
    ),
    (
        "(assert (a))(retract (sym-cat \"*\"))(retract 1)(retract \"*\")",
        0,
        "<Fact-1>\n[CB20]\n[CB17]\n",
    ),
    // `halt` has no value, and does nothing where no run is on.
    (
        "(halt)(do (print 1) (halt) (println 2))(do (println 3) (halt))(println (do (halt)))(halt)",
        0,
        "12\n3\n[CB17]\n",
    ),
];

/// The same with facts that are modified.
const MODIFIED_ROWS: [(&str, u64, &str); 9] = [
    // What is not named stays. Where nothing would change the address is the value, and where another fact is equal it is FALSE.
    (
        "(assert (p (a 1)))(modify 1 (b 2))(modify 1 (b 2))(modify 1)(assert (p (a 1) (b 2)))",
        0,
        "<Fact-1>\n<Fact-1>\n<Fact-1>\n<Fact-1>\n<Fact-1>\n",
    ),
    (
        "(assert (p (a 1) (b 2)))(modify (assert (p (b 5))) (b 2) (a 1))(assert (p (b 5)))(modify 2 (b 6))",
        0,
        "<Fact-1>\nFALSE\n<Fact-2>\n<Fact-2>\n",
    ),
    // The fact, after all values.
    (
        "(assert (p))(modify 9 (a 2))(modify -1 (a 2))(modify \"1\" (a 2))(modify (create$ 1) (a 2))(modify * (a 2))",
        0,
        "<Fact-1>\n[CB20]\n[CB20]\n[CB17]\n[CB17]\n[CB17]\n",
    ),
    (
        "(modify (print \"x\") (a (print \"y\")))(modify z (a (if TRUE (do (print \"v\") 1) (do))) (b (print \"w\")))(modify z (a (div 1 0)))",
        0,
        "x[CB17]\nvw[CB17]\n[CB19]\n",
    ),
    // The address of a fact that is gone, and of one that was modified.
    (
        "(bind ?f (assert (p)))(retract 1)(modify ?f (a 1))(assert (p))(bind ?f (modify 2 (a ?f)))(modify ?f (a 1))",
        0,
        "<Fact-1>\n[CB20]\n<Fact-2>\n<Fact-2>\n<Fact-2>\n",
    ),
    // The slots: an ordered fact, a slot that is not there, one value for each, and then no multifield.
    (
        "(assert (p))(modify 1 (c 2))(modify 1 (a 1 2))(modify 1 (a))(modify 1 (a (create$ 1 2)))(modify 1 (a (create$)) (c 1))",
        0,
        "<Fact-1>\n[CB09]\n[CB09]\n[CB09]\n[CB22]\n[CB09]\n",
    ),
    (
        "(assert (o 1))(modify 1)(modify 1 (a 1))(modify (assert (p)) (a (create$)) (b 1 2))",
        0,
        "<Fact-1>\n[CB09]\n[CB09]\n[CB09]\n",
    ),
    // A fact that a slot asserts, and what a slot sets. A loop in a slot takes turns.
    (
        "(assert (p))(modify 1 (a (assert (p (b 3)))) (b (bind ?v 7)))(assert (p (b 3)))?v",
        0,
        "<Fact-1>\n<Fact-1>\n<Fact-2>\n7\n",
    ),
    (
        "(assert (p))(modify 1 (a (while TRUE (do 1))))",
        2,
        "<Fact-1>\n[CB93]\n",
    ),
];

/// The same with facts watched: a line for each that comes or goes.
const WATCHED_ROWS: [(&str, u64, &str); 3] = [
    (
        "(assert (a 1 \"b\"))(assert (a 1 \"b\"))(println (assert (p (b 2))))",
        0,
        "==> f-1     (a 1 \"b\")\n<Fact-1>\n<Fact-1>\n==> f-2     (p (a nil) (b 2))\n<Fact-2>\n",
    ),
    (
        "(assert (a))(assert (c))(retract * 5)(retract 2)(retract 2 a)(retract (assert (d)) 1)",
        0,
        "==> f-1     (a)\n<Fact-1>\n==> f-2     (c)\n<Fact-2>\n<== f-1     (a)\n<== f-2     (c)\n[CB20]\n[CB20]\n[CB17]\n==> f-3     (d)\n<== f-3     (d)\n[CB20]\n",
    ),
    (
        "(assert (p (a 1)))(modify 1 (b 2))(modify 1 (b 2))(assert (o))(modify 1 (b (assert (p (a \"x\")))))(modify 3 (a 1) (b <Fact-3>))",
        0,
        "==> f-1     (p (a 1) (b nil))\n<Fact-1>\n<== f-1     (p (a 1) (b nil))\n==> f-1     (p (a 1) (b 2))\n<Fact-1>\n<Fact-1>\n==> f-2     (o)\n<Fact-2>\n==> f-3     (p (a \"x\") (b nil))\n<== f-1     (p (a 1) (b 2))\n==> f-1     (p (a 1) (b <Fact-3>))\n<Fact-1>\n<== f-3     (p (a \"x\") (b nil))\n==> f-3     (p (a 1) (b <Fact-3>))\n<Fact-3>\n",
    ),
];

/// The first row that does not go so, where facts are watched or not.
fn first_wrong(
    alloc: Global,
    rows: &[(&str, u64, &str)],
    watched: bool,
) -> Result<Option<usize>, Refused> {
    for (i, (text, turns, outcome)) in rows.iter().enumerate() {
        if outcome_of(alloc, text.as_bytes(), *turns, watched)?.as_slice() != outcome.as_bytes() {
            return Ok(Some(i));
        }
    }
    Ok(None)
}

/// What comes of the forms of a row.
fn outcome_of(alloc: Global, text: &[u8], turns: u64, watched: bool) -> Result<Vec<u8>, Refused> {
    let mut outcome = Vec::new(alloc);
    add_row(alloc, text, turns, watched, &mut outcome)?;
    Ok(outcome)
}

/// Adds what comes of the forms of a row, in a world of its own.
fn add_row(
    alloc: Global,
    text: &[u8],
    turns: u64,
    watched: bool,
    outcome: &mut Vec<u8>,
) -> Result<(), Refused> {
    let mut world = World::new(alloc, Rematch::new(alloc), turns, 0);
    add_forms(alloc, &mut world, text, watched, outcome)
}

/// Adds what comes of forms, in a world with a template.
fn add_forms<M: Matcher<Mark>>(
    alloc: Global,
    world: &mut World<M>,
    text: &[u8],
    watched: bool,
    outcome: &mut Vec<u8>,
) -> Result<(), Refused> {
    define(alloc, world, b"p (slot a) (slot b)")?;
    watch(world, watched)?;
    add_items(alloc, world, text, outcome)
}

/// Watches facts, or no more.
fn watch<M: Matcher<Mark>>(world: &mut World<M>, on: bool) -> Result<(), NoMemory> {
    match world.watch(WatchItem::Facts, on) {
        Ok(_) => Ok(()),
        Err(_) => Err(NoMemory),
    }
}

/// Adds what comes of the items of a text.
fn add_items<M: Matcher<Mark>>(
    alloc: Global,
    world: &mut World<M>,
    text: &[u8],
    outcome: &mut Vec<u8>,
) -> Result<(), Refused> {
    let items = read_items(alloc, text)?;
    for item in items.as_slice() {
        add_item(alloc, world, item, outcome)?;
    }
    Ok(())
}

/// Defines a template.
fn define<M: Matcher<Mark>>(
    alloc: Global,
    world: &mut World<M>,
    text: &[u8],
) -> Result<(), Refused> {
    let mut forms = Vec::new(alloc);
    for item in read_items(alloc, text)? {
        if let Item::Form(form) = item {
            forms.push(form)?;
        }
    }
    let mut names = Names::new(alloc);
    let (relation, template) = read_template(&mut names, forms.as_slice(), false)?;
    match world.define_template(relation, template) {
        Ok(_) => Ok(()),
        Err(_) => Err(Refused::NoMemory),
    }
}

fn add_item<M: Matcher<Mark>>(
    alloc: Global,
    world: &mut World<M>,
    item: &Item,
    outcome: &mut Vec<u8>,
) -> Result<(), Refused> {
    match item {
        Item::Form(form) => add_outcome(alloc, world, &expr(alloc, form)?, outcome),
        Item::Bad(fault) => Err(Refused::Fault(*fault)),
    }
}

/// Carries an expression out, and adds what it writes and its answer.
fn add_outcome<M: Matcher<Mark>>(
    alloc: Global,
    world: &mut World<M>,
    expr: &Expr,
    outcome: &mut Vec<u8>,
) -> Result<(), Refused> {
    let mut out = Out::new(MemSink::new(alloc, 200, 7, None)?);
    let answer = world.carry_out(expr, &mut out);
    if out.flush().is_ok() {
        outcome.extend_from_slice(out.sink().bytes())?;
    }
    outcome.extend_from_slice(line(alloc, answer)?.as_slice())?;
    Ok(())
}

/// An answer on a line; where there is no value, nothing.
fn line(alloc: Global, answer: Result<Option<Value>, Break>) -> Result<Vec<u8>, NoMemory> {
    match answer {
        Ok(Some(value)) => value_line(alloc, &value),
        Ok(None) => Ok(Vec::new(alloc)),
        Err(Break::Ended(EarlyEnd::Fault(fault) | EarlyEnd::FaultIn(fault, _))) => {
            number_line(alloc, fault.number())
        }
        Err(Break::Ended(EarlyEnd::Limit(Limit::Firings))) => number_line(alloc, 92),
        Err(Break::Ended(EarlyEnd::Limit(Limit::Turns))) => number_line(alloc, 93),
        Err(Break::Ended(EarlyEnd::Limit(Limit::Numbers))) => number_line(alloc, 94),
        Err(Break::Ended(EarlyEnd::Exit(_)) | Break::Stop(_)) => Err(NoMemory),
    }
}

fn value_line(alloc: Global, value: &Value) -> Result<Vec<u8>, NoMemory> {
    let mut line = quoted_text(alloc, value)?;
    line.push(b'\n')?;
    Ok(line)
}

fn number_line(alloc: Global, number: u8) -> Result<Vec<u8>, NoMemory> {
    let mut line = Vec::new(alloc);
    line.extend_from_slice(b"[CB")?;
    line.push(b'0' + number / 10 % 10)?;
    line.push(b'0' + number % 10)?;
    line.extend_from_slice(b"]\n")?;
    Ok(line)
}

#[test]
fn carries_out(rt: HostRuntime) -> Result<(), Refused> {
    assert!(rt; first_wrong(rt.alloc(), &ROWS, false)?.is_none());
    Ok(())
}

#[test]
fn modifies(rt: HostRuntime) -> Result<(), Refused> {
    assert!(rt; first_wrong(rt.alloc(), &MODIFIED_ROWS, false)?.is_none());
    Ok(())
}

#[test]
fn tells_of_watched_facts(rt: HostRuntime) -> Result<(), Refused> {
    assert!(rt; first_wrong(rt.alloc(), &WATCHED_ROWS, true)?.is_none());
    Ok(())
}
