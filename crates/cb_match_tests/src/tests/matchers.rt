//! Matchers: `Rematch` through the bound that a session has.
ghost use Rattle.std.specs.Prelude.{◌≡◌, []};

use cb_constraints::{Check, Constraint, Demand, PatternParts, Row, Test};
use cb_exprs::Env;
use cb_facts::{Fact, Multifield, Name, Single, Value};
use cb_fit::{Meter, Pattern};
use cb_forms::NoMemory;
use cb_match::{Delta, Key, Matcher, Rematch};
use cb_rules::Ce;
use std::alloc::Global;

/// The mark of the meter.
#[derive(Drop)]
struct Mark;

/// A change of a matcher that has one rule, of the number 5 and the pattern `(p ?x $?)`. The number of a fact stands for
/// `(p NUMBER)`.
enum Change {
    /// Adds the fact under the index, unless a fact has the index or an equal fact is there.
    Assert(u64, i64),
    Retract(u64),
    Restart,
    DropRule,
}

/// A change, and the indices of the facts of the matches that go and come by it.
struct Turn {
    change: Change,
    gone: &'static [u64],
    come: &'static [u64],
}

const TURNS: [Turn; 7] = [
    Turn {
        change: Change::Assert(7, 1),
        gone: &[],
        come: &[7],
    },
    Turn {
        change: Change::Assert(3, 2),
        gone: &[],
        come: &[3],
    },
    Turn {
        change: Change::Retract(7),
        gone: &[7],
        come: &[],
    },
    Turn {
        change: Change::Restart,
        gone: &[],
        come: &[],
    },
    Turn {
        change: Change::Assert(4, 1),
        gone: &[],
        come: &[4],
    },
    Turn {
        change: Change::Assert(5, 2),
        gone: &[],
        come: &[5],
    },
    Turn {
        change: Change::DropRule,
        gone: &[4, 5],
        come: &[],
    },
];

fn name(alloc: Global, bytes: &[u8]) -> Result<Name, NoMemory> {
    Ok(Name::new(alloc, bytes)?)
}

fn fact(alloc: Global, n: i64) -> Result<Fact, NoMemory> {
    let mut fields = Vec::new(alloc);
    fields.push(Single::Int(n))?;
    let fields = Multifield::from_vec(fields)?;
    Fact::ordered(alloc, name(alloc, b"p")?, fields)
}

/// `?x`
fn variable(alloc: Global) -> Result<Constraint, NoMemory> {
    let mut checks = Vec::new(alloc);
    checks.push(Check {
        is_negated: false,
        test: Test::Variable(name(alloc, b"x")?),
    })?;
    Ok(Constraint {
        takes_segment: false,
        demand: Demand::Each(checks),
    })
}

/// `?x $?`
fn row(alloc: Global) -> Result<Row, NoMemory> {
    let mut constraints = Vec::new(alloc);
    constraints.push(variable(alloc)?)?;
    constraints.push(Constraint {
        takes_segment: true,
        demand: Demand::Nothing,
    })?;
    Ok(Row::new(constraints))
}

/// `(p ?x $?)`
fn pattern(alloc: Global) -> Result<Pattern<Mark>, NoMemory> {
    Pattern::new(alloc, name(alloc, b"p")?, PatternParts::Fields(row(alloc)?))
}

fn branch(alloc: Global) -> Result<Vec<Ce<Mark>>, NoMemory> {
    let mut branch = Vec::new(alloc);
    branch.push(Ce::Pattern {
        address: None,
        pattern: pattern(alloc)?,
    })?;
    Ok(branch)
}

fn branches(alloc: Global) -> Result<Vec<Vec<Ce<Mark>>>, NoMemory> {
    let mut branches = Vec::new(alloc);
    branches.push(branch(alloc)?)?;
    Ok(branches)
}

/// Whether these are keys of the rule and of these facts, each with the one field and no more.
fn are_keys(alloc: Global, keys: &[Key], indices: &[u64]) -> Result<bool, NoMemory> {
    if keys.len() != indices.len() {
        return Ok(false);
    }
    for (key, index) in keys.iter().zip(indices) {
        if !is_key(alloc, key, *index)? {
            return Ok(false);
        }
    }
    Ok(true)
}

fn is_key(alloc: Global, key: &Key, index: u64) -> Result<bool, NoMemory> {
    let [part] = key.parts() else {
        return Ok(false);
    };
    let is_rule = key.rule() == 5 && key.branch() == 0;
    let cuts = part.cuts.to_vec(alloc)?;
    Ok(is_rule && part.index == index && cuts.as_slice() == [1, 0].as_slice())
}

fn nothing(alloc: Global) -> Delta {
    Delta {
        gone: Vec::new(alloc),
        come: Vec::new(alloc),
        gone_numbers: Vec::new(alloc),
        come_numbers: Vec::new(alloc),
    }
}

fn assert_fact<M: Matcher<Mark>>(
    alloc: Global,
    matcher: &mut M,
    ix: u64,
    n: i64,
    meter: &mut Meter<Mark>,
) -> Result<Delta, NoMemory> {
    let fact = fact(alloc, n)?;
    if matcher.facts().get(ix).is_some() || matcher.facts().find(&fact).is_some() {
        return Ok(nothing(alloc));
    }
    matcher.assert(ix, fact, meter)
}

fn retract_fact<M: Matcher<Mark>>(
    alloc: Global,
    matcher: &mut M,
    ix: u64,
    meter: &mut Meter<Mark>,
) -> Result<Delta, NoMemory> {
    if matcher.facts().get(ix).is_none() {
        return Ok(nothing(alloc));
    }
    matcher.retract(ix, meter)
}

fn carry_out<M: Matcher<Mark>>(
    alloc: Global,
    matcher: &mut M,
    change: &Change,
    meter: &mut Meter<Mark>,
) -> Result<Delta, NoMemory> {
    match change {
        Change::Assert(ix, n) => assert_fact(alloc, matcher, *ix, *n, meter),
        Change::Retract(ix) => retract_fact(alloc, matcher, *ix, meter),
        Change::Restart => matcher.restart(meter),
        Change::DropRule => matcher.drop_rule(5),
    }
}

/// Whether each of these matches gives `?x` the number of its fact, which is there.
fn give_numbers<M: Matcher<Mark>>(
    alloc: Global,
    matcher: &M,
    keys: &[Key],
) -> Result<bool, NoMemory> {
    for key in keys {
        if matcher.failed() {
            return Ok(false);
        }
        if !gives_number(alloc, &matcher.bindings(key)?)? {
            return Ok(false);
        }
    }
    Ok(true)
}

fn gives_number(alloc: Global, env: &Env) -> Result<bool, NoMemory> {
    Ok(match env.get(&name(alloc, b"x")?) {
        Some(Value::Int(n)) => *n == 1 || *n == 2,
        _ => false,
    })
}

fn goes_so<M: Matcher<Mark>>(
    alloc: Global,
    matcher: &mut M,
    turn: &Turn,
    meter: &mut Meter<Mark>,
) -> Result<bool, NoMemory> {
    let delta = carry_out(alloc, matcher, &turn.change, meter)?;
    let come = delta.come.as_slice();
    Ok(
        are_keys(alloc, delta.gone.as_slice(), turn.gone)?
            && are_keys(alloc, come, turn.come)?
            && give_numbers(alloc, matcher, come)?,
    )
}

/// The first turn that does not go so, where the matcher has the rule.
fn wrong_turn<M: Matcher<Mark>>(
    alloc: Global,
    matcher: &mut M,
    meter: &mut Meter<Mark>,
) -> Result<Option<usize>, NoMemory> {
    for (i, turn) in TURNS.iter().enumerate() {
        if !goes_so(alloc, matcher, turn, meter)? {
            return Ok(Some(i));
        }
    }
    Ok(None)
}

/// The same, where it has no rule yet.
fn wrong_from<M: Matcher<Mark>>(
    alloc: Global,
    matcher: &mut M,
    meter: &mut Meter<Mark>,
) -> Result<Option<usize>, NoMemory>
    requires { (M.network matcher.old).rules ≡ [] }
{
    matcher.add_rule(5, branches(alloc)?, meter)?;
    wrong_turn(alloc, matcher, meter)
}

#[test]
fn keeps_matches(rt: HostRuntime) -> Result<(), NoMemory> {
    let mut meter = Meter::new(Mark);
    let mut matcher = Rematch::new(rt.alloc());
    let wrong = wrong_from(rt.alloc(), &mut matcher, &mut meter)?;
    assert!(rt; wrong.is_none(), "{wrong:?}");
    Ok(())
}
