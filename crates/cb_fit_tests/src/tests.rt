//! What decides whether a pattern fits, its shape, and what it asks of a fact alone, read from patterns.
use cb_constraints::{Check, Constraint, Demand, PatternParts, Row, SlotRow, Test};
use cb_eval::Constants;
use cb_exprs::Expr;
use cb_facts::{Fact, Multifield, Name, Single, Value};
use cb_fit::{Comparison, Decision, Meter, Pattern, Selection, Shape};
use cb_forms::NoMemory;
use cb_words::Function;
use std::alloc::Global;

fn name(alloc: Global, bytes: &[u8]) -> Result<Name, NoMemory> {
    Ok(Name::new(alloc, bytes)?)
}

/// The variable of this name, with `~` or without.
fn variable(alloc: Global, is_negated: bool, bytes: &[u8]) -> Result<Check, NoMemory> {
    Ok(Check {
        is_negated,
        test: Test::Variable(name(alloc, bytes)?),
    })
}

/// `:(<= ?v ?w)`
fn compares(alloc: Global) -> Result<Check, NoMemory> {
    let mut args = Vec::new(alloc);
    args.push(Expr::Variable(name(alloc, b"v")?))?;
    args.push(Expr::Variable(name(alloc, b"w")?))?;
    Ok(Check {
        is_negated: false,
        test: Test::Predicate(Box::new(alloc, Expr::Call(Function::LessOrEqual, args))?),
    })
}

fn one_field(demand: Demand) -> Constraint {
    Constraint {
        takes_segment: false,
        demand,
    }
}

/// `?w&:(<= ?v ?w)`
fn compared(alloc: Global) -> Result<Constraint, NoMemory> {
    let mut checks = Vec::new(alloc);
    checks.push(variable(alloc, false, b"w")?)?;
    checks.push(compares(alloc)?)?;
    Ok(one_field(Demand::Each(checks)))
}

/// `~?a`
fn other(alloc: Global) -> Result<Constraint, NoMemory> {
    let mut checks = Vec::new(alloc);
    checks.push(variable(alloc, true, b"a")?)?;
    Ok(one_field(Demand::Each(checks)))
}

fn alone(alloc: Global, bytes: &[u8]) -> Result<Vec<Check>, NoMemory> {
    let mut checks = Vec::new(alloc);
    checks.push(variable(alloc, false, bytes)?)?;
    Ok(checks)
}

/// `?b|?c`
fn chosen(alloc: Global) -> Result<Constraint, NoMemory> {
    let mut alternatives = Vec::new(alloc);
    alternatives.push(alone(alloc, b"b")?)?;
    alternatives.push(alone(alloc, b"c")?)?;
    Ok(one_field(Demand::Either(None, alternatives)))
}

/// Whose fits are counted.
#[derive(Drop)]
struct Counted;

/// `(r ?w&:(<= ?v ?w) ~?a ?b|?c)`, or before the first field a segment.
fn pattern(alloc: Global, with_segment: bool) -> Result<Pattern<Counted>, NoMemory> {
    let mut constraints = Vec::new(alloc);
    if with_segment {
        constraints.push(Constraint {
            takes_segment: true,
            demand: Demand::Nothing,
        })?;
    }
    constraints.push(compared(alloc)?)?;
    constraints.push(other(alloc)?)?;
    constraints.push(chosen(alloc)?)?;
    let parts = PatternParts::Fields(Row::new(constraints));
    Pattern::new(alloc, name(alloc, b"r")?, parts)
}

/// Whether the first field is greater than `?v` or equal, the second differs from `?a`, and the third is `?b` or `?c`.
fn is_read(alloc: Global, decision: &Decision<'_>) -> Result<bool, NoMemory> {
    let [first, second] = decision.compared.as_slice() else {
        return Ok(false);
    };
    let [third] = decision.chosen.as_slice() else {
        return Ok(false);
    };
    let [b, c] = third.variables.as_slice() else {
        return Ok(false);
    };
    let at_first = first.place.field == 0 && first.comparison == Comparison::GreaterOrEqual;
    let at_second = second.place.field == 1 && second.comparison == Comparison::Differs;
    let with_v = first.variable == name(alloc, b"v")?;
    let with_a = second.variable == name(alloc, b"a")?;
    let with_both = *b == name(alloc, b"b")? && *c == name(alloc, b"c")?;
    Ok(at_first && at_second && third.place.field == 2 && with_v && with_a && with_both)
}

#[test]
fn reads_what_decides(rt: HostRuntime) -> Result<(), NoMemory> {
    let pattern = pattern(rt.alloc(), false)?;
    let decision = pattern.decide(rt.alloc())?;
    let is_right = match &decision {
        Some(decision) => is_read(rt.alloc(), decision)?,
        None => false,
    };
    assert!(rt; is_right);
    Ok(())
}

/// `(r ?w&:(oddp ?w))`
fn odd(alloc: Global) -> Result<Pattern<Counted>, NoMemory> {
    let mut args = Vec::new(alloc);
    args.push(Expr::Variable(name(alloc, b"w")?))?;
    let mut checks = Vec::new(alloc);
    checks.push(variable(alloc, false, b"w")?)?;
    checks.push(Check {
        is_negated: false,
        test: Test::Predicate(Box::new(alloc, Expr::Call(Function::Oddp, args))?),
    })?;
    let mut constraints = Vec::new(alloc);
    constraints.push(one_field(Demand::Each(checks)))?;
    let parts = PatternParts::Fields(Row::new(constraints));
    Pattern::new(alloc, name(alloc, b"r")?, parts)
}

#[test]
fn reads_a_condition(rt: HostRuntime) -> Result<(), NoMemory> {
    let pattern = odd(rt.alloc())?;
    let conditions = match pattern.decide(rt.alloc())? {
        Some(decision) => decision.conditions.len(),
        None => 0,
    };
    assert!(rt; conditions == 1);
    Ok(())
}

#[test]
fn reads_nothing_where_a_segment_stands(rt: HostRuntime) -> Result<(), NoMemory> {
    let pattern = pattern(rt.alloc(), true)?;
    let decision = pattern.decide(rt.alloc())?;
    assert!(rt; decision.is_none());
    Ok(())
}

#[test]
fn compares_values(rt: HostRuntime) -> Result<(), NoMemory> {
    let word = Value::Symbol(name(rt.alloc(), b"a")?);
    let holds = Comparison::Less.holds(&Value::Int(1), &Value::Int(2))
        && !Comparison::Less.holds(&Value::Int(2), &Value::Int(2))
        && !Comparison::Less.holds(&word, &Value::Int(2))
        && Comparison::Differs.holds(&word, &Value::Int(2));
    assert!(rt; holds);
    Ok(())
}

/// The shape of `(r ?variable&~number)`.
fn shape(alloc: Global, variable: &[u8], number: i64) -> Result<Shape, NoMemory> {
    let mut checks = alone(alloc, variable)?;
    checks.push(Check {
        is_negated: true,
        test: Test::Constant(Value::Int(number)),
    })?;
    let mut constraints = Vec::new(alloc);
    constraints.push(one_field(Demand::Each(checks)))?;
    let parts = PatternParts::Fields(Row::new(constraints));
    let pattern: Pattern<Counted> = Pattern::new(alloc, name(alloc, b"r")?, parts)?;
    pattern.shape(alloc)
}

/// Whether two shapes are equal.
fn are_equal(one: &Shape, other: &Shape) -> bool {
    one == other
}

/// Whether one shape stands before another.
fn stands_before(one: &Shape, other: &Shape) -> bool {
    one.cmp(other).is_lt()
}

#[test]
fn shapes_have_no_variables(rt: HostRuntime) -> Result<(), NoMemory> {
    let one = shape(rt.alloc(), b"x", 1)?;
    let same = shape(rt.alloc(), b"y", 1)?;
    assert!(rt; are_equal(&one, &same));
    Ok(())
}

#[test]
fn shapes_have_constants(rt: HostRuntime) -> Result<(), NoMemory> {
    let one = shape(rt.alloc(), b"x", 1)?;
    let other = shape(rt.alloc(), b"x", 2)?;
    assert!(rt; stands_before(&one, &other));
    Ok(())
}

/// `(r ?v ?w&:(<= ?v ?w))`
fn rising(alloc: Global) -> Result<Pattern<Counted>, NoMemory> {
    let mut constraints = Vec::new(alloc);
    constraints.push(one_field(Demand::Each(alone(alloc, b"v")?)))?;
    constraints.push(compared(alloc)?)?;
    let parts = PatternParts::Fields(Row::new(constraints));
    Pattern::new(alloc, name(alloc, b"r")?, parts)
}

/// `(r ?v ?v)`
fn repeating(alloc: Global) -> Result<Pattern<Counted>, NoMemory> {
    let mut constraints = Vec::new(alloc);
    constraints.push(one_field(Demand::Each(alone(alloc, b"v")?)))?;
    constraints.push(one_field(Demand::Each(alone(alloc, b"v")?)))?;
    let parts = PatternParts::Fields(Row::new(constraints));
    Pattern::new(alloc, name(alloc, b"r")?, parts)
}

/// `(r ?v ?w&:(>= ?w 2))`
fn limited(alloc: Global) -> Result<Pattern<Counted>, NoMemory> {
    let mut args = Vec::new(alloc);
    args.push(Expr::Variable(name(alloc, b"w")?))?;
    args.push(Expr::Constant(Value::Int(2)))?;
    let mut checks = alone(alloc, b"w")?;
    checks.push(Check {
        is_negated: false,
        test: Test::Predicate(Box::new(alloc, Expr::Call(Function::GreaterOrEqual, args))?),
    })?;
    let mut constraints = Vec::new(alloc);
    constraints.push(one_field(Demand::Each(alone(alloc, b"v")?)))?;
    constraints.push(one_field(Demand::Each(checks)))?;
    let parts = PatternParts::Fields(Row::new(constraints));
    Pattern::new(alloc, name(alloc, b"r")?, parts)
}

/// `(r first second)`
fn pair(alloc: Global, first: i64, second: i64) -> Result<Fact, NoMemory> {
    let mut fields = Vec::new(alloc);
    fields.push(Single::Int(first))?;
    fields.push(Single::Int(second))?;
    Fact::ordered(alloc, name(alloc, b"r")?, Multifield::from_vec(fields)?)
}

fn selects(
    alloc: Global,
    selection: &Selection<Counted>,
    first: i64,
    second: i64,
) -> Result<bool, NoMemory> {
    let constants = Constants::new(alloc)?;
    let mut meter = Meter::new(Counted);
    selection.selects(alloc, &constants, &pair(alloc, first, second)?, &mut meter)
}

/// Whether what a pattern asks of a fact alone selects `(r 2 2)`, and not `(r 2 1)`.
fn tells_apart(alloc: Global, pattern: &Pattern<Counted>) -> Result<bool, NoMemory> {
    let selection = pattern.selection(alloc)?;
    let selects_one = selects(alloc, &selection, 2, 2)?;
    let selects_other = selects(alloc, &selection, 2, 1)?;
    Ok(selects_one && !selects_other)
}

#[test]
fn selects_facts_by_fields_that_it_compares(rt: HostRuntime) -> Result<(), NoMemory> {
    let pattern = rising(rt.alloc())?;
    assert!(rt; tells_apart(rt.alloc(), &pattern)?);
    Ok(())
}

#[test]
fn selects_facts_by_variables_that_it_repeats(rt: HostRuntime) -> Result<(), NoMemory> {
    let pattern = repeating(rt.alloc())?;
    assert!(rt; tells_apart(rt.alloc(), &pattern)?);
    Ok(())
}

#[test]
fn compares_own_fields_apart_from_others(rt: HostRuntime) -> Result<(), NoMemory> {
    let pattern = rising(rt.alloc())?;
    let compares_none = match pattern.decide(rt.alloc())? {
        Some(decision) => decision.compared.is_empty(),
        None => false,
    };
    assert!(rt; compares_none);
    Ok(())
}

#[test]
fn has_the_key_of_its_shape(rt: HostRuntime) -> Result<(), NoMemory> {
    let pattern = rising(rt.alloc())?;
    let key = pattern.selection(rt.alloc())?.key(rt.alloc())?;
    let shape = pattern.shape(rt.alloc())?;
    assert!(rt; are_equal(&key, &shape));
    Ok(())
}

#[test]
fn has_own_fields_in_its_key(rt: HostRuntime) -> Result<(), NoMemory> {
    let pattern = rising(rt.alloc())?;
    let key = pattern.shape(rt.alloc())?;
    let loose = pattern.loose(rt.alloc())?.shape(rt.alloc())?;
    assert!(rt; stands_before(&loose, &key));
    Ok(())
}

#[test]
fn gives_a_variable_the_value_of_its_first_field(rt: HostRuntime) -> Result<(), NoMemory> {
    let giving = repeating(rt.alloc())?.giving_fields(rt.alloc())?;
    let is_first = match giving.as_slice() {
        [field] => field.field == 0,
        _ => false,
    };
    assert!(rt; is_first);
    Ok(())
}

#[test]
fn selects_facts_by_comparisons_with_constants(rt: HostRuntime) -> Result<(), NoMemory> {
    let pattern = limited(rt.alloc())?;
    assert!(rt; tells_apart(rt.alloc(), &pattern)?);
    Ok(())
}

/// A constant, with `~` or without.
fn constant(is_negated: bool, number: i64) -> Check {
    Check {
        is_negated,
        test: Test::Constant(Value::Int(number)),
    }
}

/// `2|4`
fn two_or_four(alloc: Global) -> Result<Constraint, NoMemory> {
    let mut two = Vec::new(alloc);
    two.push(constant(false, 2))?;
    let mut four = Vec::new(alloc);
    four.push(constant(false, 4))?;
    let mut alternatives = Vec::new(alloc);
    alternatives.push(two)?;
    alternatives.push(four)?;
    Ok(one_field(Demand::Either(None, alternatives)))
}

/// `~3&~1`
fn not_three_nor_one(alloc: Global) -> Result<Constraint, NoMemory> {
    let mut checks = Vec::new(alloc);
    checks.push(constant(true, 3))?;
    checks.push(constant(true, 1))?;
    Ok(one_field(Demand::Each(checks)))
}

/// `(r 2 ..)`, where this is asked of the second field.
fn two_and(alloc: Global, second: Constraint) -> Result<Pattern<Counted>, NoMemory> {
    let mut checks = Vec::new(alloc);
    checks.push(constant(false, 2))?;
    let mut constraints = Vec::new(alloc);
    constraints.push(one_field(Demand::Each(checks)))?;
    constraints.push(second)?;
    let parts = PatternParts::Fields(Row::new(constraints));
    Pattern::new(alloc, name(alloc, b"r")?, parts)
}

#[test]
fn selects_facts_by_alternatives(rt: HostRuntime) -> Result<(), NoMemory> {
    let pattern = two_and(rt.alloc(), two_or_four(rt.alloc())?)?;
    assert!(rt; tells_apart(rt.alloc(), &pattern)?);
    Ok(())
}

#[test]
fn selects_facts_by_constants_that_are_not_there(rt: HostRuntime) -> Result<(), NoMemory> {
    let pattern = two_and(rt.alloc(), not_three_nor_one(rt.alloc())?)?;
    assert!(rt; tells_apart(rt.alloc(), &pattern)?);
    Ok(())
}

/// `(r ? ? ?)`
fn three_fields(alloc: Global) -> Result<Pattern<Counted>, NoMemory> {
    let mut constraints = Vec::new(alloc);
    for _ in 0..3 {
        constraints.push(one_field(Demand::Nothing))?;
    }
    let parts = PatternParts::Fields(Row::new(constraints));
    Pattern::new(alloc, name(alloc, b"r")?, parts)
}

#[test]
fn selects_no_fact_with_too_few_fields(rt: HostRuntime) -> Result<(), NoMemory> {
    let selection = three_fields(rt.alloc())?.selection(rt.alloc())?;
    assert!(rt; !selects(rt.alloc(), &selection, 2, 2)?);
    Ok(())
}

/// `(r (s 2|4))`
fn with_slot(alloc: Global) -> Result<Pattern<Counted>, NoMemory> {
    let mut constraints = Vec::new(alloc);
    constraints.push(two_or_four(alloc)?)?;
    let mut slots = Vec::new(alloc);
    slots.push(SlotRow {
        name: name(alloc, b"s")?,
        place: 0,
        row: Row::new(constraints),
    })?;
    Pattern::new(alloc, name(alloc, b"r")?, PatternParts::Slots(slots))
}

/// Whether what a pattern asks of a fact alone selects `(r (s number))`.
fn selects_slot(alloc: Global, pattern: &Pattern<Counted>, number: i64) -> Result<bool, NoMemory> {
    let constants = Constants::new(alloc)?;
    let mut meter = Meter::new(Counted);
    let mut slots = Vec::new(alloc);
    slots.push((name(alloc, b"s")?, Value::Int(number)))?;
    let fact = Fact::with_slots(alloc, name(alloc, b"r")?, slots)?;
    let selection = pattern.selection(alloc)?;
    selection.selects(alloc, &constants, &fact, &mut meter)
}

#[test]
fn selects_facts_by_slots(rt: HostRuntime) -> Result<(), NoMemory> {
    let pattern = with_slot(rt.alloc())?;
    let selects_one = selects_slot(rt.alloc(), &pattern, 2)?;
    let selects_other = selects_slot(rt.alloc(), &pattern, 3)?;
    assert!(rt; selects_one && !selects_other);
    Ok(())
}
