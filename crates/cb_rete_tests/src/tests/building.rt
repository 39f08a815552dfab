//! Elements and facts by rows.
use cb_constraints::{Check, Constraint, Demand, PatternParts, Row, Test};
use cb_exprs::Expr;
use cb_facts::{Fact, Multifield, Name, Single, Value};
use cb_fit::Pattern;
use cb_forms::NoMemory;
use cb_rules::Ce;
use cb_words::Function;
use std::alloc::Global;

/// The mark of the meters.
#[derive(Drop)]
pub(crate) struct Mark;

/// A constraint for a field.
pub(crate) enum Field {
    /// `?`
    Any,
    /// `$?`
    Rest,
    /// `?x`, by the letter.
    Is(u8),
    /// `~?x`, by the letter.
    Differs(u8),
    /// A number.
    Number(i64),
    /// `~` and a number.
    NotNumber(i64),
}

/// A pattern: the letter of its relation, and what it asks of the fields.
pub(crate) struct Asked {
    pub(crate) relation: u8,
    pub(crate) fields: &'static [Field],
}

/// A condition element.
pub(crate) enum Element {
    Pattern(Asked),
    /// `?f <-` and a pattern.
    Addressed(Asked),
    /// `exists`, or `not` where it is not positive.
    Group(bool, &'static [Asked]),
    /// The same of patterns and a `not` behind them.
    Nested(bool, &'static [Asked], &'static [Asked]),
    /// The same of patterns and a `not`, which is of patterns and a `not` behind them.
    Deep(bool, &'static [Asked], &'static [Asked], &'static [Asked]),
    /// `(test (> ?x ?y))`, by the letters.
    Above(u8, u8),
    /// A group of patterns, such a test, and patterns.
    Tested(bool, &'static [Asked], u8, u8, &'static [Asked]),
}

pub(crate) fn letter(alloc: Global, letter: u8) -> Result<Name, NoMemory> {
    Ok(Name::new(alloc, &[letter])?)
}

pub(crate) fn fact(alloc: Global, relation: u8, numbers: &[i64]) -> Result<Fact, NoMemory> {
    let mut fields = Vec::new(alloc);
    for number in numbers {
        fields.push(Single::Int(*number))?;
    }
    let fields = Multifield::from_vec(fields)?;
    Fact::ordered(alloc, letter(alloc, relation)?, fields)
}

fn test(alloc: Global, field: &Field) -> Result<Option<Check>, NoMemory> {
    Ok(match field {
        Field::Any | Field::Rest => None,
        Field::Is(x) => Some(Check {
            is_negated: false,
            test: Test::Variable(letter(alloc, *x)?),
        }),
        Field::Differs(x) => Some(Check {
            is_negated: true,
            test: Test::Variable(letter(alloc, *x)?),
        }),
        Field::Number(n) => Some(Check {
            is_negated: false,
            test: Test::Constant(Value::Int(*n)),
        }),
        Field::NotNumber(n) => Some(Check {
            is_negated: true,
            test: Test::Constant(Value::Int(*n)),
        }),
    })
}

fn demand(alloc: Global, field: &Field) -> Result<Demand, NoMemory> {
    let Some(check) = test(alloc, field)? else {
        return Ok(Demand::Nothing);
    };
    let mut checks = Vec::new(alloc);
    checks.push(check)?;
    Ok(Demand::Each(checks))
}

fn row(alloc: Global, fields: &[Field]) -> Result<Row, NoMemory> {
    let mut constraints = Vec::new(alloc);
    for field in fields {
        constraints.push(Constraint {
            takes_segment: matches!(field, Field::Rest),
            demand: demand(alloc, field)?,
        })?;
    }
    Ok(Row::new(constraints))
}

fn pattern(alloc: Global, asked: &Asked) -> Result<Pattern<Mark>, NoMemory> {
    let row = row(alloc, asked.fields)?;
    Pattern::new(
        alloc,
        letter(alloc, asked.relation)?,
        PatternParts::Fields(row),
    )
}

fn pattern_element(
    alloc: Global,
    address: Option<Name>,
    asked: &Asked,
) -> Result<Ce<Mark>, NoMemory> {
    Ok(Ce::Pattern {
        address,
        pattern: pattern(alloc, asked)?,
    })
}

/// Elements, and patterns behind them.
fn and_patterns(
    alloc: Global,
    elements: Vec<Ce<Mark>>,
    asked: &[Asked],
) -> Result<Vec<Ce<Mark>>, NoMemory> {
    let mut all = elements;
    for one in asked {
        all.push(pattern_element(alloc, None, one)?)?;
    }
    Ok(all)
}

fn group(alloc: Global, positive: bool, asked: &[Asked]) -> Result<Ce<Mark>, NoMemory> {
    let inner = and_patterns(alloc, Vec::new(alloc), asked)?;
    Ok(Ce::Group { positive, inner })
}

fn nested(
    alloc: Global,
    positive: bool,
    asked: &[Asked],
    without: &[Asked],
) -> Result<Ce<Mark>, NoMemory> {
    let mut inner = and_patterns(alloc, Vec::new(alloc), asked)?;
    inner.push(group(alloc, false, without)?)?;
    Ok(Ce::Group { positive, inner })
}

fn deep(
    alloc: Global,
    positive: bool,
    asked: &[Asked],
    without: &[Asked],
    unless: &[Asked],
) -> Result<Ce<Mark>, NoMemory> {
    let mut inner = and_patterns(alloc, Vec::new(alloc), asked)?;
    inner.push(nested(alloc, false, without, unless)?)?;
    Ok(Ce::Group { positive, inner })
}

fn above(alloc: Global, x: u8, y: u8) -> Result<Ce<Mark>, NoMemory> {
    let mut values = Vec::new(alloc);
    values.push(Expr::Variable(letter(alloc, x)?))?;
    values.push(Expr::Variable(letter(alloc, y)?))?;
    Ok(Ce::Test(Expr::Call(Function::Greater, values)))
}

fn tested(
    alloc: Global,
    positive: bool,
    first: &[Asked],
    test: Ce<Mark>,
    then: &[Asked],
) -> Result<Ce<Mark>, NoMemory> {
    let mut inner = and_patterns(alloc, Vec::new(alloc), first)?;
    inner.push(test)?;
    let inner = and_patterns(alloc, inner, then)?;
    Ok(Ce::Group { positive, inner })
}

fn make_element(alloc: Global, element: &Element) -> Result<Ce<Mark>, NoMemory> {
    match element {
        Element::Pattern(asked) => pattern_element(alloc, None, asked),
        Element::Addressed(asked) => { pattern_element(alloc, Some(letter(alloc, b'f')?), asked) }
        Element::Group(positive, asked) => group(alloc, *positive, asked),
        Element::Nested(positive, asked, without) => nested(alloc, *positive, asked, without),
        Element::Deep(positive, asked, without, unless) => {
            deep(alloc, *positive, asked, without, unless)
        }
        Element::Above(x, y) => above(alloc, *x, *y),
        Element::Tested(positive, first, x, y, then) => {
            tested(alloc, *positive, first, above(alloc, *x, *y)?, then)
        }
    }
}

fn branch(alloc: Global, elements: &[Element]) -> Result<Vec<Ce<Mark>>, NoMemory> {
    let mut branch = Vec::new(alloc);
    for one in elements {
        branch.push(make_element(alloc, one)?)?;
    }
    Ok(branch)
}

pub(crate) fn branches(
    alloc: Global,
    rows: &[&'static [Element]],
) -> Result<Vec<Vec<Ce<Mark>>>, NoMemory> {
    let mut branches = Vec::new(alloc);
    for row in rows {
        branches.push(branch(alloc, row)?)?;
    }
    Ok(branches)
}
