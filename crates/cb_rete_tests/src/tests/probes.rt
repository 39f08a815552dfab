//! How often patterns are tested.
use crate::tests::building::{Asked, Element, Field, Mark, branches};
use crate::tests::changing::{Change, carry_out};
use cb_fit::Meter;
use cb_forms::NoMemory;
use cb_matches::Matcher;
use cb_rete::Joins;
use std::alloc::Global;

/// A change, and how often patterns may have been tested by all changes up to it.
struct Step {
    change: Change,
    at_most: u64,
}

/// A rule of one branch, and changes.
struct Row {
    branch: &'static [Element],
    steps: &'static [Step],
}

const A_X: Asked = Asked {
    relation: b'a',
    fields: &[Field::Is(b'x')],
};

const B_X: Asked = Asked {
    relation: b'b',
    fields: &[Field::Is(b'x')],
};

const C_X: Asked = Asked {
    relation: b'c',
    fields: &[Field::Is(b'x')],
};

const B_X_Y: Asked = Asked {
    relation: b'b',
    fields: &[Field::Is(b'x'), Field::Is(b'y')],
};

const C_Y: Asked = Asked {
    relation: b'c',
    fields: &[Field::Is(b'y')],
};

const C_ANY: Asked = Asked {
    relation: b'c',
    fields: &[Field::Any],
};

const ROWS: [Row; 4] = [
    // (a ?x) (b ?x)
    Row {
        branch: &[Element::Pattern(A_X), Element::Pattern(B_X)],
        steps: &[
            Step {
                change: Change::Assert(1, b'a', &[1]),
                at_most: 3,
            },
            Step {
                change: Change::Assert(2, b'a', &[2]),
                at_most: 6,
            },
            Step {
                change: Change::Assert(3, b'a', &[3]),
                at_most: 9,
            },
            Step {
                change: Change::Assert(4, b'b', &[2]),
                at_most: 14,
            },
            Step {
                change: Change::Retract(4),
                at_most: 14,
            },
            Step {
                change: Change::Retract(2),
                at_most: 14,
            },
        ],
    },
    // (a ?x) (not (b ?x)) (c ?x): where the `not` opens, what comes behind it is joined with the facts of the last pattern
    Row {
        branch: &[
            Element::Pattern(A_X),
            Element::Group(false, &[B_X]),
            Element::Pattern(C_X),
        ],
        steps: &[
            Step {
                change: Change::Assert(1, b'b', &[1]),
                at_most: 3,
            },
            Step {
                change: Change::Assert(2, b'c', &[1]),
                at_most: 6,
            },
            Step {
                change: Change::Assert(3, b'c', &[2]),
                at_most: 9,
            },
            Step {
                change: Change::Assert(4, b'a', &[1]),
                at_most: 14,
            },
            Step {
                change: Change::Retract(1),
                at_most: 16,
            },
        ],
    },
    // (a ?x) (not (c ?)): the pattern in the group is tested once for each fact, however many partial matches are before it
    Row {
        branch: &[Element::Pattern(A_X), Element::Group(false, &[C_ANY])],
        steps: &[
            Step {
                change: Change::Assert(1, b'a', &[1]),
                at_most: 3,
            },
            Step {
                change: Change::Assert(2, b'a', &[2]),
                at_most: 6,
            },
            Step {
                change: Change::Assert(3, b'c', &[1]),
                at_most: 8,
            },
            Step {
                change: Change::Retract(3),
                at_most: 8,
            },
        ],
    },
    // (a ?x) (not (b ?x ?y) (not (c ?y))): one in another, of which each pattern is tested once for each fact and for what comes before it
    Row {
        branch: &[
            Element::Pattern(A_X),
            Element::Nested(false, &[B_X_Y], &[C_Y]),
        ],
        steps: &[
            Step {
                change: Change::Assert(1, b'a', &[1]),
                at_most: 4,
            },
            Step {
                change: Change::Assert(2, b'b', &[1, 5]),
                at_most: 8,
            },
            Step {
                change: Change::Assert(3, b'c', &[5]),
                at_most: 12,
            },
            Step {
                change: Change::Retract(2),
                at_most: 12,
            },
        ],
    },
];

/// Whether each change keeps within its number.
fn keeps(alloc: Global, row: &Row) -> Result<bool, NoMemory> {
    let mut other = Meter::new(Mark);
    let mut matcher = Joins::new(alloc);
    matcher.add_rule(5, branches(alloc, &[row.branch])?, &mut other)?;
    let mut meter = Meter::new(Mark);
    for step in row.steps {
        carry_out(alloc, &mut matcher, &step.change, &mut meter)?;
        if meter.probes() > step.at_most {
            return Ok(false);
        }
    }
    Ok(meter.probes() > 0)
}

/// The first row in which patterns are tested too often.
fn wrong_row(alloc: Global) -> Result<Option<usize>, NoMemory> {
    for (i, row) in ROWS.iter().enumerate() {
        if !keeps(alloc, row)? {
            return Ok(Some(i));
        }
    }
    Ok(None)
}

#[test]
fn no_pattern_is_tested_too_often(rt: HostRuntime) -> Result<(), NoMemory> {
    let wrong = wrong_row(rt.alloc())?;
    assert!(rt; wrong.is_none(), "{wrong:?}");
    Ok(())
}
