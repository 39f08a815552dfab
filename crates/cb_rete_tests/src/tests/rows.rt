//! Stories that both matchers are told.
use crate::tests::building::{Asked, Element, Field, Mark};
use crate::tests::changing::{Change, Story, told};
use cb_fit::Meter;
use cb_forms::NoMemory;
use cb_rematch::Rematch;
use cb_rete::Joins;
use std::alloc::Global;

/// A story, and how many keys go and come in it.
pub(crate) struct Row {
    pub(crate) story: Story,
    pub(crate) keys: usize,
}

pub(crate) const A_X: Asked = Asked {
    relation: b'a',
    fields: &[Field::Is(b'x')],
};

pub(crate) const B_X: Asked = Asked {
    relation: b'b',
    fields: &[Field::Is(b'x')],
};

pub(crate) const B_X_Y: Asked = Asked {
    relation: b'b',
    fields: &[Field::Is(b'x'), Field::Is(b'y')],
};

const A_NOT_X: Asked = Asked {
    relation: b'a',
    fields: &[Field::Differs(b'x')],
};

const L_REST: Asked = Asked {
    relation: b'l',
    fields: &[Field::Rest, Field::Number(1), Field::Rest],
};

pub(crate) const C_X: Asked = Asked {
    relation: b'c',
    fields: &[Field::Is(b'x')],
};

const C_ANY: Asked = Asked {
    relation: b'c',
    fields: &[Field::Any],
};

const C_1: Asked = Asked {
    relation: b'c',
    fields: &[Field::Number(1)],
};

const C_1_ANY: Asked = Asked {
    relation: b'c',
    fields: &[Field::Number(1), Field::Any],
};

pub(crate) const C_Y: Asked = Asked {
    relation: b'c',
    fields: &[Field::Is(b'y')],
};

const A_ANY: Asked = Asked {
    relation: b'a',
    fields: &[Field::Any],
};

const C_Y_X: Asked = Asked {
    relation: b'c',
    fields: &[Field::Is(b'y'), Field::Is(b'x')],
};

const C_X_Y: Asked = Asked {
    relation: b'c',
    fields: &[Field::Is(b'x'), Field::Is(b'y')],
};

const B_X_REST: Asked = Asked {
    relation: b'b',
    fields: &[Field::Is(b'x'), Field::Rest],
};

const B_REST_Y: Asked = Asked {
    relation: b'b',
    fields: &[Field::Rest, Field::Is(b'y')],
};

const A_Z: Asked = Asked {
    relation: b'a',
    fields: &[Field::Is(b'z')],
};

const A_1: Asked = Asked {
    relation: b'a',
    fields: &[Field::Number(1), Field::Is(b'x')],
};

const A_2: Asked = Asked {
    relation: b'a',
    fields: &[Field::Number(2), Field::Is(b'x')],
};

const D_X: Asked = Asked {
    relation: b'd',
    fields: &[Field::Is(b'x')],
};

const A_X_2: Asked = Asked {
    relation: b'a',
    fields: &[Field::Is(b'x'), Field::Number(2)],
};

const A_NOT_1: Asked = Asked {
    relation: b'a',
    fields: &[Field::NotNumber(1), Field::Is(b'x')],
};

const A_REST_2: Asked = Asked {
    relation: b'a',
    fields: &[Field::Rest, Field::Number(2)],
};

pub(crate) const ROWS: [Row; 32] = [
    // (a ?x) (b ?x): the second pattern first, and then a fact that nothing goes with
    Row {
        story: Story {
            first: &[],
            branches: &[&[Element::Pattern(A_X), Element::Pattern(B_X)]],
            then: &[
                Change::Assert(3, b'b', &[1]),
                Change::Assert(4, b'a', &[1]),
                Change::Assert(1, b'a', &[2]),
                Change::Assert(2, b'b', &[2]),
                Change::Retract(3),
                Change::Retract(1),
            ],
        },
        keys: 4,
    },
    // the same, with the facts there first
    Row {
        story: Story {
            first: &[
                Change::Assert(9, b'a', &[1]),
                Change::Assert(2, b'a', &[2]),
                Change::Assert(5, b'b', &[1]),
                Change::Assert(4, b'b', &[2]),
            ],
            branches: &[&[Element::Pattern(A_X), Element::Pattern(B_X)]],
            then: &[Change::DropRule],
        },
        keys: 4,
    },
    // (a ?x) (a ?x): one fact in both places
    Row {
        story: Story {
            first: &[Change::Assert(2, b'a', &[7])],
            branches: &[&[Element::Pattern(A_X), Element::Addressed(A_X)]],
            then: &[
                Change::Assert(1, b'a', &[8]),
                Change::Retract(2),
                Change::Restart,
                Change::Assert(3, b'a', &[8]),
            ],
        },
        keys: 4,
    },
    // (a ?x) (a ~?x): a new fact joins those that are there in both places
    Row {
        story: Story {
            first: &[],
            branches: &[&[Element::Pattern(A_X), Element::Pattern(A_NOT_X)]],
            then: &[
                Change::Assert(4, b'a', &[1]),
                Change::Assert(2, b'a', &[2]),
                Change::Assert(3, b'a', &[3]),
                Change::Retract(2),
            ],
        },
        keys: 10,
    },
    // (l $? 1 $?): a fact in several ways; and a branch of two patterns beside it
    Row {
        story: Story {
            first: &[Change::Assert(1, b'b', &[5, 6])],
            branches: &[
                &[Element::Pattern(L_REST)],
                &[Element::Pattern(A_ANY), Element::Pattern(B_X_Y)],
            ],
            then: &[
                Change::Assert(6, b'l', &[1, 2, 1, 1]),
                Change::Assert(5, b'a', &[9]),
                Change::Retract(6),
                Change::Retract(1),
            ],
        },
        keys: 8,
    },
    // (a ?x) (not (b ?x))
    Row {
        story: Story {
            first: &[Change::Assert(1, b'a', &[1])],
            branches: &[&[Element::Pattern(A_X), Element::Group(false, &[B_X])]],
            then: &[
                Change::Assert(2, b'b', &[1]),
                Change::Assert(3, b'a', &[2]),
                Change::Retract(2),
                Change::Restart,
            ],
        },
        keys: 4,
    },
    // (exists (a ?x) (b ?x)) (a ?x), and a branch without groups
    Row {
        story: Story {
            first: &[],
            branches: &[
                &[Element::Group(true, &[A_X, B_X]), Element::Pattern(A_X)],
                &[Element::Pattern(B_X)],
            ],
            then: &[
                Change::Assert(1, b'a', &[1]),
                Change::Assert(2, b'a', &[2]),
                Change::Assert(3, b'b', &[2]),
                Change::DropRule,
            ],
        },
        keys: 6,
    },
    // (a ?x) (not (b ?x)) (c ?x): a `not` in the middle, with partial matches behind it
    Row {
        story: Story {
            first: &[Change::Assert(4, b'c', &[1])],
            branches: &[&[
                Element::Pattern(A_X),
                Element::Group(false, &[B_X]),
                Element::Pattern(C_X),
            ]],
            then: &[
                Change::Assert(2, b'b', &[1]),
                Change::Assert(3, b'a', &[1]),
                Change::Retract(2),
                Change::Assert(7, b'b', &[1]),
                Change::Retract(7),
                Change::Retract(4),
                Change::Assert(1, b'c', &[1]),
            ],
        },
        keys: 5,
    },
    // (a ?x) (not (c ?x)) (exists (c ?)) (c ?y): a fact that closes one group and opens the other
    Row {
        story: Story {
            first: &[],
            branches: &[&[
                Element::Pattern(A_X),
                Element::Group(false, &[C_X]),
                Element::Group(true, &[C_ANY]),
                Element::Pattern(C_Y),
            ]],
            then: &[
                Change::Assert(1, b'a', &[1]),
                Change::Assert(2, b'a', &[2]),
                Change::Assert(3, b'c', &[1]),
                Change::Assert(4, b'c', &[2]),
                Change::Retract(3),
            ],
        },
        keys: 3,
    },
    // (a ?x) (not (b ?x) (not (c ?x))): what is inside a group closes it and opens it
    Row {
        story: Story {
            first: &[],
            branches: &[&[
                Element::Pattern(A_X),
                Element::Nested(false, &[B_X], &[C_X]),
            ]],
            then: &[
                Change::Assert(1, b'a', &[1]),
                Change::Assert(2, b'b', &[1]),
                Change::Assert(3, b'c', &[1]),
                Change::Retract(2),
                Change::Retract(3),
            ],
        },
        keys: 3,
    },
    // (a ?x) (not (b ?x) (not (c ?x) (not (d ?x)))): three levels, of which each closes and opens the one around it
    Row {
        story: Story {
            first: &[],
            branches: &[&[
                Element::Pattern(A_X),
                Element::Deep(false, &[B_X], &[C_X], &[D_X]),
            ]],
            then: &[
                Change::Assert(1, b'a', &[1]),
                Change::Assert(2, b'b', &[1]),
                Change::Assert(3, b'c', &[1]),
                Change::Assert(4, b'd', &[1]),
                Change::Retract(3),
                Change::Retract(2),
                Change::Retract(4),
            ],
        },
        keys: 5,
    },
    // (c ?y) (exists (a ?x) (not (b ?x) (not (a ?x)))): one fact stands at two levels
    Row {
        story: Story {
            first: &[],
            branches: &[&[
                Element::Pattern(C_Y),
                Element::Deep(true, &[A_X], &[B_X], &[A_X]),
            ]],
            then: &[
                Change::Assert(9, b'c', &[1]),
                Change::Assert(1, b'a', &[1]),
                Change::Assert(2, b'b', &[1]),
                Change::Assert(3, b'a', &[2]),
                Change::Retract(1),
                Change::Retract(3),
            ],
        },
        keys: 2,
    },
    // (not (a ?x) (not (a ?x))): a fact that comes and goes at two levels at once
    Row {
        story: Story {
            first: &[],
            branches: &[&[Element::Nested(false, &[A_X], &[A_X])]],
            then: &[
                Change::Assert(1, b'a', &[1]),
                Change::Assert(2, b'a', &[2]),
                Change::Retract(1),
                Change::Retract(2),
            ],
        },
        keys: 1,
    },
    // (not (a ?x) (b ?x)) (c ?x): a group before all patterns, with two ways to close it
    Row {
        story: Story {
            first: &[Change::Assert(9, b'c', &[4])],
            branches: &[&[Element::Group(false, &[A_X, B_X]), Element::Pattern(C_X)]],
            then: &[
                Change::Assert(1, b'a', &[1]),
                Change::Assert(2, b'b', &[1]),
                Change::Assert(3, b'a', &[2]),
                Change::Assert(4, b'b', &[2]),
                Change::Retract(1),
                Change::Retract(4),
            ],
        },
        keys: 3,
    },
    // (b ?x ?y) (c ?y ?x): two variables, in another order
    Row {
        story: Story {
            first: &[],
            branches: &[&[Element::Pattern(B_X_Y), Element::Pattern(C_Y_X)]],
            then: &[
                Change::Assert(1, b'b', &[1, 2]),
                Change::Assert(2, b'c', &[2, 1]),
                Change::Assert(3, b'c', &[1, 2]),
                Change::Assert(4, b'b', &[2, 1]),
                Change::Retract(2),
            ],
        },
        keys: 3,
    },
    // (b ?x $?) (c ?x) (b $? ?y) (c ?y): a variable before a segment, and one after it
    Row {
        story: Story {
            first: &[],
            branches: &[&[
                Element::Pattern(B_X_REST),
                Element::Pattern(C_X),
                Element::Pattern(B_REST_Y),
                Element::Pattern(C_Y),
            ]],
            then: &[
                Change::Assert(1, b'b', &[1, 2]),
                Change::Assert(2, b'c', &[1]),
                Change::Assert(3, b'c', &[2]),
                Change::Assert(4, b'b', &[2]),
                Change::Retract(2),
            ],
        },
        keys: 6,
    },
    // (b ?x ?y) (not (c ?x ?y)): two variables in a group
    Row {
        story: Story {
            first: &[],
            branches: &[&[Element::Pattern(B_X_Y), Element::Group(false, &[C_X_Y])]],
            then: &[
                Change::Assert(1, b'b', &[1, 2]),
                Change::Assert(2, b'c', &[1, 2]),
                Change::Assert(3, b'c', &[1, 1]),
                Change::Assert(4, b'b', &[2, 2]),
                Change::Retract(2),
            ],
        },
        keys: 4,
    },
    // (a ?x) (c ?y) (test (> ?x ?y)): a test behind two patterns
    Row {
        story: Story {
            first: &[],
            branches: &[&[
                Element::Pattern(A_X),
                Element::Pattern(C_Y),
                Element::Above(b'x', b'y'),
            ]],
            then: &[
                Change::Assert(1, b'a', &[2]),
                Change::Assert(2, b'c', &[1]),
                Change::Assert(3, b'c', &[2]),
                Change::Assert(4, b'a', &[3]),
                Change::Retract(2),
                Change::Retract(4),
            ],
        },
        keys: 6,
    },
    // (b ?x ?y) (a ?z) (test (> ?x ?y)) (test (> ?z ?x)) (not (c ?x)): two tests behind a pattern, and then a group
    Row {
        story: Story {
            first: &[Change::Assert(1, b'b', &[2, 1])],
            branches: &[&[
                Element::Pattern(B_X_Y),
                Element::Pattern(A_Z),
                Element::Above(b'x', b'y'),
                Element::Above(b'z', b'x'),
                Element::Group(false, &[C_X]),
            ]],
            then: &[
                Change::Assert(2, b'a', &[3]),
                Change::Assert(3, b'b', &[1, 2]),
                Change::Assert(4, b'a', &[2]),
                Change::Assert(5, b'c', &[2]),
                Change::Retract(5),
                Change::Assert(6, b'a', &[4]),
                Change::Retract(2),
            ],
        },
        keys: 5,
    },
    // (b ?x ?y) (not (test (> ?x ?y)) (c ?x)): a test first inside a group, which says nothing of the pattern before the group
    Row {
        story: Story {
            first: &[],
            branches: &[&[
                Element::Pattern(B_X_Y),
                Element::Tested(false, &[], b'x', b'y', &[C_X]),
            ]],
            then: &[
                Change::Assert(1, b'b', &[2, 1]),
                Change::Assert(2, b'b', &[1, 2]),
                Change::Assert(3, b'c', &[2]),
                Change::Assert(4, b'c', &[1]),
                Change::Retract(3),
                Change::Retract(2),
            ],
        },
        keys: 5,
    },
    // (a ?x) (exists (c ?y) (test (> ?x ?y))): a test behind a pattern inside a group
    Row {
        story: Story {
            first: &[],
            branches: &[&[
                Element::Pattern(A_X),
                Element::Tested(true, &[C_Y], b'x', b'y', &[]),
            ]],
            then: &[
                Change::Assert(1, b'a', &[2]),
                Change::Assert(2, b'c', &[2]),
                Change::Assert(3, b'c', &[1]),
                Change::Assert(4, b'c', &[0]),
                Change::Retract(3),
                Change::Retract(4),
                Change::Assert(5, b'a', &[3]),
            ],
        },
        keys: 3,
    },
    // (a 1 ?x), (a 2 ?x) or (a ?x 2): constants in the same field and in another, and a fact that has none of them
    Row {
        story: Story {
            first: &[],
            branches: &[
                &[Element::Pattern(A_1)],
                &[Element::Pattern(A_2)],
                &[Element::Pattern(A_X_2)],
            ],
            then: &[
                Change::Assert(1, b'a', &[1, 2]),
                Change::Assert(2, b'a', &[2, 1]),
                Change::Assert(3, b'a', &[3, 3]),
                Change::Assert(4, b'b', &[1, 2]),
                Change::Retract(1),
                Change::Retract(3),
            ],
        },
        keys: 5,
    },
    // (a ~1 ?x) or (a $? 2): a constant with `~`, and one behind a segment
    Row {
        story: Story {
            first: &[],
            branches: &[&[Element::Pattern(A_NOT_1)], &[Element::Pattern(A_REST_2)]],
            then: &[
                Change::Assert(1, b'a', &[1, 2]),
                Change::Assert(2, b'a', &[2, 2]),
                Change::Assert(3, b'a', &[2]),
                Change::Retract(2),
                Change::Retract(3),
            ],
        },
        keys: 7,
    },
    // (b ?x) (not (a 1 ?x)), or (b ?x) (exists (a 2 ?x)): constants in groups
    Row {
        story: Story {
            first: &[],
            branches: &[
                &[Element::Pattern(B_X), Element::Group(false, &[A_1])],
                &[Element::Pattern(B_X), Element::Group(true, &[A_2])],
            ],
            then: &[
                Change::Assert(1, b'b', &[7]),
                Change::Assert(2, b'a', &[1, 7]),
                Change::Assert(3, b'a', &[2, 7]),
                Change::Retract(2),
                Change::Retract(3),
            ],
        },
        keys: 5,
    },
    // (a 1 ?x) (a ?x 2): two patterns with constants, of which one fact has both
    Row {
        story: Story {
            first: &[],
            branches: &[&[Element::Pattern(A_1), Element::Pattern(A_X_2)]],
            then: &[
                Change::Assert(1, b'a', &[2, 2]),
                Change::Assert(2, b'a', &[1, 2]),
                Change::Retract(1),
                Change::Restart,
                Change::Assert(3, b'a', &[1, 2]),
                Change::Assert(4, b'a', &[2, 2]),
            ],
        },
        keys: 3,
    },
    // (not (c ?)) (a ?x): a pattern that stands alone in a group in front, and two facts that close it
    Row {
        story: Story {
            first: &[],
            branches: &[&[Element::Group(false, &[C_ANY]), Element::Pattern(A_X)]],
            then: &[
                Change::Assert(1, b'a', &[1]),
                Change::Assert(2, b'c', &[1]),
                Change::Assert(3, b'c', &[2]),
                Change::Assert(4, b'a', &[2]),
                Change::Retract(2),
                Change::Retract(3),
            ],
        },
        keys: 4,
    },
    // (a ?x) (exists (c 1 ?)) (b ?x): one in the middle, and two facts that open it
    Row {
        story: Story {
            first: &[],
            branches: &[&[
                Element::Pattern(A_X),
                Element::Group(true, &[C_1_ANY]),
                Element::Pattern(B_X),
            ]],
            then: &[
                Change::Assert(1, b'a', &[1]),
                Change::Assert(2, b'b', &[1]),
                Change::Assert(3, b'c', &[1, 1]),
                Change::Assert(4, b'c', &[1, 2]),
                Change::Assert(5, b'a', &[2]),
                Change::Assert(6, b'b', &[2]),
                Change::Retract(3),
                Change::Retract(4),
                Change::Assert(7, b'c', &[2, 1]),
                Change::Assert(8, b'c', &[1, 3]),
                Change::Retract(1),
            ],
        },
        keys: 7,
    },
    // (a ?x) (not (c ?)): one at the end, closed when the rule comes
    Row {
        story: Story {
            first: &[Change::Assert(1, b'c', &[1]), Change::Assert(2, b'a', &[1])],
            branches: &[&[Element::Pattern(A_X), Element::Group(false, &[C_ANY])]],
            then: &[
                Change::Assert(3, b'a', &[2]),
                Change::Retract(1),
                Change::Restart,
                Change::Assert(4, b'a', &[2]),
            ],
        },
        keys: 3,
    },
    // (not (c ?)): nothing else
    Row {
        story: Story {
            first: &[],
            branches: &[&[Element::Group(false, &[C_ANY])]],
            then: &[
                Change::Assert(1, b'c', &[1]),
                Change::Assert(2, b'c', &[2]),
                Change::Retract(1),
                Change::Retract(2),
            ],
        },
        keys: 3,
    },
    // (a ?x) (not (b ?x) (not (c ?))): one inside another group
    Row {
        story: Story {
            first: &[],
            branches: &[&[
                Element::Pattern(A_X),
                Element::Nested(false, &[B_X], &[C_ANY]),
            ]],
            then: &[
                Change::Assert(1, b'a', &[1]),
                Change::Assert(2, b'b', &[1]),
                Change::Assert(3, b'c', &[1]),
                Change::Assert(4, b'c', &[2]),
                Change::Retract(3),
                Change::Retract(4),
                Change::Retract(2),
            ],
        },
        keys: 5,
    },
    // (b ?x ?y) (not (c ?)) (test (> ?x ?y)): a test behind one, which is not a test of the pattern before it
    Row {
        story: Story {
            first: &[],
            branches: &[&[
                Element::Pattern(B_X_Y),
                Element::Group(false, &[C_ANY]),
                Element::Above(b'x', b'y'),
            ]],
            then: &[
                Change::Assert(1, b'b', &[2, 1]),
                Change::Assert(2, b'b', &[1, 2]),
                Change::Assert(3, b'c', &[1]),
                Change::Retract(3),
            ],
        },
        keys: 3,
    },
    // (c ?y) (not (c 1)), or (c ?y) (exists (c ?)): a fact that comes before the group and closes it or opens it
    Row {
        story: Story {
            first: &[],
            branches: &[
                &[Element::Pattern(C_Y), Element::Group(false, &[C_1])],
                &[Element::Pattern(C_Y), Element::Group(true, &[C_ANY])],
            ],
            then: &[
                Change::Assert(1, b'c', &[2]),
                Change::Assert(2, b'c', &[1]),
                Change::Assert(3, b'c', &[3]),
                Change::Retract(2),
                Change::Retract(3),
                Change::Retract(1),
            ],
        },
        keys: 12,
    },
];

fn is_told(alloc: Global, row: &Row) -> Result<bool, NoMemory> {
    let mut meter = Meter::new(Mark);
    let mut one = Joins::new(alloc);
    let mut other = Rematch::new(alloc);
    Ok(told(alloc, &mut one, &mut other, &row.story, &mut meter)? == Some(row.keys))
}

/// The first of these rows that the two tell differently, or with another number of keys.
pub(crate) fn wrong_row(alloc: Global, rows: &[Row]) -> Result<Option<usize>, NoMemory> {
    for (i, row) in rows.iter().enumerate() {
        if !is_told(alloc, row)? {
            return Ok(Some(i));
        }
    }
    Ok(None)
}

#[test]
fn both_matchers_tell_the_same(rt: HostRuntime) -> Result<(), NoMemory> {
    let wrong = wrong_row(rt.alloc(), &ROWS)?;
    assert!(rt; wrong.is_none(), "{wrong:?}");
    Ok(())
}
