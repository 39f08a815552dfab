//! Stories in which a fact's index comes back below those of others, with other content, as where a fact is modified.
use crate::tests::building::Element;
use crate::tests::changing::{Change, Story};
use crate::tests::rows::{A_X, B_X, B_X_Y, C_X, C_Y, Row, wrong_row};
use cb_forms::NoMemory;

const ROWS: [Row; 4] = [
    // (a ?x) (b ?x): in a join
    Row {
        story: Story {
            first: &[],
            branches: &[&[Element::Pattern(A_X), Element::Pattern(B_X)]],
            then: &[
                Change::Assert(1, b'a', &[1]),
                Change::Assert(2, b'b', &[1]),
                Change::Assert(3, b'b', &[2]),
                Change::Retract(1),
                Change::Assert(1, b'a', &[2]),
                Change::Retract(3),
                Change::Assert(3, b'b', &[7]),
                Change::Retract(2),
                Change::Assert(2, b'b', &[2]),
                Change::Retract(1),
            ],
        },
        keys: 6,
    },
    // (a ?x) (not (b ?x)): in a group of its own
    Row {
        story: Story {
            first: &[Change::Assert(2, b'b', &[1])],
            branches: &[&[Element::Pattern(A_X), Element::Group(false, &[B_X])]],
            then: &[
                Change::Assert(5, b'a', &[1]),
                Change::Assert(6, b'a', &[2]),
                Change::Retract(2),
                Change::Assert(2, b'b', &[2]),
                Change::Retract(2),
                Change::Assert(2, b'b', &[1]),
                Change::Retract(5),
                Change::Assert(5, b'a', &[3]),
            ],
        },
        keys: 6,
    },
    // (not (a ?x) (b ?x)) (c ?x): in a group of several patterns, before all others
    Row {
        story: Story {
            first: &[Change::Assert(9, b'c', &[4])],
            branches: &[&[Element::Group(false, &[A_X, B_X]), Element::Pattern(C_X)]],
            then: &[
                Change::Assert(1, b'a', &[1]),
                Change::Assert(2, b'b', &[1]),
                Change::Assert(3, b'b', &[2]),
                Change::Retract(1),
                Change::Assert(1, b'a', &[2]),
                Change::Retract(3),
                Change::Assert(3, b'b', &[5]),
                Change::Retract(2),
                Change::Assert(2, b'b', &[2]),
            ],
        },
        keys: 6,
    },
    // (c ?y) (exists (b ?x ?y) (a ?x)): the same behind a pattern that it joins with
    Row {
        story: Story {
            first: &[],
            branches: &[&[Element::Pattern(C_Y), Element::Group(true, &[B_X_Y, A_X])]],
            then: &[
                Change::Assert(5, b'c', &[1]),
                Change::Assert(6, b'c', &[2]),
                Change::Assert(1, b'b', &[7, 1]),
                Change::Assert(2, b'a', &[7]),
                Change::Retract(1),
                Change::Assert(1, b'b', &[7, 2]),
                Change::Retract(2),
                Change::Assert(2, b'a', &[8]),
                Change::Assert(3, b'a', &[7]),
                Change::Retract(1),
                Change::Assert(1, b'b', &[8, 1]),
            ],
        },
        keys: 7,
    },
];

#[test]
fn both_tell_of_an_index_that_comes_back(rt: HostRuntime) -> Result<(), NoMemory> {
    let wrong = wrong_row(rt.alloc(), &ROWS)?;
    assert!(rt; wrong.is_none(), "{wrong:?}");
    Ok(())
}
