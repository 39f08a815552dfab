//! Keys.
use cb_forms::NoMemory;
use cb_match::{Cuts, Key, MatchParts, Part};
use std::alloc::Global;
use std::cmp::Ordering;

/// The index of a fact, and the lengths of its segments.
struct Taken {
    index: u64,
    cuts: &'static [u64],
}

/// A key: the rule, the branch, and the parts.
struct Row {
    rule: u64,
    branch: u64,
    parts: &'static [Taken],
}

const ONE: Taken = Taken {
    index: 2,
    cuts: &[1],
};

const OTHER: Taken = Taken {
    index: 1,
    cuts: &[1, 1],
};

const THIRD: Taken = Taken {
    index: 4,
    cuts: &[0, 3],
};

const NO_CUTS: Taken = Taken {
    index: 2,
    cuts: &[],
};

/// In the order of keys.
const ROWS: [Row; 12] = [
    Row {
        rule: 1,
        branch: 0,
        parts: &[],
    },
    Row {
        rule: 1,
        branch: 0,
        parts: &[NO_CUTS],
    },
    Row {
        rule: 1,
        branch: 0,
        parts: &[ONE],
    },
    Row {
        rule: 1,
        branch: 0,
        parts: &[ONE, OTHER],
    },
    Row {
        rule: 1,
        branch: 0,
        parts: &[ONE, OTHER, THIRD],
    },
    Row {
        rule: 1,
        branch: 0,
        parts: &[ONE, OTHER, THIRD, ONE],
    },
    Row {
        rule: 1,
        branch: 0,
        parts: &[Taken {
            index: 2,
            cuts: &[1, 1],
        }],
    },
    Row {
        rule: 1,
        branch: 0,
        parts: &[Taken {
            index: 2,
            cuts: &[1, 2],
        }],
    },
    Row {
        rule: 1,
        branch: 0,
        parts: &[Taken {
            index: 2,
            cuts: &[2, 0],
        }],
    },
    Row {
        rule: 1,
        branch: 0,
        parts: &[Taken {
            index: 3,
            cuts: &[1],
        }],
    },
    Row {
        rule: 1,
        branch: 1,
        parts: &[OTHER],
    },
    Row {
        rule: 2,
        branch: 0,
        parts: &[OTHER],
    },
];

fn parts(alloc: Global, row: &Row) -> Result<Vec<Part>, NoMemory> {
    let mut parts = Vec::new(alloc);
    for taken in row.parts {
        parts.push(Part {
            index: taken.index,
            cuts: Cuts::new(alloc, taken.cuts.to_vec(alloc)?)?,
        })?;
    }
    Ok(parts)
}

fn key(alloc: Global, row: &Row) -> Result<Key, NoMemory> {
    Key::new(alloc, row.rule, row.branch, parts(alloc, row)?)
}

/// These parts, one after another.
fn grown(alloc: Global, parts: &[Part]) -> Result<MatchParts, NoMemory> {
    let mut all = MatchParts::none();
    for part in parts {
        all = all.and(alloc, part.clone()?)?;
    }
    Ok(all)
}

/// Whether a clone of the key, a key of its parts, and one of the parts one after another are as the key.
fn is_cloned(alloc: Global, key: &Key) -> Result<bool, NoMemory> {
    let copied = Key::of(
        key.rule(),
        key.branch(),
        MatchParts::of(alloc, key.parts())?,
    );
    let grown = Key::of(key.rule(), key.branch(), grown(alloc, key.parts())?);
    Ok(key.clone()? == *key && copied == *key && grown == *key)
}

/// Whether the parts are as in the row.
fn has_parts(alloc: Global, row: &Row, key: &Key) -> Result<bool, NoMemory> {
    for (part, taken) in key.parts().iter().zip(row.parts) {
        let cuts = part.cuts.to_vec(alloc)?;
        if part.index != taken.index || cuts.as_slice() != taken.cuts {
            return Ok(false);
        }
    }
    Ok(key.parts().len() == row.parts.len())
}

fn order(alloc: Global, row: &Row, other: &Row) -> Result<Ordering, NoMemory> {
    Ok(key(alloc, row)?.cmp(&key(alloc, other)?))
}

fn is_kept(alloc: Global, row: &Row) -> Result<bool, NoMemory> {
    let key = key(alloc, row)?;
    Ok(has_parts(alloc, row, &key)? && is_cloned(alloc, &key)?)
}

/// The first key that isn't as its row, or stands otherwise to another than its place says.
fn wrong_key(alloc: Global) -> Result<Option<usize>, NoMemory> {
    for (i, row) in ROWS.iter().enumerate() {
        if !is_kept(alloc, row)? || !is_ordered(alloc, i, row)? {
            return Ok(Some(i));
        }
    }
    Ok(None)
}

fn is_ordered(alloc: Global, i: usize, row: &Row) -> Result<bool, NoMemory> {
    for (j, other) in ROWS.iter().enumerate() {
        if order(alloc, row, other)? != i.cmp(&j) {
            return Ok(false);
        }
    }
    Ok(true)
}

#[test]
fn orders_keys(rt: HostRuntime) -> Result<(), NoMemory> {
    let wrong = wrong_key(rt.alloc())?;
    assert!(rt; wrong.is_none(), "{wrong:?}");
    Ok(())
}
