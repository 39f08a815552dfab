//! Scripts that come in pieces.
use super::rows::Row;
use cb_forms::NoMemory;
use std::alloc::Global;

/// A script, and what it writes.
#[derive(Drop)]
pub(super) struct Whole {
    pub(super) script: Vec<u8>,
    pub(super) written: Vec<u8>,
}

/// The whole script of a row, and all that it writes.
pub(super) fn joined(alloc: Global, row: &Row) -> Result<Whole, NoMemory> {
    let mut script = Vec::new(alloc);
    let mut written = Vec::new(alloc);
    for (piece, writes) in row.steps {
        script.extend_from_slice(piece)?;
        written.extend_from_slice(writes)?;
    }
    let (piece, writes) = row.rest;
    script.extend_from_slice(piece)?;
    written.extend_from_slice(writes)?;
    Ok(Whole { script, written })
}

/// How many steps of a row have come whole with so many bytes.
pub(super) fn steps_in(row: &Row, came: usize) -> usize {
    let mut steps = 0usize;
    let mut bytes = 0usize;
    for (piece, _) in row.steps {
        bytes = bytes.saturating_add(piece.len());
        if came < bytes {
            return steps;
        }
        steps = steps.saturating_add(1);
    }
    steps
}

/// What the first steps of a row write.
pub(super) fn written_by(alloc: Global, row: &Row, steps: usize) -> Result<Vec<u8>, NoMemory> {
    let mut written = Vec::new(alloc);
    for (_, writes) in row.steps.iter().take(steps) {
        written.extend_from_slice(writes)?;
    }
    Ok(written)
}
