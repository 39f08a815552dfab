//! The calls of an agenda that tests make.
use cb_agenda::{ApplyFault, Strategy};
use cb_forms::NoMemory;
use cb_matches::Key;
use std::alloc::Global;

/// An agenda as a caller has it who finds matches by their numbers, or by their keys alone.
pub trait Called: Drop {
    /// Makes a change, by which these matches go and those come. The answer is what became of it.
    fn change(
        &mut self,
        alloc: Global,
        gone: &[u64],
        come: &[u64],
        saliences: &[i64],
    ) -> Result<&'static str, NoMemory>;

    /// Whether a match is due.
    fn has(&self, which: u64) -> bool;

    fn pop(&mut self) -> Option<Key>;

    fn set_strategy(&mut self, strategy: Strategy) -> Strategy;

    fn list(&self) -> Result<Vec<(Key, i64)>, NoMemory>;

    fn drop_all(&mut self);

    fn forget_rule(&mut self, rule: u64);
}

/// What became of a change.
pub fn answer(outcome: Result<(), ApplyFault>) -> Result<&'static str, NoMemory> {
    match outcome {
        Ok(()) => Ok("done"),
        Err(ApplyFault::Exhausted) => Ok("exhausted"),
        Err(ApplyFault::NoMemory) => Err(NoMemory),
    }
}
