//! Growth that is refused. `rt try --test --fail-alloc N` refuses the Nth growth of each test; this passes however great N is.
use super::matches::delta;
use cb_agenda::{Agenda, ApplyFault};
use cb_forms::NoMemory;
use cb_matches::Delta;
use std::alloc::Global;

/// Changes by the matches that are gone and those that come. Two stamps are left, so that the second change is
/// refused as `Exhausted` where no growth was.
const CHANGES: [(&[u64], &[u64]); 3] = [(&[], &[1, 2]), (&[1], &[3]), (&[2], &[])];

/// Whether the agenda has failed after a change exactly if a growth was refused in it, and goes on failing once it has.
fn is_reported(agenda: &mut Agenda, delta: &Delta) -> bool {
    let had_failed = agenda.failed();
    let is_refused = agenda.apply_by_key(delta, &[]) == Err(ApplyFault::NoMemory);
    agenda.failed() == is_refused && (is_refused || !had_failed)
}

/// Whether a refusal is reported from then on, and nothing else is.
fn are_reported(alloc: Global) -> Result<bool, NoMemory> {
    let mut agenda = Agenda::starting_at(alloc, 9_223_372_036_854_775_805);
    for (gone, come) in CHANGES {
        if !is_reported(&mut agenda, &delta(alloc, gone, come)?) {
            return Ok(false);
        }
    }
    Ok(true)
}

#[test]
fn reports_a_refusal(rt: HostRuntime) {
    assert!(rt; are_reported(rt.alloc()).unwrap_or(true));
}
