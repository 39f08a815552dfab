//! Three hundred activations of twenty saliences, a hundred of which are taken out.
use super::by_key::ByKey;
use super::by_number::ByNumber;
use super::called::Called;
use super::matches::which;
use cb_agenda::{Agenda, Strategy};
use cb_forms::NoMemory;
use std::alloc::Global;

/// The salience of a match, from -10 to 9. So each has fifteen matches.
fn salience(which: u64) -> i64 {
    (which % 20 * 7 % 20) as i64 - 10
}

/// The matches, and their saliences.
fn matches(alloc: Global) -> Result<(Vec<u64>, Vec<i64>), NoMemory> {
    let mut matches = Vec::new(alloc);
    let mut saliences = Vec::new(alloc);
    for which in 0..300 {
        matches.push(which)?;
        saliences.push(salience(which))?;
    }
    Ok((matches, saliences))
}

/// Each third of the matches.
fn thirds(alloc: Global) -> Result<Vec<u64>, NoMemory> {
    let mut matches = Vec::new(alloc);
    for third in 0..100 {
        matches.push(third * 3)?;
    }
    Ok(matches)
}

/// Makes these activations due.
fn make_due<A: Called>(alloc: Global, agenda: &mut A, strategy: Strategy) -> Result<(), NoMemory> {
    let (matches, saliences) = matches(alloc)?;
    agenda.set_strategy(strategy);
    agenda.change(alloc, &[], &matches, &saliences)?;
    agenda.change(alloc, &thirds(alloc)?, &[], &[])?;
    Ok(())
}

/// Whether a match may fire right after another.
fn is_behind(strategy: Strategy, before: u64, which: u64) -> bool {
    if salience(before) != salience(which) {
        return salience(which) < salience(before);
    }
    match strategy {
        Strategy::Depth => which < before,
        Strategy::Breadth => before < which,
    }
}

/// How many fire in their order until nothing is due.
fn fired<A: Called>(agenda: &mut A, strategy: Strategy) -> u64 {
    let mut last = None;
    let mut count: u64 = 0;
    for _turn in 0..301 {
        let Some(key) = agenda.pop() else {
            return count;
        };
        let which = which(&key) % 300;
        if let Some(before) = last {
            if !is_behind(strategy, before, which) {
                return 0;
            }
        }
        last = Some(which);
        count = count.saturating_add(1);
    }
    count
}

/// How many are listed, and how many fire in their order.
fn counts<A: Called>(
    alloc: Global,
    agenda: &mut A,
    strategy: Strategy,
) -> Result<(usize, u64), NoMemory> {
    make_due(alloc, agenda, strategy)?;
    let listed = agenda.list()?.len();
    Ok((listed, fired(agenda, strategy)))
}

#[test]
fn newest_first(rt: HostRuntime) -> Result<(), NoMemory> {
    let mut agenda = ByNumber::new(rt.alloc());
    let counts = counts(rt.alloc(), &mut agenda, Strategy::Depth)?;
    assert!(rt; counts == (200, 200), "{counts:?}");
    Ok(())
}

#[test]
fn oldest_first(rt: HostRuntime) -> Result<(), NoMemory> {
    let mut agenda = ByNumber::new(rt.alloc());
    let counts = counts(rt.alloc(), &mut agenda, Strategy::Breadth)?;
    assert!(rt; counts == (200, 200), "{counts:?}");
    Ok(())
}

#[test]
fn newest_first_by_key(rt: HostRuntime) -> Result<(), NoMemory> {
    let mut agenda = ByKey {
        agenda: Agenda::new(rt.alloc()),
    };
    let counts = counts(rt.alloc(), &mut agenda, Strategy::Depth)?;
    assert!(rt; counts == (200, 200), "{counts:?}");
    Ok(())
}
