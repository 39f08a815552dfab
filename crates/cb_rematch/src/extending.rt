//! A partial match and one fact.
ghost use Rattle.std.specs.Prelude.{◌≡◌, ◌≤◌, ◌+◌, ◌++◌, OnOk};
ghost use Rattle.cb_matches.specs.Matches.{extended};

use crate::partial::Partial;
use crate::setting::Setting;
use cb_facts::{Fact, Name};
use cb_fit::{Meter, Pattern, fit};
use cb_forms::NoMemory;

/// Adds a partial match with one fact, in each way in which the pattern fits it. The pattern is tested once. Growth is refused as
/// `NoMemory`, and so is a count of sharers that is full.
pub(crate) fn extend<T>(
    setting: &Setting<'_>,
    address: &Option<Name>,
    pattern: &Pattern<T>,
    partial: &Partial,
    ix: u64,
    fact: &Fact,
    all: &mut Vec<Partial>,
    meter: &mut Meter<T>,
) -> Result<(), NoMemory>
    ensures all { OnOk result (all.new.items ≡ all.old.items
        ++ extended address.now pattern.now partial.now (ix, fact.now)) }
    ensures probes { meter.new ≤ meter.old + 1 }
{
    let env = partial.env_before(address, ix)?;
    let ways = fit(setting.alloc, setting.constants, pattern, fact, &env, meter)?;
    all.reserve(ways.len())?;
    for way in ways {
        all.push(partial.grow(setting.alloc, &env, ix, way)?)?;
    }
    Ok(())
}
