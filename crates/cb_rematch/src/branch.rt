//! The matches of a branch.
ghost use Rattle.std.specs.Prelude.{◌≡◌, ◌++◌, IfOk, OnOk, map};
ghost use Rattle.cb_rules.specs.Elements.{element_of, elements};
ghost use Rattle.cb_matches.specs.Matches.{matches_of};
ghost use Rattle.cb_matches.specs.Networks.{keyed};

use crate::partial::Partial;
use crate::satisfy::satisfy_all;
use crate::setting::Setting;
use cb_exprs::Env;
use cb_fit::Meter;
use cb_forms::NoMemory;
use cb_matches::Key;
use cb_rules::Ce;
use std::marker::Model;

/// A match.
///
/// Contracts see the pair of its key and what variables have by it.
#[derive(Drop)]
pub(crate) struct Match {
    /// Its key.
    pub(crate) key: Key,
    /// What variables have by it.
    pub(crate) env: Env,
}

impl Model for Match {
    ghost use Rattle.cb_exprs.specs.Bindings.{Bindings};
    ghost use Rattle.cb_matches.specs.Keys.{KeyValue};

    ghost Value = { KeyValue × Bindings };

    ghost view = { λ m. (m.key, m.env) };
}

/// Adds all matches of the branch at this place of the rule with this number, in the order of their keys. Growth is refused as
/// `NoMemory`, and so is a count of sharers that is full.
pub(crate) fn match_branch<T>(
    setting: &Setting<'_>,
    id: u64,
    place: u64,
    branch: &[Ce<T>],
    all: &mut Vec<Match>,
    meter: &mut Meter<T>,
) -> Result<(), NoMemory>
    ensures { OnOk result (all.new.items ≡ all.old.items
        ++ map (keyed id place) (matches_of (elements (map element_of branch.now)) setting.now.facts.now)) }
{
    for partial in match_elements(setting, branch, meter)? {
        all.push(keyed(id, place, partial))?;
    }
    Ok(())
}

/// All ways to satisfy the elements of a branch.
#[tactic(auto, unfolding(cb_matches::specs::Matches::matches_of))]
fn match_elements<T>(
    setting: &Setting<'_>,
    branch: &[Ce<T>],
    meter: &mut Meter<T>,
) -> Result<Vec<Partial>, NoMemory>
    ensures { IfOk result (λ all. all.items
        ≡ matches_of (elements (map element_of branch.now)) setting.now.facts.now) }
{
    let mut first = Vec::new(setting.alloc);
    first.push(Partial::new(setting.alloc))?;
    satisfy_all(setting, branch, first, meter)
}

/// The match that a partial match at the end of a branch is. It takes no memory.
pub(crate) fn keyed(id: u64, place: u64, partial: Partial) -> Match
    ensures { result ≡ keyed id place partial }
{
    Match {
        key: Key::of(id, place, partial.parts),
        env: partial.env,
    }
}
