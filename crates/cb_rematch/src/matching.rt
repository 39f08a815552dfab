//! All matches of rules.
ghost use Rattle.std.specs.Prelude.{◌≡◌, ◌++◌, IfOk, OnOk};
ghost use Rattle.cb_rules.specs.Elements.{branches_of};
ghost use Rattle.cb_matches.specs.Networks.{all_matches, branch_matches};

use crate::branch::{Match, match_branch};
use crate::setting::Setting;
use cb_fit::Meter;
use cb_forms::NoMemory;
use cb_rules::Ce;
use std::marker::Model;

/// A rule's number and its branches.
#[derive(Drop)]
pub(crate) struct NumberedRule<T> {
    pub(crate) id: u64,
    pub(crate) branches: Vec<Vec<Ce<T>>>,
}

impl<T> Model for NumberedRule<T> {
    ghost use Rattle.std.specs.Prelude.{ℕ, List};
    ghost use Rattle.std.specs.Coded.{codes};
    ghost use Rattle.cb_rules.specs.Elements.{Elements, branches_of};
    ghost use Rattle.cb_matches.specs.Internal.{branches_code};

    ghost Value = { ℕ × List Elements };

    ghost coded = { branches_code (Prim.hlevel codes) (Prim.hlevel codes) (Prim.hlevel codes) };

    ghost view = { λ r. (r.id, branches_of r.branches.items) };
}

/// All matches of these rules.
#[tactic(auto, unfolding(cb_matches::specs::Networks::all_matches))]
pub(crate) fn match_rules<T>(
    setting: &Setting<'_>,
    rules: &[NumberedRule<T>],
    meter: &mut Meter<T>,
) -> Result<Vec<Match>, NoMemory>
    ensures { IfOk result (λ all. all.items
        ≡ all_matches (record { rules = rules.now; facts = setting.now.facts.now })) }
{
    let mut all = Vec::new(setting.alloc);
    for rule in rules {
        match_branches(setting, rule.id, rule.branches.as_slice(), &mut all, meter)?;
    }
    Ok(all)
}

/// Adds the matches of a rule by its number and its branches.
fn match_branches<T>(
    setting: &Setting<'_>,
    id: u64,
    branches: &[Vec<Ce<T>>],
    all: &mut Vec<Match>,
    meter: &mut Meter<T>,
) -> Result<(), NoMemory>
    ensures { OnOk result (all.new.items ≡ all.old.items
        ++ branch_matches id 0 (branches_of branches.now) setting.now.facts.now) }
{
    let mut place = 0;
    for branch in branches {
        match_branch(setting, id, place, branch.as_slice(), all, meter)?;
        place += 1;
    }
    Ok(())
}
