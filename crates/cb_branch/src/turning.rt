//! A change of all that is kept for a branch.
ghost use Rattle.std.specs.Prelude.{◌≡◌, ◌≤◌, ◌+◌, ℕ, List, OnOk, Option, map};
ghost use Rattle.cb_beta.specs.BetaMemories.{BetaMemoryValue};
ghost use Rattle.cb_branch.specs.Branches.{AreAdded, HasSameAlphas, CanBeFilled, branch_elements, branch_numbers, numbers_of};
ghost use Rattle.cb_branch.specs.Internal.{IsTurning, IsTurned};
ghost use Rattle.cb_facts.specs.FactLists.{IndexedFacts};
ghost use Rattle.cb_facts.specs.Facts.{FactValue};
ghost use Rattle.cb_flat.specs.Joined.{flat_joins};
ghost use Rattle.cb_matches.specs.Changes.{IsNumber, TellsMoreNumbers};
ghost use Rattle.cb_matches.specs.Matches.{Partial};
ghost use Rattle.cb_nodes.specs.Flat.{Lists};
ghost use Rattle.cb_branch.specs.Nodes.{flat_nodes};
ghost use Rattle.cb_rule_keys.specs.Keys.{Tells, key_of};

use crate::all_nodes::{change_nodes, end_change};
use crate::branch::Branch;
use cb_alpha::AlphaMemory;
use cb_eval::Constants;
use cb_fit::Meter;
use cb_forms::NoMemory;
use cb_matches::Delta;
use std::alloc::Global;

/// Changes the lists behind the first one, which has changed already, and what is kept besides. The keys of the matches that go and come
/// stand behind those that are told of before, in their order, and so do their numbers. Growth is refused as `NoMemory`.
pub(crate) fn turn<T>(
    branch: &mut Branch<T>,
    alloc: Global,
    constants: &Constants,
    alphas: &[AlphaMemory],
    rule: u64,
    number: u64,
    delta: &mut Delta,
    meter: &mut Meter<T>,
) -> Result<(), NoMemory>
    ensures elements { OnOk result (branch_elements branch.new ≡ branch_elements branch.old) }
    ensures planned { OnOk result (CanBeFilled branch.old → CanBeFilled branch.new) }
    ensures alphas { OnOk result (HasSameAlphas branch.old branch.new) }
    ensures turned { OnOk result ((before : List BetaMemoryValue) (fs fs' : IndexedFacts) (first first' : List Partial) (old new : Lists)
        → IsTurning alphas.now before fs fs' first first' old new branch.old
        → IsTurned alphas.now new branch.new) }
    ensures told { OnOk result ((before : List BetaMemoryValue) (fs fs' : IndexedFacts) (first first' : List Partial) (old new : Lists)
        → IsTurning alphas.now before fs fs' first first' old new branch.old
        → Tells delta.old delta.new (map (key_of rule number) (old branch.old.last)) (map (key_of rule number) (new branch.old.last))) }
    ensures numbers { OnOk result ((before : List BetaMemoryValue) (fs fs' : IndexedFacts) (first first' : List Partial) (old new : Lists)
        → IsTurning alphas.now before fs fs' first first' old new branch.old
        → TellsMoreNumbers (IsNumber (numbers_of rule number branch.old before)) (IsNumber (branch_numbers rule number branch.new)) delta.old delta.new) }
    ensures probes { OnOk result ((before : List BetaMemoryValue) (fs fs' : IndexedFacts) (first first' : List Partial) (old new : Lists) (added : Option FactValue)
        → IsTurning alphas.now before fs fs' first first' old new branch.old
        → AreAdded alphas.now added branch.old
        → meter.new ≤ meter.old + flat_joins added fs' old new (flat_nodes branch.old.nodes.items)) }
{
    change_nodes(
        alloc,
        constants,
        branch.sources.as_slice(),
        alphas,
        branch.nodes.as_mut_slice(),
        branch.lists.as_mut_slice(),
        meter,
    )?;
    branch
        .end(alloc, constants, rule, number)
        .tell_change(delta)?;
    end_change(branch.lists.as_mut_slice());
    Ok(())
}
