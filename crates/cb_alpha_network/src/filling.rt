//! The facts that a pattern selects.
ghost use Rattle.std.specs.Prelude.{◌≡◌, ◌≢◌, ℕ, IfOk, None, OnOk};
ghost use Rattle.cb_alpha.specs.AlphaMemories.{index_of, live};
ghost use Rattle.cb_alpha.specs.Turning.{IsAlphaOver};
ghost use Rattle.cb_alpha_network.specs.Networks.{IsAtRest};
ghost use Rattle.cb_constraints.specs.PatternValues.{PatternValue};
ghost use Rattle.cb_facts.specs.FactLists.{IndexedFacts, fact_at, with_fact};
ghost use Rattle.cb_fit.specs.Shapes.{selection};

use cb_alpha::laws::{
    a_change_of_an_alpha_memory_ends, a_fact_that_comes_turns_an_alpha_memory,
    a_fact_that_is_not_selected_comes, an_alpha_memory_begins_over_no_facts,
};
use cb_alpha::{AlphaMemory, Candidate};
use cb_eval::Constants;
use cb_facts::{Fact, FactList};
use cb_fit::{Meter, Pattern, Selection};
use cb_forms::NoMemory;
use std::alloc::Global;

/// What a pattern asks of a fact alone, and the facts that it selects. Growth is refused as `NoMemory`.
pub(crate) fn fill<T>(
    alloc: Global,
    constants: &Constants,
    facts: &FactList,
    pattern: &Pattern<T>,
    meter: &mut Meter<T>,
) -> Result<(Selection<T>, AlphaMemory), NoMemory>
    ensures shape { IfOk result (λ made. made.0 ≡ selection pattern.now) }
    ensures over { IfOk result (λ made. IsAlphaOver pattern.now facts.now made.1) }
{
    an_alpha_memory_begins_over_no_facts();
    let shape = pattern.selection(alloc)?;
    let mut memory = AlphaMemory::new(alloc);
    for (index, fact) in facts.iter() {
        fill_one(alloc, constants, &shape, *index, fact, &mut memory, meter)?;
    }
    Ok((shape, memory))
}

/// Adds a fact whose index no other has, if it is selected.
fn fill_one<T>(
    alloc: Global,
    constants: &Constants,
    shape: &Selection<T>,
    index: u64,
    fact: &Fact,
    memory: &mut AlphaMemory,
    meter: &mut Meter<T>,
) -> Result<(), NoMemory>
    requires rest { IsAtRest memory.old }
    requires absent { (i : ℕ) → index_of (live memory.old i) ≢ Some index }
    ensures { OnOk result ((p : PatternValue) (fs : IndexedFacts) → shape.now ≡ selection p → IsAlphaOver p fs memory.old
        → fact_at fs index ≡ None → IsAlphaOver p (with_fact fs index fact.now) memory.new) }
{
    a_fact_that_comes_turns_an_alpha_memory();
    a_fact_that_is_not_selected_comes();
    a_change_of_an_alpha_memory_ends();
    if shape.selects(alloc, constants, fact, meter)? {
        memory.add(Candidate {
            index,
            fact: fact.clone()?,
        })?;
    }
    memory.end_change();
    Ok(())
}
