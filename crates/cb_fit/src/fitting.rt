//! All ways in which a pattern fits a fact.
ghost use Rattle.std.specs.Prelude.{◌≡◌, IfOk, map};
ghost use Rattle.cb_constraints.specs.PartValues.{asked_parts, asked_slot};
ghost use Rattle.cb_constraints.specs.PatternValues.{fields as fields_parts, slots as slots_parts};
ghost use Rattle.cb_facts.specs.Facts.{content_of};
ghost use Rattle.cb_facts.specs.Facts as fact;
ghost use Rattle.cb_fit.specs.Internal.Choices.{AreEnough, as_ways};
ghost use Rattle.cb_fit.specs.Meters.{one_test_more};
ghost use Rattle.cb_fit.specs.Shapes.{has_way};
ghost use Rattle.cb_fit.specs.Internal.Searches.{search_of};
ghost use Rattle.cb_fit.specs.WayValues.{way_of};
ghost use Rattle.cb_fit.specs.Ways.{way_with, ways, ways_of_parts, ways_of_row, ways_of_slots};

use crate::lengths::take_lengths;
use crate::may_take::may_take_row;
use crate::meter::Meter;
use crate::pattern::Pattern;
use crate::search::Search;
use crate::slots::may_take_slots;
use crate::way::Way;
use cb_constraints::{Body, Fields, PatternParts, Row, Segments, SlotRow};
use cb_eval::Constants;
use cb_exprs::Lookup;
use cb_facts::{Content, Fact, Multifield};
use cb_forms::NoMemory;
use smallvec::SmallVec;
use std::alloc::Global;

/// All ways in which a pattern fits a fact, where variables have these values, in the order of the lengths of their segments
/// (`docs/LANGUAGE.md`, "Patterns"). It tests the pattern once, so the meter goes up by one.
///
/// The caller gives the variable of `?f <-` before the pattern, if it has one, its address in `env` first. Beside `|` and after
/// `~` a variable takes no value, and one that has none there holds of any: so `env` is to have what the elements before the
/// pattern gave.
///
/// A slot's value is taken by the place that the slot has in the template by which the pattern was read; so a fact of a
/// template is to be of that one.
///
/// Growth is refused as `NoMemory`, and so is a count of sharers that is full; the meter has gone up then too.
pub fn fit<T, L: Lookup>(
    alloc: Global,
    constants: &Constants,
    pattern: &Pattern<T>,
    fact: &Fact,
    env: &L,
    meter: &mut Meter<T>,
) -> Result<SmallVec<Way, 1>, NoMemory>
    ensures ways { IfOk result (λ all. map way_of all.items
        ≡ ways pattern.now fact.now (L.bindings env.now)) }
    ensures counted { meter.new ≡ one_test_more meter.old }
{
    find_ways(alloc, constants, pattern, fact, env, false, meter)
}

/// Whether a pattern fits a fact in any way. It tests the pattern as `fit` does, but ends at the first way.
pub fn fits<T, L: Lookup>(
    alloc: Global,
    constants: &Constants,
    pattern: &Pattern<T>,
    fact: &Fact,
    env: &L,
    meter: &mut Meter<T>,
) -> Result<bool, NoMemory>
    ensures fits { IfOk result (λ fits. fits ≡ has_way (ways pattern.now fact.now
        (L.bindings env.now))) }
    ensures counted { meter.new ≡ one_test_more meter.old }
{
    let found = find_ways(alloc, constants, pattern, fact, env, true, meter)?;
    Ok(!found.is_empty())
}

/// All ways, or where one is enough the first ones: some, if there are any.
#[tactic(auto, using(crate::proofs::Looked::lengths_never_fit, crate::proofs::Enough::all_are_enough))]
fn find_ways<T, L: Lookup>(
    alloc: Global,
    constants: &Constants,
    pattern: &Pattern<T>,
    fact: &Fact,
    env: &L,
    is_one_enough: bool,
    meter: &mut Meter<T>,
) -> Result<SmallVec<Way, 1>, NoMemory>
    ensures ways { IfOk result (λ found. AreEnough is_one_enough (map way_of found.items)
        (ways pattern.now fact.now (L.bindings env.now))) }
    ensures counted { meter.new ≡ one_test_more meter.old }
{
    let body = pattern.open(meter);
    if !take_lengths(body.parts(), fact.content()) {
        return Ok(SmallVec::new(alloc));
    }
    if pattern.relation().as_slice() != fact.relation() {
        return Ok(SmallVec::new(alloc));
    }
    search_body(alloc, constants, body, fact.content(), env, is_one_enough)
}

/// The ways to take what a pattern asks of the content of a fact, so many as are enough.
#[tactic(auto, using(crate::proofs::Enough::all_are_enough))]
fn search_body<L: Lookup>(
    alloc: Global,
    constants: &Constants,
    body: &Body,
    content: &Content,
    env: &L,
    is_one_enough: bool,
) -> Result<SmallVec<Way, 1>, NoMemory>
    ensures { IfOk result (λ found. AreEnough is_one_enough (map way_of found.items)
        (map (way_with body.now (L.bindings env.now))
        (ways_of_parts body.now (content_of content.now) (L.bindings env.now)))) }
{
    match (body.parts(), content) {
        (PatternParts::Fields(row), Content::Fields(fields)) => {
            let search = Search {
                alloc,
                constants,
                body,
                content,
                slots: &[],
                before: env,
            };
            search_fields(search, row, fields, is_one_enough)
        }
        (PatternParts::Slots(rows), Content::Slots(slots)) => {
            let search = Search {
                alloc,
                constants,
                body,
                content,
                slots,
                before: env,
            };
            search_slots(search, rows, is_one_enough)
        }
        _ => Ok(SmallVec::new(alloc)),
    }
}

/// The same of the fields of an ordered fact.
#[tactic(auto, using(crate::proofs::Looked::never_taken))]
fn search_fields<'a, L: Lookup>(
    search: Search<'a, L>,
    row: &'a Row,
    fields: &'a Multifield,
    is_one_enough: bool,
) -> Result<SmallVec<Way, 1>, NoMemory>
    requires row { search.body.now ≡ fields_parts row.now }
    requires content { content_of search.content.now ≡ fact.fields fields.now }
    ensures { IfOk result (λ found. AreEnough is_one_enough (map way_of found.items)
        (as_ways (search_of L.bindings search.entry) (ways_of_row row.now fields.now
        (L.bindings search.entry.before.now)))) }
{
    let mut all = SmallVec::new(search.alloc);
    if !may_take_row(Fields::All(fields), row) {
        return Ok(all);
    }
    let mut cuts = Segments::new(search.alloc);
    let next = search.begin_fields(row, Fields::All(fields), &mut cuts, &mut all)?;
    search.run(next, is_one_enough, &mut cuts, &mut all)?;
    Ok(all)
}

/// The same of the slots of a template's fact.
#[tactic(auto, using(crate::proofs::Looked::slots_never_taken))]
fn search_slots<'a, L: Lookup>(
    search: Search<'a, L>,
    rows: &'a [SlotRow],
    is_one_enough: bool,
) -> Result<SmallVec<Way, 1>, NoMemory>
    requires rows { search.body.now ≡ slots_parts (map asked_slot rows.now) }
    requires content { content_of search.content.now ≡ fact.slots search.slots.now }
    ensures { IfOk result (λ found. AreEnough is_one_enough (map way_of found.items)
        (as_ways (search_of L.bindings search.entry) (ways_of_slots (map asked_slot rows.now)
        search.entry.slots.now (L.bindings search.entry.before.now)))) }
{
    let mut all = SmallVec::new(search.alloc);
    if !may_take_slots(rows, search.slots) {
        return Ok(all);
    }
    let mut cuts = Segments::new(search.alloc);
    let next = search.begin_rows(rows, &mut cuts, &mut all)?;
    search.run(next, is_one_enough, &mut cuts, &mut all)?;
    Ok(all)
}
