//! The shapes of patterns, as keys.
ghost use Rattle.std.specs.Prelude.{◌≡◌, ◌++◌, IfOk, OnOk, flat_map, map};
ghost use Rattle.cb_constraints.specs.Constraints.{check_of, constraint_of, demand_of};
ghost use Rattle.cb_constraints.specs.PartValues.{asked_parts, asked_slot};
ghost use Rattle.cb_fit.specs.Internal.Reading.{alternatives_of};
ghost use Rattle.cb_fit.specs.ShapeKeys.{alternative_pieces, check_pieces, checks_pieces, constraint_pieces, demand_pieces, pieces_of, row_pieces, slot_pieces};

use crate::key_list::KeyList;
use crate::own_field::OwnField;
use crate::pieces::Piece;
use cb_constraints::{Check, Constraint, Demand, PatternParts, SlotRow, Test};
use cb_facts::Name;
use cb_forms::NoMemory;
use std::alloc::Global;

/// The shape of a pattern: its relation, what it asks by constants and lengths alone, and which of a fact's own fields it compares with
/// constants and with one another. Two patterns with the same shape are the same without their variables and expressions and make the
/// same of these comparisons, so they ask the same of a fact alone.
///
/// Shapes are ordered by their relation, and then by what they ask, in an order that means nothing more.
#[derive(PartialEq, Eq, PartialOrd, Ord, Drop)]
pub struct Shape {
    relation: Name,
    /// The fields that are compared with constants or with one another.
    own: KeyList<OwnField>,
    /// The pieces, in the order in which the pattern is written.
    pieces: KeyList<Piece>,
}

/// The shape of a pattern for this relation with these parts, which compares these fields of a fact. The constants share their
/// bytes and fields. Growth is refused as `NoMemory`, and so is a count of sharers that is full.
pub(crate) fn shape_in(
    alloc: Global,
    relation: &Name,
    own: &[OwnField],
    parts: &PatternParts,
) -> Result<Shape, NoMemory>
    ensures { IfOk result (λ s. s ≡ record {
      relation = relation.now;
      own = own.now;
      pieces = pieces_of (asked_parts parts.now);
    }) }
{
    let relation = relation.clone()?;
    let own = copied(alloc, own)?;
    let pieces = pieces_in(alloc, parts)?;
    Ok(Shape {
        relation,
        own,
        pieces,
    })
}

/// A copy of these fields.
fn copied(alloc: Global, own: &[OwnField]) -> Result<KeyList<OwnField>, NoMemory>
    ensures { IfOk result (λ all. all ≡ own.now) }
{
    let mut all = Vec::with_capacity(alloc, own.len())?;
    all.extend_with_clones(own)?;
    Ok(KeyList::new(all))
}

/// The pieces of parts.
fn pieces_in(alloc: Global, parts: &PatternParts) -> Result<KeyList<Piece>, NoMemory>
    ensures { IfOk result (λ all. all ≡ pieces_of (asked_parts parts.now)) }
{
    let mut all = Vec::new(alloc);
    match parts {
        PatternParts::Fields(row) => {
            all.push(Piece::Ordered)?;
            add_row(row.constraints(), &mut all)?;
        }
        PatternParts::Slots(rows) => add_slots(rows.as_slice(), &mut all)?,
    }
    all.shrink_to_fit();
    Ok(KeyList::new(all))
}

/// Adds those of slots.
fn add_slots(rows: &[SlotRow], all: &mut Vec<Piece>) -> Result<(), NoMemory>
    ensures { OnOk result (all.new.items
        ≡ all.old.items ++ flat_map slot_pieces (map asked_slot rows.now)) }
{
    for slot in rows {
        add_slot(slot, all)?;
    }
    Ok(())
}

/// Adds those of a slot.
fn add_slot(slot: &SlotRow, all: &mut Vec<Piece>) -> Result<(), NoMemory>
    ensures { OnOk result (all.new.items ≡ all.old.items ++ slot_pieces (asked_slot slot.now)) }
{
    let name = slot.name.clone()?;
    all.push(Piece::Slot(name, slot.place))?;
    add_row(slot.row.constraints(), all)
}

/// Adds those of a row.
fn add_row(constraints: &[Constraint], all: &mut Vec<Piece>) -> Result<(), NoMemory>
    ensures { OnOk result (all.new.items
        ≡ all.old.items ++ row_pieces (map constraint_of constraints.now)) }
{
    for constraint in constraints {
        add_constraint(constraint, all)?;
    }
    Ok(())
}

/// Adds those of a constraint.
fn add_constraint(constraint: &Constraint, all: &mut Vec<Piece>) -> Result<(), NoMemory>
    ensures { OnOk result (all.new.items
        ≡ all.old.items ++ constraint_pieces (constraint_of constraint.now)) }
{
    add_demand(constraint.takes_segment, &constraint.demand, all)
}

/// Adds those of a constraint that takes a segment or doesn't, and asks this.
fn add_demand(takes_segment: bool, demand: &Demand, all: &mut Vec<Piece>) -> Result<(), NoMemory>
    ensures { OnOk result (all.new.items
        ≡ all.old.items ++ demand_pieces takes_segment (demand_of demand.now)) }
{
    match demand {
        Demand::Nothing => {
            all.push(Piece::Wildcard(takes_segment))?;
            Ok(())
        }
        Demand::Each(checks) => {
            all.push(Piece::Each(takes_segment))?;
            add_checks(checks.as_slice(), all)
        }
        Demand::Either(_, alternatives) => {
            all.push(Piece::Either(takes_segment))?;
            add_alternatives(alternatives.as_slice(), all)
        }
    }
}

/// Adds those of alternatives.
fn add_alternatives(alternatives: &[Vec<Check>], all: &mut Vec<Piece>) -> Result<(), NoMemory>
    ensures { OnOk result (all.new.items
        ≡ all.old.items ++ flat_map alternative_pieces (alternatives_of alternatives.now)) }
{
    for checks in alternatives {
        add_alternative(checks.as_slice(), all)?;
    }
    Ok(())
}

/// Adds those of an alternative.
fn add_alternative(checks: &[Check], all: &mut Vec<Piece>) -> Result<(), NoMemory>
    ensures { OnOk result (all.new.items
        ≡ all.old.items ++ alternative_pieces (map check_of checks.now)) }
{
    all.push(Piece::Alternative)?;
    add_checks(checks, all)
}

/// Adds those of checks joined by `&`.
fn add_checks(checks: &[Check], all: &mut Vec<Piece>) -> Result<(), NoMemory>
    ensures { OnOk result (all.new.items
        ≡ all.old.items ++ checks_pieces (map check_of checks.now)) }
{
    for check in checks {
        add_check(check, all)?;
    }
    Ok(())
}

/// Adds that of a check, if it is for a constant.
fn add_check(check: &Check, all: &mut Vec<Piece>) -> Result<(), NoMemory>
    ensures { OnOk result (all.new.items ≡ all.old.items
        ++ check_pieces (check_of check.now).negated (check_of check.now).test) }
{
    if let Test::Constant(constant) = &check.test {
        let constant = constant.clone()?;
        all.push(Piece::Constant(check.is_negated, constant))?;
    }
    Ok(())
}
