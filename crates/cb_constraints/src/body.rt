//! What a pattern asks, with the places of its variables.
ghost use Rattle.std.specs.Prelude.{◌≡◌, IfOk, Some, filter, map, slice_get, true};
ghost use Rattle.std.specs.Map.{lookup};
ghost use Rattle.std.specs.Option.{option_and_then, option_map};
ghost use Rattle.std.specs.Str.{bytes_eq};
ghost use Rattle.cb_constraints.specs.Binders.{constraints_in};
ghost use Rattle.cb_constraints.specs.Internal.Places.{first_place, has_place, if_before, is_before, places, sites_in};
ghost use Rattle.cb_constraints.specs.Internal.{HasTable};
ghost use Rattle.cb_constraints.specs.Internal.Tables.{first_places};
ghost use Rattle.cb_constraints.specs.PartValues.{asked_parts, asked_slot};
ghost use Rattle.cb_constraints.specs.PatternValues.{fields, slots};
ghost use Rattle.cb_facts.specs.Places.{place_in};

use crate::pattern_parts::{PatternParts, SlotRow};
use crate::place::Place;
use crate::row::Row;
use crate::site::Site;
use crate::table::Table;
use cb_facts::{Name, Places};
use cb_forms::NoMemory;
use std::alloc::Global;
use std::marker::Model;

/// So many variables at most are looked for one by one, which is faster than a search among few. More are searched for by their names.
const FEW: usize = 8;

/// What a pattern asks of the content of a fact, with the places where its variables may first take values and the sites of its
/// constraints.
///
/// Contracts see what it asks.
#[derive(Drop)]
pub struct Body {
    parts: PatternParts,
    /// The variables, each once with its first place.
    variables: Vec<(Name, Place)>,
    /// Their names, to find one by, where they are more than a few.
    names: Option<Box<Places>>,
    /// The sites of the constraints.
    sites: Vec<Site>,
}

impl Model for Body {
    ghost use Rattle.cb_constraints.specs.Internal.Codes.{parts_code};
    ghost use Rattle.cb_constraints.specs.PatternValues.{PatternParts as Asked};
    ghost use Rattle.cb_constraints.specs.PartValues.{asked_parts};
    ghost use Rattle.cb_constraints.specs.Internal.{HasVariables};
    ghost use Rattle.std.specs.Coded.{codes};
    ghost use Rattle.std.specs.Option.{option_map};

    ghost Value = { Asked };

    ghost coded = { parts_code (Prim.hlevel codes) (Prim.hlevel codes) (Prim.hlevel codes) };

    ghost view = { λ b. asked_parts b.parts };

    ghost invariant = { λ b. HasVariables (option_map (λ n. n.value) b.names) b.variables.items b.sites.items (asked_parts b.parts) };
}

impl Body {
    /// A body that asks this. Growth is refused as `NoMemory`.
    pub fn new(alloc: Global, parts: PatternParts) -> Result<Body, NoMemory>
        ensures { IfOk result (λ b. b ≡ asked_parts parts) }
    {
        let table = make_table(alloc, &parts)?;
        let mut variables = table.variables;
        variables.shrink_to_fit();
        let mut sites = table.sites;
        sites.shrink_to_fit();
        let names = if variables.len() > FEW {
            Some(Box::new(alloc, table.names)?)
        } else {
            None
        };
        Ok(Body {
            parts,
            variables,
            names,
            sites,
        })
    }

    /// What it asks.
    pub fn parts(&self) -> &PatternParts
        ensures { asked_parts result.now ≡ self.now }
    {
        &self.parts
    }

    /// Where a variable may first take a value, if that is before the check with this number of a constraint; `None` where none of
    /// its occurrences before gives it one.
    pub(crate) fn first_before(&self, name: &Name, constraint: usize, check: usize) -> Option<Place>
        ensures { result ≡ if_before constraint check (first_place name.now (constraints_in self.now)) }
    {
        match &self.names {
            Some(names) => if_before(
                find_place(names, self.variables.as_slice(), name),
                constraint,
                check,
            ),
            None => place_before(self.variables.as_slice(), name, constraint, check),
        }
    }

    /// Whether the check with this number of a constraint is the first place of a variable. It may be that of one of many variables
    /// though the answer is `false`.
    pub(crate) fn is_first(&self, name: &Name, constraint: usize, check: usize) -> bool
        ensures { result ≡ true
            → first_place name.now (constraints_in self.now) ≡ Some (record { constraint = constraint; check = check }) }
    {
        self.names.is_none() && is_place_of(self.variables.as_slice(), name, constraint, check)
    }

    /// The variables that may take a value, each once with its first place, in the order in which they are written.
    pub(crate) fn variables(&self) -> &[(Name, Place)]
        ensures { result.now ≡ first_places (places 0 (constraints_in self.now)) }
    {
        self.variables.as_slice()
    }

    /// Where the constraint with this number stands, or `None` after the last.
    pub fn site(&self, constraint: usize) -> Option<Site>
        ensures { result ≡ slice_get (sites_in self.now) constraint }
    {
        self.sites.get(constraint).copied()
    }
}

/// Whether the variable that has this place, among these, is the one with a name.
fn is_place_of(variables: &[(Name, Place)], name: &Name, constraint: usize, check: usize) -> bool
    ensures { result ≡ true → has_place name.now constraint check variables.now ≡ true }
{
    for variable in variables {
        let place = variable.1;
        if place.constraint == constraint && place.check == check {
            return *name == variable.0;
        }
    }
    false
}

/// The table of what a pattern asks.
fn make_table(alloc: Global, parts: &PatternParts) -> Result<Table, NoMemory>
    ensures { IfOk result (λ t. HasTable t (asked_parts parts.now)) }
{
    match parts {
        PatternParts::Fields(row) => table_of_row(alloc, row),
        PatternParts::Slots(rows) => table_of_rows(alloc, rows.as_slice()),
    }
}

/// That of an ordered pattern.
fn table_of_row(alloc: Global, row: &Row) -> Result<Table, NoMemory>
    ensures { IfOk result (λ t. HasTable t (fields row.now)) }
{
    let mut table = Table::new(alloc);
    table.add_row(row.constraints(), 0)?;
    Ok(table)
}

/// That of a pattern for the facts of a template.
fn table_of_rows(alloc: Global, rows: &[SlotRow]) -> Result<Table, NoMemory>
    ensures { IfOk result (λ t. HasTable t (slots (map asked_slot rows.now))) }
{
    let mut table = Table::new(alloc);
    table.add_rows(rows)?;
    Ok(table)
}

/// The place of the variable with a name among those before the check with this number of a constraint, looked for one by one.
fn place_before(
    variables: &[(Name, Place)],
    name: &Name,
    constraint: usize,
    check: usize,
) -> Option<Place>
    ensures { result ≡ lookup (bytes_eq name.now) (filter (λ e. is_before e.1 constraint check) variables.now) }
{
    for variable in variables {
        if !is_before(variable.1, constraint, check) {
            continue;
        }
        if *name == variable.0 {
            return Some(variable.1);
        }
    }
    None
}

/// A place, if it is before the check with this number of a constraint.
fn if_before(place: Option<Place>, constraint: usize, check: usize) -> Option<Place>
    ensures { result ≡ if_before constraint check place }
{
    let found = place?;
    if is_before(found, constraint, check) {
        Some(found)
    } else {
        None
    }
}

/// Whether a place is before the check with this number of a constraint.
fn is_before(place: Place, constraint: usize, check: usize) -> bool
    ensures { result ≡ is_before place constraint check }
{
    place.constraint < constraint || place.constraint == constraint && place.check < check
}

/// The place of the variable with the number of a name.
fn find_place(names: &Places, variables: &[(Name, Place)], name: &Name) -> Option<Place>
    ensures { result ≡ option_and_then (λ i. option_map (λ e. e.1) (slice_get variables.now i))
        (place_in names.now name.now) }
{
    let at = names.find(name)?;
    variables.get(at).map(|variable| variable.1)
}
