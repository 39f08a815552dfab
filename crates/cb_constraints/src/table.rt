//! The variables of a pattern, each with its first place, and the sites of its constraints, as they are found.
ghost use Rattle.std.specs.Prelude.{◌≡◌, ◌∷◌, [], OnOk, flat_map, length, map};
ghost use Rattle.cb_constraints.specs.Binders.{binder};
ghost use Rattle.cb_constraints.specs.Internal.Places.{places, places_for, places_of, sites_from, sites_of};
ghost use Rattle.cb_constraints.specs.Constraints.{check_of, constraint_of, demand_of};
ghost use Rattle.cb_constraints.specs.Internal.Tables.{Grows, IsNamed};
ghost use Rattle.cb_constraints.specs.PartValues.{asked_slot};

use crate::constraint::{Check, Constraint, Demand, Test};
use crate::pattern_parts::SlotRow;
use crate::place::Place;
use crate::site::Site;
use cb_facts::{Name, Places};
use cb_forms::NoMemory;
use std::alloc::Global;

/// The variables that constraints may give values, each once with its first place, and the sites of the constraints. The names
/// are those of the variables, to find one by.
#[derive(Drop)]
pub(crate) struct Table {
    pub(crate) names: Places,
    pub(crate) variables: Vec<(Name, Place)>,
    pub(crate) sites: Vec<Site>,
}

impl Table {
    /// Of no constraint.
    pub(crate) fn new(alloc: Global) -> Table
        ensures named { IsNamed result }
        ensures variables { result.variables.items ≡ [] }
        ensures sites { result.sites.items ≡ [] }
    {
        Table {
            names: Places::new(alloc),
            variables: Vec::new(alloc),
            sites: Vec::new(alloc),
        }
    }

    /// Adds rows, of which the first has this number.
    #[tactic(auto, using(crate::proofs::TableLaws::going_begun, crate::proofs::TableLaws::going_ended))]
    pub(crate) fn add_rows(&mut self, rows: &[SlotRow]) -> Result<(), NoMemory>
        requires { IsNamed self.old }
        ensures { OnOk result (Grows self.old self.new
            (places (length self.old.sites.items) (flat_map (λ s. s.row) (map asked_slot rows.now)))
            (sites_from 0 (length self.old.sites.items) (map asked_slot rows.now))) }
    {
        let mut number = 0;
        for slot in rows {
            self.add_row(slot.row.constraints(), number)?;
            number += 1;
        }
        Ok(())
    }

    /// Adds the constraints of a row with this number.
    #[tactic(auto, using(crate::proofs::TableLaws::going_begun, crate::proofs::TableLaws::going_ended))]
    pub(crate) fn add_row(&mut self, constraints: &[Constraint], row: usize) -> Result<(), NoMemory>
        requires { IsNamed self.old }
        ensures { OnOk result (Grows self.old self.new
            (places (length self.old.sites.items) (map constraint_of constraints.now))
            (sites_of row (length self.old.sites.items) (map constraint_of constraints.now))) }
    {
        let start = self.sites.len();
        for constraint in constraints {
            let number = self.sites.len();
            self.add_demand(&constraint.demand, number)?;
            let takes_segment = constraint.takes_segment;
            self.sites.push(Site {
                row,
                start,
                takes_segment,
            })?;
        }
        Ok(())
    }

    /// Adds the variables that a constraint with this number may give a value.
    fn add_demand(&mut self, demand: &Demand, constraint: usize) -> Result<(), NoMemory>
        requires { IsNamed self.old }
        ensures { OnOk result (Grows self.old self.new
            (places_for constraint (demand_of demand.now)) []) }
    {
        match demand {
            Demand::Nothing | Demand::Either(None, _) => Ok(()),
            Demand::Each(checks) => self.add_checks(checks, constraint),
            Demand::Either(Some(name), _) => self.add(
                name,
                Place {
                    constraint,
                    check: 0,
                },
            ),
        }
    }

    /// Adds those of its checks.
    #[tactic(auto, using(crate::proofs::TableLaws::going_ended))]
    fn add_checks(&mut self, checks: &[Check], constraint: usize) -> Result<(), NoMemory>
        requires { IsNamed self.old }
        ensures { OnOk result (Grows self.old self.new
            (places_of constraint 0 (map check_of checks.now)) []) }
    {
        let mut number = 0;
        for check in checks {
            self.add_check(
                check,
                Place {
                    constraint,
                    check: number,
                },
            )?;
            number += 1;
        }
        Ok(())
    }

    /// Adds the variable that a check may give a value, if it may.
    fn add_check(&mut self, check: &Check, place: Place) -> Result<(), NoMemory>
        requires { IsNamed self.old }
        ensures { OnOk result (Grows self.old self.new (map (λ x. (x, place))
            (binder (check_of check.now).negated (check_of check.now).test)) []) }
    {
        if !check.is_negated {
            if let Test::Variable(name) = &check.test {
                return self.add(name, place);
            }
        }
        Ok(())
    }

    /// Adds a variable with its place, if it has none yet.
    fn add(&mut self, name: &Name, place: Place) -> Result<(), NoMemory>
        requires { IsNamed self.old }
        ensures { OnOk result (Grows self.old self.new ((name.now, place) ∷ []) []) }
    {
        if self.names.find(name).is_some() {
            return Ok(());
        }
        let number = self.variables.len();
        self.names.push(name, number)?;
        self.variables.push((name.clone()?, place))?;
        Ok(())
    }
}
