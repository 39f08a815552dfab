//! What a constraint asks, by its alternatives.
ghost use Rattle.std.specs.Prelude.{◌≡◌, ◌++◌, ◌∷◌, [], None, Some, IfOk, MatchOption, map};
ghost use Rattle.cb_constraints.specs.Constraints.{check_of, demand_of};
ghost use Rattle.cb_rule_forms.specs.Rows.{beside, demand_in, set_apart};
ghost use Rattle.cb_rule_forms.specs.Internal.RowReading.{alternatives_of, checks_of};

use cb_constraints::{Check, Demand, Test};
use cb_facts::Name;
use cb_forms::NoMemory;

/// What a constraint with these alternatives and one more asks.
pub(crate) fn demand(alternatives: Vec<Vec<Check>>, last: Vec<Check>) -> Result<Demand, NoMemory>
    ensures { IfOk result (λ d. demand_of d
        ≡ demand_in (alternatives_of alternatives ++ checks_of last ∷ [])) }
{
    let mut alternatives = alternatives;
    let mut last = last;
    last.shrink_to_fit();
    if alternatives.is_empty() {
        return Ok(Demand::Each(last));
    }
    let (variable, first) = split_variable(alternatives.remove(0))?;
    alternatives.insert(0, first)?;
    alternatives.push(last)?;
    Ok(Demand::Either(variable, alternatives))
}

/// The variable that is set apart, if there is one, and the checks beside it.
fn split_variable(checks: Vec<Check>) -> Result<(Option<Name>, Vec<Check>), NoMemory>
    ensures variable { IfOk result (λ split. split.0 ≡ set_apart (checks_of checks)) }
    ensures others { IfOk result (λ split. checks_of split.1 ≡ beside (checks_of checks)) }
{
    let mut checks = checks;
    let Some(name) = first_variable(checks.as_slice()) else {
        return Ok((None, checks));
    };
    let name = name.clone()?;
    drop(checks.remove(0));
    Ok((Some(name), checks))
}

/// The variable that comes first and is followed by another check.
fn first_variable(checks: &[Check]) -> Option<&Name>
    ensures { MatchOption result (set_apart (map check_of checks.now) ≡ None)
        (λ name. set_apart (map check_of checks.now) ≡ Some name.now) }
{
    let (first, others) = checks.split_first()?;
    if others.is_empty() || first.is_negated {
        return None;
    }
    match &first.test {
        Test::Variable(name) => Some(name),
        _ => None,
    }
}
