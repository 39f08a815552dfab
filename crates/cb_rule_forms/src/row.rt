//! Rows of constraints as they are written.
ghost use Rattle.std.specs.Prelude.{◌≡◌, ◌<◌, ◌∷◌, [], Some, false, IfOk, IfSome, MatchOption, MatchResult, OnOk, length, map};
ghost use Rattle.cb_constraints.specs.Constraints.{constraint_of, nothing};
ghost use Rattle.cb_facts.specs.FaultLists.{ReadsAs, first_of};
ghost use Rattle.cb_facts.specs.Results.{Reports};
ghost use Rattle.cb_forms.specs.Members.{members};
ghost use Rattle.cb_rule_forms.specs.Members.{check, members_in};
ghost use Rattle.cb_rule_forms.specs.PatternFaults.{constraints_faults};
ghost use Rattle.cb_rule_forms.specs.RowFaults.{begins_with_check};
ghost use Rattle.cb_rule_forms.specs.Rows.{row_in};
ghost use Rattle.cb_rule_forms.specs.Internal.RowReading.{StartsWithConstraint, EndsConstraint, IsConnected, alternatives_of, checks_faults, checks_of, connective_of, written_of};

use crate::check::read_check;
use crate::demand::demand;
use crate::member::{Member, WrittenCheck, split_member};
use cb_constraints::{Check, Constraint, Demand};
use cb_expr_forms::Scope;
use cb_facts::{Names, Refused};
use cb_forms::{Fault, Form, NoMemory};
use std::alloc::Global;
use std::mem;

/// The constraints that forms are, or their first fault.
pub(crate) fn read_row(
    names: &mut Names,
    scope: &Scope<'_>,
    forms: &[Form],
) -> Result<Vec<Constraint>, Refused>
    ensures { ReadsAs (λ cs. map constraint_of cs.items) result
        (constraints_faults scope.now (members forms.now))
        (row_in scope.now.templates (members_in (members forms.now))) }
{
    let mut constraints = Vec::new(names.alloc());
    let mut rest = forms;
    while let Some((constraint, following)) = read_next(names, scope, rest)? {
        constraints.push(constraint)?;
        rest = following;
    }
    constraints.shrink_to_fit();
    Ok(constraints)
}

/// The constraint that forms begin with, and the forms after it, or its first fault; `None` where there are no forms.
fn read_next<'a>(
    names: &mut Names,
    scope: &Scope<'_>,
    forms: &'a [Form],
) -> Result<Option<(Constraint, &'a [Form])>, Refused>
    ensures next { MatchResult result
        (λ next. MatchOption next (members_in (members forms.now) ≡ [])
        (λ split. StartsWithConstraint scope.now
        (first_of (constraints_faults scope.now (members forms.now)))
        (members_in (members forms.now)) (constraint_of split.0) (members_in (members split.1.now))))
        (λ r. Reports r (λ f. first_of (constraints_faults scope.now (members forms.now)) ≡ Some f)) }
    ensures shorter { IfOk result (λ next. IfSome next
        (λ split. length split.1.now < length forms.now)) }
{
    let Some((member, following)) = split_member(forms) else {
        return Ok(None);
    };
    match member {
        Member::Wildcard(several) => Ok(Some((wildcard(several), following))),
        _ => Ok(Some(read_constraint(names, scope, forms)?)),
    }
}

/// A wildcard: `?`, or `$?` where it takes a segment.
fn wildcard(takes_segment: bool) -> Constraint
    ensures { constraint_of result ≡ record { segment = takes_segment; demand = nothing } }
{
    Constraint {
        takes_segment,
        demand: Demand::Nothing,
    }
}

/// The constraint of checks that forms begin with, and the forms after it, or its first fault.
fn read_constraint<'a>(
    names: &mut Names,
    scope: &Scope<'_>,
    forms: &'a [Form],
) -> Result<(Constraint, &'a [Form]), Refused>
    ensures constraint { MatchResult result
        (λ split. StartsWithConstraint scope.now
        (first_of (checks_faults scope.now (members_in (members forms.now))))
        (members_in (members forms.now)) (constraint_of split.0) (members_in (members split.1.now)))
        (λ r. Reports r (λ f. first_of (checks_faults scope.now (members_in (members forms.now)))
        ≡ Some f)) }
    ensures shorter { IfOk result (λ split. length split.1.now < length forms.now) }
{
    let alloc = names.alloc();
    let mut takes_segment = false;
    let mut alternatives = Vec::new(alloc);
    let mut checks = Vec::new(alloc);
    let mut rest = forms;
    while let Some((is_negated, written, following)) = split_check(rest) {
        takes_segment = takes_segment || written.is_several();
        checks.push(read_check(names, scope, is_negated, written)?)?;
        let Some((connective, others)) = split_connective(following) else {
            let demand = demand(alternatives, checks)?;
            return Ok((
                Constraint {
                    takes_segment,
                    demand,
                },
                following,
            ));
        };
        connect(alloc, connective, &mut alternatives, &mut checks)?;
        rest = others;
    }
    Err(Refused::Fault(Fault::MalformedForm))
}

/// What stands between two checks.
#[derive(Clone, Copy)]
enum Connective {
    /// `&`
    Both,
    /// `|`
    OneOf,
}

/// The check that forms begin with, after whether `~` stands before it, and the forms after it.
fn split_check<'a>(forms: &'a [Form]) -> Option<(bool, WrittenCheck<'a>, &'a [Form])>
    ensures check { MatchOption result
        (begins_with_check (members_in (members forms.now)) ≡ false)
        (λ split. members_in (members forms.now)
        ≡ check split.0 (written_of split.1) ∷ members_in (members split.2.now)) }
    ensures shorter { IfSome result (λ split. length split.2.now < length forms.now) }
{
    match split_member(forms)? {
        (Member::Check(is_negated, written), rest) => Some((is_negated, written, rest)),
        _ => None,
    }
}

/// The connective that forms begin with, and the forms after it.
fn split_connective<'a>(forms: &'a [Form]) -> Option<(Connective, &'a [Form])>
    ensures connective { MatchOption result
        (EndsConstraint (members_in (members forms.now)))
        (λ split. members_in (members forms.now)
        ≡ connective_of split.0 ∷ members_in (members split.1.now)) }
    ensures shorter { IfSome result (λ split. length split.1.now < length forms.now) }
{
    match split_member(forms)? {
        (Member::Both, rest) => Some((Connective::Both, rest)),
        (Member::OneOf, rest) => Some((Connective::OneOf, rest)),
        _ => None,
    }
}

/// Begins the next check after a connective: after `|` in an alternative of its own.
fn connect(
    alloc: Global,
    connective: Connective,
    alternatives: &mut Vec<Vec<Check>>,
    checks: &mut Vec<Check>,
) -> Result<(), NoMemory>
    ensures { OnOk result (IsConnected connective
        (alternatives_of alternatives.old) (checks_of checks.old)
        (alternatives_of alternatives.new) (checks_of checks.new)) }
{
    match connective {
        Connective::Both => Ok(()),
        Connective::OneOf => {
            alternatives.push(mem::replace(checks, Vec::new(alloc)))?;
            Ok(())
        }
    }
}
