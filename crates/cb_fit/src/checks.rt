//! Reading the checks of a constraint: whether they are decided by values, and with what they compare the field.
ghost use Rattle.std.specs.Prelude.{◌≡◌, ◌++◌, ◌||◌, ℕ, [], List, OnOk, is_some, map, option_map, option_to_list};
ghost use Rattle.cb_constraints.specs.Binders.{binder, binders_of};
ghost use Rattle.cb_constraints.specs.Constraints.{check_of};
ghost use Rattle.cb_fit.specs.Comparisons.{are_decided_checks, compared_call, compared_checks, compared_term, compared_test, comparison_of, constant_of, is_decided_test, limited_arguments, limited_call, limited_checks, limited_term, limited_test, variable_of, with_constant, with_other};
ghost use Rattle.cb_fit.specs.Internal.Reading.{compared_of, limit_of, own_of};
ghost use Rattle.cb_fit.specs.Plain.{is_named};
ghost use Rattle.cb_exprs.specs.Terms.{term_of, terms_of};

use crate::comparison::Comparison;
use cb_constraints::{Check, Test};
use cb_exprs::Expr;
use cb_facts::{Name, Value};
use cb_forms::NoMemory;
use cb_words::Function;

/// A comparison with a variable.
#[derive(Clone, Copy)]
pub(crate) struct Compared<'a> {
    pub(crate) comparison: Comparison,
    pub(crate) variable: &'a Name,
}

/// A comparison with a constant.
#[derive(Clone, Copy)]
pub(crate) struct Limit<'a> {
    pub(crate) comparison: Comparison,
    pub(crate) constant: &'a Value,
}

/// Whether each of the checks of a constraint is plain, or compares the field with a variable or a constant, or makes a condition.
pub(crate) fn are_decided_checks(checks: &[Check]) -> bool
    ensures { result ≡ are_decided_checks [] (map check_of checks.now) }
{
    for check in checks {
        if !is_decided_check(check) {
            return false;
        }
    }
    true
}

/// Whether a check is.
fn is_decided_check(check: &Check) -> bool
    ensures { (own : List (List ℕ)) → result
        ≡ is_decided_test own (check_of check.now).negated (check_of check.now).test }
{
    match &check.test {
        Test::Constant(_) | Test::Variable(_) => true,
        Test::Predicate(_) => !check.is_negated,
        Test::ReturnValue(_) => false,
    }
}

/// Whether a check compares the field with a variable or a constant, after these of the same constraint.
pub(crate) fn compares(before: &[Check], check: &Check) -> bool
    ensures { result
        ≡ is_some (compared_test (own_of before.now) (check_of check.now).negated (check_of check.now).test)
        || is_some (limited_test (own_of before.now) (check_of check.now).negated (check_of check.now).test) }
{
    compared_check(before, check).is_some() || limited_check(before, check).is_some()
}

/// Adds the comparisons that checks make.
pub(crate) fn add_comparisons<'a>(
    checks: &'a [Check],
    all: &mut Vec<Compared<'a>>,
) -> Result<(), NoMemory>
    ensures { OnOk result (map compared_of all.new.items ≡ map compared_of all.old.items
        ++ compared_checks [] (map check_of checks.now)) }
{
    for i in 0..checks.len() {
        add_comparison(&checks[..i], &checks[i], all)?;
    }
    Ok(())
}

/// Adds the comparison that a check makes, after these of the same constraint.
fn add_comparison<'a>(
    before: &[Check],
    check: &'a Check,
    all: &mut Vec<Compared<'a>>,
) -> Result<(), NoMemory>
    ensures { OnOk result (map compared_of all.new.items
        ≡ map compared_of all.old.items ++ option_to_list
        (compared_test (own_of before.now) (check_of check.now).negated (check_of check.now).test)) }
{
    if let Some(compared) = compared_check(before, check) {
        all.push(compared)?;
    }
    Ok(())
}

/// The comparison that a check makes, after these of the same constraint, whose variables are the field's own.
fn compared_check<'a>(before: &[Check], check: &'a Check) -> Option<Compared<'a>>
    ensures { option_map compared_of result ≡ compared_test (own_of before.now)
        (check_of check.now).negated (check_of check.now).test }
{
    match &check.test {
        Test::Variable(variable) if check.is_negated => Some(Compared {
            comparison: Comparison::Differs,
            variable,
        }),
        Test::Predicate(expr) if !check.is_negated => compared_expr(before, expr),
        _ => None,
    }
}

/// The comparison that an expression makes.
fn compared_expr<'a>(before: &[Check], expr: &'a Expr) -> Option<Compared<'a>>
    ensures { option_map compared_of result ≡ compared_term (own_of before.now) (term_of expr.now) }
{
    match expr {
        Expr::Call(function, args) => compared_call(before, *function, args.as_slice()),
        _ => None,
    }
}

/// The comparison that a call makes.
fn compared_call<'a>(before: &[Check], function: Function, args: &'a [Expr]) -> Option<Compared<'a>>
    ensures { option_map compared_of result
        ≡ compared_call (own_of before.now) function (terms_of args.now) }
{
    let (first, others) = args.split_first()?;
    let (second, more) = others.split_first()?;
    if !more.is_empty() {
        return None;
    }
    let comparison = comparison_of(function)?;
    let x = variable_of(first)?;
    let y = variable_of(second)?;
    compared_variables(before, comparison, x, y)
}

/// The comparison of two variables, where one of them alone is the field's own.
fn compared_variables<'a>(
    before: &[Check],
    comparison: Comparison,
    x: &'a Name,
    y: &'a Name,
) -> Option<Compared<'a>>
    ensures { option_map compared_of result ≡ with_other (own_of before.now) comparison x.now y.now }
{
    match (is_own(before, x), is_own(before, y)) {
        (true, false) => Some(Compared {
            comparison,
            variable: y,
        }),
        (false, true) => Some(Compared {
            comparison: comparison.turned(),
            variable: x,
        }),
        _ => None,
    }
}

/// Adds the comparisons with constants that checks make.
pub(crate) fn add_limits<'a>(checks: &'a [Check], all: &mut Vec<Limit<'a>>) -> Result<(), NoMemory>
    ensures { OnOk result (map limit_of all.new.items
        ≡ map limit_of all.old.items ++ limited_checks [] (map check_of checks.now)) }
{
    for i in 0..checks.len() {
        add_limit(&checks[..i], &checks[i], all)?;
    }
    Ok(())
}

/// Adds the comparison with a constant that a check makes, after these of the same constraint.
fn add_limit<'a>(
    before: &[Check],
    check: &'a Check,
    all: &mut Vec<Limit<'a>>,
) -> Result<(), NoMemory>
    ensures { OnOk result (map limit_of all.new.items
        ≡ map limit_of all.old.items ++ option_to_list
        (limited_test (own_of before.now) (check_of check.now).negated (check_of check.now).test)) }
{
    if let Some(limit) = limited_check(before, check) {
        all.push(limit)?;
    }
    Ok(())
}

/// The comparison with a constant that a check makes, after these of the same constraint, whose variables are the field's own.
fn limited_check<'a>(before: &[Check], check: &'a Check) -> Option<Limit<'a>>
    ensures { option_map limit_of result ≡ limited_test (own_of before.now)
        (check_of check.now).negated (check_of check.now).test }
{
    match &check.test {
        Test::Predicate(expr) if !check.is_negated => limited_expr(before, expr),
        _ => None,
    }
}

/// The comparison with a constant that an expression makes.
fn limited_expr<'a>(before: &[Check], expr: &'a Expr) -> Option<Limit<'a>>
    ensures { option_map limit_of result ≡ limited_term (own_of before.now) (term_of expr.now) }
{
    match expr {
        Expr::Call(function, args) => limited_call(before, *function, args.as_slice()),
        _ => None,
    }
}

/// The comparison with a constant that a call makes.
fn limited_call<'a>(before: &[Check], function: Function, args: &'a [Expr]) -> Option<Limit<'a>>
    ensures { option_map limit_of result
        ≡ limited_call (own_of before.now) function (terms_of args.now) }
{
    let (first, others) = args.split_first()?;
    let (second, more) = others.split_first()?;
    if !more.is_empty() {
        return None;
    }
    let comparison = comparison_of(function)?;
    limited_arguments(before, comparison, first, second)
}

/// The comparison of these two, if one of them is a variable of the field's own and the other is a constant.
fn limited_arguments<'a>(
    before: &[Check],
    comparison: Comparison,
    first: &'a Expr,
    second: &'a Expr,
) -> Option<Limit<'a>>
    ensures { option_map limit_of result ≡ limited_arguments (own_of before.now) comparison
        (term_of first.now) (term_of second.now) }
{
    match with_constant(before, comparison, first, second) {
        Some(limit) => Some(limit),
        None => with_constant(before, comparison.turned(), second, first),
    }
}

/// The comparison of these two, if the first is a variable of the field's own and the second is a constant.
fn with_constant<'a>(
    before: &[Check],
    comparison: Comparison,
    first: &Expr,
    second: &'a Expr,
) -> Option<Limit<'a>>
    ensures { option_map limit_of result ≡ with_constant (own_of before.now) comparison
        (variable_of (term_of first.now)) (constant_of (term_of second.now)) }
{
    let variable = variable_of(first)?;
    let constant = constant_of(second)?;
    if is_own(before, variable) {
        Some(Limit {
            comparison,
            constant,
        })
    } else {
        None
    }
}

/// Whether one of the checks may give this variable a value.
pub(crate) fn is_own(checks: &[Check], name: &Name) -> bool
    ensures { result ≡ is_named name.now (own_of checks.now) }
{
    for check in checks {
        if gives(check, name) {
            return true;
        }
    }
    false
}

/// Whether a check may give this variable a value.
fn gives(check: &Check, name: &Name) -> bool
    ensures { result ≡ is_named name.now
        (binder (check_of check.now).negated (check_of check.now).test) }
{
    match &check.test {
        Test::Variable(x) => !check.is_negated && name == x,
        _ => false,
    }
}

/// The variable that an expression is.
fn variable_of(expr: &Expr) -> Option<&Name>
    ensures { option_map (λ n. n.now) result ≡ variable_of (term_of expr.now) }
{
    match expr {
        Expr::Variable(name) => Some(name),
        _ => None,
    }
}

/// The constant that an expression is.
fn constant_of(expr: &Expr) -> Option<&Value>
    ensures { option_map (λ v. v.now) result ≡ constant_of (term_of expr.now) }
{
    match expr {
        Expr::Constant(value) => Some(value),
        _ => None,
    }
}

/// The comparison that a function of two values makes, if it makes one.
fn comparison_of(function: Function) -> Option<Comparison>
    ensures { result ≡ comparison_of function }
{
    match function {
        Function::Less => Some(Comparison::Less),
        Function::LessOrEqual => Some(Comparison::LessOrEqual),
        Function::Greater => Some(Comparison::Greater),
        Function::GreaterOrEqual => Some(Comparison::GreaterOrEqual),
        Function::Equal => Some(Comparison::Equal),
        Function::NotEqual => Some(Comparison::NotEqual),
        Function::Eq => Some(Comparison::Same),
        Function::Neq => Some(Comparison::Differs),
        _ => None,
    }
}
