//! Elements satisfied, one after another.
ghost use Rattle.std.specs.Prelude.{◌≡◌, ◌∷◌, [], IfOk, map};
ghost use Rattle.std.specs.List.{filter};
ghost use Rattle.cb_rules.specs.Elements.{element_of, elements};
ghost use Rattle.cb_exprs.specs.Terms.{term_of};
ghost use Rattle.cb_matches.specs.Matches.{after, after_all, group_holds, test_holds};

use crate::join::join;
use crate::partial::Partial;
use crate::setting::Setting;
use cb_eval::{eval, is_true};
use cb_exprs::{Env, Expr};
use cb_facts::Refused;
use cb_fit::Meter;
use cb_forms::NoMemory;
use cb_rules::Ce;

/// Of these partial matches those that satisfy all elements, from left to right.
#[cycle(satisfying)]
pub(crate) fn satisfy_all<T>(
    setting: &Setting<'_>,
    branch: &[Ce<T>],
    partials: Vec<Partial>,
    meter: &mut Meter<T>,
) -> Result<Vec<Partial>, NoMemory>
    ensures { IfOk result (λ all. all.items ≡ after_all (elements (map element_of branch.now))
        setting.now.facts.now partials.items) }
{
    let mut all = partials;
    for element in branch {
        all = satisfy(setting, element, all, meter)?;
    }
    Ok(all)
}

/// Those that satisfy an element.
#[cycle(satisfying)]
fn satisfy<T>(
    setting: &Setting<'_>,
    element: &Ce<T>,
    partials: Vec<Partial>,
    meter: &mut Meter<T>,
) -> Result<Vec<Partial>, NoMemory>
    ensures { IfOk result (λ all. all.items ≡ after (element_of element.now)
        setting.now.facts.now partials.items) }
{
    match element {
        Ce::Pattern { address, pattern } => {
            join(setting, address, pattern, partials.as_slice(), meter)
        }
        Ce::Test(test) => satisfy_test(setting, test, partials),
        Ce::Group { positive, inner } => satisfy_group(setting, *positive, inner, partials, meter),
    }
}

/// Of these partial matches those for which a test holds. Growth is refused as `NoMemory`, and so is a count of sharers that is
/// full.
pub(crate) fn satisfy_test(
    setting: &Setting<'_>,
    test: &Expr,
    partials: Vec<Partial>,
) -> Result<Vec<Partial>, NoMemory>
    ensures { IfOk result (λ all. all.items
        ≡ filter (λ m. test_holds (term_of test.now) m.env) partials.items) }
{
    let mut all = Vec::new(setting.alloc);
    for partial in partials {
        if holds(setting, test, &partial.env)? {
            all.push(partial)?;
        }
    }
    Ok(all)
}

/// Whether a test holds, where variables have these values.
fn holds(setting: &Setting<'_>, test: &Expr, env: &Env) -> Result<bool, NoMemory>
    ensures { IfOk result (λ holds. holds ≡ test_holds (term_of test.now) env.now) }
{
    match eval(setting.alloc, setting.constants, test, env) {
        Ok(value) => Ok(is_true(&value)),
        Err(Refused::Fault(_)) => Ok(false),
        Err(Refused::NoMemory) => Err(NoMemory),
    }
}

/// Those for which a group holds.
#[cycle(satisfying)]
fn satisfy_group<T>(
    setting: &Setting<'_>,
    positive: bool,
    inner: &[Ce<T>],
    partials: Vec<Partial>,
    meter: &mut Meter<T>,
) -> Result<Vec<Partial>, NoMemory>
    ensures { IfOk result (λ all. all.items ≡ filter
        (λ m. group_holds positive (after_all (elements (map element_of inner.now))
        setting.now.facts.now (m ∷ []))) partials.items) }
{
    let mut all = Vec::new(setting.alloc);
    for partial in partials {
        let found = satisfy_all(setting, inner, only(setting, &partial)?, meter)?;
        if found.is_empty() != positive {
            all.push(partial)?;
        }
    }
    Ok(all)
}

/// A partial match alone.
fn only(setting: &Setting<'_>, partial: &Partial) -> Result<Vec<Partial>, NoMemory>
    ensures { IfOk result (λ one. one.items ≡ partial.now ∷ []) }
{
    let mut one = Vec::new(setting.alloc);
    one.push(partial.clone()?)?;
    Ok(one)
}
