//! What a rule has that was looked up, if there is one.
ghost use Rattle.std.specs.Prelude.{◌≡◌, option_copied, slice_get};
ghost use Rattle.cb_rules.specs.RuleTables.{layout_of, salience_of};

use crate::defined_rule::DefinedRule;
use crate::layout::Layout;

/// The salience of a rule; 0 where there is none.
pub fn salience_of(rule: Option<&DefinedRule>) -> i64
    ensures { result ≡ salience_of (option_copied rule.entry) }
{
    match rule {
        Some(rule) => rule.salience,
        None => 0,
    }
}

/// The layout of a branch of a rule, by the number of the branch from 0; `None` where there is no rule or no such branch.
pub fn layout_of(rule: Option<&DefinedRule>, branch: u64) -> Option<&Layout>
    ensures { option_copied result ≡ layout_of (option_copied rule.entry) branch }
{
    match rule {
        Some(rule) => layout_at(rule.layouts.as_slice(), branch),
        None => None,
    }
}

/// The layout with this number, from 0.
fn layout_at(layouts: &[Layout], branch: u64) -> Option<&Layout>
    ensures { option_copied result ≡ slice_get layouts.now branch }
{
    match usize::try_from(branch) {
        Ok(place) => layouts.get(place),
        Err(_) => None,
    }
}
