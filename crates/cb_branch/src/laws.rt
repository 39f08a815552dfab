//! Laws of branches: each is the contract of a function that does nothing.
ghost use Rattle.std.specs.Prelude.{◌≡◌, ◌≤◌, ℕ, Option, false};
ghost use Rattle.cb_branch.specs.Branches.{CanBeFilled, DifferBy, HasAlpha, IsBranchOver, branch_elements, branch_numbers};
ghost use Rattle.cb_branch.specs.Alphas.{AlphaUse, Facts};
ghost use Rattle.cb_branch.specs.Patterns.{shape_tests};
ghost use Rattle.cb_branch.specs.declared.branch.Branch.{Branch};
ghost use Rattle.cb_facts.specs.FactLists.{IndexedFacts};
ghost use Rattle.cb_facts.specs.Facts.{FactValue};
ghost use Rattle.cb_fit.specs.Shapes.{is_selected};
ghost use Rattle.cb_matches.specs.Chains.{In};
ghost use Rattle.cb_matches.specs.Changes.{IsNumber};
ghost use Rattle.cb_matches.specs.Keys.{KeyValue};
ghost use Rattle.cb_matches.specs.Matches.{matches_of};
ghost use Rattle.cb_matches.specs.Order.{IsRising};
ghost use Rattle.cb_matches.specs.Probes.{branch_probes};
ghost use Rattle.cb_rule_keys.specs.Keys.{keys_in_branch};
ghost use Rattle.cb_rules.specs.Elements.{Elements};

use cb_fit::laws::{a_fact_that_fits_is_selected, the_ways_rise_by_their_cuts};

/// What is kept for a branch can be found anew.
pub fn what_is_kept_can_be_filled<T>()
    ensures { (facts : Facts) (fs : IndexedFacts) (b : Branch T)
        → IsBranchOver facts fs b → CanBeFilled b }
{}

/// No match of a branch has two numbers.
pub fn a_match_has_one_number<T>()
    ensures { (facts : Facts) (fs : IndexedFacts) (b : Branch T) (rule number : ℕ) (k : KeyValue) (m n : ℕ)
        → IsBranchOver facts fs b → IsNumber (branch_numbers rule number b) k m
        → IsNumber (branch_numbers rule number b) k n → m ≡ n }
{}

/// Whatever has a number is a match: its key is among those of the matches.
pub fn a_number_is_that_of_a_match<T>()
    ensures { (facts : Facts) (fs : IndexedFacts) (b : Branch T) (rule number : ℕ) (k : KeyValue) (n : ℕ)
        → IsRising fs → IsBranchOver facts fs b → IsNumber (branch_numbers rule number b) k n
        → In k (keys_in_branch rule number (branch_elements b) fs) }
{
    the_ways_rise_by_their_cuts();
}

/// What is kept for a branch is right as long as the same facts stand under the numbers of its patterns.
pub fn what_is_kept_stays<T>()
    ensures { (facts facts' : Facts) (fs : IndexedFacts) (b : Branch T)
        → IsBranchOver facts fs b
        → ((k : ℕ) (u : AlphaUse) → HasAlpha b k u → (n : ℕ) → facts u.alpha n ≡ facts' u.alpha n)
        → IsBranchOver facts' fs b }
{}

/// A fact that has the shape of no pattern of a branch changes nothing where it comes or goes.
pub fn what_no_pattern_takes_changes_nothing<T>()
    ensures over { (facts : Facts) (fs fs' : IndexedFacts) (f : ℕ × FactValue) (b : Branch T)
        → IsRising fs → IsRising fs' → DifferBy f fs fs'
        → ((k : ℕ) (u : AlphaUse) → HasAlpha b k u → is_selected u.pattern f.1 ≡ false)
        → IsBranchOver facts fs b → IsBranchOver facts fs' b }
    ensures matches { (facts : Facts) (fs fs' : IndexedFacts) (f : ℕ × FactValue) (b : Branch T)
        → IsRising fs → IsRising fs' → DifferBy f fs fs'
        → ((k : ℕ) (u : AlphaUse) → HasAlpha b k u → is_selected u.pattern f.1 ≡ false)
        → IsBranchOver facts fs b
        → matches_of (branch_elements b) fs ≡ matches_of (branch_elements b) fs' }
{
    a_fact_that_fits_is_selected();
    the_ways_rise_by_their_cuts();
}

/// Where a fact is added, the bound has room for a test of each pattern of a branch.
pub fn each_pattern_may_be_tested()
    ensures { (added : Option FactValue) (fs fs' : IndexedFacts) (es : Elements) → IsRising fs → IsRising fs'
        → shape_tests added es ≤ branch_probes added fs fs' es }
{
    the_ways_rise_by_their_cuts();
}
