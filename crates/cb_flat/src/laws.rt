//! Laws of the nodes of a branch: each is the contract of a function that does nothing.
ghost use Rattle.std.specs.Prelude.{◌≡◌, ◌≤◌, ◌<◌, ◌+◌, ℕ, [], Bool, List, None, Some, length, slice_get, suc};
ghost use Rattle.cb_facts.specs.FactLists.{IndexedFacts, fact_at, with_fact, without_fact};
ghost use Rattle.cb_facts.specs.Facts.{FactValue};
ghost use Rattle.cb_flat.specs.Joined.{flat_joins};
ghost use Rattle.cb_flat.specs.Sources.{sources_of};
ghost use Rattle.cb_flat.specs.Taking.{NoneTakes, pattern_count};
ghost use Rattle.cb_matches.specs.Matches.{matches_of};
ghost use Rattle.cb_matches.specs.Order.{IsOnce};
ghost use Rattle.cb_matches.specs.Probes.{branch_probes};
ghost use Rattle.cb_nodes.specs.Flat.{FlatNode, branch_last, branch_nodes, grouping, lists_of, widths_of};
ghost use Rattle.cb_nodes.specs.Lists.{AreWhole, HaveParts, branch_lists};
ghost use Rattle.cb_nodes.specs.Patterns.{HaveIndices};
ghost use Rattle.cb_rules.specs.Elements.{Elements};
ghost use Rattle.cb_token_lists.specs.Partials.{AreBelow, LeadsTo};

use cb_fit::laws::{a_fact_that_fits_is_selected, the_ways_rise_by_their_cuts};

/// The last list that the nodes of a branch make is the matches of the branch, and there is such a list.
pub fn the_last_list_is_the_matches()
    ensures is { (es : Elements) (fs : IndexedFacts) → HaveIndices fs
        → branch_lists (branch_nodes es) fs (branch_last es) ≡ matches_of es fs }
    ensures there { (es : Elements) → branch_last es < suc (length (branch_nodes es)) }
{
    the_ways_rise_by_their_cuts();
}

/// Each node of a branch makes its list of lists before that; the partial matches of each list are as long as one another, and no two
/// have the same parts.
pub fn the_lists_of_a_branch_are_made()
    ensures whole { (es : Elements) → AreWhole (branch_nodes es) }
    ensures wide { (es : Elements) (fs : IndexedFacts) (k : ℕ) → k < suc (length (branch_nodes es))
        → HaveParts (widths_of (branch_nodes es) k) (branch_lists (branch_nodes es) fs k) }
    ensures once { (es : Elements) (fs : IndexedFacts) → HaveIndices fs → (k : ℕ)
        → k < suc (length (branch_nodes es)) → IsOnce (branch_lists (branch_nodes es) fs k) }
{
    the_ways_rise_by_their_cuts();
}

/// Of no partial match at the beginning, nothing comes.
pub fn nothing_comes_of_nothing()
    ensures { (ns : List FlatNode) (fs : IndexedFacts) (k : ℕ) → lists_of ns fs [] k ≡ [] }
{}

/// Each list goes on from one before it, and what is inside a group goes on from what is before the group.
pub fn a_group_goes_on_from_the_list_before_it()
    ensures below { (es : Elements) → AreBelow (sources_of (branch_nodes es)) }
    ensures leads { (es : Elements) (k from inner : ℕ) (positive : Bool) (width : ℕ)
        → slice_get (branch_nodes es) k ≡ Some (grouping from inner positive width)
        → LeadsTo (sources_of (branch_nodes es)) from inner }
{}

/// What the join nodes of a branch may test, and one test of each pattern for the shape of the fact that is added, is no more than
/// the branch may test.
pub fn the_nodes_test_no_more_than_the_branch()
    ensures added { (es : Elements) (f : FactValue) (fs fs' : IndexedFacts) → HaveIndices fs → HaveIndices fs'
        → flat_joins (Some f) fs' (branch_lists (branch_nodes es) fs)
        (branch_lists (branch_nodes es) fs') (branch_nodes es) + pattern_count (branch_nodes es)
        ≤ branch_probes (Some f) fs fs' es }
    ensures taken { (es : Elements) (fs fs' : IndexedFacts) → HaveIndices fs → HaveIndices fs'
        → flat_joins None fs' (branch_lists (branch_nodes es) fs)
        (branch_lists (branch_nodes es) fs') (branch_nodes es) ≤ branch_probes None fs fs' es }
{
    the_ways_rise_by_their_cuts();
}

/// A fact that no pattern takes leaves the lists as they are.
pub fn a_fact_that_none_takes_changes_nothing()
    ensures added { (ns : List FlatNode) (fs : IndexedFacts) (ix : ℕ) (f : FactValue) → NoneTakes (ix, f) ns
        → fact_at fs ix ≡ None → (k : ℕ)
        → branch_lists ns (with_fact fs ix f) k ≡ branch_lists ns fs k }
    ensures taken { (ns : List FlatNode) (fs : IndexedFacts) (ix : ℕ) (f : FactValue) → NoneTakes (ix, f) ns
        → fact_at fs ix ≡ Some f → (k : ℕ)
        → branch_lists ns (without_fact fs ix) k ≡ branch_lists ns fs k }
{
    a_fact_that_fits_is_selected();
}
