//! Laws of matches: each is the contract of a function that does nothing.
ghost use Rattle.std.specs.Prelude.{◌≡◌, AllPairs, Contains};
ghost use Rattle.std.specs.declared.cmp.Ordering.TheVariants.{Less};
ghost use Rattle.cb_exprs.specs.Bindings.{Bindings};
ghost use Rattle.cb_matches.specs.Keys.{KeyValue, key_cmp};
ghost use Rattle.cb_matches.specs.Laws.{IsInOrder, IsMatch};
ghost use Rattle.cb_matches.specs.Networks.{Network, all_keys, all_matches};

use cb_fit::laws::{
    a_way_has_all_that_it_gives, the_ways_are_those_that_fit, the_ways_rise_by_their_cuts,
};

/// The matches are just the keys that satisfy a branch of a rule, each with what variables have by it: for each pattern
/// outside groups a fact that is there and that the pattern fits in the way that the key says, each test with a value that
/// isn't FALSE, and of each group an inner match, or none where it is a `not`; what variables have grows from left to right.
pub fn the_matches_are_those_that_satisfy_a_rule()
    ensures listed { (n : Network) (k : KeyValue) (env : Bindings) → IsInOrder n
        → IsMatch n k env → Contains (all_matches n) (k, env) }
    ensures satisfying { (n : Network) (k : KeyValue) (env : Bindings) → IsInOrder n
        → Contains (all_matches n) (k, env) → IsMatch n k env }
{
    the_ways_are_those_that_fit();
    a_way_has_all_that_it_gives();
}

/// The keys of all matches rise: by the rule, then by the branch, then by what the patterns took, from left to right. So each
/// match is there once.
pub fn the_keys_of_all_matches_rise()
    ensures { (n : Network) → IsInOrder n
        → AllPairs (λ k l. key_cmp k l ≡ Less) (all_keys n) }
{
    the_ways_rise_by_their_cuts();
}
