//! Laws of the keys of rules: each is the contract of a function that does nothing.
ghost use Rattle.std.specs.Prelude.{◌≡◌, ◌++◌, ◌∷◌, ℕ, List};
ghost use Rattle.cb_facts.specs.FactLists.{IndexedFacts};
ghost use Rattle.cb_matches.specs.Networks.{Conditions};
ghost use Rattle.cb_rule_keys.specs.Keys.{branch_keys, rule_keys};
ghost use Rattle.cb_rules.specs.Elements.{Elements};

/// The keys of rules are those of the first rule, and then those of the others.
pub fn keys_are_told_rule_by_rule()
    ensures { (r : ℕ × List Elements) (rules : Conditions) (fs : IndexedFacts)
        → rule_keys (r ∷ rules) fs ≡ branch_keys r.0 0 r.1 fs ++ rule_keys rules fs }
{}
