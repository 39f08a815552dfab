//! A law of equality: the contract of a function that does nothing.
ghost use Rattle.std.specs.Prelude.{◌≡◌, ◌↔◌, ℕ, List, IsTrue};
ghost use Rattle.cb_facts.specs.Facts.{FactValue, fact_eq};
ghost use Rattle.cb_facts.specs.contracts.name.NamePartialEq.TheImpl as names;
ghost use Rattle.cb_facts.specs.contracts.value.ValuePartialEq.TheImpl as values;
ghost use Rattle.cb_facts.specs.declared.value.Value.{Value};

/// Two names, two values or two facts count as equal exactly where they are the same.
pub fn what_counts_as_equal_is_the_same()
    ensures names { (a b : List ℕ) → IsTrue (names.ghosts.eq a b) ↔ (a ≡ b) }
    ensures values { (a b : Value) → IsTrue (values.ghosts.eq a b) ↔ (a ≡ b) }
    ensures facts { (a b : FactValue) → IsTrue (fact_eq a b) ↔ (a ≡ b) }
{}
