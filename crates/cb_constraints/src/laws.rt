//! Laws of constraints: each is the contract of a function that does nothing.
ghost use Rattle.std.specs.Prelude.{◌≡◌, ◌∷◌, ℕ, List, Option, None, Some, Ok, Err, true, false};
ghost use Rattle.std.specs.Option.{option_and_then};
ghost use Rattle.cb_constraints.specs.Constraints.{Check, Demand, Test, constant, each, either, nothing, predicate, return_value, variable};
ghost use Rattle.cb_constraints.specs.Holding.{after_demand, may_hold, test_holds};
ghost use Rattle.cb_constraints.specs.Laws.{OneHolds, any_of_these, only, opposite, plain};
ghost use Rattle.cb_eval.specs.Comparison.{same};
ghost use Rattle.cb_eval.specs.Evaluation.{value_of};
ghost use Rattle.cb_eval.specs.Logic.{is_true};
ghost use Rattle.cb_exprs.specs.Bindings.{Bindings, value_at, with_variable};
ghost use Rattle.cb_exprs.specs.Terms.{Term};
ghost use Rattle.cb_facts.specs.declared.value.Value.{Value};
ghost use Rattle.cb_forms.specs.declared.fault.Fault.{Fault};

/// A wildcard holds of every value.
pub fn a_wildcard_holds_of_all()
    ensures { (v : Value) (env : Bindings) → after_demand nothing v env ≡ Some env }
{}

/// A constant holds of what is equal to it.
pub fn a_constant_holds_of_its_equal()
    ensures equal { (w v : Value) (env : Bindings)
        → same v w ≡ true → after_demand (only (plain (constant w))) v env ≡ Some env }
    ensures unequal { (w v : Value) (env : Bindings)
        → same v w ≡ false → after_demand (only (plain (constant w))) v env ≡ None }
{}

/// A variable without a value takes the one in its place.
pub fn a_new_variable_takes_the_value()
    ensures { (x : List ℕ) (v : Value) (env : Bindings) → value_at x env.variables ≡ None
        → after_demand (only (plain (variable x))) v env ≡ Some (with_variable x v env) }
{}

/// A variable with a value holds of what is equal to it.
pub fn a_known_variable_is_compared()
    ensures equal { (x : List ℕ) (v w : Value) (env : Bindings) → value_at x env.variables ≡ Some w
        → same v w ≡ true → after_demand (only (plain (variable x))) v env ≡ Some env }
    ensures unequal { (x : List ℕ) (v w : Value) (env : Bindings)
        → value_at x env.variables ≡ Some w → same v w ≡ false
        → after_demand (only (plain (variable x))) v env ≡ None }
{}

/// A predicate holds where its expression has a value that is true.
pub fn a_predicate_holds_by_its_value()
    ensures holds { (e : Term) (v w : Value) (env : Bindings) → value_of e env ≡ Ok w
        → is_true w ≡ true → after_demand (only (plain (predicate e))) v env ≡ Some env }
    ensures fails { (e : Term) (v w : Value) (env : Bindings) → value_of e env ≡ Ok w
        → is_true w ≡ false → after_demand (only (plain (predicate e))) v env ≡ None }
    ensures faults { (e : Term) (v : Value) (env : Bindings) (f : Fault) → value_of e env ≡ Err f
        → after_demand (only (plain (predicate e))) v env ≡ None }
{}

/// A return value constraint holds of what is equal to the value of its expression.
pub fn a_return_value_is_compared()
    ensures equal { (e : Term) (v w : Value) (env : Bindings) → value_of e env ≡ Ok w
        → same v w ≡ true → after_demand (only (plain (return_value e))) v env ≡ Some env }
    ensures unequal { (e : Term) (v w : Value) (env : Bindings) → value_of e env ≡ Ok w
        → same v w ≡ false → after_demand (only (plain (return_value e))) v env ≡ None }
    ensures faults { (e : Term) (v : Value) (env : Bindings) (f : Fault) → value_of e env ≡ Err f
        → after_demand (only (plain (return_value e))) v env ≡ None }
{}

/// `~` turns a test that holds into one that doesn't, and the other way round; one that faults doesn't hold.
pub fn a_tilde_turns_a_test()
    ensures holds { (t : Test) (v : Value) (env : Bindings) → test_holds t v env ≡ false
        → after_demand (only (opposite t)) v env ≡ Some env }
    ensures fails { (t : Test) (v : Value) (env : Bindings) → test_holds t v env ≡ true
        → after_demand (only (opposite t)) v env ≡ None }
    ensures faults { (e : Term) (v : Value) (env : Bindings) (f : Fault) → value_of e env ≡ Err f
        → after_demand (only (opposite (predicate e))) v env ≡ Some env }
    ensures faults_returned { (e : Term) (v : Value) (env : Bindings) (f : Fault)
        → value_of e env ≡ Err f
        → after_demand (only (opposite (return_value e))) v env ≡ Some env }
{}

/// Of checks joined by `&` the first comes first, and the others see what variables have after it.
pub fn the_first_check_comes_first()
    ensures first { (c : Check) (cs : List Check) (v : Value) (env : Bindings)
        → after_demand (only c) v env ≡ None → after_demand (each (c ∷ cs)) v env ≡ None }
    ensures others { (c : Check) (cs : List Check) (v : Value) (env grown : Bindings)
        → after_demand (only c) v env ≡ Some grown
        → after_demand (each (c ∷ cs)) v env ≡ after_demand (each cs) v grown }
{}

/// `~t` holds just where `t` alone doesn't, of each test; a variable without a value takes the value by itself, and so doesn't
/// hold after `~`.
pub fn the_opposite_holds_where_the_test_alone_does_not()
    ensures holds { (t : Test) (v : Value) (env : Bindings)
        → after_demand (only (plain t)) v env ≡ None
        → after_demand (only (opposite t)) v env ≡ Some env }
    ensures fails { (t : Test) (v : Value) (env grown : Bindings)
        → after_demand (only (plain t)) v env ≡ Some grown
        → after_demand (only (opposite t)) v env ≡ None }
{}

/// Alternatives hold just where there is one among them of which each check holds, and no variable takes a value in them.
pub fn one_alternative_is_enough()
    ensures holds { (alternatives : List (List Check)) (v : Value) (env : Bindings)
        → OneHolds alternatives v env
        → after_demand (any_of_these alternatives) v env ≡ Some env }
    ensures fails { (alternatives : List (List Check)) (v : Value) (env : Bindings)
        → (OneHolds alternatives v env → ⊥)
        → after_demand (any_of_these alternatives) v env ≡ None }
    ensures only { (alternatives : List (List Check)) (v : Value) (env grown : Bindings)
        → after_demand (any_of_these alternatives) v env ≡ Some grown
        → OneHolds alternatives v env }
{}

/// A variable that is set apart comes first: `?x&red|blue` is `?x` and then `red|blue`.
pub fn what_is_set_apart_comes_first()
    ensures first { (x : List ℕ) (alternatives : List (List Check)) (v : Value) (env : Bindings)
        → after_demand (only (plain (variable x))) v env ≡ None
        → after_demand (either (Some x) alternatives) v env ≡ None }
    ensures others { (x : List ℕ) (alternatives : List (List Check))
        → (v : Value) (env grown : Bindings)
        → after_demand (only (plain (variable x))) v env ≡ Some grown
        → after_demand (either (Some x) alternatives) v env
        ≡ after_demand (any_of_these alternatives) v grown }
{}

/// A constraint that holds may hold: what its constants ask is so.
pub fn what_holds_may_hold()
    ensures { (d : Demand) (v : Value) (env grown : Bindings)
        → after_demand d v env ≡ Some grown → may_hold d v ≡ true }
{}
