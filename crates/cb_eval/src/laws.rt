//! Laws of the functions and of evaluation: each is the contract of a function that does nothing.
ghost use Rattle.std.specs.Prelude.{◌≡◌, ◌⊎◌, ℤ, ◌*ℤ◌, ◌+ℤ◌, ◌≤ℤ◌, true, List, [], ◌∷◌, ◌++◌, Ok, Err, map};
ghost use Rattle.std.specs.List.{All, Contains};
ghost use Rattle.cb_eval.specs.Applied.{applied};
ghost use Rattle.cb_eval.specs.Arithmetic.{quotient, remainder};
ghost use Rattle.cb_eval.specs.Constants.{true_symbol, false_symbol};
ghost use Rattle.cb_eval.specs.Evaluation.{value_of};
ghost use Rattle.cb_eval.specs.Laws.{all_values};
ghost use Rattle.cb_eval.specs.Logic.{decides};
ghost use Rattle.cb_exprs.specs.Bindings.{Bindings};
ghost use Rattle.cb_exprs.specs.Terms.{Term, Terms, call, term};
ghost use Rattle.cb_facts.specs.declared.single.Single.{Single};
ghost use Rattle.cb_facts.specs.declared.value.Value.{Value};
ghost use Rattle.cb_facts.specs.declared.value.Value.TheVariants as value;
ghost use Rattle.cb_forms.specs.declared.fault.Fault.{Fault};
ghost use Rattle.cb_words.specs.declared.words.Function.{Function};
ghost use Rattle.cb_words.specs.declared.words.Function.TheVariants as function;

use cb_facts::Value;
use cb_words::Function;

/// Where both are defined, the quotient times the divisor, and the remainder added, is the dividend.
pub fn quotient_and_remainder_give_the_dividend()
    ensures { (dividend divisor q r : ℤ)
        → quotient dividend divisor ≡ Ok q → remainder dividend divisor ≡ Ok r
        → q *ℤ divisor +ℤ r ≡ dividend }
{}

/// What `min` returns of integers is one of them, and none of them is less.
pub fn the_least_is_one_of_them_and_none_is_less()
    ensures { (first least : ℤ) (others : List ℤ)
        → applied function.Min (map value.Int (first ∷ others)) ≡ Ok (value.Int least)
        → (least ≤ℤ first) × All (λ n. least ≤ℤ n) others
        × ((least ≡ first) ⊎ Contains others least) }
{}

/// `first$` and `rest$` of a multifield, put together by `create$`, are the multifield.
pub fn first_and_rest_are_the_whole()
    ensures { (fields : List Single) (first rest : Value)
        → applied function.First (value.Multi fields ∷ []) ≡ Ok first
        → applied function.Rest (value.Multi fields ∷ []) ≡ Ok rest
        → applied function.Create (first ∷ rest ∷ []) ≡ Ok (value.Multi fields) }
{}

/// The place that `member$` returns for a value is one where `nth$` finds that value.
pub fn what_member_finds_is_there()
    ensures { (v : Value) (fields : List Single) (place : ℤ)
        → applied function.Member (v ∷ value.Multi fields ∷ []) ≡ Ok (value.Int place)
        → applied function.Nth (value.Int place ∷ value.Multi fields ∷ []) ≡ Ok v }
{}

/// The values after one that decides do not matter.
pub fn what_comes_after_the_deciding_value_does_not_matter()
    ensures { (function : Function) (before after : List Value) (v : Value)
        → decides function v ≡ true
        → applied function (before ++ v ∷ after) ≡ applied function (before ++ v ∷ []) }
{}

/// `neq` of several values is not the opposite of `eq`: where the first equals the last and not the one between, both are
/// FALSE.
pub fn neither_equal_nor_different()
    ensures { (v w : Value)
        → applied function.Neq (v ∷ w ∷ []) ≡ Ok true_symbol
        → (applied function.Eq (v ∷ w ∷ v ∷ []) ≡ Ok false_symbol)
        × (applied function.Neq (v ∷ w ∷ v ∷ []) ≡ Ok false_symbol) }
{}

/// Where all arguments of a call have values, its value is that of the function for all of them: to leave some out after one
/// that decides changes no value, and only spares faults.
pub fn what_is_left_out_changes_no_value()
    ensures { (f : Function) (ts : Terms) (env : Bindings) (vs : List Value)
        → all_values ts env ≡ Ok vs → value_of (call f ts) env ≡ applied f vs }
{}

/// A fault of the first argument is the fault of the call, whatever the others are.
pub fn the_first_argument_faults_first()
    ensures { (f : Function) (t : Term) (ts : Terms) (env : Bindings) (fault : Fault)
        → value_of t env ≡ Err fault → value_of (call f (term t ts)) env ≡ Err fault }
{}
