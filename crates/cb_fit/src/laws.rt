//! Laws of ways: each is the contract of a function that does nothing.
ghost use Rattle.std.specs.Prelude.{◌≡◌, ◌≢◌, ◌↔◌, ◌⊎◌, ◌∷◌, ℕ, List, [], AllPairs, Contains, None, Some, false, length, true};
ghost use Rattle.std.specs.Cmp.Lexicographic.{slice_cmp};
ghost use Rattle.std.specs.Ordering.{nat_cmp};
ghost use Rattle.std.specs.declared.cmp.Ordering.TheVariants.{Less};
ghost use Rattle.cb_constraints.specs.Constraints.{Demand};
ghost use Rattle.cb_constraints.specs.Holding.{after_demand, may_hold, provided};
ghost use Rattle.cb_constraints.specs.PatternValues.{PatternValue};
ghost use Rattle.cb_exprs.specs.Bindings.{Bindings, value_at, with_variables};
ghost use Rattle.cb_facts.specs.Facts.{FactValue, ordered_fact};
ghost use Rattle.cb_facts.specs.declared.single.Single.{Single};
ghost use Rattle.cb_facts.specs.declared.value.Value.{Value};
ghost use Rattle.cb_constraints.specs.Bound.{newly_bound};
ghost use Rattle.cb_fit.specs.Comparisons.{is_decided};
ghost use Rattle.cb_fit.specs.ConstantFields.{constant_fields};
ghost use Rattle.cb_fit.specs.Decided.{ValuesDecide, way_by_values};
ghost use Rattle.cb_fit.specs.FieldPlaces.{field_value};
ghost use Rattle.cb_fit.specs.JoinFields.{join_fields, value_in};
ghost use Rattle.cb_fit.specs.Laws.{any_fields, of_length, of_one, one_field};
ghost use Rattle.cb_fit.specs.Plain.{bound_names};
ghost use Rattle.cb_fit.specs.Related.{Fits};
ghost use Rattle.cb_fit.specs.ShapeKeys.{key_of, shape_of};
ghost use Rattle.cb_fit.specs.Shapes.{HasShape, has_shape, is_selected, loose, loose_demand, selection};
ghost use Rattle.cb_fit.specs.StandsAlone.{stands_alone};
ghost use Rattle.cb_fit.specs.Ways.{WayValue, taken_way, ways};
ghost use Rattle.cb_fit.specs.declared.constant_fields.ConstantField.{ConstantField};
ghost use Rattle.cb_fit.specs.declared.join_fields.JoinField.{JoinField};

/// The list of the ways has each way in which the pattern fits the fact, and no other.
pub fn the_ways_are_those_that_fit()
    ensures listed { (p : PatternValue) (f : FactValue) (cuts : List ℕ) (before after : Bindings)
        → Fits p f cuts before after
        → Contains (ways p f before) (taken_way p before cuts after) }
    ensures fitting { (p : PatternValue) (f : FactValue) (before : Bindings) (w : WayValue)
        → Contains (ways p f before) w → (after : Bindings)
        × (Fits p f w.cuts before after) × (w ≡ taken_way p before w.cuts after) }
{}

/// The ways stand in the order of the lengths of their segments: of any two the earlier has the shorter segment where their
/// lengths first differ. So no way is listed twice.
pub fn the_ways_rise_by_their_cuts()
    ensures { (p : PatternValue) (f : FactValue) (before : Bindings)
        → AllPairs (λ v w. slice_cmp nat_cmp v.cuts w.cuts ≡ Less) (ways p f before) }
{}

/// The pattern, the fact, the lengths of the segments and what variables have before fix what they have after.
pub fn the_cuts_fix_what_variables_have()
    ensures { (p : PatternValue) (f : FactValue) (cuts : List ℕ) (before one other : Bindings)
        → Fits p f cuts before one → Fits p f cuts before other → one ≡ other }
{}

/// What variables have after a way is what they have before, and the values that the way gives.
pub fn a_way_has_all_that_it_gives()
    ensures { (p : PatternValue) (f : FactValue) (cuts : List ℕ) (before after : Bindings)
        → Fits p f cuts before after
        → with_variables (newly_bound p.parts before after) before ≡ after }
{}

/// A fact that a pattern fits has the pattern's shape, with segments of the same lengths.
pub fn a_fact_that_fits_has_the_shape()
    ensures shape { (p : PatternValue) (f : FactValue) (cuts : List ℕ) (before after : Bindings)
        → Fits p f cuts before after → HasShape p f }
    ensures cuts { (p : PatternValue) (f : FactValue) (cuts : List ℕ)
        → (before after any : Bindings)
        → Fits p f cuts before after → Fits (loose p) f cuts any any }
{}

/// The shape can be tested: a fact has it just where the pattern without its variables and expressions has a way.
pub fn the_shape_can_be_tested()
    ensures { (p : PatternValue) (f : FactValue) → has_shape p f ≡ true ↔ HasShape p f }
{}

/// The shape gives no variable a value.
pub fn the_shape_gives_no_values()
    ensures { (p : PatternValue) (f : FactValue) (cuts : List ℕ) (before after : Bindings)
        → Fits (loose p) f cuts before after → before ≡ after }
{}

/// What a constraint asks by its constants holds of a value just where the constraint without its variables and expressions
/// does, whatever values variables have; and the constraint without them gives no variable a value.
pub fn constants_hold_where_the_shape_does()
    ensures { (d : Demand) (v : Value) (env : Bindings)
        → after_demand (loose_demand d) v env ≡ provided (may_hold d v) env }
{}

/// `?` fits exactly one field, whatever it is.
pub fn a_wildcard_takes_one_field()
    ensures one { (r : List ℕ) (f : Single) (env : Bindings)
        → ways (of_one r one_field) (ordered_fact r (f ∷ [])) env ≡ of_length 1 ∷ [] }
    ensures no_other { (r : List ℕ) (fs : List Single) (env : Bindings) → length fs ≢ 1
        → ways (of_one r one_field) (ordered_fact r fs) env ≡ [] }
{}

/// `$?` fits any number of fields, whatever they are, in one way: it takes all of them.
pub fn a_wildcard_for_a_segment_takes_any_number()
    ensures { (r : List ℕ) (fs : List Single) (env : Bindings)
        → ways (of_one r any_fields) (ordered_fact r fs) env ≡ of_length (length fs) ∷ [] }
{}

/// A pattern whose shape a fact doesn't have fits it in no way, whatever values variables have.
pub fn no_shape_gives_no_ways()
    ensures { (p : PatternValue) (f : FactValue) (before any : Bindings)
        → ways (loose p) f any ≡ [] → ways p f before ≡ [] }
{}

/// Two ways of one pattern and one fact with the same lengths of segments are the same way.
pub fn ways_with_the_same_cuts_are_the_same()
    ensures { (p : PatternValue) (f : FactValue) (before : Bindings) (v w : WayValue)
        → Contains (ways p f before) v → Contains (ways p f before) w
        → v.cuts ≡ w.cuts → v ≡ w }
{}

/// Where a pattern fits a fact, the fields that have to be equal to variables are: each has the value of its variable, if that has
/// one before.
pub fn a_fact_that_fits_has_the_values_of_variables()
    ensures { (p : PatternValue) (f : FactValue) (before : Bindings) (w : WayValue)
        → Contains (ways p f before) w → (j : JoinField) → Contains (join_fields p.parts) j
        → (v : Value) → value_at j.variable before.variables ≡ Some v
        → value_in j f.content ≡ Some v }
{}

/// Where a fact has the shape of a pattern, each field that has to be equal to a constant is. So it is too where the pattern fits.
pub fn a_fact_with_the_shape_has_the_constants()
    ensures { (p : PatternValue) (f : FactValue) → has_shape p f ≡ true
        → (c : ConstantField) → Contains (constant_fields p.parts) c
        → field_value c.place.slot c.place.field f.content ≡ Some c.value }
{}

/// A pattern that stands alone is the same without its variables and expressions, as it has none: it fits just the facts that have
/// its shape.
pub fn a_pattern_that_stands_alone_is_its_shape()
    ensures { (p : PatternValue) → stands_alone p ≡ true → loose p ≡ p }
{}

/// Two patterns with the same shape ask the same of a fact alone: they are the same without their variables and expressions, and
/// compare the same fields of the fact with the same constants and with one another.
pub fn patterns_of_one_shape_are_equal_without_variables()
    ensures { (p q : PatternValue) → shape_of p ≡ shape_of q → selection p ≡ selection q }
{}

/// The key of what a pattern asks of a fact alone is the pattern's shape.
pub fn the_key_of_a_selection_is_the_shape()
    ensures { (p : PatternValue) → key_of (selection p) ≡ shape_of p }
{}

/// A pattern that is decided by values fits a fact just where the fact is selected for it, by its shape and by the fields that are
/// compared with constants and with one another, each field with a variable has the
/// variable's value, if that has one, each field that is compared with a variable which doesn't stand before in the pattern is
/// compared so with the variable's value, each field with variables as alternatives has the value of one, or one has none, and each
/// condition holds. A condition is the expression of a predicate that makes no such comparison, as in `?x&:(oddp ?x)`; it holds if it
/// has a value, without a fault, and that isn't FALSE, where variables have their values behind the pattern. These are what they have at its
/// place: each variable of it stands before it in the pattern, or may be given no value by the pattern.
///
/// There is one way then: each constraint takes one field, and the variables that had no value get those of the first fields that they stand
/// in, in the order of the pattern. The pattern without its variables and expressions takes the same fields.
pub fn a_pattern_is_decided_by_values()
    ensures fits { (p : PatternValue) (f : FactValue) (before : Bindings) → is_decided p ≡ true
        → (ways p f before ≢ []) ↔ ((is_selected p f ≡ true) × ValuesDecide p before f.content) }
    ensures way { (p : PatternValue) (f : FactValue) (before : Bindings) → is_decided p ≡ true
        → is_selected p f ≡ true → ValuesDecide p before f.content
        → ways p f before ≡ way_by_values p before f.content ∷ [] }
    ensures cuts { (p : PatternValue) (f : FactValue) (before any : Bindings) → is_decided p ≡ true
        → (w : WayValue) → Contains (ways (loose p) f any) w
        → w.cuts ≡ (way_by_values p before f.content).cuts }
{
    the_ways_are_those_that_fit();
    the_ways_rise_by_their_cuts();
    a_fact_that_fits_has_the_shape();
    the_shape_can_be_tested();
    constants_hold_where_the_shape_does();
    a_fact_that_fits_has_the_values_of_variables();
}

/// A pattern fits no fact that isn't selected for it, whatever values variables have.
pub fn a_fact_that_fits_is_selected()
    ensures { (p : PatternValue) (f : FactValue) (before : Bindings) → is_selected p f ≡ false
        → ways p f before ≡ [] }
{
    a_pattern_is_decided_by_values();
    no_shape_gives_no_ways();
}

/// A fact that is selected for a pattern has the pattern's shape.
pub fn a_fact_that_is_selected_has_the_shape()
    ensures { (p : PatternValue) (f : FactValue) → is_selected p f ≡ true → has_shape p f ≡ true }
{}

/// A pattern that stands alone fits each fact that is selected for it, whatever values variables have.
pub fn a_pattern_that_stands_alone_fits_what_is_selected()
    ensures { (p : PatternValue) (f : FactValue) (before : Bindings) → stands_alone p ≡ true
        → is_selected p f ≡ true → ways p f before ≢ [] }
{
    a_fact_that_is_selected_has_the_shape();
    a_pattern_that_stands_alone_is_its_shape();
    no_shape_gives_no_ways();
}

/// After a way, of any pattern, a variable has a value just where it had one before or is one of those to which the pattern may give
/// a value; and one that had a value before has it still.
pub fn a_way_gives_values_to_the_bound_names()
    ensures have { (p : PatternValue) (f : FactValue) (before : Bindings) (w : WayValue)
        → Contains (ways p f before) w → (x : List ℕ)
        → (value_at x (with_variables w.bound before).variables ≢ None)
        ↔ ((value_at x before.variables ≢ None) ⊎ Contains (bound_names p) x) }
    ensures keep { (p : PatternValue) (f : FactValue) (before : Bindings) (w : WayValue)
        → Contains (ways p f before) w → (x : List ℕ) (v : Value)
        → value_at x before.variables ≡ Some v
        → value_at x (with_variables w.bound before).variables ≡ Some v }
{
    the_ways_are_those_that_fit();
    a_way_has_all_that_it_gives();
}
