//! Laws of expressions and facts as they are written, each the contract of a function that does nothing.
ghost use Rattle.std.specs.Prelude.{◌≡◌, ◌≢◌, ◌↔◌, ℕ, List, [], Contains, None, Some, codes, false, true, IsPermutation};
ghost use Rattle.cb_expr_forms.specs.ExprFaults.{all_faults, are_filled, fact_faults, facts_faults, faults_of, slot_faults};
ghost use Rattle.cb_expr_forms.specs.ExprForms.{count, expr_of, fact_of, slot_names};
ghost use Rattle.cb_facts.specs.FaultLists.{first_of};
ghost use Rattle.cb_expr_forms.specs.Laws.{AreFaultless, AreRight, GiveSlots, GiveTheSame, IsPlain, NoListAfterEquals, followed_by, list_of};
ghost use Rattle.cb_expr_forms.specs.Scopes.{Scope, may_act, scope_on};
ghost use Rattle.cb_expr_forms.specs.declared.scope.Side.TheVariants.{Actions, Left};
ghost use Rattle.cb_forms.specs.Trees.{Tree, Trees, atom, no_trees, tree, trees_of};
ghost use Rattle.cb_forms.specs.declared.fault.Fault.{Fault};
ghost use Rattle.cb_forms.specs.declared.fault.Fault.TheVariants.{NotOnLeftSide};
ghost use Rattle.cb_forms.specs.declared.token.Token.TheVariants as token;
ghost use Rattle.cb_words.specs.Reserved.{is_reserved};
ghost use Rattle.cb_templates.specs.Slots.{SlotShape};
ghost use Rattle.cb_templates.specs.Templates.{Templates, slots_of};
ghost use Rattle.cb_words.specs.Words.{arity_of, takes};
ghost use Rattle.cb_words.specs.Words.{head_of};
ghost use Rattle.cb_words.specs.declared.words.Function.{Function};
ghost use Rattle.cb_words.specs.declared.words.Action.{Action};
ghost use Rattle.cb_words.specs.declared.words.Head.TheVariants as head;

/// Arguments have no fault exactly where each of them, by itself, has none.
pub fn arguments_are_right_one_by_one()
    ensures { (s : Scope) (args : Trees) → (all_faults s args ≡ []) ↔ AreRight s args }
{}

/// Of arguments, the first that has a fault is reported: what follows it does not matter.
pub fn what_follows_a_fault_does_not_matter()
    ensures { (s : Scope) (before : Trees) (t : Tree) (after : Trees) (f : Fault)
        → AreRight s before → first_of (faults_of s t) ≡ Some f
        → first_of (all_faults s (followed_by before (tree t after))) ≡ Some f }
{}

/// A call of a function without an effect has no fault exactly where the function takes so many arguments and each argument,
/// by itself, has none.
pub fn a_call_is_right_where_its_parts_are()
    ensures { (s : Scope) (name : List ℕ) (f : Function) (args : Trees)
        → head_of name ≡ Some (head.Function f)
        → (faults_of s (list_of name args) ≡ [])
        ↔ ((takes (arity_of f) (count args) ≡ true) × AreRight s args) }
{}

/// Where a call with an effect may stand, an `assert` has no fault exactly where a fact follows it and each fact, by itself,
/// has none.
pub fn an_assert_is_right_where_its_facts_are()
    ensures { (s : Scope) (facts : Trees) → may_act s.side ≡ true
        → (faults_of s (list_of (codes "assert") facts) ≡ [])
        ↔ ((facts ≢ no_trees) × AreFaultless (fact_faults s) facts) }
{}

/// A `retract` there has none exactly where an argument follows it and each argument, by itself, has none.
pub fn a_retract_is_right_where_its_arguments_are()
    ensures { (s : Scope) (args : Trees) → may_act s.side ≡ true
        → (faults_of s (list_of (codes "retract") args) ≡ [])
        ↔ ((args ≢ no_trees) × AreRight s args) }
{}

/// Of the facts of an `assert`, the first that has a fault is reported: what follows it does not matter.
pub fn what_follows_a_wrong_fact_does_not_matter()
    ensures { (s : Scope) (before : Trees) (t : Tree) (after : Trees) (f : Fault)
        → AreFaultless (fact_faults s) before → first_of (fact_faults s t) ≡ Some f
        → first_of (facts_faults s (followed_by before (tree t after))) ≡ Some f }
{}

/// A fact of a relation without a template has no fault exactly where the relation is not reserved, each field, by itself,
/// has none, and no list follows the symbol `=`.
pub fn an_ordered_fact_is_right_where_its_fields_are()
    ensures { (s : Scope) (relation : List ℕ) (fields : Trees)
        → slots_of s.templates relation ≡ None
        → (fact_faults s (list_of relation fields) ≡ [])
        ↔ ((is_reserved relation ≡ false) × (AreRight s fields × NoListAfterEquals fields)) }
{}

/// A fact of a relation with a template has no fault exactly where the relation is not reserved, each slot, by itself, has
/// none, no slot is given twice, and each slot of the template is given or has a default.
pub fn a_fact_is_right_where_its_slots_are()
    ensures { (s : Scope) (relation : List ℕ) (slots : List SlotShape) (forms : Trees)
        → slots_of s.templates relation ≡ Some slots
        → (fact_faults s (list_of relation forms) ≡ [])
        ↔ ((is_reserved relation ≡ false)
        × (GiveSlots s slots forms × (are_filled slots (slot_names forms) ≡ true))) }
{}

/// Of the slots that a fact gives, the first that has a fault is reported: what follows it does not matter. A slot that is
/// given twice has its fault where it is given again.
pub fn what_follows_a_wrong_slot_does_not_matter()
    ensures { (s : Scope) (relation : List ℕ) (slots : List SlotShape)
        (before : Trees) (t : Tree) (after : Trees) (f : Fault)
        → is_reserved relation ≡ false → slots_of s.templates relation ≡ Some slots
        → GiveSlots s slots before → first_of (slot_faults s slots (slot_names before) t) ≡ Some f
        → first_of (fact_faults s (list_of relation (followed_by before (tree t after)))) ≡ Some f }
{}

/// The slots of a fact may stand in any order: a fact without a fault has none with its slots in another order either, and
/// gives the same slots the same values. They are evaluated in the order in which they stand.
pub fn slots_may_stand_in_any_order()
    ensures { (s : Scope) (relation : List ℕ) (slots : List SlotShape) (forms others : List Tree)
        → slots_of s.templates relation ≡ Some slots → IsPermutation forms others
        → fact_faults s (list_of relation (trees_of forms)) ≡ []
        → (fact_faults s (list_of relation (trees_of others)) ≡ [])
        × GiveTheSame (fact_of s.templates (list_of relation (trees_of forms)))
        (fact_of s.templates (list_of relation (trees_of others))) }
{}

/// On the left side of a rule no global may stand, known or not.
pub fn a_left_side_has_no_global()
    ensures { (s : Scope) (name : List ℕ) → s.side ≡ Left
        → first_of (faults_of s (atom (token.Global name))) ≡ Some NotOnLeftSide }
{}

/// On the left side of a rule no call with an effect may stand, whatever its arguments are.
pub fn a_left_side_has_no_effect()
    ensures { (s : Scope) (name : List ℕ) (a : Action) (args : Trees)
        → s.side ≡ Left → head_of name ≡ Some (head.Action a)
        → first_of (faults_of s (list_of name args)) ≡ Some NotOnLeftSide }
{}

/// An expression without a fault on the left side of a rule is made of constants, variables and calls without an effect, at
/// every depth.
pub fn an_expression_of_a_left_side_is_plain()
    ensures { (s : Scope) (t : Tree) → s.side ≡ Left → faults_of s t ≡ []
        → IsPlain (expr_of s.templates t) }
{}

/// In the actions of a rule a variable, in either form, is known exactly where it is among those that are given there,
/// whatever variables have a value at the top level.
pub fn in_actions_the_given_variables_are_known()
    ensures single { (valued given globals : List (List ℕ)) (templates : Templates) (name : List ℕ)
        → (faults_of (scope_on Actions valued given globals templates) (atom (token.Var name)) ≡ [])
        ↔ Contains given name }
    ensures multi { (valued given globals : List (List ℕ)) (templates : Templates) (name : List ℕ)
        → (faults_of (scope_on Actions valued given globals templates)
        (atom (token.MultiVar name)) ≡ []) ↔ Contains given name }
{}
