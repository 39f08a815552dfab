//! What an item of a script does to the facts and the templates.
ghost use Rattle.std.specs.Prelude.{◌≡◌, ◌++◌, ◌∷◌, ℕ, List, [], Option, None, Some, Ok, Err, codes, false, map, true};
ghost use Rattle.cb_actions.specs.Actions.{carried};
ghost use Rattle.cb_actions.specs.Acts.{fault_of};
ghost use Rattle.cb_actions.specs.declared.act.EarlyEnd.TheVariants as ended;
ghost use Rattle.cb_actions.specs.declared.act.Limit.{Limit};
ghost use Rattle.cb_expr_forms.specs.ExprFaults.{faults_of};
ghost use Rattle.cb_expr_forms.specs.ExprForms.{expr_of, fact_of, slot_expr};
ghost use Rattle.cb_expr_forms.specs.Laws.{fact_giving, list_of};
ghost use Rattle.cb_exprs.specs.Terms.{Term, actions, call, effect, terms};
ghost use Rattle.cb_exprs.specs.declared.effect.Effect.TheVariants as kind;
ghost use Rattle.cb_facts.specs.FaultLists.{first_of};
ghost use Rattle.cb_facts.specs.declared.value.Value.{Value};
ghost use Rattle.cb_forms.specs.Trees.{Reading, Tree, Trees, trees_of};
ghost use Rattle.cb_forms.specs.declared.fault.Fault.{Fault};
ghost use Rattle.cb_requests.specs.Reads.{top_scope};
ghost use Rattle.cb_requests.specs.Requests as request;
ghost use Rattle.cb_requests.specs.Uses.{is_in_use};
ghost use Rattle.cb_session.specs.Actions.{requested, shown_line};
ghost use Rattle.cb_session.specs.Lines.{fault_line, limit_line};
ghost use Rattle.cb_session.specs.States.{State};
ghost use Rattle.cb_session.specs.Transcripts.{executed};
ghost use Rattle.cb_templates.specs.SlotValues.{Defines};
ghost use Rattle.cb_templates.specs.Slots.{SlotShape, slot_named};
ghost use Rattle.cb_templates.specs.TemplateFaults.{template_faults};
ghost use Rattle.cb_templates.specs.Templates.{Templates, slots_of};
ghost use Rattle.cb_words.specs.Words.{head_of};
ghost use Rattle.cb_words.specs.declared.words.Action.{Action};
ghost use Rattle.cb_words.specs.declared.words.Function.TheVariants.{Create};
ghost use Rattle.cb_words.specs.declared.words.Head.TheVariants as head;

/// An item that asks for an expression leaves the facts, the templates and the values as the expression leaves them. What
/// each `deffacts` keeps and the initial expressions of the globals stay. The item writes what the expression writes, and
/// then the line of its value, if it has one, or the line of the fault or the limit with which it ends.
pub fn an_expression_is_carried_out()
    ensures world { (s : State) (r : Reading) (t : Term) → requested s r ≡ Ok (request.act t)
        → (executed s r).state.world ≡ (carried t s.world).state }
    ensures only { (s : State) (r : Reading) (t : Term) → requested s r ≡ Ok (request.act t)
        → ((executed s r).state.deffacts ≡ s.deffacts)
        × ((executed s r).state.globals ≡ s.globals) }
    ensures value { (s : State) (r : Reading) (t : Term) (v : Option Value)
        → requested s r ≡ Ok (request.act t) → (carried t s.world).answer ≡ Ok v
        → (executed s r).written ≡ (carried t s.world).written ++ shown_line v }
    ensures fault { (s : State) (r : Reading) (t : Term) (f : Fault)
        → requested s r ≡ Ok (request.act t) → fault_of (carried t s.world).answer ≡ Some f
        → (executed s r).written ≡ (carried t s.world).written ++ fault_line f }
    ensures limit { (s : State) (r : Reading) (t : Term) (limit : Limit)
        → requested s r ≡ Ok (request.act t)
        → (carried t s.world).answer ≡ Err (ended.Limit limit)
        → (executed s r).written ≡ (carried t s.world).written ++ limit_line limit }
{}

/// An item that is a call with an effect, such as an `assert`, asks for that call if it has no fault. Otherwise it asks for
/// nothing, and its fault is the first fault of the call.
pub fn a_call_without_a_fault_is_carried_out()
    ensures right { (s : State) (name : List ℕ) (a : Action) (ts : Trees)
        → head_of name ≡ Some (head.Action a)
        → faults_of (top_scope s.world.templates s.world.env (list_of name ts)) (list_of name ts)
        ≡ []
        → requested s (Ok (list_of name ts))
        ≡ Ok (request.act (expr_of s.world.templates (list_of name ts))) }
    ensures wrong { (s : State) (name : List ℕ) (a : Action) (ts : Trees) (f : Fault)
        → head_of name ≡ Some (head.Action a)
        → first_of (faults_of (top_scope s.world.templates s.world.env (list_of name ts))
        (list_of name ts)) ≡ Some f
        → requested s (Ok (list_of name ts)) ≡ Err f }
{}

/// An `assert` asserts the facts that follow it, one after another. The fields of an ordered fact are what is written, in that
/// order. A fact of a template gives each slot that is written what stands after the slot's name.
pub fn an_assert_asserts_what_is_written()
    ensures facts { (templates : Templates) (forms : List Tree)
        → expr_of templates (list_of (codes "assert") (trees_of forms))
        ≡ actions (terms (map (λ t. effect (kind.Assert (fact_of templates t).shape)
        (fact_of templates t).values) forms)) }
    ensures fields { (templates : Templates) (relation : List ℕ) (forms : List Tree)
        → slots_of templates relation ≡ None
        → fact_of templates (list_of relation (trees_of forms))
        ≡ record {
          shape = record { relation = relation; slots = None };
          values = terms (map (expr_of templates) forms);
        } }
    ensures slots { (templates : Templates) (relation : List ℕ) (slots : List SlotShape)
        (given : List (List ℕ × List Tree)) → slots_of templates relation ≡ Some slots
        → fact_of templates
        (list_of relation (trees_of (map (λ g. list_of g.0 (trees_of g.1)) given)))
        ≡ fact_giving relation (map (λ g. (
          g.0,
          slot_expr (slot_named slots g.0) (map (expr_of templates) g.1),
        )) given) }
{}

/// What a fact gives a slot of one value is the value that is written. What it gives a multislot is a multifield of all that is
/// written.
pub fn a_slot_is_given_what_is_written()
    ensures single { (s : SlotShape) (t : Term) → s.is_multi ≡ false
        → slot_expr (Some s) (t ∷ []) ≡ t }
    ensures multi { (s : SlotShape) (ts : List Term) → s.is_multi ≡ true
        → slot_expr (Some s) ts ≡ call Create (terms ts) }
{}

/// A `retract` retracts what its arguments are, in the order in which they are written.
pub fn a_retract_retracts_what_is_written()
    ensures { (templates : Templates) (t : Tree) (forms : List Tree)
        → expr_of templates (list_of (codes "retract") (trees_of (t ∷ forms)))
        ≡ effect kind.Retract (terms (map (expr_of templates) (t ∷ forms))) }
{}

/// An item that is a `deftemplate` without a fault defines its template and does nothing else. One with a fault defines
/// nothing, and writes the line of its first fault.
pub fn a_deftemplate_defines_its_template()
    ensures defined { (s : State) (forms : Trees)
        → template_faults (is_in_use s.world.memory s.world.rules s.deffacts) forms ≡ []
        → Defines s.world.templates forms
        (executed s (Ok (list_of (codes "deftemplate") forms))).state.world.templates }
    ensures only { (s : State) (forms : Trees)
        → template_faults (is_in_use s.world.memory s.world.rules s.deffacts) forms ≡ []
        → (executed s (Ok (list_of (codes "deftemplate") forms))).state ≡ record s {
          world
              = record s.world {
                templates
                    = (executed s (Ok (list_of (codes "deftemplate") forms))).state.world.templates;
              };
        } }
    ensures quiet { (s : State) (forms : Trees)
        → template_faults (is_in_use s.world.memory s.world.rules s.deffacts) forms ≡ []
        → (executed s (Ok (list_of (codes "deftemplate") forms))).written ≡ [] }
    ensures fault { (s : State) (forms : Trees) (f : Fault)
        → first_of (template_faults (is_in_use s.world.memory s.world.rules s.deffacts) forms) ≡ Some f
        → ((executed s (Ok (list_of (codes "deftemplate") forms))).state.world ≡ s.world)
        × ((executed s (Ok (list_of (codes "deftemplate") forms))).written ≡ fault_line f) }
{}
