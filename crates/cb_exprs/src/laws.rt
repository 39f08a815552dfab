//! Laws of expressions as terms, and of the values that names have: each is the contract of a function that does nothing.
ghost use Rattle.std.specs.Prelude.{◌≡◌, ◌≢◌, ℕ, List, Some, Box, Vec};
ghost use Rattle.std.specs.declared.alloc.Global.{Global};
ghost use Rattle.cb_exprs.specs.Bindings.{Bindings, Values, value_at, with_global, with_value, with_variable, without_value, without_variable};
ghost use Rattle.cb_exprs.specs.Terms.{constant, variable, global, call, effect, choose, repeat, actions, term_of, terms_of};
ghost use Rattle.cb_exprs.specs.declared.effect.Effect.{Effect};
ghost use Rattle.cb_exprs.specs.declared.expr.Expr.{Expr};
ghost use Rattle.cb_exprs.specs.declared.expr.Expr.TheVariants as kind;
ghost use Rattle.cb_exprs.specs.declared.expr.Expr.TheViews as kind_of;
ghost use Rattle.cb_facts.specs.declared.value.Value.{Value};
ghost use Rattle.cb_words.specs.declared.words.Function.{Function};

/// Each kind of expression is the term of its kind, and what stands in it is the terms of that.
pub fn each_expression_is_its_term()
    ensures is_constant { (v : Value) → term_of (kind.Constant v) ≡ constant v }
    ensures is_variable { (x : List ℕ) → term_of (kind.Variable x) ≡ variable x }
    ensures is_global { (x : List ℕ) → term_of (kind.Global x) ≡ global x }
    ensures is_call { (f : Function) (v : Vec Expr Global) → term_of (kind_of.Call f v)
        ≡ call f (terms_of v.items) }
    ensures is_effect { (e : Effect) (v : Vec Expr Global) → term_of (kind_of.Effect e v)
        ≡ effect e (terms_of v.items) }
    ensures is_if { (b d e : Box Expr Global) → term_of (kind_of.If b d e)
        ≡ choose (term_of b.value) (term_of d.value) (term_of e.value) }
    ensures is_while { (b d : Box Expr Global) → term_of (kind_of.While b d)
        ≡ repeat (term_of b.value) (term_of d.value) }
    ensures is_actions { (v : Vec Expr Global) → term_of (kind_of.Actions v)
        ≡ actions (terms_of v.items) }
{}

/// A name has the value that it was given last.
pub fn what_is_set_is_what_is_got()
    ensures { (values : Values) (name : List ℕ) (v : Value)
        → value_at name (with_value name v values) ≡ Some v }
{}

/// Whatever a name is given or loses, each other name keeps its value.
pub fn another_name_keeps_its_value()
    ensures set { (values : Values) (name other : List ℕ) (v : Value) → other ≢ name
        → value_at other (with_value name v values) ≡ value_at other values }
    ensures unset { (values : Values) (name other : List ℕ) → other ≢ name
        → value_at other (without_value name values) ≡ value_at other values }
{}

/// A variable and a global variable of one name are two.
pub fn variables_and_globals_do_not_meet()
    ensures set { (env : Bindings) (name : List ℕ) (v : Value)
        → (with_variable name v env).globals ≡ env.globals }
    ensures unset { (env : Bindings) (name : List ℕ)
        → (without_variable name env).globals ≡ env.globals }
    ensures set_global { (env : Bindings) (name : List ℕ) (v : Value)
        → (with_global name v env).variables ≡ env.variables }
{}
