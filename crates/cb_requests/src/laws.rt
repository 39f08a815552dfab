//! A law of what items ask for: the contract of a function that does nothing.
ghost use Rattle.std.specs.Prelude.{◌≡◌, ◌++◌, ℕ, List, Ok};
ghost use Rattle.cb_expr_forms.specs.Laws.{followed_by};
ghost use Rattle.cb_exprs.specs.Bindings.{Bindings};
ghost use Rattle.cb_exprs.specs.GlobalTerms.{GlobalTerm};
ghost use Rattle.cb_facts.specs.Results.{ok_then};
ghost use Rattle.cb_forms.specs.Trees.{Trees};
ghost use Rattle.cb_requests.specs.Laws.{global_names};
ghost use Rattle.cb_requests.specs.Reads.{globals_in};
ghost use Rattle.cb_templates.specs.Templates.{Templates};

/// A `defglobal` of globals and then of others: where the first are read without a fault, the others are read as if they
/// stood alone and the first were known.
pub fn globals_are_read_one_after_another()
    ensures { (templates : Templates) (env : Bindings) (given : List (List ℕ)) (ts us : Trees)
        (globals : List GlobalTerm)
        → globals_in templates env given ts ≡ Ok globals
        → globals_in templates env given (followed_by ts us)
        ≡ ok_then (λ more. globals ++ more) (globals_in templates env (given ++ global_names globals) us) }
{}
