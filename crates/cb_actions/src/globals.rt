//! Global variables defined, and evaluated anew.
ghost use Rattle.std.specs.Prelude.{◌≡◌};
ghost use Rattle.cb_actions.specs.Definitions.{all_evaluated, global_after, globals_after, globals_defined, one_evaluated};
ghost use Rattle.cb_actions.specs.Went.{Quietly};
ghost use Rattle.cb_facts.specs.Results.{Returns, Settles};

use crate::act::Break;
use crate::world::World;
use cb_exprs::{Env, GlobalExpr};
use cb_facts::{Refused, Value};
use cb_knowledge_base::Mark;
use cb_matches::Matcher;

impl<M: Matcher<Mark>> World<M> {
    /// Gives global variables the values of their expressions, each evaluated with the values of those before it. Returns
    /// no value.
    ///
    /// At a fault all have their old values.
    pub fn define_globals(&mut self, globals: &[GlobalExpr]) -> Result<Option<Value>, Break>
        ensures { Quietly self.new result (globals_defined globals.now self.old) }
    {
        let env = self.after_globals(globals)?;
        self.replace_env(env);
        Ok(None)
    }

    /// The values after global variables were given those of their expressions.
    fn after_globals(&mut self, globals: &[GlobalExpr]) -> Result<Env, Refused>
        ensures value { Returns result (globals_after self.old.env globals.now) }
        ensures same { self.new ≡ self.old }
    {
        let mut env = self.env().clone()?;
        for global in globals {
            self.add_global(global, &mut env)?;
        }
        Ok(env)
    }

    /// Gives a global variable the value of its expression.
    fn add_global(&mut self, global: &GlobalExpr, env: &mut Env) -> Result<(), Refused>
        ensures done { Settles (λ _. env.new) result (global_after env.old global.now) }
        ensures same { self.new ≡ self.old }
    {
        let value = self.value_in(global.expr(), env)?;
        env.set_global(global.name(), value)?;
        Ok(())
    }

    /// Gives global variables the values of their expressions, each evaluated with the values of those before it. Returns
    /// no value.
    ///
    /// At a fault those before it have their new values, and the others their old ones.
    pub fn evaluate_anew(&mut self, globals: &[GlobalExpr]) -> Result<Option<Value>, Break>
        ensures { Quietly self.new result (all_evaluated globals.now self.old) }
    {
        for global in globals {
            drop(self.evaluate_one(global)?);
        }
        Ok(None)
    }

    fn evaluate_one(&mut self, global: &GlobalExpr) -> Result<Option<Value>, Break>
        ensures { Quietly self.new result (one_evaluated global.now self.old) }
    {
        let value = self.value(global.expr())?;
        self.bind_global(global.name(), value)
    }
}
