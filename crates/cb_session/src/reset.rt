//! What `reset` does.
ghost use Rattle.std.specs.Prelude.{◌≡◌, false};
ghost use Rattle.cb_actions.specs.Went.{Went};
ghost use Rattle.cb_knowledge_base.specs.Deffacts.{kept_facts};
ghost use Rattle.cb_session.specs.Actions.{reset_to};

use cb_actions::{Break, World};
use cb_exprs::GlobalExpr;
use cb_facts::Value;
use cb_forms::{Out, Sink};
use cb_knowledge_base::{DeffactsTable, Mark};
use cb_matches::Matcher;

/// Gives each global its initial value anew, drops the variables and the facts, and asserts the facts of each `deffacts`.
/// Growth is refused as `NoMemory`.
pub(crate) fn reset_world<M: Matcher<Mark>, K: Sink>(
    world: &mut World<M>,
    globals: &[GlobalExpr],
    deffacts: &DeffactsTable,
    out: &mut Out<K>,
) -> Result<Option<Value>, Break>
    requires { out.old.fault ≡ false }
    ensures { Went K.writes out.old out.new world.new result
        (reset_to globals.now (kept_facts deffacts.now) world.old) }
{
    drop(world.evaluate_anew(globals)?);
    world.drop_variables();
    world.restart(out)?;
    world.assert_deffacts(deffacts, out)
}
