//! Facts that were read, asserted.
ghost use Rattle.std.specs.Prelude.{◌≡◌, OnOk, false};
ghost use Rattle.cb_actions.specs.Actions.{carried};
ghost use Rattle.cb_actions.specs.Definitions.{all_asserted};
ghost use Rattle.cb_actions.specs.Went.{Went};
ghost use Rattle.cb_exprs.specs.Terms.{effect};
ghost use Rattle.cb_exprs.specs.declared.effect.Effect.TheVariants as kind;
ghost use Rattle.cb_knowledge_base.specs.Deffacts.{kept_facts};

use crate::act::Break;
use crate::world::World;
use cb_exprs::FactExpr;
use cb_facts::Value;
use cb_forms::{Out, Sink};
use cb_knowledge_base::{DeffactsTable, Mark};
use cb_matches::Matcher;

impl<M: Matcher<Mark>> World<M> {
    /// Asserts the facts of each `deffacts`, in order, up to the first that ends with a fault or at a limit. Returns no
    /// value.
    pub fn assert_deffacts<K: Sink>(
        &mut self,
        deffacts: &DeffactsTable,
        out: &mut Out<K>,
    ) -> Result<Option<Value>, Break>
        requires { out.old.fault ≡ false }
        ensures went { Went K.writes out.old out.new self.new result
            (all_asserted (kept_facts deffacts.now) self.old) }
        ensures fine { OnOk result (out.new.fault ≡ false) }
    {
        for group in deffacts.iter() {
            drop(self.assert_facts(group.facts(), out)?);
        }
        Ok(None)
    }

    fn assert_facts<K: Sink>(
        &mut self,
        facts: &[FactExpr],
        out: &mut Out<K>,
    ) -> Result<Option<Value>, Break>
        requires { out.old.fault ≡ false }
        ensures went { Went K.writes out.old out.new self.new result
            (all_asserted facts.now self.old) }
        ensures fine { OnOk result (out.new.fault ≡ false) }
    {
        for fact in facts {
            drop(self.assert_fact(fact, out)?);
        }
        Ok(None)
    }

    fn assert_fact<K: Sink>(
        &mut self,
        fact: &FactExpr,
        out: &mut Out<K>,
    ) -> Result<Option<Value>, Break>
        requires { out.old.fault ≡ false }
        ensures went { Went K.writes out.old out.new self.new result
            (carried (effect (kind.Assert fact.now.shape) fact.now.values) self.old) }
        ensures fine { OnOk result (out.new.fault ≡ false) }
    {
        let values = self.carry_values(None, fact.values(), out)?;
        self.assert(fact.shape(), values, out)
    }
}
