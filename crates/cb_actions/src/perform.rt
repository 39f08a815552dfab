//! What calls with an effect do with the values of their arguments.
ghost use Rattle.std.specs.Prelude.{◌≡◌, ◌∷◌, [], IfOk, OnOk, false};
ghost use Rattle.cb_actions.specs.Effects.{effected};
ghost use Rattle.cb_actions.specs.Went.{Went};

use crate::act::Break;
use crate::world::World;
use cb_exprs::{Channel, Effect};
use cb_facts::Value;
use cb_forms::{NoMemory, Out, Sink};
use cb_knowledge_base::Mark;
use cb_matches::Matcher;

impl<M: Matcher<Mark>> World<M> {
    /// What an effect does with these values.
    pub(crate) fn perform<K: Sink>(
        &mut self,
        effect: &Effect,
        values: Vec<Value>,
        out: &mut Out<K>,
    ) -> Result<Option<Value>, Break>
        requires { out.old.fault ≡ false }
        ensures went { Went K.writes out.old out.new self.new result
            (effected effect.now values.items self.old) }
        ensures fine { OnOk result (out.new.fault ≡ false) }
    {
        match effect {
            Effect::Assert(shape) => self.assert(shape, values, out),
            Effect::Retract => self.retract(values.as_slice(), out),
            Effect::Modify(slots) => self.modify(slots, values.as_slice(), out),
            Effect::Bind(name) => self.bind_all(name, values),
            Effect::BindGlobal(name) => self.bind_global_all(name, values),
            Effect::Printout(channel) => self.print(*channel, values.as_slice(), out),
            Effect::Print => self.print(Channel::Output, values.as_slice(), out),
            Effect::Println => self.print_line(values.as_slice(), out),
            Effect::Halt => self.halt(),
        }
    }

    /// The same with one value. A `bind` needs no vector for it.
    pub(crate) fn perform_with<K: Sink>(
        &mut self,
        effect: &Effect,
        value: Value,
        out: &mut Out<K>,
    ) -> Result<Option<Value>, Break>
        requires { out.old.fault ≡ false }
        ensures went { Went K.writes out.old out.new self.new result
            (effected effect.now (value ∷ []) self.old) }
        ensures fine { OnOk result (out.new.fault ≡ false) }
    {
        match effect {
            Effect::Bind(name) => self.bind(name, value),
            Effect::BindGlobal(name) => self.bind_global(name, value),
            _ => {
                let values = self.one(value)?;
                self.perform(effect, values, out)
            }
        }
    }

    fn one(&self, value: Value) -> Result<Vec<Value>, NoMemory>
        ensures { IfOk result (λ values. values.items ≡ value ∷ []) }
    {
        let mut values = Vec::with_capacity(self.alloc, 1)?;
        values.push(value)?;
        Ok(values)
    }
}
