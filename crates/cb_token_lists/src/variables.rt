//! What a variable has by the partial match that a token stands for.
ghost use Rattle.std.specs.Prelude.{◌≡◌, IfOk};
ghost use Rattle.cb_exprs.specs.Bindings.{value_at};
ghost use Rattle.cb_token_lists.specs.Partials.{partial_at};

use crate::giving::{given_by_token, may_be_given};
use crate::known::Reading;
use crate::reading::TokenLists;
use cb_beta::Sought;
use cb_facts::Value;
use cb_forms::NoMemory;

impl<'a> TokenLists<'a> {
    /// The value that a variable has by the partial match with a number in a list, or `None` where it has none. It takes some steps
    /// for each list that is gone down to, until one gives the variable, and no memory: the value shares its bytes or fields. It is
    /// refused as `NoMemory` only where a count of sharers is full.
    pub fn value(
        &self,
        list: usize,
        number: u32,
        name: &Sought<'_>,
    ) -> Result<Option<Value>, NoMemory>
        ensures { IfOk result (λ found. found ≡ value_at name.now
            (partial_at self.now.sources.now self.now.lists.now list number).env.variables) }
    {
        let mut reached = list;
        let mut met = number;
        for _ in 0..=list {
            let Some((source, token)) = self.read(reached, met) else {
                return Ok(None);
            };
            if may_be_given(source, token, name) {
                if let Some(giver) = given_by_token(source, token, name) {
                    return Ok(Some(giver.to_value()?));
                }
            }
            reached = source.from as usize;
            met = token.parent();
        }
        Ok(None)
    }

    /// The partial match with a number in a list, to be asked for its variables one by one.
    pub fn reading(&self, list: usize, number: u32) -> Reading<'a>
        ensures { result ≡ record { lists = self.now; list = list; number = number } }
    {
        Reading {
            lists: *self,
            list,
            number,
        }
    }
}
