//! What variables have where a test is, read when it asks for them.
use crate::giving::{given_by_address, given_with};
use crate::reading::TokenLists;
use cb_beta::{Given, Sought};
use cb_exprs::Lookup;
use cb_facts::{Name, Value};
use cb_forms::NoMemory;

/// A partial match by its token, whose variables are looked for going down the lists. It has no globals.
#[derive(Clone, Copy)]
pub struct Reading<'a> {
    /// The lists.
    pub lists: TokenLists<'a>,
    /// The number of the list that the token is in.
    pub list: usize,
    /// The number of the token.
    pub number: u32,
}

impl Lookup for Reading<'_> {
    ghost use Rattle.cb_token_lists.specs.Partials.{partial_at};

    ghost bindings = { λ r. (partial_at r.lists.sources.now r.lists.lists.now r.list r.number).env };

    fn variable(&self, name: &Name) -> Result<Option<Value>, NoMemory> {
        self.lists.value(self.list, self.number, &Sought::new(name))
    }

    fn global_variable(&self, _name: &Name) -> Result<Option<Value>, NoMemory> {
        Ok(None)
    }
}

/// A partial match and then a fact in one way, before there is a token of it.
#[derive(Clone, Copy)]
pub struct Grown<'a, 'b> {
    /// The partial match.
    pub before: Reading<'a>,
    /// The variable of the fact's address, if it has one.
    pub address: &'b Option<Name>,
    /// The index of the fact.
    pub index: u64,
    /// What the way gives variables; nothing yet where the pattern is tested.
    pub given: Option<&'b Given>,
}

impl Lookup for Grown<'_, '_> {
    ghost use Rattle.std.specs.Prelude.{option_copied};
    ghost use Rattle.cb_beta.specs.GivenValues.{values_given};
    ghost use Rattle.cb_exprs.specs.Bindings.{with_variables};
    ghost use Rattle.cb_matches.specs.Matches.{with_address};
    ghost use Rattle.cb_token_lists.specs.Partials.{partial_at};

    ghost bindings = { λ g. with_variables (values_given (option_copied g.given)) (with_address g.address.now g.index
        (partial_at g.before.lists.sources.now g.before.lists.lists.now g.before.list g.before.number).env) };

    fn variable(&self, name: &Name) -> Result<Option<Value>, NoMemory> {
        if self.before.list == 0 && self.given.is_none() {
            // nothing stands before the first pattern
            return match given_by_address(self.address, self.index, name) {
                Some(giver) => Ok(Some(giver.to_value()?)),
                None => Ok(None),
            };
        }
        let before = self.before;
        let name = Sought::new(name);
        match given_with(self.given, self.address, self.index, &name) {
            Some(giver) => Ok(Some(giver.to_value()?)),
            None => before.lists.value(before.list, before.number, &name),
        }
    }

    fn global_variable(&self, _name: &Name) -> Result<Option<Value>, NoMemory> {
        Ok(None)
    }
}
