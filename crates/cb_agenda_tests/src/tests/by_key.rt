//! An agenda in which matches are found by their keys.
use super::called::{Called, answer};
use super::matches::{delta, key};
use cb_agenda::{Agenda, Strategy};
use cb_forms::NoMemory;
use cb_matches::Key;
use std::alloc::Global;

#[derive(Drop)]
pub struct ByKey {
    pub agenda: Agenda,
}

impl Called for ByKey {
    fn change(
        &mut self,
        alloc: Global,
        gone: &[u64],
        come: &[u64],
        saliences: &[i64],
    ) -> Result<&'static str, NoMemory> {
        let delta = delta(alloc, gone, come)?;
        answer(self.agenda.apply_by_key(&delta, saliences))
    }

    fn has(&self, which: u64) -> bool {
        self.agenda.has_key(&key(which))
    }

    fn pop(&mut self) -> Option<Key> {
        self.agenda.pop()
    }

    fn set_strategy(&mut self, strategy: Strategy) -> Strategy {
        self.agenda.set_strategy(strategy)
    }

    fn list(&self) -> Result<Vec<(Key, i64)>, NoMemory> {
        self.agenda.list()
    }

    fn drop_all(&mut self) {
        self.agenda.drop_all();
    }

    fn forget_rule(&mut self, rule: u64) {
        self.agenda.forget_rule(rule);
    }
}
