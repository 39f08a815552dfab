//! An agenda in which matches are found by their numbers.
ghost use Rattle.std.specs.Prelude.{◌≤◌};
ghost use Rattle.cb_agenda.specs.Ranks.{greatest_stamp};

use super::called::{Called, answer};
use super::matches::{delta, key, number_of};
use cb_agenda::{Agenda, Strategy};
use cb_forms::NoMemory;
use cb_matches::Key;
use std::alloc::Global;
use std::marker::Model;

/// Each match that is due has its number.
#[derive(Drop)]
pub struct ByNumber {
    agenda: Agenda,
}

impl Model for ByNumber {
    ghost use Rattle.cb_agenda.specs.Agendas.{NumberedAgenda};
    ghost use Rattle.cb_agenda_tests.specs.Numbering.{AreOwn};

    ghost Value = { NumberedAgenda };

    ghost view = { λ a. a.agenda };

    ghost invariant = { λ a. AreOwn a.agenda.numbers };
}

impl ByNumber {
    pub fn new(alloc: Global) -> ByNumber {
        ByNumber::starting_at(alloc, 0)
    }

    pub fn starting_at(alloc: Global, stamp: u64) -> ByNumber
        requires { stamp ≤ greatest_stamp }
    {
        ByNumber {
            agenda: Agenda::starting_at(alloc, stamp),
        }
    }
}

impl Called for ByNumber {
    fn change(
        &mut self,
        alloc: Global,
        gone: &[u64],
        come: &[u64],
        saliences: &[i64],
    ) -> Result<&'static str, NoMemory> {
        let delta = delta(alloc, gone, come)?;
        let outcome = self.agenda.apply(&delta, saliences);
        if self.agenda.failed() {
            self.agenda.drop_all();
        }
        answer(outcome)
    }

    fn has(&self, which: u64) -> bool {
        let key = key(which);
        self.agenda.has(&key, number_of(&key))
    }

    fn pop(&mut self) -> Option<Key> {
        self.agenda.pop()
    }

    fn set_strategy(&mut self, strategy: Strategy) -> Strategy {
        self.agenda.set_strategy(strategy)
    }

    fn list(&self) -> Result<Vec<(Key, i64)>, NoMemory> {
        self.agenda.list()
    }

    fn drop_all(&mut self) {
        self.agenda.drop_all();
    }

    fn forget_rule(&mut self, rule: u64) {
        self.agenda.forget_rule(rule);
    }
}
