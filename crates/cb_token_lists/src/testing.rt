//! Whether a test holds.
ghost use Rattle.std.specs.Prelude.{◌≡◌, IfOk};
ghost use Rattle.cb_exprs.specs.Terms.{term_of};
ghost use Rattle.cb_matches.specs.Matches.{test_holds};

use crate::reading::TokenLists;
use cb_eval::{eval, is_true};
use cb_exprs::{Expr, Lookup};
use cb_facts::Refused;
use cb_forms::NoMemory;

impl TokenLists<'_> {
    /// Whether a test holds, where variables have these values; one that faults doesn't. Growth is refused as `NoMemory`, and so is
    /// a count of sharers that is full.
    pub fn holds<L: Lookup>(&self, test: &Expr, known: &L) -> Result<bool, NoMemory>
        ensures { IfOk result
            (λ holds. holds ≡ test_holds (term_of test.now) (L.bindings known.now)) }
    {
        match eval(self.alloc, self.constants, test, known) {
            Ok(value) => Ok(is_true(&value)),
            Err(Refused::Fault(_)) => Ok(false),
            Err(Refused::NoMemory) => Err(NoMemory),
        }
    }
}
