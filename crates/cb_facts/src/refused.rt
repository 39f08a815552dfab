//! Why a form or a fact is refused.
ghost use Rattle.std.specs.Prelude.{◌≡◌};
ghost use Rattle.cb_facts.specs.declared.refused.Refused.TheVariants as refused;

use cb_forms::{Fault, NoMemory};
use std::alloc::{AllocError, AllocFailed};

/// Why a call refuses what it is given.
#[derive(Clone, Copy, Debug, PartialEq, Eq)]
pub enum Refused {
    /// It has this fault, the first of those that are looked for.
    Fault(Fault),
    /// A growth was refused before a fault was found.
    NoMemory,
}

impl From<NoMemory> for Refused {
    ghost from_gives = { λ _ e. e ≡ refused.NoMemory };

    fn from(_e: NoMemory) -> Refused {
        Refused::NoMemory
    }
}

impl From<AllocError> for Refused {
    ghost from_gives = { λ _ e. e ≡ refused.NoMemory };

    fn from(_e: AllocError) -> Refused {
        Refused::NoMemory
    }
}

impl<T: Drop> From<AllocFailed<T>> for Refused {
    ghost from_gives = { λ _ e. e ≡ refused.NoMemory };

    fn from(_e: AllocFailed<T>) -> Refused {
        Refused::NoMemory
    }
}
