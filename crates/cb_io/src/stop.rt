//! Why a script could not be carried out further.
ghost use Rattle.std.specs.Prelude.{◌≡◌};
ghost use Rattle.cb_io.specs.declared.stop.Stop.TheVariants as stop;

use crate::no_memory::NoMemory;
use crate::sink::WriteFault;

/// Why a script could not be carried out further.
#[derive(Clone, Copy, Debug, PartialEq, Eq)]
pub enum Stop {
    /// A growth was refused.
    NoMemory,
    /// A write failed.
    WriteFault,
}

impl From<NoMemory> for Stop {
    ghost from_gives = { λ _ e. e ≡ stop.NoMemory };

    fn from(_e: NoMemory) -> Stop {
        Stop::NoMemory
    }
}

impl From<WriteFault> for Stop {
    ghost from_gives = { λ _ e. e ≡ stop.WriteFault };

    fn from(_e: WriteFault) -> Stop {
        Stop::WriteFault
    }
}
