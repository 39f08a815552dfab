//! How a run goes and ends.
ghost use Rattle.std.specs.Prelude.{◌≡◌};
ghost use Rattle.cb_session.specs.Transcripts.{exit_status, fault_code};

/// What ended a script.
#[derive(Clone, Copy, Debug, PartialEq, Eq)]
pub enum Ending {
    /// Its end.
    Done,
    /// The command `exit`.
    Exit,
    /// A limit.
    Limit,
}

/// How a script ended, and the exit status that goes with it.
#[derive(Clone, Copy, Debug, PartialEq, Eq)]
pub struct Status {
    /// 0 where no fault line was written, 1 where one was, 4 at a limit; after `exit` the number that it asked for, if it did.
    pub code: u8,
    /// What ended the script.
    pub ending: Ending,
}

impl Status {
    /// How a script ends at a limit.
    pub(crate) const LIMITED: Status = Status {
        code: 4,
        ending: Ending::Limit,
    };

    /// How a script ends by `exit`, which may ask for a code.
    pub(crate) fn exited(code: Option<u8>, is_faulted: bool) -> Status
        ensures { result ≡ exit_status code is_faulted }
    {
        Status {
            code: code.unwrap_or(fault_code(is_faulted)),
            ending: Ending::Exit,
        }
    }
}

/// The code of a script that asks for none: 1 where a fault line was written, else 0.
pub(crate) fn fault_code(is_faulted: bool) -> u8
    ensures { result ≡ fault_code is_faulted }
{
    if is_faulted { 1 } else { 0 }
}

/// What a piece of a script led to.
#[derive(Clone, Copy, Debug, PartialEq, Eq)]
pub enum Flow {
    /// The script goes on.
    GoOn,
    /// The script has ended.
    Ended(Status),
}
