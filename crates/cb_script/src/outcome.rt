//! How a run of the program ended.
ghost use Rattle.std.specs.Prelude.{◌≡◌};
ghost use Rattle.cb_script.specs.Outcomes.{line_of, ended_as, stopped_as, failed_as};

use cb_session::{Ending, Places, Status, Stop};

/// Why a run ended.
#[derive(Clone, Copy, Debug, PartialEq, Eq)]
pub enum Cause {
    /// The script's end.
    Done,
    /// The command `exit`.
    Exit,
    /// A limit.
    Limit,
    /// The script could not be read.
    ReadFault,
    /// The transcript could not be written.
    WriteFault,
    /// Memory was refused.
    NoMemory,
}

/// How a run ended, and where its faults arose.
#[derive(Drop)]
pub struct Report {
    /// How it ended.
    pub outcome: Outcome,
    /// Where the faults arose of the items that it carried out, and the limit at which the script ended, if it did. After `WriteFault`
    /// and `NoMemory` they may be any.
    pub places: Places,
}

/// How a run ended, and the exit status that goes with it.
#[derive(Clone, Copy, Debug, PartialEq, Eq)]
pub struct Outcome {
    /// 3 after `ReadFault`, `WriteFault` and `NoMemory`; else the script's own status.
    pub status: u8,
    /// Why the run ended.
    pub cause: Cause,
}

impl Outcome {
    /// The script has ended, with this status.
    pub fn ended(status: Status) -> Outcome
        ensures { result ≡ ended_as status }
    {
        let cause = match status.ending {
            Ending::Done => Cause::Done,
            Ending::Exit => Cause::Exit,
            Ending::Limit => Cause::Limit,
        };
        Outcome {
            status: status.code,
            cause,
        }
    }

    /// The script could not be carried out further.
    pub fn stopped(stop: Stop) -> Outcome
        ensures { result ≡ stopped_as stop }
    {
        match stop {
            Stop::NoMemory => Outcome::failed(Cause::NoMemory),
            Stop::WriteFault => Outcome::failed(Cause::WriteFault),
        }
    }

    /// The run failed for this cause.
    pub fn failed(cause: Cause) -> Outcome
        ensures { result ≡ failed_as cause }
    {
        Outcome { status: 3, cause }
    }

    /// The line on standard error, without its line feed; empty if the script ended.
    pub fn line(&self) -> &'static str
        ensures { result.now ≡ line_of self.now.cause }
    {
        match self.cause {
            Cause::Done | Cause::Exit | Cause::Limit => "",
            Cause::ReadFault => "clipsbatch: read failed",
            Cause::WriteFault => "clipsbatch: write failed",
            Cause::NoMemory => "clipsbatch: out of memory",
        }
    }
}
