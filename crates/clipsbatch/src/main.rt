//! Runs a CLIPS script from standard input and writes its transcript to standard output.
//!
//! `README.md` has the options and the exit statuses.
#![tactic(auto)]

use cb_command_line::{StandardInput, StandardOutput, run_program};
use cb_forms::Out;
use std::process::ExitCode;

fn main(rt: HostRuntime) -> ExitCode {
    let mut source = StandardInput::new(rt.stdin());
    let mut out = Out::new(StandardOutput::new(rt.stdout()));
    ExitCode::from(run_program(&rt, &mut source, &mut out))
}
