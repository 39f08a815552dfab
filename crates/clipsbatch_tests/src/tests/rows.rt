//! What a row is: a script in steps, what it writes, and how it ends.
use cb_command_line::{Cause, Outcome};

/// A piece of a script, and what is written as soon as its last byte has come.
pub(super) type Step = (&'static [u8], &'static [u8]);

/// A script in steps, and how it ends.
#[derive(Clone, Copy)]
pub(super) struct Row {
    pub(super) name: &'static str,
    pub(super) steps: &'static [Step],
    /// The bytes after the steps, which write nothing before the script's end, and what that end writes.
    pub(super) rest: Step,
    pub(super) max_form: usize,
    pub(super) max_firings: u64,
    pub(super) max_turns: u64,
    pub(super) outcome: Outcome,
}

/// The script has ended and has written no fault line.
pub(super) const WITHOUT_FAULT: Outcome = Outcome {
    status: 0,
    cause: Cause::Done,
};

/// The script has ended and has written a fault line.
pub(super) const WITH_A_FAULT: Outcome = Outcome {
    status: 1,
    cause: Cause::Done,
};

/// The script has ended at a limit.
pub(super) const AT_A_LIMIT: Outcome = Outcome {
    status: 4,
    cause: Cause::Limit,
};

/// A script of no step that goes to its end and writes no fault line.
pub(super) const CLEAN: Row = Row {
    name: "nothing",
    steps: &[],
    rest: (b"", b""),
    max_form: 1000,
    max_firings: 1000,
    max_turns: 1000,
    outcome: WITHOUT_FAULT,
};

/// A script that goes to its end and writes a fault line.
pub(super) const FAULTY: Row = Row {
    outcome: WITH_A_FAULT,
    ..CLEAN
};

/// A script that ends at a limit, with the last byte of the steps.
pub(super) const LIMITED: Row = Row {
    outcome: AT_A_LIMIT,
    ..CLEAN
};

pub(super) const CB06: &[u8] = b"[CB06] unknown function\n";

pub(super) const CB07: &[u8] = b"[CB07] wrong arguments\n";

pub(super) const CB08: &[u8] = b"[CB08] malformed form\n";

pub(super) const CB09: &[u8] = b"[CB09] fact does not fit its template\n";

pub(super) const CB10: &[u8] = b"[CB10] value not allowed in slot\n";

pub(super) const CB11: &[u8] = b"[CB11] unbound variable\n";

pub(super) const CB12: &[u8] = b"[CB12] unknown global variable\n";

pub(super) const CB13: &[u8] = b"[CB13] not allowed on a left side\n";

pub(super) const CB14: &[u8] = b"[CB14] not in this profile\n";

pub(super) const CB16: &[u8] = b"[CB16] bad salience\n";

pub(super) const CB17: &[u8] = b"[CB17] wrong type\n";

pub(super) const CB20: &[u8] = b"[CB20] no such fact\n";

pub(super) const CB21: &[u8] = b"[CB21] no such rule\n";

pub(super) const CB23: &[u8] = b"[CB23] template in use\n";

pub(super) const CB92: &[u8] = b"[CB92] firing limit reached\n";

pub(super) const CB93: &[u8] = b"[CB93] loop limit reached\n";
