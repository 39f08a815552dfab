//! The part that a script so far ends with.
ghost use Rattle.std.specs.Prelude.{◌≡◌, ◌||◌, ◌≤◌, ◌<◌, ℕ, nat_lt, List, [], ◌∷◌, ◌++◌, true, false, length, take, IfOk, IfSome, OnOk, if◌then◌else◌};
ghost use Rattle.cb_forms.specs.Cuts.{item_readings};
ghost use Rattle.cb_forms.specs.Internal.Cuts.{opened_readings, open_bytes, part_with, readings_before};
ghost use Rattle.cb_forms.specs.Items.{is_gap, part_takes, readings_of, ended_readings};
ghost use Rattle.cb_forms.specs.Internal.OpenParts.{HasPassed, IsKept, Reaches, TakesOrLeaves, TakesRun};
ghost use Rattle.cb_forms.specs.Internal.ScanStates.{continued_mode, fresh_mode, mode_is_open, mode_takes, IsStateIn};

use crate::byte_kinds::is_blank;
use crate::cut::Cut;
use crate::fault::Fault;
use crate::form::Item;
use crate::item_bytes::ItemBytes;
use crate::lex_mode::LexMode;
use crate::part::read_part;
use crate::scan_state::ScanState;
use cb_io::{History, NoMemory};
use std::alloc::Global;

/// A part that may go on: its bytes where it is an item, and the state after its last byte.
#[derive(Drop)]
pub(crate) struct OpenPart {
    pub(crate) bytes: ItemBytes,
    pub(crate) state: ScanState,
    /// All its bytes, those of a comment too.
    pub(crate) spelled: History<u8>,
}

impl OpenPart {
    /// Before the first byte of a script.
    pub(crate) fn new(alloc: Global) -> OpenPart
        ensures kept { IsKept result }
        ensures spelled { result.spelled.items ≡ [] }
    {
        OpenPart {
            bytes: ItemBytes::new(alloc),
            state: ScanState::START,
            spelled: History::new(),
        }
    }

    /// Takes the next byte, which goes on with the part or begins another. An item that gets longer than the limit is
    /// let go.
    pub(crate) fn step(&mut self, alloc: Global, limit: usize, byte: u8) -> Result<Cut, NoMemory>
        requires { IsKept self.old }
        ensures { IfOk result (λ cut. Reaches limit (part_with self.old.spelled.items byte)
            (readings_before self.old.spelled.items byte) cut self.new) }
    {
        if self.state.takes(byte) {
            self.go_on(alloc, limit, byte)
        } else {
            self.begin(alloc, limit, byte)
        }
    }

    /// Takes the longest beginning of these bytes that plainly completes nothing, and says how many bytes that is.
    pub(crate) fn step_run(&mut self, limit: usize, bytes: &[u8]) -> Result<usize, NoMemory>
        requires { IsKept self.old }
        ensures { IfOk result (λ n. TakesRun limit self.old bytes.now n self.new) }
    {
        if !self.bytes.is_empty() {
            return self.stay_open(limit, bytes);
        }
        let gaps = self.pass_gaps(bytes);
        let (_, rest) = bytes.split_at(gaps);
        let more = self.open(limit, rest)?;
        Ok(gaps + more)
    }

    /// Takes the blanks and comments that these bytes begin with, where no item is open.
    fn pass_gaps(&mut self, bytes: &[u8]) -> usize
        requires kept { IsKept self.old }
        requires none { self.old.bytes ≡ [] }
        ensures within { result ≤ length bytes.now }
        ensures passed { (limit : ℕ)
            → HasPassed limit self.old.spelled.items (take result bytes.now) self.new }
        ensures none { self.new.bytes ≡ [] }
    {
        let mut end = 0;
        while end < bytes.len() && self.pass_gap(bytes[end]) {
            end += 1;
        }
        end
    }

    /// Takes a byte of a blank or a comment, where no item is open, and says whether it is one.
    fn pass_gap(&mut self, byte: u8) -> bool
        requires kept { IsKept self.old }
        requires none { self.old.bytes ≡ [] }
        ensures passed { (limit : ℕ) → TakesOrLeaves limit self.old byte result self.new }
        ensures none { self.new.bytes ≡ [] }
    {
        if self.state.mode.is_comment_with(byte) {
            self.spelled = self.spelled.and(&byte);
            return true;
        }
        let Some(mode) = gap_mode(byte) else {
            return false;
        };
        self.state = ScanState { mode, depth: 0 };
        self.spelled = History::new().and(&byte);
        true
    }

    /// Begins an item with the first of these bytes, where none is open, and goes on while it stays open.
    fn open(&mut self, limit: usize, bytes: &[u8]) -> Result<usize, NoMemory>
        requires kept { IsKept self.old }
        requires none { self.old.bytes ≡ [] }
        ensures { IfOk result (λ n. TakesRun limit self.old bytes.now n self.new) }
    {
        let [first, rest @ ..] = bytes else {
            return Ok(0);
        };
        if !self.begin_item(limit, *first)? {
            return Ok(0);
        }
        let more = self.stay_open(limit, rest)?;
        Ok(1 + more)
    }

    /// Begins an item where none is open, if its first byte leaves it open, and says whether it did.
    fn begin_item(&mut self, limit: usize, byte: u8) -> Result<bool, NoMemory>
        requires kept { IsKept self.old }
        requires none { self.old.bytes ≡ [] }
        ensures begun { IfOk result
            (λ is_begun. TakesOrLeaves limit self.old byte is_begun self.new) }
        ensures some { IfOk result (λ is_begun. is_begun ≡ true → 0 < length self.new.bytes) }
    {
        let state = ScanState::fresh(byte);
        if limit == 0 || self.state.mode.takes(byte) || !state.is_open() {
            return Ok(false);
        }
        self.bytes.push(byte)?;
        self.state = state;
        self.spelled = History::new().and(&byte);
        Ok(true)
    }

    /// Goes on with the first of these bytes, while the item that is open stays open and within the limit.
    fn stay_open(&mut self, limit: usize, bytes: &[u8]) -> Result<usize, NoMemory>
        requires kept { IsKept self.old }
        requires some { 0 < length self.old.bytes }
        ensures { IfOk result (λ n. TakesRun limit self.old bytes.now n self.new) }
    {
        let room = limit.saturating_sub(self.bytes.len()).min(bytes.len());
        let (inside, _) = bytes.split_at(room);
        let (end, state) = self.state.open_run(inside);
        let (run, _) = inside.split_at(end);
        self.bytes.extend(run)?;
        self.state = state;
        self.spelled = with_run(&self.spelled, run);
        Ok(end)
    }

    fn go_on(&mut self, alloc: Global, limit: usize, byte: u8) -> Result<Cut, NoMemory>
        requires kept { IsKept self.old }
        requires takes { part_takes self.old.spelled.items byte ≡ true }
        ensures { IfOk result
            (λ cut. Reaches limit (self.old.spelled.items ++ byte ∷ []) [] cut self.new) }
    {
        let kept = self.bytes.len();
        let is_full = kept >= limit;
        self.state = self.state.after(byte);
        self.spelled = self.spelled.and(&byte);
        if kept == 0 {
            // a comment
            return Ok(Cut::More);
        }
        if is_full {
            self.bytes.clear();
            return Ok(Cut::TooLong);
        }
        self.bytes.push(byte)?;
        let item = take_ended(alloc, &mut self.bytes, self.state)?;
        Ok(Cut::of(None, item))
    }

    fn begin(&mut self, alloc: Global, limit: usize, byte: u8) -> Result<Cut, NoMemory>
        requires { IsKept self.old }
        ensures { IfOk result (λ cut.
            Reaches limit (byte ∷ []) (opened_readings self.old.spelled.items) cut self.new) }
    {
        let first = take_open(alloc, &mut self.bytes, self.state)?;
        self.state = ScanState::fresh(byte);
        self.spelled = History::new().and(&byte);
        if is_blank(byte) || byte == b';' {
            return Ok(Cut::of(first, None));
        }
        if limit == 0 {
            return Ok(Cut::TooLong);
        }
        self.bytes.push(byte)?;
        let second = take_ended(alloc, &mut self.bytes, self.state)?;
        Ok(Cut::of(first, second))
    }

    /// The open item, as if the script ended here, or none. Afterwards it is as before the first byte.
    pub(crate) fn finish(&mut self, alloc: Global) -> Result<Option<Item>, NoMemory>
        requires { IsKept self.old }
        ensures item { IfOk result
            (λ item. item_readings item ≡ opened_readings self.old.spelled.items) }
        ensures kept { OnOk result (IsKept self.new) }
        ensures spelled { OnOk result (self.new.spelled.items ≡ []) }
    {
        let item = take_open(alloc, &mut self.bytes, self.state)?;
        self.state = ScanState::START;
        self.spelled = History::new();
        Ok(item)
    }
}

/// The item of these bytes, if it has ended with the last of them. Then the bytes are let go.
fn take_ended(
    alloc: Global,
    bytes: &mut ItemBytes,
    state: ScanState,
) -> Result<Option<Item>, NoMemory>
    requires { IsStateIn bytes.old state.mode state.depth }
    ensures item { IfOk result (λ item. item_readings item ≡ ended_readings bytes.old) }
    ensures bytes { OnOk result (bytes.new ≡ open_bytes bytes.old) }
{
    if state.is_open() {
        return Ok(None);
    }
    let item = read_part(alloc, bytes.as_slice())?;
    bytes.clear();
    Ok(item)
}

/// The item of these bytes, if one is open at their end. Then the bytes are let go.
fn take_open(
    alloc: Global,
    bytes: &mut ItemBytes,
    state: ScanState,
) -> Result<Option<Item>, NoMemory>
    requires { (nat_lt 0 state.depth || mode_is_open state.mode) ≡ true
        → IsStateIn bytes.old state.mode state.depth }
    ensures item { IfOk result (λ item. item_readings item
        ≡ (if nat_lt 0 state.depth || mode_is_open state.mode then readings_of bytes.old else [])) }
    ensures bytes { OnOk result (bytes.new ≡ []) }
{
    let item = if !state.is_open() {
        None
    } else if state.depth > 0 {
        Some(Item::Bad(Fault::FormNotClosed))
    } else {
        read_part(alloc, bytes.as_slice())?
    };
    bytes.clear();
    Ok(item)
}

/// The mode of a blank, or of a comment that the byte begins; `None` of any other byte.
fn gap_mode(byte: u8) -> Option<LexMode>
    ensures { IfSome result (λ mode. (is_gap (byte ∷ []) ≡ true) × (mode ≡ fresh_mode byte)) }
{
    if is_blank(byte) {
        Some(LexMode::Ended)
    } else if byte == b';' {
        Some(LexMode::Comment)
    } else {
        None
    }
}

/// These bytes, with a run of bytes after them.
pub(crate) fn with_run(before: &History<u8>, run: &[u8]) -> History<u8>
    ensures { result.items ≡ before.now.items ++ run.now }
{
    let mut all = before.again();
    for byte in run {
        all = all.and(byte);
    }
    all
}
