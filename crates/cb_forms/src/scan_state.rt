//! The state of the scan after a byte of a script.
ghost use Rattle.std.specs.Prelude.{◌≡◌, ◌<◌, ◌≤◌, ◌+◌, ◌||◌, ◌&&◌, true, nat_lt, is_ok, length, take};
ghost use Rattle.cb_forms.specs.Internal.ScanStates.{IsOpenStep, StaysOpen, mode_takes, fresh_mode, next_mode, mode_is_open};
ghost use Rattle.cb_forms.specs.Internal.ScanStates.{next_depth, fresh_depth};

use crate::byte_kinds::{is_blank, is_line_end};
use crate::lex_mode::LexMode;

/// The state after the last byte of a part, a part being an item, or a blank or comment between items.
#[derive(Clone, Copy)]
pub(crate) struct ScanState {
    /// What the last piece waits for.
    pub(crate) mode: LexMode,
    /// How many lists are open.
    pub(crate) depth: usize,
}

impl ScanState {
    /// The state before the first byte.
    pub(crate) const START: ScanState = ScanState {
        mode: LexMode::Ended,
        depth: 0,
    };

    /// The state in a part that the byte begins.
    pub(crate) fn fresh(byte: u8) -> ScanState
        ensures mode { result.mode ≡ fresh_mode byte }
        ensures depth { result.depth ≡ fresh_depth byte }
    {
        ScanState {
            mode: LexMode::fresh(byte),
            depth: if byte == b'(' { 1 } else { 0 },
        }
    }

    /// Whether the part goes on with the byte.
    pub(crate) fn takes(self, byte: u8) -> bool
        ensures { result ≡ (nat_lt 0 self.depth || mode_takes self.mode byte) }
    {
        self.depth > 0 || self.mode.takes(byte)
    }

    /// The state after one more byte of the part.
    pub(crate) fn after(self, byte: u8) -> ScanState
        requires { self.depth < usize.MAX }
        ensures mode { result.mode ≡ next_mode self.mode byte }
        ensures depth { result.depth ≡ next_depth self.mode self.depth byte }
    {
        let depth = match byte {
            _ if self.mode.takes(byte) => self.depth,
            b'(' => self.depth + 1,
            b')' => self.depth.saturating_sub(1),
            _ => self.depth,
        };
        ScanState {
            mode: self.mode.after(byte),
            depth,
        }
    }

    /// Whether the byte plainly leaves an item that is open here as it is: open, and in this state.
    fn stays(self, byte: u8) -> bool
        ensures { result ≡ true → IsOpenStep self.mode self.depth byte self.mode self.depth }
    {
        match self.mode {
            LexMode::Ended => self.depth > 0 && is_blank(byte),
            LexMode::Comment => self.depth > 0 && !is_line_end(byte),
            mode => mode.stays(byte),
        }
    }

    /// How many of the first of these bytes plainly leave an item that is open here as it is.
    fn still_run(self, bytes: &[u8]) -> usize
        ensures within { result ≤ length bytes.now }
        ensures stays { StaysOpen self.mode self.depth (take result bytes.now)
            self.mode self.depth }
    {
        let mut end = 0;
        while end < bytes.len() && self.stays(bytes[end]) {
            end += 1;
        }
        end
    }

    /// How many of the first of these bytes an item that is open here goes on with and stays open, and the state after
    /// the last of them.
    pub(crate) fn open_run(self, bytes: &[u8]) -> (usize, ScanState)
        requires { self.depth + length bytes.now ≤ usize.MAX }
        ensures within { result.0 ≤ length bytes.now }
        ensures stays { StaysOpen self.mode self.depth (take result.0 bytes.now)
            result.1.mode result.1.depth }
    {
        let mut state = self;
        let mut end = 0;
        while end < bytes.len() {
            let (_, rest) = bytes.split_at(end);
            end += state.still_run(rest);
            if end == bytes.len() || !state.takes(bytes[end]) {
                break;
            }
            let next = state.after(bytes[end]);
            if !next.is_open() {
                break;
            }
            state = next;
            end += 1;
        }
        (end, state)
    }

    /// Whether an item is open here.
    pub(crate) fn is_open(self) -> bool
        ensures { result ≡ (nat_lt 0 self.depth || mode_is_open self.mode) }
    {
        self.depth > 0 || self.mode.is_open()
    }
}
