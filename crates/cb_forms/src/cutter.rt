//! Cutting a script into items while its bytes come.
ghost use Rattle.std.specs.Prelude.{◌≡◌, ◌≤◌, ◌<◌, ◌+◌, ◌-◌, ◌^◌, List, [], ◌∷◌, ◌++◌, true, false, None, Ok, IfOk, OnOk, OnErr, IsErr, length, take};
ghost use Rattle.cb_forms.specs.Cuts.{item_readings, cut_items, is_too_long};
ghost use Rattle.cb_forms.specs.Cutter.{readings_in};
ghost use Rattle.cb_forms.specs.Internal.{line_with};
ghost use Rattle.cb_forms.specs.Items.{items, whole, rest, over};
ghost use Rattle.cb_forms.specs.Lines.{line_feeds, open_line};

use crate::cut::Cut;
use crate::form::Item;
use crate::item_bytes::{ItemBytes, count_line_feeds};
use crate::open_part::{OpenPart, with_run};
use cb_io::{History, NoMemory};
use std::alloc::Global;
use std::marker::Model;

/// Cuts a script into items, byte by byte or by runs of bytes (`docs/LANGUAGE.md`, "Items").
///
/// It keeps the bytes of the item that is open, at most the limit, and nothing else of the script. How the bytes are
/// cut into blocks doesn't matter, since contracts speak of all bytes stepped. A byte costs constant time, spread over
/// the item that it belongs to.
///
/// Contracts see its limit, the bytes stepped and the items given since it was new or since its last `end`, and whether
/// it has failed.
#[derive(Drop)]
pub struct Cutter {
    alloc: Global,
    limit: usize,
    part: OpenPart,
    over: bool,
    /// That of the open item, or of the next byte; after a `TooLong` it stays.
    line: u64,
    failed: bool,
    stepped: History<u8>,
    given: History<Item>,
}

impl Model for Cutter {
    ghost use Rattle.std.specs.Prelude.{◌≡◌, false};
    ghost use Rattle.std.specs.Coded.{codes};
    ghost use Rattle.cb_forms.specs.Cutter.{Progress, readings_in};
    ghost use Rattle.cb_forms.specs.Internal.{IsInStep};
    ghost use Rattle.cb_forms.specs.contracts.form.Item as item;

    ghost Value = { Progress };

    ghost coded = { Prim.hlevel (codes, item.the_row.coded) };

    ghost view = { λ c. record { limit = c.limit; stepped = c.stepped.items; given = c.given.items; failed = c.failed } };

    ghost invariant = { λ c. c.failed ≡ false → IsInStep c.limit c.stepped.items (readings_in c.given.items) c.part c.over c.line };
}

impl Cutter {
    ghost use Rattle.cb_forms.specs.Cutter.{fresh_progress};

    /// A cutter that takes items of at most `limit` bytes, from an item's first byte to its last, blanks and comments
    /// between them included. With a limit of 0 every item is too long.
    pub fn new(alloc: Global, limit: usize) -> Cutter
        ensures { result ≡ fresh_progress limit }
    {
        Cutter {
            alloc,
            limit,
            part: OpenPart::new(alloc),
            over: false,
            line: 1,
            failed: false,
            stepped: History::new(),
            given: History::new(),
        }
    }

    /// Takes the next byte, and gives the items that end with it or before it.
    ///
    /// `TooLong` comes from the first byte on with which an item has more bytes than the limit; then the cutter stops,
    /// and every later step returns it too. Growth is refused as `NoMemory`, and then so is every later call.
    pub fn step(&mut self, byte: u8) -> Result<Cut, NoMemory>
        ensures limit { self.new.limit ≡ self.old.limit }
        ensures stepped { OnOk result (self.new.stepped ≡ self.old.stepped ++ byte ∷ []) }
        ensures given { IfOk result (λ cut. self.new.given ≡ self.old.given ++ cut_items cut) }
        // The items given are those that have ended in the bytes stepped.
        ensures items { OnOk result (over self.new.limit self.new.stepped ≡ false
            → readings_in self.new.given ≡ whole self.new.stepped) }
        ensures too_long { IfOk result
            (λ cut. is_too_long cut ≡ over self.new.limit self.new.stepped) }
        ensures ok { OnOk result (self.new.failed ≡ false) }
        ensures err { OnErr result (self.new.failed ≡ true) }
        ensures once { self.old.failed ≡ true → IsErr result }
    {
        if self.failed {
            return Err(NoMemory);
        }
        if self.over {
            self.stepped = self.stepped.and(&byte);
            return Ok(Cut::TooLong);
        }
        self.failed = true;
        let inside = self.part.bytes.line_feeds();
        let cut = self.part.step(self.alloc, self.limit, byte)?;
        self.over = cut.is_too_long();
        self.line = line_past(self.line, inside, &[byte], &self.part.bytes);
        self.stepped = self.stepped.and(&byte);
        self.given = noted(&self.given, &cut);
        self.failed = false;
        Ok(cut)
    }

    /// Takes the longest beginning of these bytes that plainly completes nothing, and says how many bytes that is: then
    /// `step` takes the next one. In a list that stays open it is every byte up to the limit; outside lists it is blanks,
    /// comments, and the inside of a word or a string. A byte costs a few instructions.
    ///
    /// Growth is refused as `NoMemory`, and then so is every later call.
    pub fn step_run(&mut self, bytes: &[u8]) -> Result<usize, NoMemory>
        ensures limit { self.new.limit ≡ self.old.limit }
        ensures within { IfOk result (λ n. n ≤ length bytes.now) }
        ensures stepped { IfOk result
            (λ n. self.new.stepped ≡ self.old.stepped ++ take n bytes.now) }
        ensures given { OnOk result (self.new.given ≡ self.old.given) }
        // Nothing has ended in the run.
        ensures items { IfOk result
            (λ n. 0 < n → readings_in self.new.given ≡ whole self.new.stepped) }
        ensures fits { IfOk result (λ n. 0 < n → over self.new.limit self.new.stepped ≡ false) }
        ensures untouched { result ≡ Ok 0 → self.new ≡ self.old }
        ensures ok { OnOk result (self.new.failed ≡ false) }
        ensures err { OnErr result (self.new.failed ≡ true) }
        ensures once { self.old.failed ≡ true → IsErr result }
    {
        if self.failed {
            return Err(NoMemory);
        }
        if self.over {
            return Ok(0);
        }
        self.failed = true;
        let inside = self.part.bytes.line_feeds();
        let taken = self.part.step_run(self.limit, bytes)?;
        let (run, _) = bytes.split_at(taken);
        self.line = line_past(self.line, inside, run, &self.part.bytes);
        self.stepped = with_run(&self.stepped, run);
        self.failed = false;
        Ok(taken)
    }

    /// Ends the text: gives the item that is open there, if there is one. Then the cutter is as new, but after a
    /// `TooLong`, when this gives nothing and changes nothing. Growth is refused as `NoMemory`, and then so is every
    /// later call.
    pub fn end(&mut self) -> Result<Option<Item>, NoMemory>
        // With the item that is open at the end, the items given are those of the text.
        ensures items { IfOk result (λ item. over self.old.limit self.old.stepped ≡ false
            → readings_in self.old.given ++ item_readings item ≡ items self.old.stepped) }
        ensures fresh { OnOk result (over self.old.limit self.old.stepped ≡ false
            → self.new ≡ fresh_progress self.old.limit) }
        ensures too_long { IfOk result
            (λ item. over self.old.limit self.old.stepped ≡ true → item ≡ None) }
        ensures still { OnOk result (over self.old.limit self.old.stepped ≡ true
            → self.new ≡ self.old) }
        ensures ok { OnOk result (self.new.failed ≡ false) }
        ensures err { OnErr result (self.new.failed ≡ true) }
        ensures once { self.old.failed ≡ true → IsErr result }
    {
        if self.failed {
            return Err(NoMemory);
        }
        if self.over {
            return Ok(None);
        }
        self.failed = true;
        let item = self.part.finish(self.alloc)?;
        self.stepped = History::new();
        self.given = History::new();
        self.line = 1;
        self.failed = false;
        Ok(item)
    }

    /// The bytes of the item that is open, at most the limit; none after a `TooLong`. After a `NoMemory` they may be
    /// any.
    pub fn held(&self) -> &[u8]
        ensures rest { self.now.failed ≡ false → over self.now.limit self.now.stepped ≡ false
            → result.now ≡ rest self.now.stepped }
        ensures too_long { self.now.failed ≡ false → over self.now.limit self.now.stepped ≡ true
            → result.now ≡ [] }
        ensures within { self.now.failed ≡ false → length result.now ≤ self.now.limit }
    {
        self.part.bytes.as_slice()
    }

    /// The line on which the item that is open begins; where none is open, that of the next byte. Lines are counted by
    /// line feeds, from 1 to 2^64 - 1. Just before `step` takes a byte it is the line of each item that the byte completes,
    /// and of one that it makes too long. After a `TooLong` or a `NoMemory` it may be any.
    pub fn line(&self) -> u64
        ensures { self.now.failed ≡ false → over self.now.limit self.now.stepped ≡ false
            → result ≡ open_line self.now.stepped }
    {
        self.line
    }

    /// Whether a call has returned `NoMemory`.
    pub fn failed(&self) -> bool
        ensures { result ≡ self.now.failed }
    {
        self.failed
    }
}

/// The line of the open item, or of the next byte, after a run of bytes: `line` was it before, when so many line feeds
/// were inside the open item, and this is the open item now.
fn line_past(line: u64, inside: usize, run: &[u8], item: &ItemBytes) -> u64
    requires { inside < 2 ^ 63 }
    ensures { result ≡ line_with line (inside + line_feeds run.now - line_feeds item.now) }
{
    let passed = (inside + count_line_feeds(run)).saturating_sub(item.line_feeds());
    line.saturating_add(passed as u64)
}

/// The items given, with those of one more step.
fn noted(given: &History<Item>, cut: &Cut) -> History<Item>
    ensures { result.items ≡ given.now.items ++ cut_items cut.now }
{
    match cut {
        Cut::More | Cut::TooLong => given.again(),
        Cut::Item(item) => given.and(item),
        Cut::TwoItems(first, second) => given.and(first).and(second),
    }
}
