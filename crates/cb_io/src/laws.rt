//! Laws of calls that put bytes, one after another. Each is the contract of a function that does nothing.
ghost use Rattle.std.specs.Prelude.{◌≡◌, ℕ, false, List, [], ◌++◌};
ghost use Rattle.cb_io.specs.Output.{OutState, Extent, all_put, out_of_memory, write_failed, Puts};

use crate::sink::Sink;

/// To leave the output as it is, where no `WriteFault` was returned, is to put all of no bytes. Of two calls, the first of which put
/// all of its bytes, the bytes are to be put one after the other, and together they come as far as the second.
pub fn calls_put_one_after_another<K: Sink>()
    ensures nothing { (o : OutState K) → o.fault ≡ false → Puts K.writes o o all_put [] }
    ensures two { (o o1 o2 : OutState K) (e : Extent) (w v : List ℕ)
        → Puts K.writes o o1 all_put w → Puts K.writes o1 o2 e v
        → Puts K.writes o o2 e (w ++ v) }
{}

/// A call that breaks off promises only that a beginning of its bytes was put. So what it put counts as well for a call that
/// was to put more bytes after these: where all of them were put, none, or those up to a refusal of memory or a failed write.
pub fn what_breaks_off_may_have_been_longer<K: Sink>()
    ensures all { (o o1 : OutState K) (w v : List ℕ)
        → Puts K.writes o o1 all_put w → Puts K.writes o o1 out_of_memory (w ++ v) }
    ensures none { (o : OutState K) (v : List ℕ)
        → o.fault ≡ false → Puts K.writes o o out_of_memory v }
    ensures refused { (o o1 : OutState K) (w v : List ℕ)
        → Puts K.writes o o1 out_of_memory w → Puts K.writes o o1 out_of_memory (w ++ v) }
    ensures failed { (o o1 : OutState K) (w v : List ℕ)
        → Puts K.writes o o1 write_failed w → Puts K.writes o o1 write_failed (w ++ v) }
{}

/// What was put before memory was refused may be written later: that puts no more bytes, and if a write fails then, the
/// whole ends so.
pub fn what_was_put_is_written_later<K: Sink>()
    ensures written { (o o1 o2 : OutState K) (w : List ℕ)
        → Puts K.writes o o1 out_of_memory w → Puts K.writes o1 o2 all_put []
        → Puts K.writes o o2 out_of_memory w }
    ensures failed { (o o1 o2 : OutState K) (w : List ℕ)
        → Puts K.writes o o1 out_of_memory w → Puts K.writes o1 o2 write_failed []
        → Puts K.writes o o2 write_failed w }
{}

/// Where no write failed, no `WriteFault` was returned, and more may be put.
pub fn without_a_failed_write_there_is_no_fault<K: Sink>()
    ensures all { (o o1 : OutState K) (w : List ℕ)
        → Puts K.writes o o1 all_put w → o1.fault ≡ false }
    ensures part { (o o1 : OutState K) (w : List ℕ)
        → Puts K.writes o o1 out_of_memory w → o1.fault ≡ false }
{}
