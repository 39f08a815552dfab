//! The one place where output goes through.
ghost use Rattle.std.specs.Prelude.{◌≡◌, ◌<◌, ◌≤◌, ◌+◌, ◌++◌, [], take, length, true, false, IsErr, OnOk, OnErr};
ghost use Rattle.cb_io.specs.Output.{PassedSome, Puts, write_extent};

use crate::sink::{Sink, WriteFault};
use std::marker::Model;

/// How many bytes wait at most.
const BLOCK: usize = 4096;

/// Passes bytes on to a sink in order, and after a write has failed, writes nothing more.
///
/// What was put may wait until a later `put` or a `flush` writes it: those bytes are pending, 4096 at
/// most. No call takes memory.
#[derive(Drop)]
pub struct Out<K: Sink> {
    sink: K,
    block: [u8; BLOCK],
    used: usize,
    fault: bool,
}

impl<K: Sink> Model for Out<K> {
    ghost use Rattle.std.specs.Prelude.{◌≤◌, take};
    ghost use Rattle.cb_io.specs.Output.{OutState};
    ghost use Rattle.cb_io.specs.Internal.{out_state_code};

    ghost Value = { OutState K };

    ghost coded = { out_state_code K.code };

    ghost view = { λ o. record { sink = o.sink; pending = take o.used o.block; fault = o.fault } };

    ghost invariant = { λ o. o.used ≤ 4096 };
}

impl<K: Sink> Out<K> {
    /// Writes to this sink. Nothing is pending, and no `WriteFault` was returned.
    pub fn new(sink: K) -> Out<K>
        ensures { result ≡ record { sink = sink; pending = []; fault = false } }
    {
        Out {
            sink,
            block: [0; BLOCK],
            used: 0,
            fault: false,
        }
    }

    /// The sink as it is now, without the bytes that are pending.
    pub fn sink(&self) -> &K
        ensures { result.now ≡ self.now.sink }
    {
        &self.sink
    }

    /// Puts all of these bytes after those that are pending, and writes some beginning of the whole,
    /// which may be all of it or nothing.
    ///
    /// A `WriteFault` comes where the sink failed during this call, and at each call after one that
    /// returned it. The sink then has a beginning of what was put, and gets no byte more.
    pub fn put(&mut self, bytes: &[u8]) -> Result<(), WriteFault>
        ensures puts { self.old.fault ≡ false
            → Puts K.writes self.old self.new (write_extent result) bytes.now }
        ensures err_after { OnErr result (self.new.fault ≡ true) }

        // After a `WriteFault`.
        ensures stuck { self.old.fault ≡ true → IsErr result }
        ensures still { self.old.fault ≡ true → self.new ≡ self.old }

        // However it went.
        ensures within { length self.new.pending ≤ 4096 }
    {
        check(self.fault)?;
        if bytes.len() <= BLOCK - self.used {
            keep(&mut self.block, self.used, bytes);
            self.used += bytes.len();
            return Ok(());
        }
        self.fault = true;
        write_all(&mut self.sink, &self.block[..self.used])?;
        self.used = 0;
        write_all(&mut self.sink, bytes)?;
        self.fault = false;
        Ok(())
    }

    /// Writes all that is pending.
    ///
    /// A `WriteFault` comes where the sink failed during this call, and at each call after one that
    /// returned it. The sink then has a beginning of what was put, and gets no byte more.
    pub fn flush(&mut self) -> Result<(), WriteFault>
        ensures puts { self.old.fault ≡ false
            → Puts K.writes self.old self.new (write_extent result) [] }
        ensures ok_pending { OnOk result (self.new.pending ≡ []) }
        ensures err_after { OnErr result (self.new.fault ≡ true) }

        // After a `WriteFault`.
        ensures stuck { self.old.fault ≡ true → IsErr result }
        ensures still { self.old.fault ≡ true → self.new ≡ self.old }

        // However it went.
        ensures within { length self.new.pending ≤ 4096 }
    {
        check(self.fault)?;
        self.fault = true;
        let pending = &self.block[..self.used];
        write_all(&mut self.sink, pending)?;
        self.used = 0;
        self.fault = false;
        Ok(())
    }
}

/// Puts these bytes after the first `used` ones of the block.
fn keep(block: &mut [u8; BLOCK], used: usize, bytes: &[u8])
    requires { used + length bytes.now ≤ 4096 }
    ensures { take (used + length bytes.now) block.new ≡ take used block.old ++ bytes.now }
{
    block[used..used + bytes.len()].copy_from_slice(bytes);
}

/// Returns `WriteFault` again if it was returned before.
fn check(fault: bool) -> Result<(), WriteFault>
    ensures ok { OnOk result (fault ≡ false) }
    ensures err { OnErr result (fault ≡ true) }
{
    if fault {
        return Err(WriteFault);
    }
    Ok(())
}

/// Writes all of the slice; where the sink fails, a beginning of it was written.
fn write_all<K: Sink>(sink: &mut K, bytes: &[u8]) -> Result<(), WriteFault>
    ensures ok { OnOk result ((K.writes sink.new).bytes ≡ (K.writes sink.old).bytes ++ bytes.now) }
    ensures counts { OnOk result ((K.writes sink.new).failures ≡ (K.writes sink.old).failures) }
    ensures err { OnErr result
        (PassedSome (K.writes sink.old).bytes (K.writes sink.new).bytes bytes.now) }
    ensures err_counts { OnErr result
        ((K.writes sink.old).failures < (K.writes sink.new).failures) }
{
    let mut done = 0;
    while done < bytes.len() {
        let n = sink.write(&bytes[done..])?;
        if n == 0 {
            return Err(WriteFault);
        }
        done += n;
    }
    Ok(())
}
