//! Bytes and texts put into the output.
ghost use Rattle.std.specs.Prelude.{◌≡◌, IfOk, List, ℕ, false};
ghost use Rattle.cb_io.specs.Output.{Puts, stop_extent};

use crate::no_memory::NoMemory;
use crate::output::Out;
use crate::sink::Sink;
use crate::stop::Stop;

/// Puts bytes.
pub fn put<K: Sink>(bytes: &[u8], out: &mut Out<K>) -> Result<(), Stop>
    requires { out.old.fault ≡ false }
    ensures { Puts K.writes out.old out.new (stop_extent result) bytes.now }
{
    match out.put(bytes) {
        Ok(()) => Ok(()),
        Err(_) => Err(Stop::WriteFault),
    }
}

/// Puts a text, if there was memory for it.
pub fn put_text<K: Sink>(text: Result<Vec<u8>, NoMemory>, out: &mut Out<K>) -> Result<(), Stop>
    requires { out.old.fault ≡ false }
    ensures { (bytes : List ℕ) → IfOk text (λ t. t.items ≡ bytes)
        → Puts K.writes out.old out.new (stop_extent result) bytes }
{
    match text {
        Ok(text) => put(text.as_slice(), out),
        Err(_) => Err(Stop::NoMemory),
    }
}
