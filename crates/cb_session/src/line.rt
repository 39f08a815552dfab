//! The lines of faults, of values and of limits.
ghost use Rattle.std.specs.Prelude.{◌≡◌, ◌++◌, IfOk, codes, false};
ghost use Rattle.cb_io.specs.Output.{Puts, stop_extent};
ghost use Rattle.cb_session.specs.Lines.{fault_line, limit_line, too_long_line, value_line};

use cb_actions::Limit;
use cb_facts::{Value, quoted_text};
use cb_forms::{Fault, NoMemory, Out, Sink};
use cb_io::{Stop, put};
use std::alloc::Global;

/// The line of a fault. Growth is refused as `NoMemory`, here and below.
pub(crate) fn fault_line(alloc: Global, fault: Fault) -> Result<Vec<u8>, NoMemory>
    ensures { IfOk result (λ line. line.items ≡ fault_line fault) }
{
    let mut line = Vec::new(alloc);
    let number = fault.number();
    line.extend_from_slice(b"[CB")?;
    line.push(b'0' + number / 10)?;
    line.push(b'0' + number % 10)?;
    line.extend_from_slice(b"] ")?;
    line.extend_from_slice(fault.text().as_bytes())?;
    line.push(b'\n')?;
    Ok(line)
}

/// The line of the limit of an item's bytes: an item is too long.
pub(crate) fn too_long_line() -> &'static [u8]
    ensures { result.now ≡ too_long_line }
{
    b"[CB91] form too long\n"
}

/// The line of another limit.
pub(crate) fn limit_line(limit: Limit) -> &'static [u8]
    ensures { result.now ≡ limit_line limit }
{
    match limit {
        Limit::Numbers => b"[CB94] numbers exhausted\n",
        Limit::Firings => b"[CB92] firing limit reached\n",
        Limit::Turns => b"[CB93] loop limit reached\n",
    }
}

/// The line of a value that is shown.
pub(crate) fn value_line(alloc: Global, value: &Value) -> Result<Vec<u8>, NoMemory>
    ensures { IfOk result (λ line. line.items ≡ value_line value.now) }
{
    let mut line = quoted_text(alloc, value)?;
    line.push(b'\n')?;
    Ok(line)
}

/// Puts a text that is there on a line. It takes no memory.
pub(crate) fn put_line<K: Sink>(text: &[u8], out: &mut Out<K>) -> Result<(), Stop>
    requires { out.old.fault ≡ false }
    ensures { Puts K.writes out.old out.new (stop_extent result) (text.now ++ codes "\n") }
{
    put(text, out)?;
    put(b"\n", out)
}
