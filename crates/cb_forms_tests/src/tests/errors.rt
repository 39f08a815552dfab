//! The errors of bytes: how they read, and that a refused growth becomes one. And that a history takes no bytes.
use cb_io::{History, NoMemory, ReadFault, WriteFault};
use std::alloc::{AllocError, Global};

fn told(alloc: Global) -> Result<String, NoMemory> {
    Ok(format!(in alloc; "{NoMemory}, {ReadFault}, {WriteFault}")?)
}

#[test]
fn reads_errors(rt: HostRuntime) -> Result<(), NoMemory> {
    assert_eq!(rt;
        told(rt.alloc())?.as_str(),
        "out of memory, read failed, write failed"
    );
    Ok(())
}

fn refused() -> Result<(), NoMemory> {
    Err(AllocError)?;
    Ok(())
}

#[test]
fn a_refusal_becomes_an_error(rt: HostRuntime) {
    assert!(rt; refused() == Err(NoMemory));
}

#[test]
fn a_trace_takes_no_bytes(rt: HostRuntime) {
    let told = History::new().and(&7u64).again();
    assert_eq!(rt; std::mem::size_of_val(&told), 0);
}
