//! Where faults arose, as the program says it.
use cb_command_line::{Report, places_line, run};
use cb_forms::{MemSink, MemSource, NoMemory, Out};
use cb_session::Limits;
use std::alloc::Global;

/// A script, and what is said of its faults and its limit.
struct Placed {
    script: &'static [u8],
    line: &'static [u8],
}

const PLACED: [Placed; 12] = [
    Placed {
        script: b"(+ 1 2)\n(assert (a))",
        line: b"",
    },
    Placed {
        script: b"\n(bogus)",
        line: b"clipsbatch: 1 fault: line 2",
    },
    // The line is that on which the item begins.
    Placed {
        script: b"(bogus\n1\n2) (+ 1 a)\n)",
        line: b"clipsbatch: 3 faults: line 1, line 3, line 4",
    },
    // Two items end with one byte, and the last one at the end of the script.
    Placed {
        script: b"\n0.5)\n;\n\"\n",
        line: b"clipsbatch: 3 faults: line 2, line 2, line 4",
    },
    // The item is the run.
    Placed {
        script: b"(defrule r (a)\n=>\n(+ 1 a))\n(assert (a))\n(run)",
        line: b"clipsbatch: 1 fault: line 5 in rule r",
    },
    // The fault of the run's own argument is in no rule.
    Placed {
        script: b"(defrule r (a) => (+ 1 a))\n(assert (a))\n(run a)",
        line: b"clipsbatch: 1 fault: line 3",
    },
    Placed {
        script: b"(b)\n(b)\n(b)\n(b)\n(b)\n(b)\n(b)\n(b)",
        line: b"clipsbatch: 8 faults: line 1, line 2, line 3, line 4, line 5, line 6, line 7, line 8",
    },
    Placed {
        script: b"(b) (b) (b) (b)\n(b) (b) (b) (b) (b)",
        line: b"clipsbatch: 9 faults: line 1, line 1, line 1, line 1, line 2, line 2, line 2, line 2, ..",
    },
    Placed {
        script: b"\n(while TRUE do)\n(b)",
        line: b"clipsbatch: limit at line 2",
    },
    Placed {
        script: b"(b)\n(print \"an item of more than sixty bytes, which is too long\"\n)",
        line: b"clipsbatch: 1 fault: line 1; limit at line 2",
    },
    // After the end of the script nothing counts.
    Placed {
        script: b"(b)\n(exit 3)\n(b)",
        line: b"clipsbatch: 1 fault: line 1",
    },
    // A carriage return begins no line.
    Placed {
        script: b"\r(b)\r\n(b)\r\n",
        line: b"clipsbatch: 2 faults: line 1, line 2",
    },
];

/// A run over the script.
fn report_of(alloc: Global, script: &[u8]) -> Result<Report, NoMemory> {
    let mut out = Out::new(MemSink::new(alloc, 1000, 1000, None)?);
    let mut source = MemSource::new(script, 7, None);
    let limits = Limits {
        max_form: 60,
        max_firings: 1,
        max_turns: 2,
    };
    Ok(run(alloc, &mut source, &mut out, limits))
}

/// Whether this is said of the script.
fn is_said(alloc: Global, row: &Placed) -> Result<bool, NoMemory> {
    let report = report_of(alloc, row.script)?;
    let line = places_line(alloc, &report.places)?;
    Ok(line.as_slice() == row.line)
}

/// What should be said of the first script of which something else is said.
fn first_unsaid(alloc: Global) -> Result<Option<&'static [u8]>, NoMemory> {
    for row in &PLACED {
        if !is_said(alloc, row)? {
            return Ok(Some(row.line));
        }
    }
    Ok(None)
}

#[test]
fn places_are_said(rt: HostRuntime) -> Result<(), NoMemory> {
    assert!(rt; first_unsaid(rt.alloc())?.is_none());
    Ok(())
}
