//! The lines of totals.
ghost use Rattle.std.specs.Prelude.{◌≡◌, ◌++◌, OnOk};
ghost use Rattle.cb_lines.specs.Lines.{noun_for, total_line, total_text};

use cb_forms::NoMemory;
use itoa::Buffer;

/// What is counted.
#[derive(Clone, Copy, Debug, PartialEq, Eq)]
pub enum Noun {
    /// Facts.
    Fact,
    /// Activations.
    Activation,
    /// Rules.
    Defrule,
}

/// Adds the line that says how many there are; none have no line. Growth is refused as `NoMemory`.
pub fn add_total_line(lines: &mut Vec<u8>, count: usize, noun: Noun) -> Result<(), NoMemory>
    ensures { OnOk result (lines.new.items ≡ lines.old.items ++ total_line count noun) }
{
    if count == 0 {
        return Ok(());
    }
    add_total(lines, count, noun)
}

fn add_total(lines: &mut Vec<u8>, count: usize, noun: Noun) -> Result<(), NoMemory>
    ensures { OnOk result (lines.new.items ≡ lines.old.items ++ total_text count noun) }
{
    let mut buffer = Buffer::new();
    lines.extend_from_slice(b"For a total of ")?;
    lines.extend_from_slice(buffer.format(count).as_bytes())?;
    lines.extend_from_slice(noun_for(count, noun))?;
    Ok(())
}

/// What follows the number.
fn noun_for(count: usize, noun: Noun) -> &'static [u8]
    ensures { result.now ≡ noun_for count noun }
{
    match noun {
        Noun::Fact => if count == 1 {
            b" fact.\n"
        } else {
            b" facts.\n"
        },
        Noun::Activation => if count == 1 {
            b" activation.\n"
        } else {
            b" activations.\n"
        },
        Noun::Defrule => if count == 1 {
            b" defrule.\n"
        } else {
            b" defrules.\n"
        },
    }
}
