//! Marks of variables: one of 64 bits by its name, by which a variable that a list doesn't give is mostly seen at once.
ghost use Rattle.std.specs.Prelude.{◌≡◌, ◌≢◌, ◌<◌, ◌↔◌, ℕ, IsTrue};
ghost use Rattle.std.specs.Int.{bit_at};
ghost use Rattle.cb_beta.specs.Marks.{AreMarked};
ghost use Rattle.cb_facts.specs.NameMarks.{mark_of};

use cb_facts::Name;
use cb_fit::JoinField;
use std::marker::Model;

/// A variable that is looked for, and its mark. Contracts see its name.
#[derive(Drop)]
pub struct Sought<'a> {
    name: &'a Name,
    mark: u32,
}

impl<'a> Model for Sought<'a> {
    ghost use Rattle.std.specs.Prelude.{◌≡◌, List, ℕ};
    ghost use Rattle.cb_facts.specs.NameMarks.{mark_of};

    ghost Value = { List ℕ };

    ghost view = { λ s. s.name.now };

    ghost invariant = { λ s. s.mark ≡ mark_of s.name.now };
}

impl<'a> Sought<'a> {
    /// The variable with this name.
    pub fn new(name: &'a Name) -> Sought<'a>
        ensures { result ≡ name.now }
    {
        Sought {
            name,
            mark: name.mark(),
        }
    }

    /// Its name.
    pub fn name(&self) -> &'a Name
        ensures { result.now ≡ self.now }
    {
        self.name
    }

    /// Whether its mark is among these.
    pub(crate) fn is_marked(&self, marks: u64) -> bool
        ensures { IsTrue result ↔ (bit_at marks (mark_of self.now) ≡ 1) }
    {
        has_mark(marks, self.mark)
    }
}

/// These marks and one more.
fn with_mark(marks: u64, mark: u32) -> u64
    requires { mark < 64 }
    ensures set { bit_at result mark ≡ 1 }
    ensures others { (i : ℕ) → i ≢ mark → bit_at result i ≡ bit_at marks i }
{
    marks | (1 << mark)
}

/// Whether a mark is among these.
fn has_mark(marks: u64, mark: u32) -> bool
    requires { mark < 64 }
    ensures { IsTrue result ↔ (bit_at marks mark ≡ 1) }
{
    marks & (1 << mark) != 0
}

/// The marks of the variables of these fields.
pub(crate) fn marks_of(fields: &[JoinField]) -> u64
    ensures { AreMarked result fields.now }
{
    let mut marks = 0;
    for field in fields {
        marks = with_mark(marks, field.variable.mark());
    }
    marks
}
