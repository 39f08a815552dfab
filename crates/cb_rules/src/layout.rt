//! Layouts of branches.
ghost use Rattle.std.specs.Prelude.{◌≡◌};

use std::marker::Model;

/// Of each pattern and each group of a branch, from left to right, whether it is a pattern. Tests have no place in it.
///
/// Contracts see the list.
#[derive(Drop)]
pub struct Layout {
    members: Vec<bool>,
}

impl Model for Layout {
    ghost use Rattle.std.specs.Prelude.{Bool, List};

    ghost Value = { List Bool };

    ghost view = { λ l. l.members.items };
}

impl Layout {
    /// The layout of these members.
    pub fn new(members: Vec<bool>) -> Layout
        ensures { result ≡ members.items }
    {
        Layout { members }
    }

    /// Its members.
    pub fn members(&self) -> &[bool]
        ensures { result.now ≡ self.now }
    {
        self.members.as_slice()
    }
}
