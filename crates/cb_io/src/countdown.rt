//! Which call is to fail.
ghost use Rattle.std.specs.Prelude.{◌≡◌, ◌↔◌, IsTrue};
ghost use Rattle.cb_io.specs.Countdown.{calls_left, IsDue};

use std::marker::Model;

/// Counts calls down to the one that is to fail.
#[derive(Drop)]
pub(crate) struct Countdown {
    left: Option<u64>,
}

impl Model for Countdown {
    ghost use Rattle.std.specs.Prelude.{ℕ, Option};

    ghost Value = { Option ℕ };

    ghost view = { λ c. c.left };
}

impl Countdown {
    /// The call that is to fail, counted from 1; `None` and `Some(0)` are none.
    pub(crate) fn new(left: Option<u64>) -> Countdown
        ensures { result ≡ left }
    {
        Countdown { left }
    }

    /// Counts one call, and answers whether it is the one that is to fail.
    pub(crate) fn call(&mut self) -> bool
        ensures due { IsTrue result ↔ IsDue self.old }
        ensures counted { self.new ≡ calls_left self.old }
    {
        let Some(left) = self.left else {
            return false;
        };
        self.left = Some(left.saturating_sub(1));
        left == 1
    }
}
