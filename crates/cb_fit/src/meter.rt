//! How often patterns were tested.
ghost use Rattle.std.specs.Prelude.{◌≡◌};
ghost use Rattle.cb_fit.specs.Meters.{one_test_more};

use std::marker::Model;

/// How often patterns were tested. Code that must not test patterns gets no `T`, so it can't make a meter. A meter can't be
/// copied.
///
/// Contracts see the count.
#[derive(Drop)]
pub struct Meter<T> {
    mark: T,
    probes: u64,
}

impl<T> Model for Meter<T> {
    ghost use Rattle.std.specs.Prelude.{ℕ};

    ghost Value = { ℕ };

    ghost view = { λ m. m.probes };
}

impl<T> Meter<T> {
    /// A meter at 0. Whoever has the mark can make one; nothing else is done with it.
    pub fn new(mark: T) -> Meter<T>
        ensures { result ≡ 0 }
    {
        Meter { mark, probes: 0 }
    }

    /// How often patterns were tested with it; from 2^64 - 1 on it stays there.
    pub fn probes(&self) -> u64
        ensures { result ≡ self.now }
    {
        self.probes
    }

    /// One test more.
    pub(crate) fn count(&mut self)
        ensures { self.new ≡ one_test_more self.old }
    {
        self.probes = self.probes.saturating_add(1);
    }
}
