//! The numbers that were given last.
ghost use Rattle.std.specs.Prelude.{◌≤◌};

/// The numbers that count as given already, so that each next one is one more. Where nothing was given, each is 0.
#[derive(Clone, Copy, Debug, PartialEq, Eq)]
pub struct Numbers {
    /// The index of a fact, up to 2^63 - 1.
    pub index: u64,
    /// The number of a rule, up to 2^63 - 1.
    pub rule: u64,
    /// The stamp of an activation, up to 2^63 - 1.
    pub stamp: u64,
    ghost index_in_range: { index ≤ 9223372036854775807 },
    ghost rule_in_range: { rule ≤ 9223372036854775807 },
    ghost stamp_in_range: { stamp ≤ 9223372036854775807 },
}
