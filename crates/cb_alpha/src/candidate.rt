//! A fact that could fit a pattern.
use cb_facts::Fact;
use std::marker::Model;

/// A fact that has the shape of a pattern, and its index.
///
/// Contracts see the pair of the index and the fact.
#[derive(Drop)]
pub struct Candidate {
    /// The index of the fact.
    pub index: u64,
    /// The fact.
    pub fact: Fact,
}

impl Model for Candidate {
    ghost use Rattle.std.specs.Prelude.{ℕ};
    ghost use Rattle.cb_facts.specs.Facts.{FactValue};

    ghost Value = { ℕ × FactValue };

    ghost view = { λ c. (c.index, c.fact) };
}
