//! What a list of tokens goes on from.
use cb_facts::Name;
use std::marker::Model;

/// What a list of tokens goes on from.
#[derive(Drop)]
pub struct Source {
    /// The number of the list before it.
    pub from: u32,
    /// The variable of the `?f <-` before the pattern, if the list stands behind a pattern and it has one.
    pub address: Option<Name>,
}

impl Model for Source {
    ghost use Rattle.cb_token_lists.specs.Partials.{SourceValue};

    ghost Value = { SourceValue };

    ghost view = { λ s. record { from = s.from; address = s.address } };
}
