//! How far a script may go.
ghost use Rattle.std.specs.Prelude.{◌≤◌};

/// The limits of a run (`docs/LANGUAGE.md`, "Limits").
#[derive(Debug, PartialEq, Eq, Drop)]
pub struct Limits {
    /// The most bytes that an item may have, from 1 to 16,777,216.
    pub max_form: usize,
    /// The most rules that may fire in the whole run, up to 1,000,000,000,000.
    pub max_firings: u64,
    /// The most turns that all loops together may take, up to 1,000,000,000,000.
    pub max_turns: u64,
    ghost form_has_a_byte: { 1 ≤ max_form },
    ghost form_in_range: { max_form ≤ 16777216 },
    ghost firings_in_range: { max_firings ≤ 1000000000000 },
    ghost turns_in_range: { max_turns ≤ 1000000000000 },
}
