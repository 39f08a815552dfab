//! Tests of the public surface of `cb_match_index`: drawn calls, made of an ordered map as well, and calls that are refused.
#![tactic(auto)]

#[cfg(test)]
mod tests;
