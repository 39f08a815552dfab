//! Tests of the public surface of `cb_match_table`: drawn calls, made of an ordered map as well.
#![tactic(auto)]

#[cfg(test)]
mod tests;
