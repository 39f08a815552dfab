//! Tests of the public surface of `cb_number_map`: drawn and chosen calls, made of an ordered map as well.
#![tactic(auto)]

#[cfg(test)]
mod tests;
