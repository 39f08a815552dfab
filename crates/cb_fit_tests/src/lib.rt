//! Tests of the public surface of `cb_fit`.
#![tactic(auto)]

#[cfg(test)]
mod tests;
