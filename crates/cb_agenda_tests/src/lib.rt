//! Tests of the public surface of `cb_agenda`.
#![tactic(auto)]

#[cfg(test)]
mod tests;
