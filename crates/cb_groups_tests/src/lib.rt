//! Tests of the public surface of `cb_groups`: drawn calls, made of an ordered map as well.
#![tactic(auto)]

#[cfg(test)]
mod tests;
