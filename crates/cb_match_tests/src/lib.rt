//! Tests of the public surface of `cb_match`: keys, and each call of a matcher once with ample memory.
//!
//! Whole rules are tested by scripts, in `clipsbatch_tests`.
#![tactic(auto)]

#[cfg(test)]
mod tests;
