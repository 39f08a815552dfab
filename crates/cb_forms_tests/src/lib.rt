//! Tests of the public surface of `cb_io` and `cb_forms`, in a crate of their own so that those two are proved once.
#![tactic(auto)]

#[cfg(test)]
mod tests;
