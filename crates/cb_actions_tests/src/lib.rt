//! Tests of `cb_actions`, through its public calls.
#![tactic(auto)]

#[cfg(test)]
mod tests;
