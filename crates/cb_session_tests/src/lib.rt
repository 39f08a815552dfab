//! Tests of `cb_session`, through its public calls.
#![tactic(auto)]

#[cfg(test)]
mod tests;
