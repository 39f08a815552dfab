//! Tests of the public surface of `cb_eval`.
//!
//! A test compares all rows of a `const` at once; the functions that read and print rows stand in `rows.rt`.
#![tactic(auto)]

#[cfg(test)]
mod tests;
