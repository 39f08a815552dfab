//! Tests of the public surface of `cb_calc`.
//!
//! A test compares all rows of a `const` at once; the functions that read rows stand in `rows.rt`.
#![tactic(auto)]

#[cfg(test)]
mod tests;
