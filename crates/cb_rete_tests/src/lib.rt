//! Tests of `cb_rete`: the same changes made to `Joins` and to `Rematch`, and what each of them answers compared.
#![tactic(auto)]

#[cfg(test)]
mod tests;
