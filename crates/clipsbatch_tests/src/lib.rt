//! Tests of whole scripts, of sessions and of the program's words, over the public calls alone.
#![tactic(auto)]

#[cfg(test)]
mod tests;
