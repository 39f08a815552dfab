//! Rules of patterns: what they are, how they are read, and the ways in which a pattern fits a fact.
//!
//! All of it stands in `cb_constraints`, `cb_fit`, `cb_rules` and `cb_rule_forms`. `docs/ARCHITECTURE.md` says where the
//! layers stand.
#![tactic(auto)]

pub use cb_constraints::laws as constraint_laws;
pub use cb_fit::{Meter, Pattern, Way, fit, fits, laws as fit_laws};
pub use cb_rule_forms::{laws as rule_laws, read_rule};
pub use cb_rules::{Ce, Layout, Rule};
