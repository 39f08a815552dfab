//! The matcher: Rete by tokens. Partial matches are kept as tokens, each of which names the one that it goes on from, and a change goes
//! on from what it changes alone.
//!
//! The patterns of all rules stand in one alpha network. A fact that is added comes to the alpha memories of the patterns whose shape it
//! has, and one that is taken out goes from them. Then the branches of those patterns are changed, found by the patterns' places among
//! the rules: a rule and a branch that has none of them costs nothing, and stays as it is. A rule that is added is entered in the
//! network and filled; one that is dropped leaves it.
//!
//! `docs/ARCHITECTURE.md` says where it belongs.
#![tactic(auto)]

mod changes; // what each call of the matcher does to its rules and facts
mod changing; // a change of the facts, rule by rule and branch by branch
mod entering; // rules in the alpha network
mod filling; // rules over all facts
mod finding; // the match with a key
mod joins; // the matcher
mod places; // places that are found, rule by rule and branch by branch
mod rule; // a rule
mod setting; // what branches need besides what is kept for them
mod telling; // the keys of a rule's matches

pub use joins::Joins;
