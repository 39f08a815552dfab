//! The knowledge base, which has the rules and the facts, and what `deffacts` and `defglobal` keep for `reset`.
#![tactic(auto)]

mod asserted; // what comes of the assertion of a fact
mod deffacts; // the facts of each `deffacts`, in the order of their definition
mod globals; // the initial expressions of globals, in the order of their definition
mod groups; // groups of facts, each with a name and a number, in the order of the numbers
mod knowledge_base; // rules and facts over any matcher, and the numbers given last
pub mod laws; // laws of the index of a fact, and of facts that are added
mod mark; // the mark of the meters that count the tests of patterns

pub use asserted::Asserted;
pub use deffacts::DeffactsTable;
pub use globals::GlobalTable;
pub use groups::Deffacts;
pub use knowledge_base::KnowledgeBase;
pub use mark::Mark;
