//! What facts are: names, values, their texts, facts and the fact list.
//!
//! A name, a value and a fact share their contents, so that a clone copies none. `docs/ARCHITECTURE.md` says where the
//! layer stands.
#![tactic(auto)]

mod fact; // a fact: its relation, its content and the number that it is hashed by; the order of facts
mod fact_list; // the facts of a working memory, by their indices and by themselves
pub mod laws; // what counts as equal is the same
mod multifield; // the fields of a multifield: a part of a shared slice
mod name; // the bytes of a symbol, a string or a relation, shared by all that hold them
mod names; // the names that were read, each found by its bytes, so that one that is read again is shared
mod places; // the first place of each name in a list, found in logarithmic time
mod refused; // why a form, a fact or an expression is refused: its fault, or out of memory
mod relation_counts; // how many facts name each relation
mod single; // a value of one field, as it stands in a multifield
mod splicing; // the fields of values, those of a multifield in its place
mod text; // the texts of values and facts
mod value; // a value; the value of a token that is a constant

pub use fact::{Content, Fact};
pub use fact_list::FactList;
pub use multifield::Multifield;
pub use name::Name;
pub use names::Names;
pub use places::Places;
pub use refused::Refused;
pub use relation_counts::RelationCounts;
pub use single::Single;
pub use splicing::{is_multifield, splice, value_of};
pub use text::{fact_text, plain_text, quoted_text};
pub use value::Value;
