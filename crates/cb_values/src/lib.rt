//! What scripts are about: names, values, their texts, facts, the fact list and templates.
//!
//! It only re-exports, from `cb_words`, `cb_facts` and `cb_templates`: who needs them all needs one name.
#![tactic(auto)]

pub use cb_facts::{
    Content, Fact, FactList, Multifield, Name, Names, Refused, Single, Value, fact_text,
    plain_text, quoted_text, splice,
};
pub use cb_templates::{
    GivenSlot, GivenSlots, Parts, Relations, Slot, Template, build_fact, build_slots, change_fact,
    find_given, find_slot, laws, without_comment,
};
pub use cb_words::{is_among, is_reserved};
