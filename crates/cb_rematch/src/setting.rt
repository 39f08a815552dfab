//! What matching needs besides the rules.
use cb_eval::Constants;
use cb_facts::FactList;
use std::alloc::Global;

/// What matching needs besides the rules.
#[derive(Clone, Copy)]
pub(crate) struct Setting<'a> {
    /// Where memory is from.
    pub(crate) alloc: Global,
    /// The symbols that functions return.
    pub(crate) constants: &'a Constants,
    /// The facts.
    pub(crate) facts: &'a FactList,
}
