//! What branches need besides what is kept for them.
use cb_alpha::AlphaMemory;
use cb_eval::Constants;
use std::alloc::Global;

/// What branches need besides what is kept for them.
#[derive(Clone, Copy)]
pub(crate) struct Setting<'a> {
    /// Where memory is from.
    pub(crate) alloc: Global,
    /// The symbols that functions return.
    pub(crate) constants: &'a Constants,
    /// The alpha memories by their numbers.
    pub(crate) alphas: &'a [AlphaMemory],
}
