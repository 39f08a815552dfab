//! Ways.
use crate::cuts::Cuts;
use cb_facts::{Name, Value};
use std::alloc::Global;
use std::default::MadeWith;

/// A way in which a pattern fits a fact.
#[derive(Drop)]
pub struct Way {
    /// The lengths of the segments, one for each constraint of the pattern in the order in which they are written; that of a
    /// constraint for one field is 1.
    pub cuts: Cuts,
    /// The variables that had no value before and have one by this way, each once, in the order in which the pattern first
    /// names them.
    pub bound: Vec<(Name, Value)>,
}

/// A way that takes nothing, which stands where a list of ways has room. It takes no memory.
impl MadeWith<Global> for Way {
    fn made_with(alloc: Global) -> Way {
        Way {
            cuts: Cuts::none(),
            bound: Vec::new(alloc),
        }
    }
}
