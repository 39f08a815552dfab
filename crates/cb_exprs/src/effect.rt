//! What calls with an effect do.
use crate::channel::Channel;
use crate::fact_shape::FactShape;
use crate::modified_slots::ModifiedSlots;
use cb_facts::Name;

/// What a call with an effect does with the values of its arguments (`docs/LANGUAGE.md`, "Commands").
#[derive(Drop)]
pub enum Effect {
    /// `(assert fact)`: a fact of this shape is asserted. The arguments are the expressions of its fields, or one for the
    /// value of each slot that it gives, in the order in which they are written. `(assert fact ..)` with several facts is a
    /// list of actions.
    Assert(FactShape),
    /// `(retract value ..)`
    Retract,
    /// `(modify fact (slot value ..) ..)`: these slots of a fact get new values. The arguments are the expression that says which
    /// fact, and then those of all slots, in the order in which they are written.
    Modify(ModifiedSlots),
    /// `(bind ?name value ..)`. Several values are joined to a multifield, as `create$` does.
    Bind(Name),
    /// `(bind ?*name* value ..)`, likewise.
    BindGlobal(Name),
    /// `(printout channel value ..)`
    Printout(Channel),
    /// `(print value ..)`
    Print,
    /// `(println value ..)`
    Println,
    /// `(halt)`
    Halt,
}
