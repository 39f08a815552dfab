//! The fields of a fact that give variables their values.
ghost use Rattle.std.specs.Prelude.{◌≡◌, ◌++◌, None, OnOk, false};
ghost use Rattle.std.specs.Option.{option_map};
ghost use Rattle.cb_beta.specs.GivenValues.{values_taken};
ghost use Rattle.cb_constraints.specs.Holding.{tested_value};
ghost use Rattle.cb_exprs.specs.Bindings.{no_bindings, value_at, with_variables};
ghost use Rattle.cb_facts.specs.Facts.{FactValue};
ghost use Rattle.cb_fit.specs.Decided.{taken_by};

use crate::marks::{Sought, marks_of};
use cb_constraints::Tested;
use cb_facts::{Fact, Name, Value};
use cb_fit::{Cuts, JoinField};
use cb_forms::NoMemory;
use std::marker::Model;

/// What all tokens of a list take that is joined by values: the fields of a fact that give variables their values, and the lengths of
/// the segments of the way. Contracts see these two.
#[derive(Drop)]
pub struct TakenFields {
    fields: Vec<JoinField>,
    cuts: Cuts,
    /// The marks of the variables of the fields.
    marks: u64,
}

impl Model for TakenFields {
    ghost use Rattle.cb_beta.specs.TakenFields.{TakenFieldsValue};
    ghost use Rattle.cb_beta.specs.Marks.{AreMarked};

    ghost Value = { TakenFieldsValue };

    ghost view = { λ t. record { fields = t.fields.items; cuts = t.cuts } };

    ghost invariant = { λ t. AreMarked t.marks t.fields.items };
}

impl TakenFields {
    /// These fields and lengths. It takes no memory, and some steps for each field.
    pub fn new(fields: Vec<JoinField>, cuts: Cuts) -> TakenFields
        ensures fields { result.fields ≡ fields.items }
        ensures cuts { result.cuts ≡ cuts }
    {
        let marks = marks_of(fields.as_slice());
        TakenFields {
            fields,
            cuts,
            marks,
        }
    }

    /// The lengths of the segments.
    pub(crate) fn cuts(&self) -> &Cuts
        ensures { result.now ≡ self.now.cuts }
    {
        &self.cuts
    }

    /// Whether the fields may give a variable a value: whether its mark is among theirs.
    pub(crate) fn may_give(&self, name: &Sought<'_>) -> bool
        ensures { (f : FactValue) → result ≡ false → value_at name.now
            (with_variables (values_taken self.now.fields f.content) no_bindings).variables ≡ None }
    {
        name.is_marked(self.marks)
    }

    /// The field of a fact that gives a variable its value, of which the last counts, or `None` where none does. That none does is mostly
    /// seen without a look at their names.
    pub(crate) fn field<'a>(&self, fact: &'a Fact, name: &Sought<'_>) -> Option<Tested<'a>>
        ensures { option_map tested_value result ≡ value_at name.now
            (with_variables (values_taken self.now.fields fact.now.content) no_bindings).variables }
    {
        if !name.is_marked(self.marks) {
            return None;
        }
        field_of(self.fields.as_slice(), fact, name.name())
    }

    /// Adds the variables of the fields and their values in a fact behind these, in order.
    pub(crate) fn add_to(
        &self,
        bindings: &mut Vec<(Name, Value)>,
        fact: &Fact,
    ) -> Result<(), NoMemory>
        ensures { OnOk result (bindings.new.items
            ≡ bindings.old.items ++ values_taken self.now.fields fact.now.content) }
    {
        add_fields(bindings, self.fields.as_slice(), fact)
    }
}

/// The same of these fields.
fn field_of<'a>(fields: &[JoinField], fact: &'a Fact, name: &Name) -> Option<Tested<'a>>
    ensures { option_map tested_value result ≡ value_at name.now
        (with_variables (values_taken fields.now fact.now.content) no_bindings).variables }
{
    let mut left = fields;
    while let Some((last, others)) = left.split_last() {
        if let Some(field) = own_field(last, fact, name) {
            return Some(field);
        }
        left = others;
    }
    None
}

/// The same of one field: it, if the variable is its own.
fn own_field<'a>(field: &JoinField, fact: &'a Fact, name: &Name) -> Option<Tested<'a>>
    ensures { option_map tested_value result ≡ value_at name.now
        (with_variables (taken_by no_bindings fact.now.content field.now) no_bindings).variables }
{
    if *name == field.variable {
        field.field_in(fact)
    } else {
        None
    }
}

/// Adds the variables of these fields and their values in a fact behind these, in order.
fn add_fields(
    bindings: &mut Vec<(Name, Value)>,
    fields: &[JoinField],
    fact: &Fact,
) -> Result<(), NoMemory>
    ensures { OnOk result (bindings.new.items
        ≡ bindings.old.items ++ values_taken fields.now fact.now.content) }
{
    for field in fields {
        add_field(bindings, field, fact)?;
    }
    Ok(())
}

/// Adds the variable of a field and its value in a fact behind these, if that has such a field.
fn add_field(
    bindings: &mut Vec<(Name, Value)>,
    field: &JoinField,
    fact: &Fact,
) -> Result<(), NoMemory>
    ensures { OnOk result (bindings.new.items
        ≡ bindings.old.items ++ taken_by no_bindings fact.now.content field.now) }
{
    if let Some(value) = field.value_in(fact)? {
        bindings.push((field.variable.clone()?, value))?;
    }
    Ok(())
}
