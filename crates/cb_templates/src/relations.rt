//! The relations that have a template.
ghost use Rattle.std.specs.Prelude.{◌≡◌, [], None, Some, MatchOption, OnOk, OnErr};
ghost use Rattle.cb_forms.specs.Members.{members};
ghost use Rattle.cb_facts.specs.Results.{Returns};
ghost use Rattle.cb_facts.specs.FaultLists.{ReadsAs};
ghost use Rattle.cb_templates.specs.TemplateFaults.{template_faults};
ghost use Rattle.cb_templates.specs.TemplateShapes.{template_shape};
ghost use Rattle.cb_templates.specs.Internal.{slots_after};
ghost use Rattle.cb_templates.specs.Templates.{slots_of, with_template};

use crate::comment::without_comment;
use crate::slot::Slot;
use crate::slot_form::read_slot;
use crate::template::Template;
use cb_facts::{Name, Names, Refused};
use cb_forms::{Fault, Form, NoMemory, split_head};
use cb_words::is_reserved;
use std::alloc::Global;
use std::collections::BTreeMap;
use std::marker::Model;

/// The relations that have a template, each with its slots (`docs/LANGUAGE.md`, "Templates").
///
/// A template is found in logarithmic time, whatever the names are.
///
/// Contracts see the list of the pairs of a name and its slots, in the order of the names.
#[derive(Drop)]
pub struct Relations {
    templates: BTreeMap<Name, Template>,
}

impl Model for Relations {
    ghost use Rattle.cb_templates.specs.Templates.{Templates};

    ghost Value = { Templates };

    ghost view = { λ r. r.templates.entries };
}

impl Relations {
    /// No relation has a template. It takes no memory yet.
    pub fn new(alloc: Global) -> Relations
        ensures { result ≡ [] }
    {
        Relations {
            templates: BTreeMap::new(alloc),
        }
    }

    /// Defines the template that a `deftemplate` form is, by the members after its head, replacing the one that the relation
    /// had, if it had one. Whatever it refuses, as `read_template` does, nothing has changed.
    pub fn define_template(
        &mut self,
        names: &mut Names,
        form: &[Form],
        in_use: bool,
    ) -> Result<(), Refused>
        ensures done { ReadsAs (λ _. self.new) result
            (template_faults (λ _. in_use) (members form.now))
            (with_template self.old (template_shape (members form.now))) }
        ensures err { OnErr result (self.new ≡ self.old) }
    {
        let (name, template) = read_template(names, form, in_use)?;
        self.insert(name, template)?;
        Ok(())
    }

    /// Defines a template, replacing the one that the relation had, if it had one. Growth is refused as `NoMemory`, and then
    /// nothing has changed.
    pub fn insert(&mut self, relation: Name, template: Template) -> Result<(), NoMemory>
        ensures ok { OnOk result (self.new ≡ with_template self.old (relation, template)) }
        ensures err { OnErr result (self.new ≡ self.old) }
    {
        self.templates.insert(relation, template)?;
        Ok(())
    }

    /// A relation's template, or `None` where the relation has none.
    pub fn template(&self, relation: &Name) -> Option<&Template>
        ensures { MatchOption result (slots_of self.now relation.now ≡ None)
            (λ template. slots_of self.now relation.now ≡ Some template.now) }
    {
        self.templates.get(relation)
    }

    /// The slots of a relation's template, or `None` where the relation has none.
    pub fn shape(&self, relation: &Name) -> Option<&[Slot]>
        ensures { MatchOption result (slots_of self.now relation.now ≡ None)
            (λ slots. slots_of self.now relation.now ≡ Some slots.now) }
    {
        let template = self.template(relation)?;
        Some(template.slots())
    }
}

/// Reads a `deftemplate` from the members after its head, and returns the relation's name and the template. `in_use` says
/// that a fact or a `deffacts` names the relation.
///
/// It refuses with the first fault in this order: CB08 where the name is no symbol or a reserved word, CB23 where the
/// relation is in use, and then those of each slot: CB08, CB14 and, after its last attribute, CB10.
#[tactic(auto, using(crate::proofs::TemplateFaultLaws::slots_as_said))]
pub fn read_template(
    names: &mut Names,
    forms: &[Form],
    in_use: bool,
) -> Result<(Name, Template), Refused>
    ensures { ReadsAs (λ it. it) result (template_faults (λ _. in_use) (members forms.now))
        (template_shape (members forms.now)) }
{
    let Some((name, forms)) = split_head(forms) else {
        return Err(Refused::Fault(Fault::MalformedForm));
    };
    if is_reserved(name) {
        return Err(Refused::Fault(Fault::MalformedForm));
    }
    if in_use {
        return Err(Refused::Fault(Fault::TemplateInUse));
    }
    let template = read_slots(names, without_comment(forms))?;
    Ok((names.name(name)?, template))
}

fn read_slots(names: &mut Names, forms: &[Form]) -> Result<Template, Refused>
    ensures { Returns result (slots_after [] (members forms.now)) }
{
    let mut template = Template::new(names.alloc());
    for form in forms {
        let slot = read_slot(names, &template, form)?;
        template.push(slot)?;
    }
    Ok(template)
}
