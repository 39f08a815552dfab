//! Rules.
ghost use Rattle.std.specs.Prelude.{◌≡◌, ◌++◌, IfOk, List, Some, false, map, option_map};
ghost use Rattle.cb_facts.specs.FaultLists.{ReadsAs};
ghost use Rattle.cb_expr_forms.specs.ExprForms.{exprs_of};
ghost use Rattle.cb_exprs.specs.Terms.{Term, term_of};
ghost use Rattle.cb_forms.specs.Members.{members};
ghost use Rattle.cb_rule_forms.specs.Declarations.{declared_faults, salience_of};
ghost use Rattle.cb_rule_forms.specs.Branches.{branches_in};
ghost use Rattle.cb_rule_forms.specs.Internal.{branches_read, form_value};
ghost use Rattle.cb_rule_forms.specs.WrittenElements.{written_in};
ghost use Rattle.cb_rules.specs.Elements.{Elements, branches_of, element_of, elements};
ghost use Rattle.cb_rules.specs.RuleValues.{rule_value};
ghost use Rattle.cb_rule_forms.specs.Rules.{branches_faults, layout_of, left_faults, left_scope, place_of, rule_faults, rule_of, rule_with, sections_faults, sections_rule};
ghost use Rattle.cb_rule_forms.specs.Internal.SectionPlaces.{sections_seen};

use crate::actions::read_actions;
use crate::declaration::read_declaration;
use crate::element::ElementForm;
use crate::mentions::bind_branches;
use crate::relations::find_relations;
use crate::sections::{Sections, split_sections};
use crate::ways::read_branches;
use crate::written::write_elements;
use cb_eval::Constants;
use cb_expr_forms::{NameList, Scope, Side};
use cb_exprs::{Env, Expr};
use cb_facts::{Names, Refused};
use cb_fit::Pattern;
use cb_forms::{Fault, Form, NoMemory};
use cb_rules::{Ce, Layout, Rule};
use cb_templates::Relations;
use std::alloc::Global;

/// The rule that the forms after the word `defrule` are, or their first fault (`docs/LANGUAGE.md`, "Rules"). The salience
/// is evaluated, once and here. It and the actions may name the globals of `env`; the variables of `env` aren't known in
/// the rule. Growth is refused as `NoMemory`.
pub fn read_rule<T>(
    names: &mut Names,
    constants: &Constants,
    relations: &Relations,
    env: &Env,
    forms: &[Form],
) -> Result<Rule<T>, Refused>
    ensures { ReadsAs rule_value result (rule_faults relations.now env.now (members forms.now))
        (rule_of relations.now env.now (members forms.now)) }
{
    match split_sections(forms) {
        Some(sections) => read_sections(names, constants, relations, env, sections),
        None => Err(Refused::Fault(Fault::MalformedForm)),
    }
}

/// The rule of these sections, or their first fault.
fn read_sections<T>(
    names: &mut Names,
    constants: &Constants,
    relations: &Relations,
    env: &Env,
    sections: Sections<'_>,
) -> Result<Rule<T>, Refused>
    ensures { ReadsAs rule_value result
        (sections_faults relations.now env.now (Some (sections_seen sections.entry)))
        (sections_rule relations.now env.now (Some (sections_seen sections.entry))) }
{
    let salience = read_salience(names, constants, relations, env, sections.declared)?;
    let (branches, actions) = read_sides(
        names,
        relations,
        env,
        sections.elements,
        sections.actions,
    )?;
    Ok(build_rule(names, sections.name, salience, branches, actions)?)
}

/// The rule of these parts.
fn build_rule<T>(
    names: &mut Names,
    name: &[u8],
    salience: i64,
    branches: Vec<Vec<ElementForm>>,
    actions: Vec<Expr>,
) -> Result<Rule<T>, NoMemory>
    ensures { IfOk result (λ rule. rule_value rule ≡ rule_with name.now salience
        (branches_read branches.items) (map term_of actions.items)) }
{
    let relations = find_relations(names.alloc(), branches.as_slice(), actions.as_slice())?;
    let name = names.name(name)?;
    let branches = close_branches(names.alloc(), branches)?;
    let layouts = lay_out_all(names.alloc(), branches.as_slice())?;
    Ok(Rule {
        name,
        salience,
        branches,
        layouts,
        actions,
        relations,
    })
}

/// The salience of a rule: 0, unless it declares another; or the first fault of its declaration.
fn read_salience(
    names: &mut Names,
    constants: &Constants,
    relations: &Relations,
    env: &Env,
    declared: Option<&[Form]>,
) -> Result<i64, Refused>
    ensures { ReadsAs (λ n. n) result
        (declared_faults relations.now env.now (option_map (λ fs. members fs.now) declared.entry))
        (salience_of relations.now env.now (option_map (λ fs. members fs.now) declared.entry)) }
{
    match declared {
        Some(forms) => read_declaration(names, constants, relations, env, forms),
        None => Ok(0),
    }
}

/// The branches of a left side and the actions, or the first fault of the elements, of their variables, or of the actions.
fn read_sides(
    names: &mut Names,
    relations: &Relations,
    env: &Env,
    left: &[Form],
    right: &[Form],
) -> Result<(Vec<Vec<ElementForm>>, Vec<Expr>), Refused>
    ensures { ReadsAs {V = List Elements × List Term}
        (λ sides. (branches_read sides.0.items, map term_of sides.1.items)) result
        (left_faults (left_scope relations.now env.now) (written_in false (members left.now))
        ++ branches_faults relations.now env.now
        (branches_in relations.now (written_in false (members left.now))) (members right.now)) (
          branches_in relations.now (written_in false (members left.now)),
          exprs_of relations.now (members right.now),
        ) }
{
    let branches = read_left_side(names, relations, env, left)?;
    let known = bind_branches(names.alloc(), branches.as_slice())?;
    let actions = read_actions(names, relations, env, known, right)?;
    Ok((branches, actions))
}

/// The branches of a left side, or the first fault of its elements.
fn read_left_side(
    names: &mut Names,
    relations: &Relations,
    env: &Env,
    forms: &[Form],
) -> Result<Vec<Vec<ElementForm>>, Refused>
    ensures { ReadsAs (λ branches. branches_read branches.items) result
        (left_faults (left_scope relations.now env.now) (written_in false (members forms.now)))
        (branches_in relations.now (written_in false (members forms.now))) }
{
    let none = NameList::new(names.alloc());
    let scope = Scope {
        side: Side::Left,
        env,
        bound: &none,
        given: &none,
        relations,
    };
    let written = write_elements(names.alloc(), false, forms)?;
    read_branches(names, &scope, written.as_slice())
}

/// The branches with their patterns closed.
fn close_branches<T>(
    alloc: Global,
    branches: Vec<Vec<ElementForm>>,
) -> Result<Vec<Vec<Ce<T>>>, NoMemory>
    ensures { IfOk result (λ closed. branches_of closed.items ≡ branches_read branches.items) }
{
    let mut closed = Vec::new(alloc);
    for branch in branches {
        closed.push(close_elements(alloc, branch)?)?;
    }
    Ok(closed)
}

/// The elements with their patterns closed.
#[cycle(closing)]
fn close_elements<T>(alloc: Global, elements: Vec<ElementForm>) -> Result<Vec<Ce<T>>, NoMemory>
    ensures { IfOk result (λ es. map element_of es.items ≡ map form_value elements.items) }
{
    let mut closed = Vec::new(alloc);
    for element in elements {
        closed.push(close_element(alloc, element)?)?;
    }
    Ok(closed)
}

/// An element with its patterns closed.
///
/// It calls itself as deep as groups are nested.
#[cycle(closing)]
fn close_element<T>(alloc: Global, element: ElementForm) -> Result<Ce<T>, NoMemory>
    ensures { IfOk result (λ e. element_of e ≡ form_value element) }
{
    match element {
        ElementForm::Pattern(form) => Ok(Ce::Pattern {
            address: form.address,
            pattern: Pattern::new(alloc, form.relation, form.parts)?,
        }),
        ElementForm::Test(expr) => Ok(Ce::Test(expr)),
        ElementForm::Group(positive, inner) => Ok(Ce::Group {
            positive,
            inner: close_elements(alloc, inner)?,
        }),
    }
}

/// The layouts of branches.
fn lay_out_all<T>(alloc: Global, branches: &[Vec<Ce<T>>]) -> Result<Vec<Layout>, NoMemory>
    ensures { IfOk result (λ layouts. layouts.items ≡ map layout_of (branches_of branches.now)) }
{
    let mut layouts = Vec::new(alloc);
    for branch in branches {
        layouts.push(lay_out(alloc, branch.as_slice())?)?;
    }
    Ok(layouts)
}

/// The layout of a branch.
fn lay_out<T>(alloc: Global, branch: &[Ce<T>]) -> Result<Layout, NoMemory>
    ensures { IfOk result (λ layout. layout ≡ layout_of (elements (map element_of branch.now))) }
{
    let mut members = Vec::new(alloc);
    for element in branch {
        if let Some(is_pattern) = place_of(element) {
            members.push(is_pattern)?;
        }
    }
    Ok(Layout::new(members))
}

/// Whether an element is a pattern, if it has a place in a layout.
fn place_of<T>(element: &Ce<T>) -> Option<bool>
    ensures { result ≡ place_of (element_of element.now) }
{
    match element {
        Ce::Pattern { .. } => Some(true),
        Ce::Group { .. } => Some(false),
        Ce::Test(_) => None,
    }
}
