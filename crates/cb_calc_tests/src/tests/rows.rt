//! Expressions from rows.
use cb_calc::{Env, Expr, NameList, Scope, Side, bound_variables, read_expr};
use cb_facts::{Name, Names, Refused, Value};
use cb_forms::{Form, Item, NoMemory, read_items};
use cb_templates::Relations;
use std::alloc::Global;

/// The expression that a text is at the top level, or its first fault.
pub(crate) fn read(alloc: Global, env: &Env, text: &[u8]) -> Result<Expr, Refused> {
    let items = read_items(alloc, text)?;
    match items.first() {
        Some(Item::Form(form)) => expr(alloc, env, form),
        _ => Err(Refused::NoMemory),
    }
}

fn expr(alloc: Global, env: &Env, form: &Form) -> Result<Expr, Refused> {
    let mut names = Names::new(alloc);
    let bound = bound_variables(&mut names, form)?;
    let given = NameList::new(alloc);
    let relations = Relations::new(alloc);
    let scope = Scope {
        side: Side::Top,
        env,
        bound: &bound,
        given: &given,
        relations: &relations,
    };
    read_expr(&mut names, &scope, form)
}

/// A name and an integer.
pub(crate) fn named(alloc: Global, text: &str, number: i64) -> Result<(Name, Value), NoMemory> {
    Ok((Name::new(alloc, text.as_bytes())?, Value::Int(number)))
}
