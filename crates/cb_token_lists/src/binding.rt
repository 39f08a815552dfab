//! What variables have after a way.
ghost use Rattle.std.specs.Prelude.{◌≡◌, IfOk, OnOk};
ghost use Rattle.std.specs.Option.{option_map};
ghost use Rattle.cb_beta.specs.Tokens.{taken_value, with_taken};
ghost use Rattle.cb_exprs.specs.Bindings.{Bindings, no_bindings, with_variables};
ghost use Rattle.cb_matches.specs.Matches.{Partial, no_parts, with_address};
ghost use Rattle.cb_token_lists.specs.Internal.{with_path, with_step};

use crate::path::{Path, Step};
use cb_beta::Taken;
use cb_exprs::Env;
use cb_facts::{Name, Value};
use cb_forms::NoMemory;
use std::alloc::Global;

/// What variables have by the steps of a path. They take one frame. Growth is refused as `NoMemory`, and so is a count of sharers that
/// is full.
pub(crate) fn bind_path(alloc: Global, path: Path<'_>) -> Result<Env, NoMemory>
    ensures { IfOk result (λ env. env ≡ (with_path path.entry.items no_parts).env) }
{
    let mut path = path;
    let mut bindings = Vec::with_capacity(alloc, path.len() * 2)?;
    while let Some(step) = path.pop() {
        bind_step(&mut bindings, step)?;
    }
    Env::new(alloc).with(bindings)
}

/// Adds the values that variables get in a step behind those that they got before. Growth is refused as `NoMemory`, and so is a count of
/// sharers that is full.
fn bind_step(bindings: &mut Vec<(Name, Value)>, step: Option<Step<'_>>) -> Result<(), NoMemory>
    ensures { OnOk result ((m : Partial) → m.env ≡ with_variables bindings.old.items no_bindings
        → with_variables bindings.new.items no_bindings ≡ (with_step step.entry m).env) }
{
    match step {
        Some(step) => bind_taken(bindings, step.address, step.token.taken()),
        None => Ok(()),
    }
}

/// The same of what was taken, if a fact was, where this is the variable of its address.
fn bind_taken(
    bindings: &mut Vec<(Name, Value)>,
    address: &Option<Name>,
    taken: Option<Taken<'_>>,
) -> Result<(), NoMemory>
    ensures { OnOk result ((m : Partial) → m.env ≡ with_variables bindings.old.items no_bindings
        → with_variables bindings.new.items no_bindings
        ≡ (with_taken address.now (option_map taken_value taken.entry) m).env) }
{
    match taken {
        Some(taken) => {
            bind_address(bindings, address, taken.index)?;
            taken.given.add_to(bindings)
        }
        None => Ok(()),
    }
}

/// Adds the address of the fact with an index as the value of a variable, if there is such a variable. Growth is refused as `NoMemory`.
fn bind_address(
    bindings: &mut Vec<(Name, Value)>,
    address: &Option<Name>,
    index: u64,
) -> Result<(), NoMemory>
    ensures { OnOk result ((env : Bindings) → with_variables bindings.new.items env
        ≡ with_address address.now index (with_variables bindings.old.items env)) }
{
    if let Some(name) = address {
        bindings.push((name.clone()?, Value::Fact(index)))?;
    }
    Ok(())
}
