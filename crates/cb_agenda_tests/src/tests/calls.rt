//! The calls of an agenda, step by step, by the numbers of matches and by their keys.
ghost use Rattle.std.specs.Prelude.{◌≤◌};
ghost use Rattle.cb_agenda.specs.Ranks.{greatest_stamp};

use super::by_key::ByKey;
use super::by_number::ByNumber;
use super::called::Called;
use super::matches::which;
use super::steps::{AMID, Call, GONE, LAST_STAMPS, STEPS, Step};
use cb_agenda::{Agenda, Strategy};
use cb_forms::NoMemory;
use cb_matches::Key;
use std::alloc::Global;

fn match_text(alloc: Global, key: Option<Key>) -> Result<String, NoMemory> {
    match key {
        Some(key) => {
            let which = which(&key);
            Ok(format!(in alloc; "{which}")?)
        }
        None => Ok(format!(in alloc; "none")?),
    }
}

fn strategy_text(strategy: Strategy) -> &'static str {
    match strategy {
        Strategy::Depth => "depth",
        Strategy::Breadth => "breadth",
    }
}

fn text(alloc: Global, text: &str) -> Result<String, NoMemory> {
    Ok(format!(in alloc; "{text}")?)
}

fn answer<A: Called>(alloc: Global, agenda: &mut A, call: &Call) -> Result<String, NoMemory> {
    match call {
        Call::Change(gone, come, saliences) => {
            text(alloc, agenda.change(alloc, gone, come, saliences)?)
        }
        Call::Has(which) => text(alloc, if agenda.has(*which) { "yes" } else { "no" }),
        Call::Pop => match_text(alloc, agenda.pop()),
        Call::Set(strategy) => text(alloc, strategy_text(agenda.set_strategy(*strategy))),
        Call::DropAll => {
            agenda.drop_all();
            Ok(String::new(alloc))
        }
        Call::Forget(rule) => {
            agenda.forget_rule(*rule);
            Ok(String::new(alloc))
        }
    }
}

fn list_text(alloc: Global, listed: &[(Key, i64)]) -> Result<String, NoMemory> {
    let mut text = String::new(alloc);
    for (key, salience) in listed {
        let which = which(key);
        let shown = format!(in alloc; "{which}:{salience} ")?;
        text.push_str(&shown)?;
    }
    Ok(text)
}

fn goes_so<A: Called>(alloc: Global, agenda: &mut A, step: &Step) -> Result<bool, NoMemory> {
    let answer = answer(alloc, agenda, &step.call)?;
    let listed = agenda.list()?;
    let list = list_text(alloc, &listed)?;
    Ok(answer.as_bytes() == step.answer.as_bytes() && list.as_bytes() == step.list.as_bytes())
}

/// The first step that does not go so.
fn wrong_step<A: Called>(
    alloc: Global,
    agenda: &mut A,
    steps: &[Step],
) -> Result<Option<usize>, NoMemory> {
    for (i, step) in steps.iter().enumerate() {
        if !goes_so(alloc, agenda, step)? {
            return Ok(Some(i));
        }
    }
    Ok(None)
}

/// The first step that does not go so by numbers, and the first by keys, from as many stamps on.
fn wrong_steps(
    alloc: Global,
    stamp: u64,
    steps: &[Step],
) -> Result<(Option<usize>, Option<usize>), NoMemory>
    requires { stamp ≤ greatest_stamp }
{
    let mut by_number = ByNumber::starting_at(alloc, stamp);
    let mut by_key = ByKey {
        agenda: Agenda::starting_at(alloc, stamp),
    };
    Ok((
        wrong_step(alloc, &mut by_number, steps)?,
        wrong_step(alloc, &mut by_key, steps)?,
    ))
}

#[test]
fn goes_step_by_step(rt: HostRuntime) -> Result<(), NoMemory> {
    let wrong = wrong_steps(rt.alloc(), 0, &STEPS)?;
    assert!(rt; wrong == (None, None), "{wrong:?}");
    Ok(())
}

#[test]
fn takes_out_what_is_gone(rt: HostRuntime) -> Result<(), NoMemory> {
    let wrong = wrong_steps(rt.alloc(), 0, &GONE)?;
    assert!(rt; wrong == (None, None), "{wrong:?}");
    Ok(())
}

#[test]
fn takes_out_what_stands_amid_others(rt: HostRuntime) -> Result<(), NoMemory> {
    let wrong = wrong_steps(rt.alloc(), 0, &AMID)?;
    assert!(rt; wrong == (None, None), "{wrong:?}");
    Ok(())
}

#[test]
fn ends_with_the_last_stamp(rt: HostRuntime) -> Result<(), NoMemory> {
    let wrong = wrong_steps(rt.alloc(), 9_223_372_036_854_775_805, &LAST_STAMPS)?;
    assert!(rt; wrong == (None, None), "{wrong:?}");
    Ok(())
}
