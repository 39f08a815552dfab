//! The lists of facts, of activations and of rules, put line by line.
ghost use Rattle.std.specs.Prelude.{◌≡◌, IfOk, false};
ghost use Rattle.std.specs.List.{flat_map};
ghost use Rattle.cb_agenda.specs.Agendas.{agenda_list};
ghost use Rattle.cb_io.specs.Output.{Puts, stop_extent};
ghost use Rattle.cb_lines.specs.Lines.{agenda_line, fact_line, total_line};
ghost use Rattle.cb_session.specs.Listings.{agenda_lines, fact_lines, rule_line, rule_lines};

use crate::line::put_line;
use cb_agenda::Agenda;
use cb_facts::{Fact, FactList};
use cb_forms::{NoMemory, Out, Sink};
use cb_io::{Stop, put_text};
use cb_lines::{Noun, add_agenda_line, add_fact_line, add_total_line};
use cb_matches::Key;
use cb_rules::{DefinedRule, RuleTable};
use std::alloc::Global;

/// Puts the lines of all facts, and of how many there are. Growth is refused as `NoMemory`, here and below.
pub(crate) fn put_fact_lines<K: Sink>(
    alloc: Global,
    facts: &FactList,
    out: &mut Out<K>,
) -> Result<(), Stop>
    requires { out.old.fault ≡ false }
    ensures { Puts K.writes out.old out.new (stop_extent result) (fact_lines facts.now) }
{
    put_facts(alloc, facts, out)?;
    put_text(total_line(alloc, facts.len(), Noun::Fact), out)
}

/// Puts the lines of all activations, the one that fires first on top, and of how many there are.
pub(crate) fn put_agenda_lines<K: Sink>(
    alloc: Global,
    rules: &RuleTable,
    agenda: &Agenda,
    out: &mut Out<K>,
) -> Result<(), Stop>
    requires { out.old.fault ≡ false }
    ensures { Puts K.writes out.old out.new (stop_extent result)
        (agenda_lines rules.now (agenda_list agenda.now.agenda)) }
{
    let activations = agenda.list()?;
    put_activation_lines(alloc, rules, activations.as_slice(), out)
}

fn put_activation_lines<K: Sink>(
    alloc: Global,
    rules: &RuleTable,
    activations: &[(Key, i64)],
    out: &mut Out<K>,
) -> Result<(), Stop>
    requires { out.old.fault ≡ false }
    ensures { Puts K.writes out.old out.new (stop_extent result)
        (agenda_lines rules.now activations.now) }
{
    put_activations(alloc, rules, activations, out)?;
    put_text(total_line(alloc, activations.len(), Noun::Activation), out)
}

/// Puts the names of all rules, each on a line, and the line of how many there are.
pub(crate) fn put_rule_lines<K: Sink>(
    alloc: Global,
    rules: &RuleTable,
    out: &mut Out<K>,
) -> Result<(), Stop>
    requires { out.old.fault ≡ false }
    ensures { Puts K.writes out.old out.new (stop_extent result) (rule_lines rules.now) }
{
    put_rules(rules, out)?;
    put_text(total_line(alloc, rules.len(), Noun::Defrule), out)
}

fn put_facts<K: Sink>(alloc: Global, facts: &FactList, out: &mut Out<K>) -> Result<(), Stop>
    requires { out.old.fault ≡ false }
    ensures { Puts K.writes out.old out.new (stop_extent result) (flat_map fact_line facts.now) }
{
    for (ix, fact) in facts.iter() {
        put_text(fact_line(alloc, *ix, fact), out)?;
    }
    Ok(())
}

fn put_activations<K: Sink>(
    alloc: Global,
    rules: &RuleTable,
    activations: &[(Key, i64)],
    out: &mut Out<K>,
) -> Result<(), Stop>
    requires { out.old.fault ≡ false }
    ensures { Puts K.writes out.old out.new (stop_extent result)
        (flat_map (agenda_line rules.now) activations.now) }
{
    for activation in activations {
        put_text(agenda_line(alloc, rules, activation), out)?;
    }
    Ok(())
}

fn put_rules<K: Sink>(rules: &RuleTable, out: &mut Out<K>) -> Result<(), Stop>
    requires { out.old.fault ≡ false }
    ensures { Puts K.writes out.old out.new (stop_extent result) (flat_map rule_line rules.now) }
{
    for rule in rules.iter() {
        put_rule(rule, out)?;
    }
    Ok(())
}

fn put_rule<K: Sink>(rule: &DefinedRule, out: &mut Out<K>) -> Result<(), Stop>
    requires { out.old.fault ≡ false }
    ensures { Puts K.writes out.old out.new (stop_extent result) (rule_line rule.now) }
{
    put_line(rule.name.as_slice(), out)
}

fn fact_line(alloc: Global, ix: u64, fact: &Fact) -> Result<Vec<u8>, NoMemory>
    ensures { IfOk result (λ line. line.items ≡ fact_line (ix, fact.now)) }
{
    let mut line = Vec::new(alloc);
    add_fact_line(alloc, &mut line, ix, fact)?;
    Ok(line)
}

fn agenda_line(
    alloc: Global,
    rules: &RuleTable,
    activation: &(Key, i64),
) -> Result<Vec<u8>, NoMemory>
    ensures { IfOk result (λ line. line.items ≡ agenda_line rules.now activation.now) }
{
    let mut line = Vec::new(alloc);
    add_agenda_line(alloc, &mut line, rules, &activation.0, activation.1)?;
    Ok(line)
}

fn total_line(alloc: Global, count: usize, noun: Noun) -> Result<Vec<u8>, NoMemory>
    ensures { IfOk result (λ line. line.items ≡ total_line count noun) }
{
    let mut line = Vec::new(alloc);
    add_total_line(&mut line, count, noun)?;
    Ok(line)
}
