//! What there is where an item is read.
ghost use Rattle.std.specs.Prelude.{◌≡◌, IfOk};
ghost use Rattle.cb_requests.specs.Uses.{has_name, is_in_use, is_named_in_rules};

use cb_exprs::Env;
use cb_facts::Name;
use cb_forms::NoMemory;
use cb_knowledge_base::{DeffactsTable, KnowledgeBase, Mark};
use cb_matches::Matcher;
use cb_rules::RuleTable;
use cb_templates::Relations;

/// The state that reading an item depends on.
#[derive(Drop)]
pub struct Context<'a, M: Matcher<Mark>> {
    /// The templates.
    pub relations: &'a Relations,
    /// The variables and the globals that have a value.
    pub env: &'a Env,
    /// The facts.
    pub memory: &'a KnowledgeBase<M>,
    /// What is kept of the rules besides their conditions.
    pub rules: &'a RuleTable,
    /// The facts of each `deffacts`.
    pub deffacts: &'a DeffactsTable,
}

impl<M: Matcher<Mark>> Context<'_, M> {
    /// Whether a relation is in use, so that no template may be defined for it: a fact that is there, a rule or a fact of a
    /// `deffacts` names it. It looks at each relation that the rules name, and takes logarithmic time besides. `NoMemory`
    /// comes only where the knowledge base was refused memory before.
    pub(crate) fn is_in_use(&self, relation: &Name) -> Result<bool, NoMemory>
        ensures { IfOk result (λ it. it ≡ is_in_use self.now.memory.now.memory self.now.rules.now
            self.now.deffacts.now relation.now) }
    {
        let of_fact = self.memory.mentions(relation)?;
        Ok(of_fact || is_named(self.rules, relation) || self.deffacts.mentions(relation))
    }
}

/// Whether a rule names a relation.
fn is_named(rules: &RuleTable, relation: &Name) -> bool
    ensures { result ≡ is_named_in_rules relation.now rules.now }
{
    for rule in rules.iter() {
        if has_name(rule.relations.as_slice(), relation) {
            return true;
        }
    }
    false
}

/// Whether a name is among these.
fn has_name(names: &[Name], wanted: &Name) -> bool
    ensures { result ≡ has_name wanted.now names.now }
{
    for name in names {
        if name == wanted {
            return true;
        }
    }
    false
}
