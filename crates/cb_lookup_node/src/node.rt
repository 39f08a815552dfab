//! A change of a group of one pattern that is looked up.
ghost use Rattle.std.specs.Prelude.{◌≡◌, ℕ, [], IfOk, List, OnOk, Option, Some, slice_get, true};
ghost use Rattle.cb_beta.specs.BetaMemories.{BetaMemoryValue};
ghost use Rattle.cb_facts.specs.FactLists.{IndexedFacts};
ghost use Rattle.cb_facts.specs.Facts.{FactValue};
ghost use Rattle.cb_fit.specs.Comparisons.{choice_fields, compared_fields, conditions, is_decided};
ghost use Rattle.cb_fit.specs.JoinFields.{join_fields};
ghost use Rattle.cb_lookup_node.specs.LookupNodes.{AsksTheSame, IsAfterLookup, IsBeforeLookup, IsLookup, IsLookupReady};
ghost use Rattle.cb_matches.specs.Matches.{Partial};
ghost use Rattle.cb_scopes.specs.Decided.{known_fields};
ghost use Rattle.cb_scopes.specs.Scopes.{Scope};
ghost use Rattle.cb_token_lists.specs.Keeping.{KeepsTokens};
ghost use Rattle.cb_token_lists.specs.Partials.{partial_at};

use crate::sight::Sight;
use cb_alpha::AlphaMemory;
use cb_beta::BetaMemory;
use cb_fit::{ComparedField, JoinField, Pattern};
use cb_forms::NoMemory;
use cb_scopes::laws::{
    a_group_of_a_decided_pattern_holds_by_values, facts_agree_by_the_values_of_known_fields,
};
use cb_token_lists::TokenLists;
use std::alloc::Global;

/// A group of one pattern that is looked up, behind a list: it passes on the partial matches for which "a fact is seen by the values that
/// they give to the fields" is `positive`.
#[derive(Drop)]
pub struct LookupNode<T> {
    /// The number of the list before it.
    pub from: usize,
    /// Whether it passes on where there is a fact, or where there is none.
    pub positive: bool,
    /// The number of the join of the pattern's alpha memory that finds facts by the fields.
    pub join: usize,
    /// The fields of a fact by which facts are found: those that have to be equal to variables that have values before, and behind them
    /// the one that is compared by order, if one is.
    pub fields: Vec<JoinField>,
    /// How it is known for which of the partial matches before it there is a fact, in a block of its own, so that other nodes have no
    /// place for it.
    pub(crate) sight: Box<Sight>,
    /// The pattern.
    pub pattern: Pattern<T>,
    /// Where memory is from.
    pub(crate) alloc: Global,
}

impl<T> LookupNode<T> {
    /// A group behind the list `from`, with no partial matches before it yet, whose pattern has these fields that have to be equal to
    /// variables with values before, and compares those. The join has to be set when the alpha memory has it. Growth is refused as
    /// `NoMemory`.
    pub fn new(
        alloc: Global,
        from: usize,
        positive: bool,
        pattern: Pattern<T>,
        known: Vec<JoinField>,
        compared: Vec<ComparedField>,
    ) -> Result<LookupNode<T>, NoMemory>
        ensures from { IfOk result (λ node. node.from ≡ from) }
        ensures positive { IfOk result (λ node. node.positive ≡ positive) }
        ensures pattern { IfOk result (λ node. node.pattern ≡ pattern) }
        ensures lookup { IfOk result (λ node. (names : Scope) → is_decided pattern ≡ true
            → choice_fields pattern.parts ≡ [] → conditions pattern.parts ≡ []
            → known.items ≡ known_fields (join_fields pattern.parts) names
            → compared.items ≡ compared_fields pattern.parts → IsLookup names node) }
        ensures ready { IfOk result (λ node. (names : Scope) (at : ℕ → Partial) (facts : ℕ → Option (ℕ × FactValue))
            → IsLookup names node
            → IsLookupReady node names at (λ number. ⊥) facts (record { tokens = []; gone = []; come = [] })) }
    {
        let mut fields = known;
        let sight = Sight::new(alloc, compared, &mut fields)?;
        let sight = Box::new(alloc, sight)?;
        Ok(LookupNode {
            alloc,
            from,
            positive,
            pattern,
            join: 0,
            fields,
            sight,
        })
    }

    /// Whether facts are looked up by ranges of values, so that the join of the alpha memory should keep them in order.
    pub fn takes_ranges(&self) -> bool {
        self.sight.takes_ranges()
    }

    /// No partial matches are before it any more, as in a new one. It takes no memory.
    pub fn clear(&mut self)
        ensures same { AsksTheSame self.old self.new }
        ensures ready { (names : Scope) (at : ℕ → Partial) (facts : ℕ → Option (ℕ × FactValue))
            → IsLookup names self.old → IsLookupReady self.new names at (λ number. ⊥) facts (record { tokens = []; gone = []; come = [] }) }
    {
        self.sight.clear(self.alloc);
    }

    /// Changes the tokens behind the group, in `own`. The list before it has changed already, and the alpha memory of the pattern is as
    /// it is after the change. Growth is refused as `NoMemory`, and so is a count of sharers that is full; then some of the change may be
    /// done.
    pub fn change(
        &mut self,
        lists: &TokenLists<'_>,
        alpha: &AlphaMemory,
        own: &mut BetaMemory,
    ) -> Result<(), NoMemory>
        ensures same { AsksTheSame self.old self.new }
        ensures after { OnOk result ((names : Scope) (before : BetaMemoryValue) (fs fs' : IndexedFacts) (old new : List Partial)
            → slice_get lists.now.lists.now self.old.from ≡ Some before
            → IsBeforeLookup self.old names (partial_at lists.now.sources.now lists.now.lists.now self.old.from)
            before alpha.now own.old fs fs' old new
            → IsAfterLookup self.new names (partial_at lists.now.sources.now lists.now.lists.now self.old.from)
            before alpha.now own.new fs fs' old new) }
        ensures keeps { OnOk result (KeepsTokens own.old own.new) }
    {
        facts_agree_by_the_values_of_known_fields();
        a_group_of_a_decided_pattern_holds_by_values();
        let Some(before) = lists.lists.get(self.from) else {
            return Ok(());
        };
        if before.is_empty() {
            return Ok(());
        }
        own.remove_all_children(before.gone())?;
        self.sight.change(
            lists,
            self.from,
            self.fields.as_slice(),
            self.positive,
            alpha,
            self.join,
            before,
            own,
        )
    }
}
