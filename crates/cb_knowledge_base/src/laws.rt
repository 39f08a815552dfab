//! Laws of the knowledge base: each is the contract of a function that does nothing.
ghost use Rattle.std.specs.Prelude.{◌≡◌, ◌≤◌, ℕ, None, Some};
ghost use Rattle.cb_facts.specs.FactLists.{ChangesOnly, IndexedFacts, IsAbsent, IsFactBase, fact_at};
ghost use Rattle.cb_facts.specs.Facts.{FactValue};
ghost use Rattle.cb_knowledge_base.specs.KnowledgeBase.{Memory, grown, index_of, put_back};
ghost use Rattle.cb_knowledge_base.specs.Laws.{Keeps, NoneAfter};

/// Where the indices rise and no two facts are equal, a fact is found at the index at which it stands, and at none where it
/// is absent.
pub fn a_fact_is_found_at_its_index()
    ensures there { (facts : IndexedFacts) (fact : FactValue) (ix : ℕ)
        → IsFactBase facts → fact_at facts ix ≡ Some fact → index_of facts fact ≡ Some ix }
    ensures absent { (facts : IndexedFacts) (fact : FactValue)
        → IsFactBase facts → IsAbsent facts fact → index_of facts fact ≡ None }
{}

/// Where no fact has an index after the one given last, a fact that is added takes no fact away and changes no index, and it
/// has an index after that one; then again no fact has an index after the last.
pub fn what_is_added_keeps_the_others()
    ensures { (m : Memory) (fact : FactValue) → NoneAfter m → Keeps m (grown fact m) }
{}

/// Where no fact has an index after the one given last, a fact that comes back under an index up to that one is found there; each other
/// look-up is as it was, and again no fact has an index after the last.
pub fn what_comes_back_keeps_the_others()
    ensures only { (m : Memory) (fact : FactValue) (ix : ℕ)
        → ChangesOnly (fact_at m.network.facts) (fact_at (put_back ix fact m).network.facts) ix
        (Some fact) }
    ensures none_after { (m : Memory) (fact : FactValue) (ix : ℕ) → NoneAfter m → ix ≤ m.last
        → NoneAfter (put_back ix fact m) }
{}
