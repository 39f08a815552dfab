//! Laws of what goes on from a partial match before a group: each is the contract of a function that does nothing.
ghost use Rattle.std.specs.Prelude.{◌≡◌, ◌↔◌, ℕ, List, true};
ghost use Rattle.cb_beta.specs.BetaMemories.{BetaMemoryValue};
ghost use Rattle.cb_group_node.specs.Outer.{AreOneByParts};
ghost use Rattle.cb_nodes.specs.Flat.{begins};
ghost use Rattle.cb_token_lists.specs.Partials.{AreBelow, Extends, Meets, SourceValue, partial_at};
ghost use Rattle.cb_token_lists.specs.Turns.{IsReadable};

/// Where one token of the list before a group is met by going down from a token inside it, what this stands for goes on, by its
/// parts, from the first alone of those that can be read there.
pub fn what_goes_on_by_its_parts_is_what_is_met()
    ensures { (sources : List SourceValue) (lists : List BetaMemoryValue) → AreBelow sources
        → (width from inner a g i : ℕ) (before : BetaMemoryValue)
        → AreOneByParts (partial_at sources lists from) before width
        → IsReadable before a → IsReadable before g → Meets sources lists from a inner i
        → (begins (partial_at sources lists from g).parts (partial_at sources lists inner i) ≡ true)
        ↔ Meets sources lists from g inner i }
{}

/// Where a token of the list before a group is met, it and no other one is met as long as what could be read can be read.
pub fn what_is_met_stays()
    ensures { (sources : List SourceValue) (lists lists' : List BetaMemoryValue) → AreBelow sources → Extends lists lists'
        → (from inner a g i : ℕ) → Meets sources lists from a inner i
        → Meets sources lists' from g inner i ↔ Meets sources lists from g inner i }
{}
