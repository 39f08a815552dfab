//! Laws of what goes and comes: each is the contract of a function that does nothing.
ghost use Rattle.std.specs.Prelude.{List, []};
ghost use Rattle.cb_matches.specs.Matches.{Partial};
ghost use Rattle.cb_nodes.specs.Changes.{PartialMoves};

/// Where a list stays as it is, nothing goes and nothing comes.
pub fn what_stays_moves_nothing()
    ensures { (ms : List Partial) → PartialMoves ms ms [] [] }
{}

/// Seen from the new list, what came goes, and what went comes.
pub fn a_change_turns_round()
    ensures { (old new gone come : List Partial) → PartialMoves old new gone come → PartialMoves new old come gone }
{}
