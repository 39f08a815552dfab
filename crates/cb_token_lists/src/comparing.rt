//! Whether a partial match has these parts.
ghost use Rattle.std.specs.Prelude.{◌≡◌, ◌≢◌, ◌↔◌, List, MatchOption, Option, true, ℕ};
ghost use Rattle.std.specs.Option.{option_map};
ghost use Rattle.cb_beta.specs.Tokens.{taken_value, with_taken};
ghost use Rattle.cb_matches.specs.Matches.{Partial};
ghost use Rattle.cb_token_lists.specs.Partials.{partial_at};

use crate::reading::TokenLists;
use cb_beta::Taken;
use cb_matches::Part;

impl TokenLists<'_> {
    /// Whether the partial match with a number in a list has just these parts; where there is no such token, whether there are none.
    /// It takes some steps for each list that is gone down to, until a part differs, and no memory.
    pub fn has_parts(&self, list: usize, number: u32, parts: &[Part]) -> bool
        ensures { (result ≡ true)
            ↔ ((partial_at self.now.sources.now self.now.lists.now list number).parts ≡ parts.now) }
    {
        let mut left = parts;
        let mut reached = list;
        let mut met = number;
        for _ in 0..=list {
            let Some((source, token)) = self.read(reached, met) else {
                return left.is_empty();
            };
            let Some(before) = before_taken(left, token.taken()) else {
                return false;
            };
            left = before;
            reached = source.from as usize;
            met = token.parent();
        }
        left.is_empty()
    }
}

/// The parts before the one that a token took; all where it took none, and nothing where the last is another.
fn before_taken<'a>(parts: &'a [Part], taken: Option<Taken<'_>>) -> Option<&'a [Part]>
    ensures { (x : Option (List ℕ)) (m : Partial) → MatchOption result
        ((with_taken x (option_map taken_value taken.entry) m).parts ≢ parts.now)
        (λ before. ((with_taken x (option_map taken_value taken.entry) m).parts ≡ parts.now) ↔ (m.parts ≡ before.now)) }
{
    let Some(taken) = taken else {
        return Some(parts);
    };
    let (last, before) = parts.split_last()?;
    if last.index == taken.index && last.cuts == *taken.cuts {
        Some(before)
    } else {
        None
    }
}
