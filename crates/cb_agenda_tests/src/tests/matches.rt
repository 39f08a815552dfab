//! Matches for tests. Eight belong to one rule, and one in five has the same number.
ghost use Rattle.std.specs.Prelude.{◌≡◌, IfOk};
ghost use Rattle.cb_agenda_tests.specs.Numbering.{IsOwn, number_of};
ghost use Rattle.cb_matches.specs.Changes.{HaveNumbers};

use cb_forms::NoMemory;
use cb_matches::{Cuts, Delta, Key, MatchParts, Part};
use std::alloc::Global;

pub fn key(which: u64) -> Key {
    let part = Part {
        index: which,
        cuts: Cuts::none(),
    };
    Key::of(which / 8, 0, MatchParts::one(part))
}

/// Which match has this key.
pub fn which(key: &Key) -> u64 {
    match key.parts().first() {
        Some(part) => part.index,
        None => 0,
    }
}

/// The number of the match with this key.
pub fn number_of(key: &Key) -> u32
    ensures { result ≡ number_of key.now }
{
    match key.parts().first() {
        Some(part) => (part.index % 5) as u32,
        None => 0,
    }
}

/// The keys of matches, and their numbers.
fn numbered(alloc: Global, matches: &[u64]) -> Result<(Vec<Key>, Vec<u32>), NoMemory>
    ensures { IfOk result (λ both. HaveNumbers IsOwn both.0.items both.1.items) }
{
    let mut keys = Vec::new(alloc);
    let mut numbers = Vec::new(alloc);
    for which in matches {
        let key = key(*which);
        numbers.push(number_of(&key))?;
        keys.push(key)?;
    }
    Ok((keys, numbers))
}

/// The change by which these matches go and those come.
pub fn delta(alloc: Global, gone: &[u64], come: &[u64]) -> Result<Delta, NoMemory>
    ensures gone { IfOk result (λ d. HaveNumbers IsOwn d.gone.items d.gone_numbers.items) }
    ensures come { IfOk result (λ d. HaveNumbers IsOwn d.come.items d.come_numbers.items) }
{
    let (gone, gone_numbers) = numbered(alloc, gone)?;
    let (come, come_numbers) = numbered(alloc, come)?;
    Ok(Delta {
        gone,
        come,
        gone_numbers,
        come_numbers,
    })
}
