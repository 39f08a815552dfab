//! What variables have by the partial match that a token stands for, and its parts.
ghost use Rattle.std.specs.Prelude.{◌≡◌, ◌++◌, ◌<◌, ℕ, [], IfOk, IfSome, MatchOption, Some, suc};
ghost use Rattle.cb_beta.specs.Tokens.{taken_value, with_taken};
ghost use Rattle.cb_matches.specs.Matches.{no_parts};
ghost use Rattle.cb_token_lists.specs.Internal.{parts_taken, with_path};
ghost use Rattle.cb_token_lists.specs.Partials.{partial_at, partial_in};

use crate::binding::bind_path;
use crate::parts::{
    LastTaken, four_parts, one_part, part_of, part_of_ones, three_parts, two_parts,
};
use crate::path::{Path, add_step};
use crate::source::Source;
use cb_beta::{BetaMemory, Token};
use cb_eval::Constants;
use cb_exprs::Env;
use cb_forms::NoMemory;
use cb_matches::MatchParts;
use smallvec::SmallVec;
use std::alloc::Global;

/// A branch with more lists is taken to have more than four parts.
const MOST_LISTS: usize = 4;

/// The lists of tokens of a branch, and what it takes to read them.
#[derive(Clone, Copy)]
pub struct TokenLists<'a> {
    /// Where memory is from.
    pub alloc: Global,
    /// The symbols that functions return.
    pub constants: &'a Constants,
    /// What each list but the first goes on from: the one behind list `k` has the number `k` here.
    pub sources: &'a [Source],
    /// The lists.
    pub lists: &'a [BetaMemory],
}

impl<'a> TokenLists<'a> {
    /// What variables have by the partial match with a number in a list. Growth is refused as `NoMemory`, and so is a count of
    /// sharers that is full. It takes some steps for each list that is gone down to, and no memory of its own where up to eight
    /// facts were taken.
    pub fn env(&self, list: usize, number: u32) -> Result<Env, NoMemory>
        ensures { IfOk result (λ env. env
            ≡ (partial_at self.now.sources.now self.now.lists.now list number).env) }
    {
        bind_path(self.alloc, self.path(list, number)?)
    }

    /// The parts of the partial match with a number in a list, where there are up to three, each of lengths that are 1; mostly nothing
    /// elsewhere. It takes some steps for each list that is gone down to, fewer than `parts`, and no memory.
    #[inline(always)]
    pub fn parts_of_ones(&self, list: usize, number: u32) -> Option<MatchParts>
        ensures { IfSome result (λ parts. parts
            ≡ (partial_at self.now.sources.now self.now.lists.now list number).parts) }
    {
        if list > MOST_LISTS {
            return None;
        }
        let Some(c) = self.last_taken(list, number, list + 1) else {
            return Some(MatchParts::none());
        };
        let last = part_of_ones(c.taken)?;
        let Some(b) = self.last_taken(c.list, c.number, c.left) else {
            return Some(MatchParts::one(last));
        };
        let middle = part_of_ones(b.taken)?;
        let Some(a) = self.last_taken(b.list, b.number, b.left) else {
            return Some(MatchParts::two([middle, last]));
        };
        let first = part_of_ones(a.taken)?;
        match self.last_taken(a.list, a.number, a.left) {
            None => Some(MatchParts::three([first, middle, last])),
            Some(_) => None,
        }
    }

    /// The parts of the partial match with a number in a list. Growth is refused as `NoMemory`, and so is a count of sharers that
    /// is full. It takes some steps for each list that is gone down to, and no memory where there are up to three parts.
    pub fn parts(&self, list: usize, number: u32) -> Result<MatchParts, NoMemory>
        ensures { IfOk result (λ parts. parts
            ≡ (partial_at self.now.sources.now self.now.lists.now list number).parts) }
    {
        if list > MOST_LISTS {
            return self.many_parts(list, number);
        }
        let Some(d) = self.last_taken(list, number, list + 1) else {
            return Ok(MatchParts::none());
        };
        let Some(c) = self.last_taken(d.list, d.number, d.left) else {
            return one_part(d.taken);
        };
        let Some(b) = self.last_taken(c.list, c.number, c.left) else {
            return two_parts(c.taken, d.taken);
        };
        let Some(a) = self.last_taken(b.list, b.number, b.left) else {
            return three_parts(b.taken, c.taken, d.taken);
        };
        match self.last_taken(a.list, a.number, a.left) {
            None => four_parts(self.alloc, a.taken, b.taken, c.taken, d.taken),
            Some(_) => self.many_parts(list, number),
        }
    }

    /// What was taken last on the way down from a token by at most so many lists, if anything was. By fewer lists it is gone on from there.
    #[inline(always)]
    fn last_taken(&self, list: usize, number: u32, left: usize) -> Option<LastTaken<'a>>
        ensures last { MatchOption result
            ((partial_in self.now.sources.now self.now.lists.now left list number).parts ≡ [])
            (λ last. (partial_in self.now.sources.now self.now.lists.now left list number).parts
            ≡ (partial_in self.now.sources.now self.now.lists.now last.left last.list last.number).parts
            ++ parts_taken (Some (taken_value last.taken))) }
        ensures left { IfSome result (λ last. last.left < left) }
    {
        let mut list = list;
        let mut number = number;
        let mut left = left;
        while left > 0 {
            let (source, token) = self.read(list, number)?;
            list = source.from as usize;
            number = token.parent();
            left -= 1;
            if let Some(taken) = token.taken() {
                return Some(LastTaken {
                    taken,
                    list,
                    number,
                    left,
                });
            }
        }
        None
    }

    /// The parts of a partial match of any number of parts. It is apart so that the usual case needs less of the stack.
    #[inline(never)]
    fn many_parts(&self, list: usize, number: u32) -> Result<MatchParts, NoMemory>
        ensures { IfOk result (λ parts. parts
            ≡ (partial_at self.now.sources.now self.now.lists.now list number).parts) }
    {
        if list >= self.lists.len() {
            return Ok(MatchParts::none());
        }
        let mut parts = SmallVec::new(self.alloc);
        let mut reached = list;
        let mut met = number;
        let mut left = list + 1;
        while let Some(last) = self.last_taken(reached, met, left) {
            parts.push(part_of(last.taken)?)?;
            reached = last.list;
            met = last.number;
            left = last.left;
        }
        parts.as_mut_slice().reverse();
        MatchParts::many(self.alloc, parts)
    }

    /// What was taken on the way down from a token. Growth is refused as `NoMemory`.
    fn path(&self, list: usize, number: u32) -> Result<Path<'a>, NoMemory>
        ensures { IfOk result (λ path. partial_at self.now.sources.now self.now.lists.now list number
            ≡ with_path path.items no_parts) }
    {
        let mut path = Path::new(self.alloc);
        let mut reached = list;
        let mut met = number;
        for _ in 0..=list {
            let Some((source, token)) = self.read(reached, met) else {
                return Ok(path);
            };
            add_step(&mut path, source, token)?;
            reached = source.from as usize;
            met = token.parent();
        }
        Ok(path)
    }

    /// What a list goes on from, and the token with a number in it; nothing before the first element, and where there is none.
    pub(crate) fn read(&self, list: usize, number: u32) -> Option<(&'a Source, &'a Token)>
        ensures { (n : ℕ) → MatchOption result
            (partial_in self.now.sources.now self.now.lists.now n list number ≡ no_parts)
            (λ r. partial_in self.now.sources.now self.now.lists.now (suc n) list number
            ≡ with_taken r.0.now.address r.1.now.taken
            (partial_in self.now.sources.now self.now.lists.now n r.0.now.from r.1.now.parent)) }
    {
        if list == 0 {
            return None;
        }
        let source = self.sources.get(list - 1)?;
        let token = self.lists.get(list)?.token(number)?;
        Some((source, token))
    }
}
