//! A token: what a partial match adds to the one that it goes on from.
ghost use Rattle.std.specs.Prelude.{◌≡◌, None, Some};
ghost use Rattle.std.specs.Option.{option_map};
ghost use Rattle.cb_beta.specs.Tokens.{candidate_of, taken_value};

use crate::given::{Given, Gives, Held};
use cb_fit::Cuts;
use std::marker::Model;

/// What a partial match adds to the one that it goes on from.
#[derive(Drop)]
pub struct Token {
    parent: u32,
    /// The number of the fact among the candidates of the pattern; any number where no fact is taken, as below.
    candidate: u32,
    /// The index of the fact.
    index: u64,
    /// What it gives variables: the way in which the pattern fits the fact. A test and a group take no fact.
    held: Held,
}

impl Model for Token {
    ghost use Rattle.cb_beta.specs.Tokens.{TokenValue, taken_in};

    ghost Value = { TokenValue };

    ghost view = { λ t. record { parent = t.parent; taken = taken_in t.candidate t.index t.held } };
}

/// What a token took, to read.
#[derive(Clone, Copy)]
pub struct Taken<'a> {
    /// The number of the fact among the candidates of the pattern.
    pub candidate: u32,
    /// The index of the fact.
    pub index: u64,
    /// The lengths of the segments into which the pattern cuts the fact.
    pub cuts: &'a Cuts,
    /// What it gives variables.
    pub given: Gives<'a>,
}

impl Token {
    /// A token that takes no fact, and goes on from the one with this number, in a list before.
    pub fn bare(parent: u32) -> Token
        ensures { result ≡ record { parent = parent; taken = None } }
    {
        Token {
            parent,
            candidate: 0,
            index: 0,
            held: Held::Nothing,
        }
    }

    /// A token that takes the fact with this index, which has this number among the candidates of its pattern, in this way.
    pub fn with(parent: u32, candidate: u32, index: u64, given: Given) -> Token
        ensures { result ≡ record {
          parent = parent;
          taken = Some (record { candidate = candidate; index = index; way = given });
        } }
    {
        Token {
            parent,
            candidate,
            index,
            held: given.into_held(),
        }
    }

    /// The number of the token that it goes on from, in a list before.
    pub fn parent(&self) -> u32
        ensures { result ≡ self.now.parent }
    {
        self.parent
    }

    /// The number of the fact that it took, if it took one.
    pub fn candidate(&self) -> Option<u32>
        ensures { result ≡ candidate_of self.now }
    {
        match &self.held {
            Held::Nothing => None,
            _ => Some(self.candidate),
        }
    }

    /// What it took, if it took a fact.
    pub fn taken(&self) -> Option<Taken<'_>>
        ensures { option_map taken_value result ≡ self.now.taken }
    {
        let cuts = match &self.held {
            Held::Nothing => return None,
            Held::Found(way) => &way.cuts,
            Held::Fields(taken, _) => taken.cuts(),
        };
        Some(Taken {
            candidate: self.candidate,
            index: self.index,
            cuts,
            given: Gives { held: &self.held },
        })
    }
}
