//! Places of fields in a fact.
ghost use Rattle.std.specs.Prelude.{◌≡◌, ◌∷◌, [], IfOk};
ghost use Rattle.std.specs.Cmp.Lexicographic.{pointwise, slice_cmp, slice_partial_cmp, lists_equiv, lists_agrees, lists_total, lists_ties, lists_per, lists_po};
ghost use Rattle.cb_alpha_network.specs.Wanted.{values_at};
ghost use Rattle.cb_fit.specs.contracts.field_place.FieldPlacePartialEq.TheImpl.Laws as place_partial_eq;
ghost use Rattle.cb_fit.specs.contracts.field_place.FieldPlaceEq.TheImpl.Laws as place_eq;
ghost use Rattle.cb_fit.specs.contracts.field_place.FieldPlacePartialOrd.TheImpl.Laws as place_partial_ord;
ghost use Rattle.cb_fit.specs.contracts.field_place.FieldPlaceOrd.TheImpl.Laws as place_ord;

use cb_alpha::JoinValues;
use cb_facts::Fact;
use cb_fit::FieldPlace;
use cb_forms::NoMemory;
use std::alloc::{AllocError, Global};
use std::cmp::Ordering;
use std::marker::Model;
use std::rc::RcSlice;

/// Places of fields in a fact, in an order. No places take no memory. Contracts see their list.
#[derive(Drop)]
pub(crate) struct FieldPlaces {
    /// `None` where there are none.
    shared: Option<RcSlice<FieldPlace>>,
}

impl Model for FieldPlaces {
    ghost use Rattle.std.specs.Prelude.{List};
    ghost use Rattle.cb_alpha_network.specs.KeptPlaces.{places_in};
    ghost use Rattle.cb_fit.specs.declared.field_place.FieldPlace.{FieldPlace as Place};

    ghost Value = { List Place };

    ghost view = { λ p. places_in p.shared };
}

impl FieldPlaces {
    /// These places, taken over.
    pub(crate) fn from_vec(places: Vec<FieldPlace>) -> Result<FieldPlaces, NoMemory>
        ensures { IfOk result (λ p. p ≡ places.items) }
    {
        if places.is_empty() {
            return Ok(FieldPlaces::none());
        }
        Ok(FieldPlaces {
            shared: Some(RcSlice::from_vec(places)?),
        })
    }

    /// No places.
    pub(crate) fn none() -> FieldPlaces
        ensures { result ≡ [] }
    {
        FieldPlaces { shared: None }
    }

    /// The places.
    fn as_slice(&self) -> &[FieldPlace]
        ensures { result.now ≡ self.now }
    {
        match &self.shared {
            Some(shared) => shared.as_slice(),
            None => &[],
        }
    }

    /// The values of a fact there, or `None` where it lacks one.
    pub(crate) fn values_in(
        &self,
        alloc: Global,
        fact: &Fact,
    ) -> Result<Option<JoinValues>, NoMemory>
        ensures { IfOk result (λ found. found ≡ values_at self.now fact.now.content) }
    {
        match self.as_slice() {
            [place] => value_in(place, fact),
            [first, second] => values_in_two(first, second, fact),
            places => values_in_many(alloc, places, fact),
        }
    }
}

/// The values of a fact at any number of places.
fn values_in_many(
    alloc: Global,
    places: &[FieldPlace],
    fact: &Fact,
) -> Result<Option<JoinValues>, NoMemory>
    ensures { IfOk result (λ found. found ≡ values_at places.now fact.now.content) }
{
    let mut values = Vec::with_capacity(alloc, places.len())?;
    for place in places {
        match place.value_in(fact)? {
            Some(value) => values.push(value)?,
            None => return Ok(None),
        }
    }
    Ok(Some(JoinValues::many(values)))
}

/// The values of a fact at two places.
fn values_in_two(
    first: &FieldPlace,
    second: &FieldPlace,
    fact: &Fact,
) -> Result<Option<JoinValues>, NoMemory>
    ensures { IfOk result (λ found. found ≡ values_at (first.now ∷ second.now ∷ []) fact.now.content) }
{
    let Some(first) = first.value_in(fact)? else {
        return Ok(None);
    };
    match second.value_in(fact)? {
        Some(second) => Ok(Some(JoinValues::two([first, second]))),
        None => Ok(None),
    }
}

/// The value of a fact at one place.
fn value_in(place: &FieldPlace, fact: &Fact) -> Result<Option<JoinValues>, NoMemory>
    ensures { IfOk result (λ found. found ≡ values_at (place.now ∷ []) fact.now.content) }
{
    match place.value_in(fact)? {
        Some(value) => Ok(Some(JoinValues::one(value))),
        None => Ok(None),
    }
}

impl Clone for FieldPlaces {
    ghost use Rattle.std.specs.Prelude.{◌≡◌};

    ghost is_clone = { λ places copy. copy ≡ places };

    fn clone(&self) -> Result<FieldPlaces, AllocError> {
        match &self.shared {
            Some(shared) => Ok(FieldPlaces {
                shared: Some(shared.clone()?),
            }),
            None => Ok(FieldPlaces::none()),
        }
    }
}

impl PartialEq for FieldPlaces {
    ghost eq = { pointwise ⟦<FieldPlace as PartialEq>⟧.eq };

    ghost laws = { lists_per place_partial_eq.laws-law };

    fn eq(&self, other: &FieldPlaces) -> bool {
        self.as_slice() == other.as_slice()
    }
}

impl Eq for FieldPlaces {
    ghost laws = { lists_equiv place_eq.laws-law };
}

impl PartialOrd for FieldPlaces {
    ghost partial_cmp = { slice_partial_cmp ⟦<FieldPlace as PartialOrd>⟧.partial_cmp };

    ghost laws = { lists_po place_partial_ord.laws-law };

    fn partial_cmp(&self, other: &FieldPlaces) -> Option<Ordering> {
        self.as_slice().partial_cmp(other.as_slice())
    }
}

impl Ord for FieldPlaces {
    ghost cmp = { slice_cmp ⟦<FieldPlace as Ord>⟧.cmp };

    ghost total = { lists_total place_ord.total-law };

    ghost matches_partial_cmp = { λ x y. lists_agrees place_ord.matches_partial_cmp-law x y };

    ghost matches_eq = { λ x y. lists_ties ⟦<FieldPlace as Ord>⟧.cmp place_ord.matches_eq-law x y };

    fn cmp(&self, other: &FieldPlaces) -> Ordering {
        self.as_slice().cmp(other.as_slice())
    }
}
