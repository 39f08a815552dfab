//! The values of the variables that facts and partial matches are joined on.
ghost use Rattle.std.specs.Prelude.{◌≡◌, ◌∷◌, [], IfOk};
ghost use Rattle.std.specs.Cmp.Lexicographic.{pointwise, slice_cmp, slice_partial_cmp, lists_equiv, lists_agrees, lists_total, lists_ties, lists_per, lists_po};
ghost use Rattle.cb_alpha.specs.Mixes.{mix_of};
ghost use Rattle.cb_facts.specs.contracts.value.ValuePartialEq.TheImpl.Laws as value_partial_eq;
ghost use Rattle.cb_facts.specs.contracts.value.ValueEq.TheImpl.Laws as value_eq;
ghost use Rattle.cb_facts.specs.contracts.value.ValuePartialOrd.TheImpl.Laws as value_partial_ord;
ghost use Rattle.cb_facts.specs.contracts.value.ValueOrd.TheImpl.Laws as value_ord;

use cb_facts::Value;
use cb_forms::NoMemory;
use cb_number_map::{key_of, mixed};
use std::alloc::Global;
use std::cmp::Ordering;
use std::marker::Model;

/// Where the values stand: up to three in place, as most patterns are joined on no more variables.
#[derive(Drop)]
enum Kept {
    One([Value; 1]),
    Two([Value; 2]),
    Three([Value; 3]),
    Many(Vec<Value>),
}

/// Values of variables, in the order of the fields that have to be equal to them.
///
/// Up to three values take no memory of their own. Contracts see the list of the values. They compare value by value.
#[derive(Drop)]
pub struct JoinValues {
    kept: Kept,
}

impl Model for JoinValues {
    ghost use Rattle.std.specs.Prelude.{List};
    ghost use Rattle.cb_facts.specs.declared.value.Value.{Value as Joined};
    ghost use Rattle.cb_alpha.specs.Internal.{values_in};

    ghost Value = { List Joined };

    ghost view = { λ v. values_in v.kept };
}

impl JoinValues {
    /// One value.
    pub fn one(value: Value) -> JoinValues
        ensures { result ≡ value ∷ [] }
    {
        JoinValues {
            kept: Kept::One([value]),
        }
    }

    /// Two values.
    pub fn two(values: [Value; 2]) -> JoinValues
        ensures { result ≡ values }
    {
        JoinValues {
            kept: Kept::Two(values),
        }
    }

    /// Three values.
    pub fn three(values: [Value; 3]) -> JoinValues
        ensures { result ≡ values }
    {
        JoinValues {
            kept: Kept::Three(values),
        }
    }

    /// These values, taken over.
    pub fn many(values: Vec<Value>) -> JoinValues
        ensures { result ≡ values.items }
    {
        JoinValues {
            kept: Kept::Many(values),
        }
    }

    /// A number that depends on the values alone, and that few other values have.
    #[tactic(auto, unfolding(crate::specs::Mixes::mix_of))]
    pub fn mix(&self) -> u32
        ensures { result ≡ mix_of self.now }
    {
        let mut mix = 0;
        for value in self.as_slice() {
            mix = mixed(mix, value.mix());
        }
        key_of(mix)
    }

    /// The same values. Growth is refused as `NoMemory`.
    pub fn copy(&self, alloc: Global) -> Result<JoinValues, NoMemory>
        ensures { IfOk result (λ copy. copy ≡ self.now) }
    {
        match &self.kept {
            Kept::One([value]) => Ok(JoinValues::one(value.clone()?)),
            Kept::Two([first, second]) => Ok(JoinValues::two([first.clone()?, second.clone()?])),
            Kept::Three([first, second, third]) => three_copied(first, second, third),
            Kept::Many(values) => Ok(JoinValues::many(copied(alloc, values.as_slice())?)),
        }
    }

    /// The values.
    pub fn as_slice(&self) -> &[Value]
        ensures { result.now ≡ self.now }
    {
        match &self.kept {
            Kept::One(value) => value.as_slice(),
            Kept::Two(values) => values.as_slice(),
            Kept::Three(values) => values.as_slice(),
            Kept::Many(values) => values.as_slice(),
        }
    }
}

/// Three values, each copied. It is refused as `NoMemory` only where a count of sharers is full.
fn three_copied(first: &Value, second: &Value, third: &Value) -> Result<JoinValues, NoMemory>
    ensures { IfOk result (λ copy. copy ≡ first.now ∷ second.now ∷ third.now ∷ []) }
{
    let first = first.clone()?;
    let second = second.clone()?;
    let third = third.clone()?;
    Ok(JoinValues::three([first, second, third]))
}

/// A list of the same values. Growth is refused as `NoMemory`.
fn copied(alloc: Global, values: &[Value]) -> Result<Vec<Value>, NoMemory>
    ensures { IfOk result (λ copy. copy.items ≡ values.now) }
{
    let mut copy = Vec::with_capacity(alloc, values.len())?;
    for value in values {
        copy.push(value.clone()?)?;
    }
    Ok(copy)
}

impl PartialEq for JoinValues {
    ghost eq = { pointwise ⟦<Value as PartialEq>⟧.eq };

    ghost laws = { lists_per value_partial_eq.laws-law };

    fn eq(&self, other: &JoinValues) -> bool {
        match (&self.kept, &other.kept) {
            (Kept::One([one]), Kept::One([another])) => one == another,
            (Kept::Two([a, b]), Kept::Two([c, d])) => a == c && b == d,
            (Kept::Three([a, b, c]), Kept::Three([d, e, f])) => a == d && b == e && c == f,
            _ => self.as_slice() == other.as_slice(),
        }
    }
}

impl Eq for JoinValues {
    ghost laws = { lists_equiv value_eq.laws-law };
}

impl PartialOrd for JoinValues {
    ghost partial_cmp = { slice_partial_cmp ⟦<Value as PartialOrd>⟧.partial_cmp };

    ghost laws = { lists_po value_partial_ord.laws-law };

    fn partial_cmp(&self, other: &JoinValues) -> Option<Ordering> {
        self.as_slice().partial_cmp(other.as_slice())
    }
}

impl Ord for JoinValues {
    ghost cmp = { slice_cmp ⟦<Value as Ord>⟧.cmp };

    ghost total = { lists_total value_ord.total-law };

    ghost matches_partial_cmp = { λ x y. lists_agrees value_ord.matches_partial_cmp-law x y };

    ghost matches_eq = { λ x y. lists_ties ⟦<Value as Ord>⟧.cmp value_ord.matches_eq-law x y };

    fn cmp(&self, other: &JoinValues) -> Ordering {
        match (&self.kept, &other.kept) {
            (Kept::One([one]), Kept::One([another])) => one.cmp(another),
            _ => self.as_slice().cmp(other.as_slice()),
        }
    }
}
