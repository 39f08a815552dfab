//! The partial matches before a pattern, by the values that they are joined on.
ghost use Rattle.std.specs.Prelude.{◌≡◌, ℕ, None, OnErr, OnOk, Some};
ghost use Rattle.cb_alpha.specs.Buckets.{AreSameFilings, AreWithValues, Refiles, values_at};
ghost use Rattle.cb_join_node.specs.Filings.{filing_in};

use cb_alpha::{Buckets, JoinValues};
use cb_forms::NoMemory;
use std::alloc::Global;
use std::marker::Model;

/// The partial matches before a pattern, by the values that they are joined on. Before the first is filed they take no memory, so that
/// rules for which nothing is there take little.
///
/// Contracts see the values of each.
#[derive(Drop)]
pub(crate) struct Partials {
    alloc: Global,
    buckets: Option<Box<Buckets>>,
}

impl Model for Partials {
    ghost use Rattle.cb_alpha.specs.Buckets.{Filing};
    ghost use Rattle.cb_join_node.specs.Filings.{filing_in};

    ghost Value = { Filing };

    ghost view = { λ p. filing_in p.buckets };
}

impl Partials {
    /// None is filed. It takes no memory.
    pub(crate) fn new(alloc: Global) -> Partials
        ensures { (number : ℕ) → values_at result number ≡ None }
    {
        Partials {
            alloc,
            buckets: None,
        }
    }

    /// Those with these values.
    pub(crate) fn members_with(&self, values: &JoinValues) -> &[u32]
        ensures { AreWithValues self.now values.now result.now }
    {
        match &self.buckets {
            Some(buckets) => buckets.members_with(values),
            None => &[],
        }
    }

    /// Files one that isn't filed. Growth is refused as `NoMemory`, and then nothing has changed.
    pub(crate) fn add(&mut self, number: u32, values: JoinValues) -> Result<(), NoMemory>
        requires { values_at self.old number ≡ None }
        ensures ok { OnOk result (Refiles self.old self.new number (Some values)) }
        ensures err { OnErr result (AreSameFilings self.old self.new) }
    {
        add_to(self.alloc, &mut self.buckets, number, values)
    }

    /// Takes one out, if it is filed.
    pub(crate) fn remove(&mut self, number: u32)
        ensures { Refiles self.old self.new number None }
    {
        remove_from(&mut self.buckets, number);
    }
}

/// Files one that isn't filed.
fn add_to(
    alloc: Global,
    buckets: &mut Option<Box<Buckets>>,
    number: u32,
    values: JoinValues,
) -> Result<(), NoMemory>
    requires { values_at (filing_in buckets.old) number ≡ None }
    ensures ok { OnOk result
        (Refiles (filing_in buckets.old) (filing_in buckets.new) number (Some values)) }
    ensures err { OnErr result (AreSameFilings (filing_in buckets.old) (filing_in buckets.new)) }
{
    match buckets {
        Some(buckets) => buckets.add(number, values),
        None => {
            let mut first = Box::new(alloc, Buckets::new(alloc))?;
            first.add(number, values)?;
            *buckets = Some(first);
            Ok(())
        }
    }
}

/// Takes one out, if it is filed.
fn remove_from(buckets: &mut Option<Box<Buckets>>, number: u32)
    ensures { Refiles (filing_in buckets.old) (filing_in buckets.new) number None }
{
    if let Some(buckets) = buckets {
        buckets.remove(number);
    }
}
