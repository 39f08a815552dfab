//! The values that names have, in frames: each has those that were given last, over the ones before it.
ghost use Rattle.std.specs.Prelude.{◌≡◌, [], IfErr, IfOk, OnErr, OnOk, option_copied};
ghost use Rattle.cb_exprs.specs.Bindings.{value_at, with_value};
ghost use Rattle.cb_exprs.specs.Internal.Frames.{pairs_in, with_each};

use crate::values::Values;
use cb_facts::{Name, Value};
use cb_forms::NoMemory;
use std::alloc::{AllocError, Global};
use std::rc::Rc;

/// How many names frames have at most, before all of them go into a tree.
const MOST: usize = 16;

/// Names, each with its value. The value of a name is that of the first frame that has one, and in a frame the last.
///
/// A search in frames goes through their names one by one, so there are no more of these than `MOST`: where more would come, all
/// go into a search tree, and those after them too.
///
/// What was there before is shared: a clone takes no memory, and is refused only where the count of sharers is full.
///
/// Contracts see the list of the pairs, in the order of the names.
#[cycle(frames)]
#[derive(Drop)]
pub(crate) enum Frames {
    Empty,
    One(Rc<One>),
    Several(Rc<Several>),
    Many(Rc<Values>),
}

/// A frame of one name.
#[cycle(frames)]
#[derive(Drop)]
pub(crate) struct One {
    before: Frames,
    /// How many names it and those before it have; one that stands in two frames counts twice.
    names: usize,
    name: Name,
    value: Value,
}

/// A frame of several.
#[cycle(frames)]
#[derive(Drop)]
pub(crate) struct Several {
    before: Frames,
    names: usize,
    bindings: Vec<(Name, Value)>,
}

impl Clone for Frames {
    ghost is_clone = { λ frames copy. pairs_in copy ≡ pairs_in frames };

    fn clone(&self) -> Result<Frames, AllocError> {
        match self {
            Frames::Empty => Ok(Frames::Empty),
            Frames::One(one) => Ok(Frames::One(one.clone()?)),
            Frames::Several(several) => Ok(Frames::Several(several.clone()?)),
            Frames::Many(values) => Ok(Frames::Many(values.clone()?)),
        }
    }
}

impl Frames {
    /// How many names would be in frames with so many more.
    fn names_with(&self, more: usize) -> usize {
        match self {
            Frames::Empty => more,
            Frames::One(one) => one.names.saturating_add(more),
            Frames::Several(several) => several.names.saturating_add(more),
            Frames::Many(_) => usize::MAX,
        }
    }

    /// The value that a name has.
    #[tactic(auto, using(crate::proofs::FrameLaws::value_here, crate::proofs::FrameLaws::value_before, crate::proofs::FrameLaws::value_in_frame, crate::proofs::FrameLaws::value_before_frame))]
    pub(crate) fn get(&self, name: &Name) -> Option<&Value>
        ensures { option_copied result ≡ value_at name.now (pairs_in self.now) }
    {
        match self {
            Frames::Empty => None,
            Frames::One(one) => {
                if *name == one.name {
                    return Some(&one.value);
                }
                one.before.get(name)
            }
            Frames::Several(several) => match value_in(several.bindings.as_slice(), name) {
                Some(value) => Some(value),
                None => several.before.get(name),
            },
            Frames::Many(values) => values.get(name),
        }
    }

    /// Writes a value in place of the one that a name has, where that stands in a frame of one name or in the tree. Where the name
    /// has none there, or a clone shares the way to it, the value is returned and nothing has changed. It takes no memory.
    pub(crate) fn write(&mut self, name: &Name, value: Value) -> Result<(), Value>
        ensures ok { OnOk result (pairs_in self.new ≡ with_value name.now value (pairs_in self.old)) }
        ensures err { OnErr result (pairs_in self.new ≡ pairs_in self.old) }
        ensures back { IfErr result (λ v. v ≡ value) }
    {
        match self {
            Frames::Empty | Frames::Several(_) => Err(value),
            Frames::One(one) => {
                let Some(one) = Rc::get_mut(one) else {
                    return Err(value);
                };
                if *name == one.name {
                    one.value = value;
                    return Ok(());
                }
                one.before.write(name, value)
            }
            Frames::Many(values) => {
                let Some(values) = Rc::get_mut(values) else {
                    return Err(value);
                };
                values.write(name, value)
            }
        }
    }

    /// The values in which a name has this one, in place of the one that it has, if it has one. Growth is refused as `NoMemory`.
    pub(crate) fn with_one(
        &self,
        alloc: Global,
        name: &Name,
        value: Value,
    ) -> Result<Frames, NoMemory>
        ensures { IfOk result (λ frames. pairs_in frames ≡ with_value name.now value (pairs_in self.now)) }
    {
        let names = self.names_with(1);
        if names > MOST {
            let mut values = self.to_values(alloc)?;
            values.set(name, value)?;
            return Ok(Frames::Many(Rc::new(alloc, values)?));
        }
        let one = One {
            before: self.clone()?,
            names,
            name: name.clone()?,
            value,
        };
        Ok(Frames::One(Rc::new(alloc, one)?))
    }

    /// Those in which names have these, in order; of two for one name the later counts. Growth is refused as `NoMemory`.
    pub(crate) fn with(
        &self,
        alloc: Global,
        bindings: Vec<(Name, Value)>,
    ) -> Result<Frames, NoMemory>
        ensures { IfOk result (λ frames. pairs_in frames ≡ with_each bindings.items (pairs_in self.now)) }
    {
        match bindings.as_slice() {
            [] => Ok(self.clone()?),
            [(name, value)] => self.with_one(alloc, name, value.clone()?),
            _ => self.with_several(alloc, bindings),
        }
    }

    /// The same of several.
    fn with_several(&self, alloc: Global, bindings: Vec<(Name, Value)>) -> Result<Frames, NoMemory>
        ensures { IfOk result (λ frames. pairs_in frames ≡ with_each bindings.items (pairs_in self.now)) }
    {
        let names = self.names_with(bindings.len());
        if names > MOST {
            let mut values = self.to_values(alloc)?;
            set_each(&mut values, bindings.as_slice())?;
            return Ok(Frames::Many(Rc::new(alloc, values)?));
        }
        let several = Several {
            before: self.clone()?,
            names,
            bindings,
        };
        Ok(Frames::Several(Rc::new(alloc, several)?))
    }

    /// All of them in a tree. Growth is refused as `NoMemory`.
    pub(crate) fn to_values(&self, alloc: Global) -> Result<Values, NoMemory>
        ensures { IfOk result (λ values. values ≡ pairs_in self.now) }
    {
        match self {
            Frames::Empty => Ok(Values::new(alloc)),
            Frames::One(one) => {
                let mut values = one.before.to_values(alloc)?;
                values.set(&one.name, one.value.clone()?)?;
                Ok(values)
            }
            Frames::Several(several) => {
                let mut values = several.before.to_values(alloc)?;
                set_each(&mut values, several.bindings.as_slice())?;
                Ok(values)
            }
            Frames::Many(values) => Ok(values.as_ref().clone()?),
        }
    }
}

/// The value that a name has in a frame: the last that stands there.
#[tactic(auto, using(crate::proofs::FrameLaws::last_here, crate::proofs::FrameLaws::last_before))]
fn value_in<'a>(bindings: &'a [(Name, Value)], name: &Name) -> Option<&'a Value>
    ensures { option_copied result ≡ value_at name.now (with_each bindings.now []) }
{
    let (last, others) = bindings.split_last()?;
    if *name == last.0 {
        return Some(&last.1);
    }
    value_in(others, name)
}

/// Gives names these values, one after another. Growth is refused as `NoMemory`.
fn set_each(values: &mut Values, bindings: &[(Name, Value)]) -> Result<(), NoMemory>
    ensures { OnOk result (values.new ≡ with_each bindings.now values.old) }
{
    for (name, value) in bindings {
        values.set(name, value.clone()?)?;
    }
    Ok(())
}
