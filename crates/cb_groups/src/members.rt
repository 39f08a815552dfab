//! The members of one group.
ghost use Rattle.std.specs.Prelude.{◌≡◌, ◌++◌, ◌∷◌, ◌<◌, [], IfOk, OnErr, OnOk, length};
ghost use Rattle.cb_groups.specs.Internal.{IsOut, members_in};

use cb_forms::NoMemory;
use smallvec::SmallVec;
use std::alloc::Global;
use std::marker::Model;
use std::slice;

/// The members of one group, in any order. Most groups have one or two, which take no block. Contracts see the list of them.
#[derive(Drop)]
pub(crate) struct Members {
    held: Held,
}

/// Where the members are.
#[derive(Drop)]
enum Held {
    None,
    One(u32),
    Two([u32; 2]),
    /// In a block of their own, so that few members take as much as its address. It has room for six, and more take a second one.
    Many(Box<SmallVec<u32, 6>>),
}

impl Model for Members {
    ghost use Rattle.std.specs.Prelude.{List, ℕ};
    ghost use Rattle.cb_groups.specs.Internal.{members_in};

    ghost Value = { List ℕ };

    ghost view = { λ m. members_in m.held };
}

impl Members {
    /// No members. It takes no memory.
    pub(crate) fn none() -> Members
        ensures { result ≡ [] }
    {
        Members { held: Held::None }
    }

    /// The members.
    pub(crate) fn as_slice(&self) -> &[u32]
        ensures { result.now ≡ self.now }
    {
        match &self.held {
            Held::None => &[],
            Held::One(only) => slice::from_ref(only),
            Held::Two(both) => both.as_slice(),
            Held::Many(all) => all.as_slice(),
        }
    }

    /// Puts a member behind the others. Growth is refused as `NoMemory`, and then nothing has changed.
    pub(crate) fn push(&mut self, alloc: Global, member: u32) -> Result<(), NoMemory>
        ensures ok { OnOk result (self.new ≡ self.old ++ member ∷ []) }
        ensures err { OnErr result (self.new ≡ self.old) }
    {
        push_to(&mut self.held, alloc, member)
    }

    /// Takes out the member at a position. The last one stands there then, if it was another. Where many fewer are left, memory is given
    /// back.
    pub(crate) fn take_out(&mut self, position: usize)
        requires { position < length self.old }
        ensures { IsOut self.old self.new position }
    {
        take_from(&mut self.held, position);
    }
}

/// Puts a member behind the others. Growth is refused as `NoMemory`, and then nothing has changed.
fn push_to(held: &mut Held, alloc: Global, member: u32) -> Result<(), NoMemory>
    ensures ok { OnOk result (members_in held.new ≡ members_in held.old ++ member ∷ []) }
    ensures err { OnErr result (members_in held.new ≡ members_in held.old) }
{
    let grown = match held {
        Held::None => Held::One(member),
        Held::One(only) => Held::Two([*only, member]),
        Held::Two(both) => {
            let all = three(alloc, both[0], both[1], member)?;
            Held::Many(Box::new(alloc, all)?)
        }
        Held::Many(all) => {
            all.push(member)?;
            return Ok(());
        }
    };
    *held = grown;
    Ok(())
}

/// Takes out the member at a position.
fn take_from(held: &mut Held, position: usize)
    requires { position < length (members_in held.old) }
    ensures { IsOut (members_in held.old) (members_in held.new) position }
{
    match held {
        Held::None => return,
        Held::One(_) => {
            *held = Held::None;
            return;
        }
        Held::Two(both) => {
            let left = if position == 0 { both[1] } else { both[0] };
            *held = Held::One(left);
            return;
        }
        Held::Many(all) => {
            remove_at(all, position);
            if !all.is_empty() {
                return;
            }
        }
    }
    *held = Held::None;
}

/// Three members.
fn three(alloc: Global, first: u32, second: u32, third: u32) -> Result<SmallVec<u32, 6>, NoMemory>
    ensures { IfOk result (λ all. all.items ≡ first ∷ second ∷ third ∷ []) }
{
    let mut all = SmallVec::new(alloc);
    all.push(first)?;
    all.push(second)?;
    all.push(third)?;
    Ok(all)
}

/// Takes out the member at a position of a list, and puts the last one there, if it is another. Where much more memory is held than
/// needed, it is given back.
fn remove_at(all: &mut SmallVec<u32, 6>, position: usize)
    requires { position < length all.old.items }
    ensures { IsOut all.old.items all.new.items position }
{
    all.swap_remove(position);
    if all.len() < all.capacity() / 4 {
        let _never_fails = all.grow(all.len() * 2);
    }
}
