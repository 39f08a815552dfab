//! Numbers that are put into groups, or taken out, one after another.
ghost use Rattle.std.specs.Prelude.{None, OnOk, Some};
ghost use Rattle.cb_groups.specs.Groups.{Updates};
ghost use Rattle.cb_group_node.specs.Internal.{Sets};
ghost use Rattle.cb_matches.specs.Chains.{In};

use cb_forms::NoMemory;
use cb_groups::Groups;

/// Puts a number into a group, out of that in which it is, if there is one. Growth is refused as `NoMemory`.
pub(crate) fn put(groups: &mut Groups, group: u32, number: u32) -> Result<(), NoMemory>
    ensures { OnOk result (Updates groups.old groups.new number (Some group)) }
{
    groups.remove(number);
    groups.add(group, number)
}

/// Puts these numbers into a group. Growth is refused as `NoMemory`, and then some of it may be done.
pub fn put_all(groups: &mut Groups, group: u32, numbers: &[u32]) -> Result<(), NoMemory>
    ensures { OnOk result (Sets groups.old groups.new (λ n. In n numbers.now) (Some group)) }
{
    for number in numbers {
        put(groups, group, *number)?;
    }
    Ok(())
}

/// Takes these numbers out of their groups.
pub fn remove_all(groups: &mut Groups, numbers: &[u32])
    ensures { Sets groups.old groups.new (λ n. In n numbers.now) None }
{
    for number in numbers {
        groups.remove(*number);
    }
}
