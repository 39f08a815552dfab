//! The members of each group in a line, each linked to those beside it.
ghost use Rattle.std.specs.Prelude.{◌≡◌, ◌≢◌, ◌<◌, ◌≤◌, ◌++◌, ℕ, List, OnErr, OnOk, length};
ghost use Rattle.cb_groups.specs.Lines.{AreForgotten, IsInLine, IsLinkedBehind, IsLinkedBefore, first_at, link_at, nowhere};

use cb_forms::NoMemory;

/// Where a member stands.
#[derive(Clone, Copy)]
pub(crate) struct Link {
    /// One more than the group, or 0 where the member has none.
    pub(crate) group: u32,
    /// One more than the member before it, or 0 where it is the first of its group.
    pub(crate) before: u32,
    /// One more than the member behind it, or 0 where it is the last.
    pub(crate) behind: u32,
}

/// The link of a member that has no group.
pub(crate) const NOWHERE: Link = Link {
    group: 0,
    before: 0,
    behind: 0,
};

/// The link of a member.
pub(crate) fn link_of(links: &Vec<Link>, member: u32) -> Link
    ensures { result ≡ link_at links.now.items member }
{
    match links.get(member as usize) {
        Some(link) => *link,
        None => NOWHERE,
    }
}

/// One more than the first member of a group, or 0 where it has none.
pub(crate) fn first_of(firsts: &Vec<u32>, group: u32) -> u32
    ensures { result ≡ first_at firsts.now.items group }
{
    match firsts.get(group as usize) {
        Some(first) => *first,
        None => 0,
    }
}

/// Adds groups without members up to this one. Growth is refused as `NoMemory`.
pub(crate) fn reach_group(firsts: &mut Vec<u32>, group: u32) -> Result<(), NoMemory>
    ensures long { OnOk result (group < length firsts.new.items) }
    ensures same { (g : ℕ) → first_at firsts.new.items g ≡ first_at firsts.old.items g }
{
    if firsts.is_empty() {
        firsts.reserve_exact(group as usize + 1)?;
    }
    for _turn in firsts.len()..group as usize + 1 {
        firsts.push(0)?;
    }
    Ok(())
}

/// Adds links of members without a group up to this one. Growth is refused as `NoMemory`.
pub(crate) fn reach_member(links: &mut Vec<Link>, member: u32) -> Result<(), NoMemory>
    ensures long { OnOk result (member < length links.new.items) }
    ensures same { (m : ℕ) → link_at links.new.items m ≡ link_at links.old.items m }
{
    if links.is_empty() {
        links.reserve_exact(member as usize + 1)?;
    }
    for _turn in links.len()..member as usize + 1 {
        links.push(NOWHERE)?;
    }
    Ok(())
}

/// A group begins with another member, of which `first` is one more, where there is none before it: where `before` is 0.
pub(crate) fn begin_with(firsts: &mut Vec<u32>, group: u32, before: u32, first: u32)
    ensures first { before ≡ 0 → first_at firsts.old.items group ≢ 0
        → first_at firsts.new.items group ≡ first }
    ensures same { before ≢ 0 → first_at firsts.new.items group ≡ first_at firsts.old.items group }
    ensures others { (g : ℕ) → g ≢ group → first_at firsts.new.items g ≡ first_at firsts.old.items g }
{
    if before > 0 {
        return;
    }
    if let Some(begins) = firsts.get_mut(group as usize) {
        *begins = first;
    }
}

/// Links the member of which this is one more, if it is not 0, to another before it.
pub(crate) fn link_before(links: &mut Vec<Link>, behind: u32, before: u32)
    ensures { IsLinkedBefore links.old.items links.new.items behind before }
{
    if let Some(member) = behind.checked_sub(1) {
        if let Some(link) = links.get_mut(member as usize) {
            link.before = before;
        }
    }
}

/// Links the member of which this is one more, if it is not 0, to another behind it.
pub(crate) fn link_behind(links: &mut Vec<Link>, before: u32, behind: u32)
    ensures { IsLinkedBehind links.old.items links.new.items before behind }
{
    if let Some(member) = before.checked_sub(1) {
        if let Some(link) = links.get_mut(member as usize) {
            link.behind = behind;
        }
    }
}

/// Puts the members of a line behind what is in a list, from the one of which this is one more. Growth is refused as `NoMemory`, and then
/// some of them may stand there.
pub(crate) fn append_line(links: &Vec<Link>, first: u32, all: &mut Vec<u32>) -> Result<(), NoMemory>
    ensures ok { OnOk result ((group before : ℕ) (members : List ℕ)
        → IsInLine links.now.items group before first members → length members ≤ length links.now.items
        → all.new.items ≡ all.old.items ++ members) }
    ensures err { OnErr result ((more : List ℕ) × (all.new.items ≡ all.old.items ++ more)) }
    ensures longer { length all.old.items ≤ length all.new.items }
{
    let mut next = first;
    for _turn in 0..links.len() {
        let Some(member) = next.checked_sub(1) else {
            return Ok(());
        };
        all.push(member)?;
        next = link_of(links, member).behind;
    }
    Ok(())
}

/// A member has no group any more.
pub(crate) fn forget(links: &mut Vec<Link>, member: u32)
    ensures gone { link_at links.new.items member ≡ nowhere }
    ensures others { (m : ℕ) → m ≢ member → link_at links.new.items m ≡ link_at links.old.items m }
    ensures long { length links.new.items ≡ length links.old.items }
{
    if let Some(link) = links.get_mut(member as usize) {
        *link = NOWHERE;
    }
}

/// The same of these members.
pub(crate) fn forget_all(links: &mut Vec<Link>, members: &[u32])
    ensures { AreForgotten links.old.items links.new.items members.now }
{
    for member in members {
        forget(links, *member);
    }
}
