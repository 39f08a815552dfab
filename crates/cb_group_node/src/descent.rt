//! The partial match before a group that one inside it goes on from.
ghost use Rattle.std.specs.Prelude.{◌≡◌, ℕ, Some};
ghost use Rattle.cb_group_node.specs.Outer.{FindsMet};
ghost use Rattle.cb_token_lists.specs.Partials.{AreBelow, Meets};

use cb_token_lists::TokenLists;

/// The token of list `from` that is met by going down from a token of list `inner`, if one is. It takes some steps for each list
/// that is gone down to.
pub fn outer(lists: &TokenLists<'_>, from: usize, inner: usize, number: u32) -> Option<u32>
    ensures { AreBelow lists.now.sources.now
        → FindsMet result (λ g. Meets lists.now.sources.now lists.now.lists.now from g inner number) }
{
    let mut list = inner;
    let mut current = number;
    while list > from {
        let Some(source) = lists.sources.get(list - 1) else {
            return None;
        };
        let Some(memory) = lists.lists.get(list) else {
            return None;
        };
        let Some(token) = memory.token(current) else {
            return None;
        };
        // A list goes on from one before it; so this always ends.
        if source.from as usize >= list {
            return None;
        }
        list = source.from as usize;
        current = token.parent();
    }
    if list == from { Some(current) } else { None }
}
