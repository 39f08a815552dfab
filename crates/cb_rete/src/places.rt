//! Places that are found, in their order, rule by rule and branch by branch.
ghost use Rattle.std.specs.Prelude.{◌<◌, ◌≤◌, length};
ghost use Rattle.cb_rete.specs.Found.{AreOfBranch, AreOfRule, IsOtherBranch, IsOtherRule};

use cb_alpha_network::NodePlace;

/// The first place behind this one that is of another rule, or the number of places.
pub(crate) fn end_of_rule(found: &[NodePlace], from: usize) -> usize
    requires within { from < length found.now }
    ensures further { from < result }
    ensures within { result ≤ length found.now }
    ensures passed { AreOfRule found.now from result }
    ensures stops { IsOtherRule found.now from result }
{
    let rule = found[from].rule;
    let mut at = from + 1;
    while at < found.len() && found[at].rule == rule {
        at += 1;
    }
    at
}

/// The first place behind this one and before an end that is of another branch, or the end.
pub(crate) fn end_of_branch(found: &[NodePlace], from: usize, end: usize) -> usize
    requires within { from < end }
    requires ends { end ≤ length found.now }
    ensures further { from < result }
    ensures within { result ≤ end }
    ensures passed { AreOfBranch found.now from result }
    ensures stops { IsOtherBranch found.now from result end }
{
    let branch = found[from].branch;
    let mut at = from + 1;
    while at < end && found[at].branch == branch {
        at += 1;
    }
    at
}
