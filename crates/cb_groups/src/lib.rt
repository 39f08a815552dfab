//! Which members belong to which group, where each is a number and a member belongs to one group at most.
//!
//! `docs/ARCHITECTURE.md` says where it belongs.
#![tactic(auto)]

mod groups; // the groups, each with a list of its members
mod linked_groups; // groups whose members are linked, which can only be taken
mod links; // the members of each group in a line
mod lists; // the members of each group in a list, and the place of each member
mod members; // the members of one group
mod standing; // where a member stands

pub use groups::Groups;
pub use linked_groups::LinkedGroups;
