use crate::direction::Direction;
use ofit_num::Groups;

/// The groups of a rooted tree, the place of each one's parent, and the direction of their values.
#[derive(Clone, Copy)]
pub(crate) struct Tree<'a> {
    pub groups: &'a Groups,
    pub parents: &'a [Option<u32>],
    pub direction: Direction,
}
