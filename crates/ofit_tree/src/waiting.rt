ghost use Rattle.std.specs.Prelude.{◌≡◌, ◌<◌, ℕ, length, All, IfSome, IfNone, slice_get, Some};
ghost use Rattle.ofit_tree.specs.Forest.{IsCurrent, IsOutdated, IsOpenAbove, IsNoneAbove};

use crate::direction::Direction;
use crate::entry::{Entry, rank_of};
use crate::slot::Slot;
use ofit_num::Frac;

/// A block that waits: the group nearest to the root, and its value.
#[derive(Clone, Copy)]
pub(crate) struct Waiting {
    pub top: u32,
    pub value: Frac,
}

/// The entry's block, if it waits with the entry's rank.
pub(crate) fn current<P: Drop>(
    slots: &[Slot<P>],
    direction: Direction,
    entry: &Entry,
) -> Option<Waiting>
    requires { entry.now.block < length slots.now }
    ensures some { IfSome result (λ found. IsCurrent direction slots.now entry.now found.top found.value) }
    ensures none { IfNone result (IsOutdated direction slots.now entry.now) }
{
    let Slot::Open(block) = &slots[entry.block as usize] else {
        return None;
    };
    let rank = rank_of(direction, &block.value);
    if rank.compare(&entry.rank).is_ne() {
        return None;
    }
    Some(Waiting {
        top: block.top,
        value: block.value,
    })
}

/// The number of the block that has the parent of the group at a place, if it waits.
pub(crate) fn open_above<P: Drop>(
    parents: &[Option<u32>],
    labels: &[u32],
    slots: &[Slot<P>],
    place: u32,
) -> Option<u32>
    requires place { place < length parents.now }
    requires parents { (g p : ℕ) → slice_get parents.now g ≡ Some (Some p) → p < length labels.now }
    requires labels { All (λ k. k < length slots.now) labels.now }
    ensures some { IfSome result (λ k. IsOpenAbove parents.now labels.now slots.now place k) }
    ensures none { IfNone result (IsNoneAbove parents.now labels.now slots.now place) }
{
    let Some(parent) = parents[place as usize] else {
        return None;
    };
    let label = labels[parent as usize];
    match &slots[label as usize] {
        Slot::Open(_) => Some(label),
        Slot::Settled(_) => None,
        Slot::Joined => None,
    }
}
