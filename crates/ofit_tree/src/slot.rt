ghost use Rattle.std.specs.Prelude.{◌≡◌, ◌<◌, length, slice_get, slice_set, Some};
ghost use Rattle.ofit_tree.specs.declared.slot.Slot.TheVariants.{Open, Joined};
ghost use Rattle.ofit_tree.specs.Forest.{IsOpenAt};

use crate::block::Block;
use ofit_num::Frac;
use std::mem;

/// What became of a block.
#[derive(Drop)]
pub(crate) enum Slot<P: Drop> {
    /// It waits, and can still absorb.
    Open(Block<P>),
    /// Its groups have this value.
    Settled(Frac),
    /// It is part of another one.
    Joined,
}

/// Takes a waiting block out.
pub(crate) fn take_open<P: Drop>(slots: &mut Vec<Slot<P>>, number: u32) -> Block<P>
    requires { IsOpenAt slots.old.items number }
    ensures block { slice_get slots.old.items number ≡ Some (Open result) }
    ensures joined { slots.new.items ≡ slice_set slots.old.items number Joined }
{
    let slot = mem::replace(&mut slots[number as usize], Slot::Joined);
    match slot {
        Slot::Open(block) => block,
        Slot::Settled(_) => unreachable!(),
        Slot::Joined => unreachable!(),
    }
}

/// Sets what became of a block.
pub(crate) fn put<P: Drop>(slots: &mut Vec<Slot<P>>, number: u32, slot: Slot<P>)
    requires { number < length slots.old.items }
    ensures { slots.new.items ≡ slice_set slots.old.items number slot }
{
    slots[number as usize] = slot;
}
