ghost use Rattle.std.specs.Prelude.{◌+◌, ◌≤◌, ◌∷◌, OnOk, count_by};
ghost use Rattle.std.specs.BinaryHeap.{heap_items, heap_len, IsHeap};
ghost use Rattle.ofit_tree.specs.Entry.{entry_cmp};
ghost use Rattle.ofit_tree.specs.Forest.{IsFirst, IsForest, IsFittableTree, CanAbsorb, is_open};

use crate::block::merge;
use crate::entry::{Entry, rank_of};
use crate::labels::renumber;
use crate::slot::{Slot, put, take_open};
use crate::tree::Tree;
use crate::waiting::{current, open_above};
use ofit_loss::Loss;
use std::alloc::AllocError;
use std::collections::BinaryHeap;

/// The blocks of a tree that is being fitted: the number of each group's block, the blocks by their
/// numbers, and the entries of those that wait.
#[derive(Drop)]
pub(crate) struct Forest<P: Drop> {
    pub labels: Vec<u32>,
    pub slots: Vec<Slot<P>>,
    pub queue: BinaryHeap<Entry>,
}

/// The block `above` absorbs that of the entry, whose top's parent is one of its groups: together they
/// share the value that pools them. Both go by the number of the one with more groups.
fn absorb<L: Loss>(
    tree: Tree<'_>,
    forest: &mut Forest<L::Pool>,
    entry: &Entry,
    above: u32,
) -> Result<(), AllocError>
    requires tree { IsFittableTree tree.groups.now tree.parents.now }
    requires heap { IsHeap entry_cmp (heap_items forest.old.queue) }
    requires forest { IsForest tree.direction L.IsPoolOf L.meaning L.STRICT tree.groups.now tree.parents.now forest.old.labels.items forest.old.slots.items (entry.now ∷ heap_items forest.old.queue) }
    requires first { IsFirst entry.now (heap_items forest.old.queue) }
    requires child { CanAbsorb tree.direction tree.parents.now forest.old.labels.items forest.old.slots.items entry.now above }
    ensures heap { OnOk result (IsHeap entry_cmp (heap_items forest.new.queue)) }
    ensures forest { OnOk result (IsForest tree.entry.direction L.IsPoolOf L.meaning L.STRICT tree.entry.groups.now tree.entry.parents.now forest.new.labels.items forest.new.slots.items (heap_items forest.new.queue)) }
    ensures fewer { OnOk result (heap_len forest.new.queue + count_by is_open forest.new.slots.items ≤ heap_len forest.old.queue + count_by is_open forest.old.slots.items) }
{
    let upper = take_open(&mut forest.slots, above);
    let child = take_open(&mut forest.slots, entry.block);
    let number = renumber(
        &mut forest.labels,
        &upper.members,
        &child.members,
        above,
        entry.block,
    );
    let block = merge::<L>(upper, child)?;
    forest.queue.push(Entry {
        rank: rank_of(tree.direction, &block.value),
        block: number,
    })?;
    put(&mut forest.slots, number, Slot::Open(block));
    Ok(())
}

/// Takes up the first entry: its block is absorbed by its parent's, if that one still waits, and is
/// settled otherwise. An entry whose block has another value by now is passed over.
pub(crate) fn take_up<L: Loss>(
    tree: Tree<'_>,
    forest: &mut Forest<L::Pool>,
    entry: &Entry,
) -> Result<(), AllocError>
    requires tree { IsFittableTree tree.groups.now tree.parents.now }
    requires heap { IsHeap entry_cmp (heap_items forest.old.queue) }
    requires forest { IsForest tree.direction L.IsPoolOf L.meaning L.STRICT tree.groups.now tree.parents.now forest.old.labels.items forest.old.slots.items (entry.now ∷ heap_items forest.old.queue) }
    requires first { IsFirst entry.now (heap_items forest.old.queue) }
    ensures heap { OnOk result (IsHeap entry_cmp (heap_items forest.new.queue)) }
    ensures forest { OnOk result (IsForest tree.entry.direction L.IsPoolOf L.meaning L.STRICT tree.entry.groups.now tree.entry.parents.now forest.new.labels.items forest.new.slots.items (heap_items forest.new.queue)) }
    ensures fewer { OnOk result (heap_len forest.new.queue + count_by is_open forest.new.slots.items ≤ heap_len forest.old.queue + count_by is_open forest.old.slots.items) }
{
    let Some(found) = current(&forest.slots, tree.direction, entry) else {
        return Ok(());
    };
    match open_above(tree.parents, &forest.labels, &forest.slots, found.top) {
        Some(above) => absorb::<L>(tree, forest, entry, above),
        None => {
            put(&mut forest.slots, entry.block, Slot::Settled(found.value));
            Ok(())
        }
    }
}
