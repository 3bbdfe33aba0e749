ghost use Rattle.std.specs.Prelude.{◌≡◌, ◌+◌, ◌<◌, ◌^◌, All, length, IfOk, OnOk, vec_len, [], false};
ghost use Rattle.std.specs.BinaryHeap.{heap_items, IsHeap};
ghost use Rattle.ofit_num.specs.RowTotals.{all_rows};
ghost use Rattle.ofit_num.specs.Trial.{trial_of};
ghost use Rattle.ofit_num.specs.Fit.{LeastBestValues};
ghost use Rattle.ofit_num.specs.Settled.{IsSettled, IsLeastSettled};
ghost use Rattle.ofit_loss.specs.Rows.{AreFittable};
ghost use Rattle.ofit_tree.specs.Entry.{entry_cmp};
ghost use Rattle.ofit_tree.specs.Tree.{tree_problem, IsRootedTree};
ghost use Rattle.ofit_tree.specs.Forest.{IsStart, IsForest, IsFittableTree, AreAllSettled, AreSettledValues};

use crate::block::lone_block;
use crate::direction::Direction;
use crate::entry::{Entry, rank_of};
use crate::forest::{Forest, take_up};
use crate::slot::Slot;
use crate::tree::Tree;
use ofit_loss::Loss;
use ofit_num::{Frac, Groups};
use std::alloc::{AllocError, Global};
use std::collections::BinaryHeap;

/// Adds the block of the group at a place, by itself.
fn add_lone<L: Loss>(
    alloc: Global,
    tree: Tree<'_>,
    forest: &mut Forest<L::Pool>,
    place: u32,
) -> Result<(), AllocError>
    requires filled { All (λ rows. 0 < length rows) tree.groups.now }
    requires fittable { AreFittable (all_rows tree.groups.now) }
    requires place { place < length tree.groups.now }
    requires heap { IsHeap entry_cmp (heap_items forest.old.queue) }
    requires start { IsStart tree.direction L.IsPoolOf L.meaning L.STRICT tree.groups.now place forest.old.labels.items forest.old.slots.items (heap_items forest.old.queue) }
    ensures heap { OnOk result (IsHeap entry_cmp (heap_items forest.new.queue)) }
    ensures start { OnOk result (IsStart tree.entry.direction L.IsPoolOf L.meaning L.STRICT tree.entry.groups.now (place + 1) forest.new.labels.items forest.new.slots.items (heap_items forest.new.queue)) }
{
    let block = lone_block::<L>(alloc, tree.groups.rows(place), place)?;
    let rank = rank_of(tree.direction, &block.value);
    forest.labels.push(place)?;
    forest.slots.push(Slot::Open(block))?;
    forest.queue.push(Entry { rank, block: place })?;
    Ok(())
}

/// Each group as a block by itself.
fn lone_blocks<L: Loss>(alloc: Global, tree: Tree<'_>) -> Result<Forest<L::Pool>, AllocError>
    requires { IsFittableTree tree.groups.now tree.parents.now }
    ensures heap { IfOk result (λ forest. IsHeap entry_cmp (heap_items forest.queue)) }
    ensures forest { IfOk result (λ forest. IsForest tree.entry.direction L.IsPoolOf L.meaning L.STRICT tree.entry.groups.now tree.entry.parents.now forest.labels.items forest.slots.items (heap_items forest.queue)) }
{
    let mut forest = Forest {
        labels: Vec::new(alloc),
        slots: Vec::new(alloc),
        queue: BinaryHeap::new(alloc),
    };
    for place in 0..tree.groups.count() {
        add_lone::<L>(alloc, tree, &mut forest, place)?;
    }
    Ok(forest)
}

/// The blocks of the tree when each is settled.
fn settled_blocks<L: Loss>(alloc: Global, tree: Tree<'_>) -> Result<Forest<L::Pool>, AllocError>
    requires { IsFittableTree tree.groups.now tree.parents.now }
    ensures { IfOk result (λ forest. IsForest tree.entry.direction L.IsPoolOf L.meaning L.STRICT tree.entry.groups.now tree.entry.parents.now forest.labels.items forest.slots.items []) }
{
    let mut forest = lone_blocks::<L>(alloc, tree)?;
    while let Some(entry) = forest.queue.pop() {
        take_up::<L>(tree, &mut forest, &entry)?;
    }
    Ok(forest)
}

/// The value of each group's block, one value a group.
fn values_of<P: Drop>(
    alloc: Global,
    labels: &[u32],
    slots: &[Slot<P>],
) -> Result<Vec<Frac>, AllocError>
    requires labels { All (λ k. k < length slots.now) labels.now }
    requires settled { AreAllSettled labels.now slots.now }
    ensures { IfOk result (λ values. AreSettledValues labels.now slots.now (length labels.now) values.items) }
{
    let mut values = Vec::new(alloc);
    for label in labels {
        match &slots[*label as usize] {
            Slot::Settled(value) => values.push(*value)?,
            Slot::Open(_) => unreachable!(),
            Slot::Joined => unreachable!(),
        }
    }
    Ok(values)
}

/// The fit of a rooted tree: a value for each group such that the loss of all rows at their groups'
/// values is least, and pointwise the least of such values. `parents` has the place of each group's
/// parent, and None for the root. Where the root is greatest each group's value is at most its
/// parent's, and where it is least at least its parent's. One value a group, in list order.
///
/// Each group starts as a block by itself. Of the blocks that are left the one of the greatest value
/// (where the root is least, of the least one) is pooled with its parent's block, or settled, if that
/// one is settled or if there is none: Thompson's minimum violator algorithm (1962) for rooted trees
/// (Robertson, Wright and Dykstra, Order Restricted Statistical Inference, 1988). With n groups it
/// joins at most n - 1 pools, and apart from that takes time in n log n. Under the median the joins of
/// r rows take time in r (log r)^2, however deep the tree is.
pub fn fit_tree<L: Loss>(
    alloc: Global,
    groups: &Groups,
    parents: &[Option<u32>],
    direction: Direction,
) -> Result<Vec<Frac>, AllocError>
    requires filled { All (λ rows. 0 < length rows) groups.now }
    requires fittable { AreFittable (all_rows groups.now) }
    requires one_each { length parents.now ≡ length groups.now }
    requires rooted { IsRootedTree parents.now }
    ensures count { IfOk result (λ values. vec_len values ≡ length groups.now) }
    ensures least_best { IfOk result (λ values. LeastBestValues L.meaning (tree_problem direction groups.now parents.now) values.items) }
    ensures settled { IfOk result (λ values. IsSettled L.meaning (tree_problem direction groups.now parents.now) (trial_of values.items)) }
    ensures least_settled { IfOk result (λ values. L.STRICT ≡ false → IsLeastSettled L.meaning (tree_problem direction groups.now parents.now) (trial_of values.items)) }
{
    let tree = Tree {
        groups,
        parents,
        direction,
    };
    let forest = settled_blocks::<L>(alloc, tree)?;
    let values = values_of(alloc, &forest.labels, &forest.slots)?;
    Ok(values)
}
