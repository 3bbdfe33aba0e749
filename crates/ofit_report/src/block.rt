ghost use Rattle.std.specs.Prelude.{◌≡◌, ◌<◌, ◌+◌, IfOk, length};
ghost use Rattle.ofit_study.specs.Study.{names_of};
ghost use Rattle.ofit_report.specs.Blocks.{block_order, IsBlockOf};
ghost use Rattle.ofit_report.specs.Numbered.{AreBlocks};
ghost use Rattle.ofit_report.specs.SameOrder.{IsSameOrder};

use ofit_num::Frac;
use ofit_order::{Order, check_order};
use ofit_study::{Study, tight_pairs};
use std::alloc::{AllocError, Global};

/// The order of the groups by their pairs of equal values, whose components are the blocks.
pub(crate) fn order_of_blocks(
    alloc: Global,
    study: &Study,
    values: &[Frac],
) -> Result<Order, AllocError>
    requires { length values.now ≡ length (names_of study.now) }
    ensures { IfOk result (λ order. IsSameOrder order (block_order study.now values.now)) }
{
    let pairs = tight_pairs(alloc, study, values)?;
    check_order(alloc, pairs.as_slice(), study.group_count())
}

/// The number of the block of the group at a place, counted from 1.
pub(crate) fn block_of(order: &Order, study: &Study, values: &[Frac], place: u32) -> u32
    requires order { IsSameOrder order.now (block_order study.now values.now) }
    requires place { place < length (names_of study.now) }
    ensures { IsBlockOf study.now values.now result place }
{
    let _blocks = order.component_count();
    order.component_of(place) + 1
}

/// The block of each group: the largest sets of groups of equal value that pairs join, numbered from 1 by
/// their first groups. O((n + m) log n) time and linear memory for n groups and m pairs.
pub fn blocks(alloc: Global, study: &Study, values: &[Frac]) -> Result<Vec<u32>, AllocError>
    requires { length values.now ≡ length (names_of study.now) }
    ensures { IfOk result (λ blocks. AreBlocks study.now values.now blocks.items) }
{
    let order = order_of_blocks(alloc, study, values)?;
    let mut blocks = Vec::new(alloc);
    for place in 0..study.group_count() {
        blocks.push(block_of(&order, study, values, place))?;
    }
    Ok(blocks)
}
