ghost use Rattle.std.specs.Prelude.{◌≡◌, IfOk, length};
ghost use Rattle.ofit_order.specs.Component.{IsComponentCount};
ghost use Rattle.ofit_study.specs.Study.{names_of};
ghost use Rattle.ofit_report.specs.Blocks.{order_of, block_order};

use crate::block::order_of_blocks;
use ofit_num::Frac;
use ofit_study::Study;
use std::alloc::{AllocError, Global};

/// How many components the study has. O((n + m) log n) time and linear memory for n groups and m pairs.
pub fn count_components(alloc: Global, study: &Study) -> Result<u32, AllocError>
    ensures { IfOk result (IsComponentCount (order_of study.now)) }
{
    let order = study.order(alloc)?;
    Ok(order.component_count())
}

/// How many blocks the values make of the study's groups, as [`blocks`](crate::blocks) numbers them.
/// O((n + m) log n) time and linear memory for n groups and m pairs.
pub fn count_blocks(alloc: Global, study: &Study, values: &[Frac]) -> Result<u32, AllocError>
    requires { length values.now ≡ length (names_of study.now) }
    ensures { IfOk result (IsComponentCount (block_order study.now values.now)) }
{
    let order = order_of_blocks(alloc, study, values)?;
    let blocks = order.component_count();
    Ok(blocks)
}
