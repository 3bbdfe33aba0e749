//! A blocking flow.

ghost use Rattle.std.specs.Prelude.{◌≡◌, ◌≢◌, ◌<◌, ◌≤◌, ℕ, ◌≤ℤ◌, OnOk, Some, length, pos};
ghost use Rattle.ofit_flow.specs.Flow.{IsFlow, value_of};
ghost use Rattle.ofit_flow.specs.Incidence.{AreRows, IsIncidence, row_at};
ghost use Rattle.ofit_flow.specs.Levels.{IsFurther, IsLevelled, IsSearched, level_at};
ghost use Rattle.ofit_flow.specs.Search.{CanSearch};

use crate::augment::{augment, width_of};
use crate::edge::{Edge, MAX_EDGES};
use crate::flow::Flow;
use crate::rows::Rows;
use crate::walk::{Walk, find_path};
use std::alloc::AllocError;

/// Augments the flow until no path from the source to the sink rises a level with each step. The
/// levels that no such path needs any more are taken away.
pub(crate) fn block(
    edges: &[Edge],
    rows: &Rows,
    flow: &mut Flow,
    levels: &mut Vec<Option<u32>>,
    walk: &mut Walk,
    source: u32,
    sink: u32,
) -> Result<(), AllocError>
    requires net { CanSearch edges.now flow.old.amounts.items (length levels.old.items) }
    requires few { length edges.now ≤ MAX_EDGES }
    requires rows { AreRows rows.now (length levels.old.items) }
    requires incidence { IsIncidence edges.now (length levels.old.items) (row_at rows.now) }
    requires source { source < length levels.old.items }
    requires apart { source ≢ sink }
    requires flow { IsFlow edges.now source sink flow.old.amounts.items }
    requires value { flow.old.value ≡ value_of edges.now source flow.old.amounts.items }
    requires gained { pos 0 ≤ℤ flow.old.value }
    requires spent { length walk.old.spent.items ≡ length levels.old.items }
    requires searched { IsSearched edges.now flow.old.amounts.items source sink levels.old.items }
    requires reached { IsLevelled levels.old.items sink }
    ensures flow { OnOk result (IsFlow edges.now source sink flow.new.amounts.items) }
    ensures value { OnOk result (flow.new.value ≡ value_of edges.now source flow.new.amounts.items) }
    ensures gained { OnOk result (pos 0 ≤ℤ flow.new.value) }
    ensures counted { OnOk result (length levels.new.items ≡ length levels.old.items) }
    ensures spent { OnOk result (length walk.new.spent.items ≡ length walk.old.spent.items) }
    ensures further { OnOk result ((last : ℕ) → level_at levels.old.items sink ≡ Some last
        → IsFurther edges.now flow.new.amounts.items source sink last) }
{
    walk.restart();
    while find_path(
        edges,
        rows,
        flow.amounts.as_slice(),
        levels,
        walk,
        source,
        sink,
    )? {
        let by = width_of(walk.path.as_slice());
        augment(edges, walk.path.as_slice(), by, &mut flow.amounts);
        // At most the capacity of the edges that leave the source, so at most 10^38.
        flow.value += by;
    }
    Ok(())
}
