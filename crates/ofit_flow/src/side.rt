//! The two sides of the extreme minimum cuts.

ghost use Rattle.std.specs.Prelude.{◌≡◌, ◌<◌, IfOk, is_some, length, map};
ghost use Rattle.ofit_flow.specs.Flow.{IsWithin};
ghost use Rattle.ofit_flow.specs.Incidence.{AreRows, IsIncidence, row_at};
ghost use Rattle.ofit_flow.specs.Network.{members};
ghost use Rattle.ofit_flow.specs.Reach.{IsBlocked, IsReach};
ghost use Rattle.ofit_flow.specs.Residual.{left_over};
ghost use Rattle.ofit_flow.specs.Search.{CanSearch};

use crate::edge::Edge;
use crate::levels::{Search, search_levels};
use crate::rows::Rows;
use std::alloc::{AllocError, Global};

/// Which nodes have a level.
pub(crate) fn levelled(alloc: Global, levels: &[Option<u32>]) -> Result<Vec<bool>, AllocError>
    ensures { IfOk result (λ side. side.items ≡ map is_some levels.now) }
{
    levels.iter().map(|level| level.is_some()).collect(alloc)
}

/// What is left of each edge's capacity.
fn left_over(alloc: Global, edges: &[Edge], amounts: &[i128]) -> Result<Vec<i128>, AllocError>
    requires { IsWithin edges.now amounts.now }
    ensures { IfOk result (λ left. left.items ≡ left_over edges.now amounts.now) }
{
    let mut left = Vec::new(alloc);
    for (number, edge) in edges.iter().enumerate() {
        left.push(edge.residual(amounts[number], edge.from))?;
    }
    Ok(left)
}

/// The nodes that reach the sink in the residual net: what the sink reaches where each edge
/// carries what is left of it, since every arc then runs the other way. The source isn't among
/// them, so that the search runs to its end.
pub(crate) fn sink_side(
    alloc: Global,
    edges: &[Edge],
    rows: &Rows,
    amounts: &[i128],
    search: &mut Search,
    source: u32,
    sink: u32,
) -> Result<Vec<bool>, AllocError>
    requires net { CanSearch edges.now amounts.now (length search.old.levels.items) }
    requires rows { AreRows rows.now (length search.old.levels.items) }
    requires incidence { IsIncidence edges.now (length search.old.levels.items) (row_at rows.now) }
    requires source { source < length search.old.levels.items }
    requires sink { sink < length search.old.levels.items }
    requires blocked { IsBlocked edges.now source sink amounts.now }
    ensures counted { IfOk result (λ side. length side.items ≡ length search.old.levels.items) }
    ensures reach { IfOk result (λ side. IsReach edges.now (left_over edges.now amounts.now) sink (members side.items)) }
{
    let left = left_over(alloc, edges, amounts)?;
    search_levels(edges, rows, left.as_slice(), search, sink, source)?;
    levelled(alloc, search.levels.as_slice())
}
