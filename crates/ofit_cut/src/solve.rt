//! A maximum flow of a list of edges.

ghost use Rattle.std.specs.Prelude.{◌<◌, ◌≤◌, ◌≢◌, All, IfOk, length};
ghost use Rattle.ofit_flow.specs.Maximum.{IsMaximumFlow};
ghost use Rattle.ofit_flow.specs.Network.{CanAdd};

use crate::edges::Ends;
use ofit_flow::{Edge, Flowed, MAX_EDGES, Net, Phases};
use std::alloc::{AllocError, Global};

/// A maximum flow, with its two sides, of the net with these edges.
pub(crate) fn solve(
    alloc: Global,
    nodes: u32,
    edges: Vec<Edge>,
    ends: Ends,
) -> Result<Flowed, AllocError>
    requires few { length edges.items ≤ MAX_EDGES }
    requires edges_in { All (CanAdd nodes) edges.items }
    requires source_in { ends.source < nodes }
    requires sink_in { ends.sink < nodes }
    requires apart { ends.source ≢ ends.sink }
    ensures { IfOk result (IsMaximumFlow edges.items nodes ends.source ends.sink) }
{
    let mut net = Net::of_edges(alloc, nodes, ends.source, ends.sink, edges);
    let flowed = net.max_flow(&mut Phases::new())?;
    Ok(flowed)
}
