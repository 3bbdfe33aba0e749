//! A maximum flow with its two extreme minimum cuts.

ghost use Rattle.std.specs.Prelude.{◌≢◌, ◌<◌, ◌≤◌, ◌+◌, ◌^◌, IfOk, OnOk, All, length};
ghost use Rattle.ofit_flow.specs.Maximum.{IsMaximumFlow};
ghost use Rattle.ofit_flow.specs.Network.{CanAdd};

use crate::edge::{Edge, MAX_EDGES};
use crate::flow::{Flow, flow_by_phases};
use crate::flowed::Flowed;
use crate::incidence::incident_edges;
use crate::levels::Search;
use crate::phases::Phases;
use crate::side::{levelled, sink_side};
use std::alloc::{AllocError, Global};

/// A flow that nothing more augments, and then the two sides of it.
pub(crate) fn maximum_flow(
    alloc: Global,
    nodes: u32,
    edges: &[Edge],
    source: u32,
    sink: u32,
    phases: &mut Phases,
) -> Result<Flowed, AllocError>
    requires few { length edges.now ≤ MAX_EDGES }
    requires edges_in { All (CanAdd nodes) edges.now }
    requires source_in { source < nodes }
    requires sink_in { sink < nodes }
    requires apart { source ≢ sink }
    requires countable { phases.old.count ≤ 2 ^ 62 }
    ensures flow { IfOk result (IsMaximumFlow edges.now nodes source sink) }
    ensures few_phases { phases.new.count ≤ phases.old.count + nodes }
    ensures some_phase { OnOk result (phases.old.count < phases.new.count) }
{
    let rows = incident_edges(alloc, nodes, edges)?;
    let mut search = Search::new(alloc, nodes)?;
    let flow = flow_by_phases(alloc, edges, &rows, &mut search, source, sink, phases)?;
    let Flow { amounts, value } = flow;
    let near = levelled(alloc, search.levels.as_slice())?;
    let far = sink_side(
        alloc,
        edges,
        &rows,
        amounts.as_slice(),
        &mut search,
        source,
        sink,
    )?;
    Ok(Flowed::new(value, amounts, near, far))
}
