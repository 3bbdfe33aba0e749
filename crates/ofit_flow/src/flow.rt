//! A maximum flow by level graphs.

ghost use Rattle.std.specs.Prelude.{◌≡◌, ◌≢◌, ◌<◌, ◌≤◌, ◌+◌, ◌^◌, IfOk, OnOk, All, None, length, replicate, pos};
ghost use Rattle.ofit_flow.specs.Flow.{IsFlow, value_of};
ghost use Rattle.ofit_flow.specs.Incidence.{AreRows, IsIncidence, row_at};
ghost use Rattle.ofit_flow.specs.Levels.{IsSearched, level_at};
ghost use Rattle.ofit_flow.specs.Network.{CanAdd};

use crate::blocking::block;
use crate::edge::{Edge, MAX_EDGES};
use crate::levels::{Search, build_levels};
use crate::phases::Phases;
use crate::rows::Rows;
use crate::walk::Walk;
use std::alloc::{AllocError, Global};

/// An amount for each edge, and what they are worth.
#[derive(Drop)]
pub(crate) struct Flow {
    pub(crate) amounts: Vec<i128>,
    pub(crate) value: i128,
}

/// The flow that carries nothing.
fn no_flow(alloc: Global, edges: &[Edge]) -> Result<Flow, AllocError>
    ensures amounts { IfOk result (λ f. f.amounts.items ≡ replicate (length edges.now) (pos 0)) }
    ensures value { IfOk result (λ f. f.value ≡ pos 0) }
{
    Ok(Flow {
        amounts: vec![in alloc; 0i128; edges.len()]?,
        value: 0,
    })
}

/// A flow that no path augments, by level graphs (Dinic 1970): a blocking flow for each building of
/// levels, until these don't reach the sink. As the sink's level rises with each, there are fewer
/// than nodes. What the search holds at the end are the levels of what the source still reaches.
pub(crate) fn flow_by_phases(
    alloc: Global,
    edges: &[Edge],
    rows: &Rows,
    search: &mut Search,
    source: u32,
    sink: u32,
    phases: &mut Phases,
) -> Result<Flow, AllocError>
    requires few_nodes { length search.old.levels.items < 2 ^ 32 }
    requires few { length edges.now ≤ MAX_EDGES }
    requires edges_in { All (CanAdd (length search.old.levels.items)) edges.now }
    requires rows { AreRows rows.now (length search.old.levels.items) }
    requires incidence { IsIncidence edges.now (length search.old.levels.items) (row_at rows.now) }
    requires source_in { source < length search.old.levels.items }
    requires sink_in { sink < length search.old.levels.items }
    requires apart { source ≢ sink }
    requires countable { phases.old.count ≤ 2 ^ 62 }
    ensures flow { IfOk result (λ f. IsFlow edges.now source sink f.amounts.items) }
    ensures value { IfOk result (λ f. f.value ≡ value_of edges.now source f.amounts.items) }
    ensures counted { OnOk result (length search.new.levels.items ≡ length search.old.levels.items) }
    ensures searched { IfOk result (λ f. IsSearched edges.now f.amounts.items source sink search.new.levels.items) }
    ensures ended { OnOk result (level_at search.new.levels.items sink ≡ None) }
    ensures few_phases { phases.new.count ≤ phases.old.count + length search.old.levels.items }
    ensures some_phase { OnOk result (phases.old.count < phases.new.count) }
{
    let mut flow = no_flow(alloc, edges)?;
    let mut walk = Walk::new(alloc, search.levels.len())?;
    loop {
        build_levels(
            edges,
            rows,
            flow.amounts.as_slice(),
            search,
            source,
            sink,
            phases,
        )?;
        if search.levels[sink as usize].is_none() {
            return Ok(flow);
        }
        block(
            edges,
            rows,
            &mut flow,
            &mut search.levels,
            &mut walk,
            source,
            sink,
        )?;
    }
}
