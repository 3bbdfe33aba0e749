//! Levels of nodes, by breadth-first search in the residual net.

ghost use Rattle.std.specs.Prelude.{◌≡◌, ◌<◌, ◌+◌, ◌^◌, ℕ, IfOk, OnOk, All, None, length, replicate};
ghost use Rattle.ofit_flow.specs.Flow.{amount_at, edge_at};
ghost use Rattle.ofit_flow.specs.Incidence.{AreRows, IsIncidence, row_at};
ghost use Rattle.ofit_flow.specs.Levels.{IsLevelled, IsSearched};
ghost use Rattle.ofit_flow.specs.Residual.{Touches};
ghost use Rattle.ofit_flow.specs.Search.{AreAtMost, CanSearch, Extends, IsLedOn, IsQueuedFrom, IsSearch, height};

use crate::edge::Edge;
use crate::phases::Phases;
use crate::rows::Rows;
use std::alloc::{AllocError, Global};

/// A search in layers: how many arcs of the residual net lead from the start to each node at least,
/// and the nodes that have such a level, in the order in which they were reached.
#[derive(Drop)]
pub(crate) struct Search {
    pub(crate) start: u32,
    pub(crate) levels: Vec<Option<u32>>,
    pub(crate) queue: Vec<u32>,
}

impl Search {
    /// A search among so many nodes that hasn't begun.
    pub(crate) fn new(alloc: Global, nodes: u32) -> Result<Search, AllocError>
        ensures { IfOk result (λ search. length search.levels.items ≡ nodes) }
    {
        let levels = vec![in alloc; None; nodes as usize]?;
        let queue = Vec::with_capacity(alloc, nodes as usize)?;
        Ok(Search {
            start: 0,
            levels,
            queue,
        })
    }
}

/// Takes every level away.
fn forget(levels: &mut Vec<Option<u32>>)
    ensures { levels.new.items ≡ replicate (length levels.old.items) None }
{
    for node in 0..levels.len() {
        levels[node] = None;
    }
}

/// Begins a search at its start alone.
fn begin(
    edges: &[Edge],
    amounts: &[i128],
    search: &mut Search,
    start: u32,
) -> Result<(), AllocError>
    requires { start < length search.old.levels.items }
    ensures counted { OnOk result (length search.new.levels.items ≡ length search.old.levels.items) }
    ensures start { OnOk result (search.new.start ≡ start) }
    ensures search { OnOk result (
        IsSearch edges.now amounts.now start search.new.levels.items search.new.queue.items) }
    ensures waiting { OnOk result ((node : ℕ) → IsLevelled search.new.levels.items node
        → IsQueuedFrom search.new.queue.items 0 node) }
    ensures low { OnOk result (AreAtMost search.new.levels.items 0) }
{
    forget(&mut search.levels);
    search.start = start;
    search.levels[start as usize] = Some(0);
    search.queue.clear();
    search.queue.push(start)?;
    Ok(())
}

/// Follows one edge from a node to one that may come a level above it.
fn visit_edge(
    edges: &[Edge],
    amounts: &[i128],
    search: &mut Search,
    node: u32,
    above: u32,
    number: u32,
) -> Result<(), AllocError>
    requires net { CanSearch edges.now amounts.now (length search.old.levels.items) }
    requires search { IsSearch edges.now amounts.now search.old.start search.old.levels.items search.old.queue.items }
    requires levelled { IsLevelled search.old.levels.items node }
    requires above { above ≡ height search.old.levels.items node + 1 }
    requires top { AreAtMost search.old.levels.items above }
    requires numbered { number < length edges.now }
    requires touches { Touches (edge_at edges.now number) node }
    ensures start { OnOk result (search.new.start ≡ search.old.start) }
    ensures search { OnOk result (
        IsSearch edges.now amounts.now search.new.start search.new.levels.items search.new.queue.items) }
    ensures extends { OnOk result (
        Extends search.old.levels.items search.old.queue.items search.new.levels.items search.new.queue.items) }
    ensures top { OnOk result (AreAtMost search.new.levels.items above) }
    ensures led_on { OnOk result (
        IsLedOn (edge_at edges.now number) (amount_at amounts.now number) node search.new.levels.items) }
{
    let edge = edges[number as usize];
    let to = edge.other_end(node);
    let room = edge.residual(amounts[number as usize], node);
    if room > 0 && search.levels[to as usize].is_none() {
        search.queue.push(to)?;
        search.levels[to as usize] = Some(above);
    }
    Ok(())
}

/// Follows every edge of a node that has a level.
fn visit(
    edges: &[Edge],
    amounts: &[i128],
    search: &mut Search,
    node: u32,
    row: &[u32],
) -> Result<(), AllocError>
    requires net { CanSearch edges.now amounts.now (length search.old.levels.items) }
    requires search { IsSearch edges.now amounts.now search.old.start search.old.levels.items search.old.queue.items }
    requires levelled { IsLevelled search.old.levels.items node }
    requires top { AreAtMost search.old.levels.items (height search.old.levels.items node + 1) }
    requires numbered { All (λ k. k < length edges.now) row.now }
    requires touches { All (λ k. Touches (edge_at edges.now k) node) row.now }
    ensures start { OnOk result (search.new.start ≡ search.old.start) }
    ensures search { OnOk result (
        IsSearch edges.now amounts.now search.new.start search.new.levels.items search.new.queue.items) }
    ensures extends { OnOk result (
        Extends search.old.levels.items search.old.queue.items search.new.levels.items search.new.queue.items) }
    ensures top { OnOk result (
        AreAtMost search.new.levels.items (height search.old.levels.items node + 1)) }
    ensures led_on { OnOk result (
        All (λ k. IsLedOn (edge_at edges.now k) (amount_at amounts.now k) node search.new.levels.items) row.now) }
{
    let Some(level) = search.levels[node as usize] else {
        unreachable!()
    };
    for number in row {
        visit_edge(edges, amounts, search, node, level + 1, *number)?;
    }
    Ok(())
}

/// The levels of nodes from `start` on, layer by layer: of all that `start` reaches, or up to the
/// layer of `goal` where it reaches that. Time in the nodes and edges together.
pub(crate) fn search_levels(
    edges: &[Edge],
    rows: &Rows,
    amounts: &[i128],
    search: &mut Search,
    start: u32,
    goal: u32,
) -> Result<(), AllocError>
    requires net { CanSearch edges.now amounts.now (length search.old.levels.items) }
    requires rows { AreRows rows.now (length search.old.levels.items) }
    requires incidence { IsIncidence edges.now (length search.old.levels.items) (row_at rows.now) }
    requires start { start < length search.old.levels.items }
    requires goal { goal < length search.old.levels.items }
    ensures counted { OnOk result (length search.new.levels.items ≡ length search.old.levels.items) }
    ensures searched { OnOk result (IsSearched edges.now amounts.now start goal search.new.levels.items) }
{
    begin(edges, amounts, search, start)?;
    let mut next = 0;
    while next < search.queue.len() && search.levels[goal as usize].is_none() {
        let node = search.queue[next];
        visit(edges, amounts, search, node, rows.row(node))?;
        next += 1;
    }
    Ok(())
}

/// Builds the levels from the source up to the sink: a phase, which is counted as it begins.
pub(crate) fn build_levels(
    edges: &[Edge],
    rows: &Rows,
    amounts: &[i128],
    search: &mut Search,
    source: u32,
    sink: u32,
    phases: &mut Phases,
) -> Result<(), AllocError>
    requires net { CanSearch edges.now amounts.now (length search.old.levels.items) }
    requires rows { AreRows rows.now (length search.old.levels.items) }
    requires incidence { IsIncidence edges.now (length search.old.levels.items) (row_at rows.now) }
    requires source { source < length search.old.levels.items }
    requires sink { sink < length search.old.levels.items }
    requires countable { phases.old.count < 2 ^ 63 }
    ensures counted { OnOk result (length search.new.levels.items ≡ length search.old.levels.items) }
    ensures searched { OnOk result (IsSearched edges.now amounts.now source sink search.new.levels.items) }
    ensures phase { phases.new.count ≡ phases.old.count + 1 }
{
    phases.count += 1;
    search_levels(edges, rows, amounts, search, source, sink)
}
