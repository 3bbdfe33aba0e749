//! A path from the source to the sink that rises a level with each step.

ghost use Rattle.std.specs.Prelude.{◌≡◌, ◌<◌, ◌≤◌, ◌↔◌, ℕ, IfOk, IfSome, IsNone, IsTrue, All, Some, length, replicate, slice_index, slice_set};
ghost use Rattle.ofit_flow.specs.Flow.{edge_at};
ghost use Rattle.ofit_flow.specs.Incidence.{AreRows, row_at};
ghost use Rattle.ofit_flow.specs.Levels.{level_at};
ghost use Rattle.ofit_flow.specs.Residual.{Touches};
ghost use Rattle.ofit_flow.specs.Search.{CanSearch};
ghost use Rattle.ofit_flow.specs.Walk.{CanWalk, IsSpent, IsStepUp, Walks};

use crate::edge::Edge;
use crate::rows::Rows;
use crate::step::Step;
use std::alloc::{AllocError, Global};

/// What a blocking flow keeps: how many of each node's edges are spent, and the path so far.
pub(crate) struct Walk {
    pub(crate) spent: Vec<usize>,
    pub(crate) path: Vec<Step>,
}

/// Written out, so that a proof meets one call where a value is let go.
impl Drop for Walk {
    fn drop(self) {
        let Walk { spent, path } = self;
        drop(spent);
        drop(path);
    }
}

impl Walk {
    /// A walk among so many nodes that hasn't begun.
    pub(crate) fn new(alloc: Global, nodes: usize) -> Result<Walk, AllocError>
        ensures { IfOk result (λ walk. length walk.spent.items ≡ nodes) }
    {
        let spent = vec![in alloc; 0usize; nodes]?;
        let path = Vec::with_capacity(alloc, nodes)?;
        Ok(Walk { spent, path })
    }

    /// Keeps each node's first edge.
    pub(crate) fn restart(&mut self)
        ensures { self.new.spent.items ≡ replicate (length self.old.spent.items) 0 }
    {
        for node in 0..self.spent.len() {
            self.spent[node] = 0;
        }
    }
}

/// Whether the node has this level.
fn is_at(levels: &Vec<Option<u32>>, node: u32, level: u32) -> bool
    requires { node < length levels.now.items }
    ensures { IsTrue result ↔ (level_at levels.now.items node ≡ Some level) }
{
    match levels[node as usize] {
        Some(here) => here == level,
        None => false,
    }
}

/// The step along this edge, where it leads a level up and the edge can carry more.
fn step_up(
    edges: &[Edge],
    amounts: &[i128],
    levels: &Vec<Option<u32>>,
    node: u32,
    above: u32,
    number: u32,
) -> Option<Step>
    requires net { CanSearch edges.now amounts.now (length levels.now.items) }
    requires numbered { number < length edges.now }
    requires touches { Touches (edge_at edges.now number) node }
    ensures some { IfSome result (IsStepUp edges.now amounts.now levels.now.items node above) }
    ensures none { IsNone result → IsSpent edges.now amounts.now levels.now.items node above number }
{
    let edge = edges[number as usize];
    let to = edge.other_end(node);
    if !is_at(levels, to, above) {
        return None;
    }
    let room = edge.residual(amounts[number as usize], node);
    if room > 0 {
        Some(Step {
            edge: number,
            from: node,
            to,
            room,
        })
    } else {
        None
    }
}

/// The step along the first of the node's edges that isn't spent; what is passed over is spent.
fn advance(
    edges: &[Edge],
    amounts: &[i128],
    levels: &Vec<Option<u32>>,
    spent: &mut Vec<usize>,
    node: u32,
    above: u32,
    row: &[u32],
) -> Option<Step>
    requires net { CanSearch edges.now amounts.now (length levels.now.items) }
    requires node { node < length spent.old.items }
    requires kept { slice_index spent.old.items node ≤ length row.now }
    requires numbered { All (λ k. k < length edges.now) row.now }
    requires touches { All (λ k. Touches (edge_at edges.now k) node) row.now }
    ensures spent { spent.new.items ≡ slice_set spent.old.items node (slice_index spent.new.items node) }
    ensures within { slice_index spent.new.items node ≤ length row.now }
    ensures passed { (i : ℕ) → slice_index spent.old.items node ≤ i → i < slice_index spent.new.items node
        → IsSpent edges.now amounts.now levels.now.items node above (slice_index row.now i) }
    ensures some { IfSome result (IsStepUp edges.now amounts.now levels.now.items node above) }
    ensures none { IsNone result → slice_index spent.new.items node ≡ length row.now }
{
    for place in spent[node as usize]..row.len() {
        if let Some(step) = step_up(edges, amounts, levels, node, above, row[place]) {
            spent[node as usize] = place;
            return Some(step);
        }
    }
    spent[node as usize] = row.len();
    None
}

/// Finds a path from the source to the sink that rises a level with each step, and says whether
/// there is one. A node from which none leads on loses its level.
pub(crate) fn find_path(
    edges: &[Edge],
    rows: &Rows,
    amounts: &[i128],
    levels: &mut Vec<Option<u32>>,
    walk: &mut Walk,
    source: u32,
    sink: u32,
) -> Result<bool, AllocError>
    requires can { CanWalk edges.now amounts.now (length levels.old.items) (row_at rows.now) levels.old.items walk.old.spent.items }
    requires rows { AreRows rows.now (length levels.old.items) }
    requires source { source < length levels.old.items }
    requires started { level_at levels.old.items source ≡ Some 0 }
    ensures { IfOk result (Walks edges.now amounts.now (length levels.old.items) (row_at rows.now)
        levels.old.items levels.new.items walk.old.spent.items walk.new.spent.items
        walk.new.path.items source sink) }
{
    walk.path.clear();
    let mut node = source;
    while node != sink {
        let above = walk.path.len() as u32 + 1;
        let row = rows.row(node);
        match advance(edges, amounts, levels, &mut walk.spent, node, above, row) {
            Some(step) => {
                walk.path.push(step)?;
                node = step.to;
            }
            None => {
                levels[node as usize] = None;
                match walk.path.pop() {
                    Some(step) => node = step.from,
                    None => return Ok(false),
                }
            }
        }
    }
    Ok(true)
}
