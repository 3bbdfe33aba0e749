//! One augmenting path.

ghost use Rattle.std.specs.Prelude.{◌≡◌, ◌≢◌, ◌<◌, ◌≤ℤ◌, ◌<ℤ◌, ℕ, List, Option, All, length, pos, slice_set};
ghost use Rattle.ofit_flow.specs.Flow.{IsFlow, IsWithin, amount_at, edge_at};
ghost use Rattle.ofit_flow.specs.Residual.{pushed, residual};
ghost use Rattle.ofit_flow.specs.Walk.{IsAugmented, IsPath, IsWay};

use crate::edge::{Edge, MAX_CAPACITY};
use crate::step::Step;

/// How much more can go along all the steps.
pub(crate) fn width_of(path: &[Step]) -> i128
    requires { All (λ step. pos 0 <ℤ step.room) path.now }
    ensures positive { pos 0 <ℤ result }
    ensures wide { All (λ step. result ≤ℤ step.room) path.now }
{
    let mut width = MAX_CAPACITY;
    for step in path {
        if step.room < width {
            width = step.room;
        }
    }
    width
}

/// Sends `by` more along a step.
fn send(edges: &[Edge], amounts: &mut Vec<i128>, step: Step, by: i128)
    requires within { IsWithin edges.now amounts.old.items }
    requires numbered { step.edge < length edges.now }
    requires small { (edge_at edges.now step.edge).cap ≤ℤ MAX_CAPACITY }
    requires positive { pos 0 ≤ℤ by }
    requires room { by ≤ℤ residual (edge_at edges.now step.edge) (amount_at amounts.old.items step.edge) step.from }
    ensures { amounts.new.items ≡ slice_set amounts.old.items step.edge
        (pushed (edge_at edges.now step.edge) (amount_at amounts.old.items step.edge) step.from by) }
{
    let edge = edges[step.edge as usize];
    let amount = amounts[step.edge as usize];
    amounts[step.edge as usize] = edge.pushed(amount, step.from, by);
}

/// Sends `by` more along each step of a path from the source to the sink.
pub(crate) fn augment(edges: &[Edge], path: &[Step], by: i128, amounts: &mut Vec<i128>)
    requires way { IsWay edges.now amounts.old.items path.now by }
    requires positive { pos 0 ≤ℤ by }
    ensures { (levels : List (Option ℕ)) (source sink : ℕ) → source ≢ sink
        → IsFlow edges.now source sink amounts.old.items
        → IsPath edges.now amounts.old.items levels path.now source sink
        → IsAugmented edges.now source sink levels amounts.old.items amounts.new.items by }
{
    for step in path {
        send(edges, amounts, *step, by);
    }
}
