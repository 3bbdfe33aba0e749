//! The edges of a net for pairs and weighted nodes.

ghost use Rattle.std.specs.Prelude.{◌≡◌, ◌<◌, ◌≤◌, ◌*◌, ◌^◌, ◌++◌, All, IfOk, OnOk, length, map, unsigned_abs};
ghost use Rattle.ofit_cut.specs.Sets.{weight_at};
ghost use Rattle.ofit_cut.specs.Edges.{pair_edge, pair_edges, weight_edges, gain, loss};

use ofit_flow::{Edge, MAX_CAPACITY};
use std::alloc::{AllocError, Global};

/// The source and the sink of a net, which are no nodes of pairs.
#[derive(Clone, Copy)]
pub(crate) struct Ends {
    pub(crate) source: u32,
    pub(crate) sink: u32,
}

/// An edge from the low end to the high one with as much capacity as all weights may have together,
/// so that no cut of less cuts it. A pair with equal ends has an edge that carries nothing, so that
/// pairs and edges keep the same numbers.
fn pair_edge(pair: (u32, u32), ends: Ends) -> Edge
    ensures { result ≡ pair_edge ends pair }
{
    let (low, high) = pair;
    if low == high {
        Edge {
            from: ends.source,
            to: ends.sink,
            cap: 0,
        }
    } else {
        Edge {
            from: low,
            to: high,
            cap: MAX_CAPACITY,
        }
    }
}

/// The edges of the pairs, in their order.
pub(crate) fn pair_edges(
    alloc: Global,
    pairs: &[(u32, u32)],
    ends: Ends,
) -> Result<Vec<Edge>, AllocError>
    ensures { IfOk result (λ edges. edges.items ≡ pair_edges ends pairs.now) }
{
    pairs
        .iter()
        .map(|pair| pair_edge(*pair, ends))
        .collect(alloc)
}

/// What the weight is above 0.
pub(crate) fn gain(weight: i128) -> i128
    ensures { result ≡ gain weight }
{
    if weight > 0 { weight } else { 0 }
}

/// What the weight is below 0.
pub(crate) fn loss(weight: i128) -> i128
    requires { unsigned_abs weight ≤ 2 * 10 ^ 33 }
    ensures { result ≡ loss weight }
{
    if weight < 0 { -weight } else { 0 }
}

/// Adds for each node an edge from the source and one to the sink, by its weight.
pub(crate) fn push_weight_edges(
    edges: &mut Vec<Edge>,
    weights: &[i128],
    ends: Ends,
) -> Result<(), AllocError>
    requires few { length weights.now < 2 ^ 32 }
    requires small { All (λ weight. unsigned_abs weight ≤ 2 * 10 ^ 33) weights.now }
    ensures { OnOk result (edges.new.items
        ≡ edges.old.items ++ weight_edges ends (weight_at weights.now) (length weights.now)) }
{
    for (node, weight) in weights.iter().enumerate() {
        let node = node as u32;
        edges.push(Edge {
            from: ends.source,
            to: node,
            cap: gain(*weight),
        })?;
        edges.push(Edge {
            from: node,
            to: ends.sink,
            cap: loss(*weight),
        })?;
    }
    Ok(())
}
