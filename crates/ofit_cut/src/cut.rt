//! The greatest upper and lower sets.

ghost use Rattle.std.specs.Prelude.{◌≡◌, ◌<◌, ◌≤◌, ◌*◌, ◌^◌, ℕ, IfOk, length, map};
ghost use Rattle.ofit_flow.specs.Network.{members};
ghost use Rattle.ofit_cut.specs.Sets.{AreWithin, IsUpper, IsLower, total_size, turned};
ghost use Rattle.ofit_cut.specs.Greatest.{AreTied, IsSmallestGreatest, IsTied, side_of};

use crate::edges::{Ends, pair_edges, push_weight_edges};
use crate::limits::{MAX_NODES, MAX_PAIRS};
use crate::solve::solve;
use crate::tie::Tie;
use ofit_flow::Flowed;
use std::alloc::{AllocError, Global};

/// The smallest minimum cut, or the largest one, as far as the nodes go.
pub(crate) fn side(
    alloc: Global,
    flowed: &Flowed,
    nodes: u32,
    tie: Tie,
) -> Result<Vec<bool>, AllocError>
    requires source { nodes ≤ length flowed.now.source_side }
    requires sink { nodes ≤ length flowed.now.sink_side }
    ensures counted { IfOk result (λ side. length side.items ≡ nodes) }
    ensures same { IfOk result
        (λ side. (node : ℕ) → node < nodes → members side.items node ≡ side_of tie flowed.now node) }
{
    let mut side = Vec::new(alloc);
    for node in 0..nodes {
        let inside = match tie {
            Tie::Smallest => flowed.source_side(node),
            Tie::Largest => !flowed.sink_side(node),
        };
        side.push(inside)?;
    }
    Ok(side)
}

/// A maximum flow whose two minimum cuts are the smallest and the largest of the upper sets with the
/// greatest sum (Picard 1976).
pub(crate) fn weighted_flow(
    alloc: Global,
    pairs: &[(u32, u32)],
    weights: &[i128],
) -> Result<Flowed, AllocError>
    requires pairs_in { AreWithin pairs.now (length weights.now) }
    requires few_nodes { length weights.now ≤ MAX_NODES }
    requires few_pairs { length pairs.now ≤ MAX_PAIRS }
    requires small { total_size weights.now ≤ 2 * 10 ^ 33 }
    ensures source { IfOk result (λ flowed. length weights.now ≤ length flowed.source_side) }
    ensures sink { IfOk result (λ flowed. length weights.now ≤ length flowed.sink_side) }
    ensures tied { IfOk result (AreTied pairs.now weights.now) }
{
    let nodes = weights.len() as u32;
    let ends = Ends {
        source: nodes,
        sink: nodes + 1,
    };
    let mut edges = pair_edges(alloc, pairs, ends)?;
    push_weight_edges(&mut edges, weights, ends)?;
    solve(alloc, nodes + 2, edges, ends)
}

/// The upper set of the greatest sum that the tie names.
fn greatest_upper(
    alloc: Global,
    pairs: &[(u32, u32)],
    weights: &[i128],
    tie: Tie,
) -> Result<Vec<bool>, AllocError>
    requires pairs_in { AreWithin pairs.now (length weights.now) }
    requires few_nodes { length weights.now ≤ MAX_NODES }
    requires few_pairs { length pairs.now ≤ MAX_PAIRS }
    requires small { total_size weights.now ≤ 2 * 10 ^ 33 }
    ensures counted { IfOk result (λ set. length set.items ≡ length weights.now) }
    ensures tied { IfOk result (λ set. IsTied tie (IsUpper pairs.now) weights.now (members set.items)) }
{
    let flowed = weighted_flow(alloc, pairs, weights)?;
    side(alloc, &flowed, weights.len() as u32, tie)
}

/// The pairs turned round, so that their upper sets are the lower sets of the pairs.
pub(crate) fn turned_pairs(
    alloc: Global,
    pairs: &[(u32, u32)],
) -> Result<Vec<(u32, u32)>, AllocError>
    ensures { IfOk result (λ round. round.items ≡ map turned pairs.now) }
{
    pairs.iter().map(|pair| (pair.1, pair.0)).collect(alloc)
}

/// The lower set with the greatest sum of weights; among equals the smallest or the largest, as
/// `tie` says. Answers for each node whether the set holds it.
///
/// One maximum flow over a net of two edges a node and one a pair.
pub fn lower_cut(
    alloc: Global,
    pairs: &[(u32, u32)],
    weights: &[i128],
    tie: Tie,
) -> Result<Vec<bool>, AllocError>
    requires pairs_in { AreWithin pairs.now (length weights.now) }
    requires few_nodes { length weights.now ≤ MAX_NODES }
    requires few_pairs { length pairs.now ≤ MAX_PAIRS }
    requires small { total_size weights.now ≤ 2 * 10 ^ 33 }
    ensures counted { IfOk result (λ set. length set.items ≡ length weights.now) }
    ensures tied { IfOk result (λ set. IsTied tie (IsLower pairs.now) weights.now (members set.items)) }
{
    let turned = turned_pairs(alloc, pairs)?;
    greatest_upper(alloc, turned.as_slice(), weights, tie)
}

/// The smallest upper set with the greatest sum of weights. Answers for each node whether the set
/// holds it.
///
/// One maximum flow, as for [`lower_cut`].
pub fn upper_cut(
    alloc: Global,
    pairs: &[(u32, u32)],
    weights: &[i128],
) -> Result<Vec<bool>, AllocError>
    requires pairs_in { AreWithin pairs.now (length weights.now) }
    requires few_nodes { length weights.now ≤ MAX_NODES }
    requires few_pairs { length pairs.now ≤ MAX_PAIRS }
    requires small { total_size weights.now ≤ 2 * 10 ^ 33 }
    ensures counted { IfOk result (λ set. length set.items ≡ length weights.now) }
    ensures smallest { IfOk result
        (λ set. IsSmallestGreatest (IsUpper pairs.now) weights.now (members set.items)) }
{
    greatest_upper(alloc, pairs, weights, Tie::Smallest)
}
