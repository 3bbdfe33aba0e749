//! The edges by which balances move within their spans.

ghost use Rattle.std.specs.Prelude.{◌≡◌, ◌<◌, ◌≤◌, ◌*◌, ◌^◌, ◌++◌, All, IfOk, OnOk, length};
ghost use Rattle.ofit_cut.specs.Sets.{total_size};
ghost use Rattle.ofit_cut.specs.Span.{IsOrdered, total_span};
ghost use Rattle.ofit_cut.specs.Slack.{AreBases, slack_edges, supply, demand, balance_edges};

use crate::edges::{Ends, gain, loss, pair_edges, push_weight_edges};
use crate::span::Span;
use ofit_flow::Edge;
use std::alloc::{AllocError, Global};

/// What the balances above 0 sum to, and those below 0.
#[derive(Clone, Copy)]
pub(crate) struct Totals {
    pub(crate) supply: i128,
    pub(crate) demand: i128,
}

/// For each node the balance of its span that is nearest to 0.
pub(crate) fn bases_of(alloc: Global, spans: &[Span]) -> Result<Vec<i128>, AllocError>
    requires { All IsOrdered spans.now }
    ensures { IfOk result (λ bases. AreBases spans.now bases.items) }
{
    let mut bases = Vec::new(alloc);
    for span in spans {
        bases.push(span.base())?;
    }
    Ok(bases)
}

/// The two totals of some balances.
pub(crate) fn totals_of(bases: &[i128]) -> Totals
    requires { total_size bases.now ≤ 2 * 10 ^ 33 }
    ensures supply { result.supply ≡ supply bases.now (length bases.now) }
    ensures demand { result.demand ≡ demand bases.now (length bases.now) }
{
    let mut totals = Totals {
        supply: 0,
        demand: 0,
    };
    for base in bases {
        totals.supply += gain(*base);
        totals.demand += loss(*base);
    }
    totals
}

/// Adds for each node an edge from the hub and one to it.
fn push_slack_edges(
    edges: &mut Vec<Edge>,
    hub: u32,
    spans: &[Span],
    bases: &[i128],
) -> Result<(), AllocError>
    requires few { length spans.now < 2 ^ 32 }
    requires bases { AreBases spans.now bases.now }
    requires small { total_span spans.now ≤ 2 * 10 ^ 33 }
    ensures { OnOk result (edges.new.items
        ≡ edges.old.items ++ slack_edges hub spans.now bases.now (length spans.now)) }
{
    for (node, span) in spans.iter().enumerate() {
        let base = bases[node];
        let node = node as u32;
        edges.push(Edge {
            from: hub,
            to: node,
            cap: span.rise(base),
        })?;
        edges.push(Edge {
            from: node,
            to: hub,
            cap: span.fall(base),
        })?;
    }
    Ok(())
}

/// The edges of a balance's net: of the pairs, then of the balances, then from the hub to the nodes
/// and back, and last what the hub is given and gives.
pub(crate) fn balance_edges(
    alloc: Global,
    pairs: &[(u32, u32)],
    spans: &[Span],
    bases: &[i128],
    ends: Ends,
    hub: u32,
) -> Result<Vec<Edge>, AllocError>
    requires few { length spans.now < 2 ^ 32 }
    requires bases { AreBases spans.now bases.now }
    requires small { total_span spans.now ≤ 2 * 10 ^ 33 }
    ensures { IfOk result
        (λ edges. edges.items ≡ balance_edges ends hub pairs.now spans.now bases.now) }
{
    let totals = totals_of(bases);
    let mut edges = pair_edges(alloc, pairs, ends)?;
    push_weight_edges(&mut edges, bases, ends)?;
    push_slack_edges(&mut edges, hub, spans, bases)?;
    edges.push(Edge {
        from: ends.source,
        to: hub,
        cap: totals.demand,
    })?;
    edges.push(Edge {
        from: hub,
        to: ends.sink,
        cap: totals.supply,
    })?;
    Ok(edges)
}
