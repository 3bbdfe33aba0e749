//! Flows within spans, or a set against them.

ghost use Rattle.std.specs.Prelude.{◌<◌, ◌≤◌, ◌*◌, ◌^◌, All, IfOk, length};
ghost use Rattle.ofit_cut.specs.Sets.{AreWithin};
ghost use Rattle.ofit_cut.specs.Span.{IsOrdered, total_span};
ghost use Rattle.ofit_cut.specs.Balanced.{Tells};

use crate::amounts::Amounts;
use crate::balanced::Balanced;
use crate::edges::Ends;
use crate::limits::{MAX_NODES, MAX_PAIRS};
use crate::members::Members;
use crate::peeled::peeled;
use crate::slack::{balance_edges, bases_of, totals_of};
use crate::solve::solve;
use crate::span::Span;
use std::alloc::{AllocError, Global};

/// Flows within the spans, or whichever set the minimum cut shows against them.
///
/// Where there are flows, peeling leaves and one maximum flow along the pairs that are left find
/// them. Otherwise each node of the whole net gives what its balance nearest to 0 is, and a hub makes
/// up the differences within the spans: a circulation with lower bounds (Hoffman 1960) as one maximum
/// flow.
pub(crate) fn settle(
    alloc: Global,
    pairs: &[(u32, u32)],
    spans: &[Span],
) -> Result<Balanced, AllocError>
    requires pairs_in { AreWithin pairs.now (length spans.now) }
    requires few_nodes { length spans.now ≤ MAX_NODES }
    requires few_pairs { length pairs.now ≤ MAX_PAIRS }
    requires ordered { All IsOrdered spans.now }
    requires small { total_span spans.now ≤ 2 * 10 ^ 33 }
    ensures { IfOk result (Tells pairs.now spans.now) }
{
    let guessed = peeled(alloc, pairs, spans)?;
    if let Some(amounts) = guessed {
        return Ok(Balanced::Flows(Amounts::of(amounts)));
    }
    let nodes = spans.len() as u32;
    let hub = nodes;
    let ends = Ends {
        source: nodes + 1,
        sink: nodes + 2,
    };
    let bases = bases_of(alloc, spans)?;
    let totals = totals_of(bases.as_slice());
    let edges = balance_edges(alloc, pairs, spans, bases.as_slice(), ends, hub)?;
    let flowed = solve(alloc, nodes + 3, edges, ends)?;
    if flowed.value() == totals.supply + totals.demand {
        let amounts = Amounts::of_first(alloc, &flowed, pairs.len() as u32)?;
        Ok(Balanced::Flows(amounts))
    } else if flowed.source_side(hub) {
        let outside = Members::of_side(alloc, &flowed, nodes, false)?;
        Ok(Balanced::Below(outside))
    } else {
        let inside = Members::of_side(alloc, &flowed, nodes, true)?;
        Ok(Balanced::Above(inside))
    }
}
