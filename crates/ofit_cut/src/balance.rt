//! Flows along pairs within spans.

ghost use Rattle.std.specs.Prelude.{◌≡◌, ◌≤◌, ◌*◌, ◌^◌, ℕ, Bool, All, IfOk, length, map};
ghost use Rattle.ofit_cut.specs.Sets.{AreWithin};
ghost use Rattle.ofit_cut.specs.Span.{IsOrdered, total_span};
ghost use Rattle.ofit_cut.specs.Open.{without_greatest};
ghost use Rattle.ofit_cut.specs.Barrier.{IsAbove, IsBelow};
ghost use Rattle.ofit_cut.specs.Balanced.{Tells, IsAboveAnswer, IsBelowAnswer};

use crate::balanced::Balanced;
use crate::limits::{MAX_NODES, MAX_PAIRS};
use crate::settle::settle;
use crate::span::Span;
use std::alloc::{AllocError, Global};

/// The same spans with their greatest ends open.
fn opened(alloc: Global, spans: &[Span]) -> Result<Vec<Span>, AllocError>
    ensures { IfOk result (λ opened. opened.items ≡ map without_greatest spans.now) }
{
    spans
        .iter()
        .map(|span| Span {
            least: span.least,
            greatest: None,
        })
        .collect(alloc)
}

/// Flows along the pairs, from low ends to high ones, such that each node's flow out less its flow
/// in lies in its span; or an upper set whose least balances sum to more than 0, which nothing can
/// carry out of it; or, where there is no such upper set, a lower set whose greatest balances sum to
/// less than 0 (Hoffman's circulation theorem, 1960).
///
/// Amounts are from 0 to 2·10^33. Where there are flows, peeling leaves and one maximum flow along the pairs
/// that are left find them; for a forest peeling does, in linear time. A set takes a second maximum flow, over
/// all pairs, and where that shows a lower set, up to two more tell whether there is an upper one.
pub fn balance_flow(
    alloc: Global,
    pairs: &[(u32, u32)],
    spans: &[Span],
) -> Result<Balanced, AllocError>
    requires pairs_in { AreWithin pairs.now (length spans.now) }
    requires few_nodes { length spans.now ≤ MAX_NODES }
    requires few_pairs { length pairs.now ≤ MAX_PAIRS }
    requires ordered { All IsOrdered spans.now }
    requires small { total_span spans.now ≤ 2 * 10 ^ 33 }
    ensures told { IfOk result (Tells pairs.now spans.now) }
    ensures above { IfOk result
        (λ answer. (set : ℕ → Bool) → IsAbove pairs.now spans.now set → IsAboveAnswer answer) }

    // Where there is a set of each kind, the clause above has its way.
    ensures below { IfOk result (λ answer. (set : ℕ → Bool) → IsBelow pairs.now spans.now set
        → ((other : ℕ → Bool) → IsAbove pairs.now spans.now other → ⊥) → IsBelowAnswer answer) }
{
    match settle(alloc, pairs, spans)? {
        Balanced::Below(below) => {
            let opened = opened(alloc, spans)?;
            match settle(alloc, pairs, opened.as_slice())? {
                Balanced::Above(above) => Ok(Balanced::Above(above)),
                _ => Ok(Balanced::Below(below)),
            }
        }
        other => Ok(other),
    }
}
