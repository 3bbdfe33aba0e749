//! A checked guess at flows within spans: in linear time for a forest, else by one maximum flow.

ghost use Rattle.std.specs.Prelude.{IfOk, IfSome, length};
ghost use Rattle.ofit_cut.specs.Sets.{AreWithin};
ghost use Rattle.ofit_cut.specs.Balance.{AreBalanced};

use crate::balances::are_balanced;
use crate::peel::guess;
use crate::span::Span;
use std::alloc::{AllocError, Global};

/// Flows within the spans, where the guess finds some; `None` where it fails. It takes linear time where the
/// pairs, seen without direction, form a forest, and else one maximum flow.
pub(crate) fn peeled(
    alloc: Global,
    pairs: &[(u32, u32)],
    spans: &[Span],
) -> Result<Option<Vec<i128>>, AllocError>
    requires pairs_in { AreWithin pairs.now (length spans.now) }
    ensures { IfOk result
        (λ found. IfSome found (λ amounts. AreBalanced pairs.now spans.now amounts.items)) }
{
    let amounts = guess(alloc, pairs, spans)?;
    if are_balanced(alloc, pairs, spans, &amounts)? {
        Ok(Some(amounts))
    } else {
        Ok(None)
    }
}
