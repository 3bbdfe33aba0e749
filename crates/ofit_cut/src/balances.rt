//! The check of flows along pairs.

ghost use Rattle.std.specs.Prelude.{◌≡◌, ◌<◌, ℕ, ◌+ℤ◌, ◌-ℤ◌, IfOk, IfSome, IsTrue, length, slice_set};
ghost use Rattle.ofit_cut.specs.Sets.{AreWithin, weight_at};
ghost use Rattle.ofit_cut.specs.Span.{IsInSpan, span_at};
ghost use Rattle.ofit_cut.specs.Balance.{AreFlows, AreBalanced};
ghost use Rattle.ofit_cut.specs.Balances.{AreBalances, IsAmount};

use crate::span::Span;
use ofit_flow::MAX_CAPACITY;
use std::alloc::{AllocError, Global};

/// Whether the amount is one that a pair with these ends may carry.
fn is_amount(pair: (u32, u32), amount: i128) -> bool
    ensures { IsTrue result → IsAmount pair amount }
{
    let (low, high) = pair;
    amount >= 0 && amount <= MAX_CAPACITY && (low != high || amount == 0)
}

/// Whether there is an amount for each pair, from 0 to 2·10^33, and 0 where the ends are equal.
fn are_flows(pairs: &[(u32, u32)], amounts: &[i128]) -> bool
    ensures { IsTrue result → AreFlows pairs.now amounts.now }
{
    if amounts.len() != pairs.len() {
        return false;
    }
    for (index, pair) in pairs.iter().enumerate() {
        if !is_amount(*pair, amounts[index]) {
            return false;
        }
    }
    true
}

/// Adds to a node's balance, and says whether the sum fits.
fn raise(balances: &mut Vec<i128>, node: usize, amount: i128) -> bool
    requires { node < length balances.old.items }
    ensures { IsTrue result → balances.new.items
        ≡ slice_set balances.old.items node (weight_at balances.old.items node +ℤ amount) }
{
    match balances[node].checked_add(amount) {
        Some(sum) => {
            balances[node] = sum;
            true
        }
        None => false,
    }
}

/// Takes from a node's balance, and says whether the difference fits.
fn lower(balances: &mut Vec<i128>, node: usize, amount: i128) -> bool
    requires { node < length balances.old.items }
    ensures { IsTrue result → balances.new.items
        ≡ slice_set balances.old.items node (weight_at balances.old.items node -ℤ amount) }
{
    match balances[node].checked_sub(amount) {
        Some(difference) => {
            balances[node] = difference;
            true
        }
        None => false,
    }
}

/// What flows out of each node less what flows into it, or None where a sum doesn't fit.
fn balances_of(
    alloc: Global,
    nodes: usize,
    pairs: &[(u32, u32)],
    amounts: &[i128],
) -> Result<Option<Vec<i128>>, AllocError>
    requires pairs_in { AreWithin pairs.now nodes }
    requires counted { length amounts.now ≡ length pairs.now }
    ensures { IfOk result (λ found. IfSome found
        (λ balances. AreBalances nodes pairs.now amounts.now balances.items)) }
{
    let mut balances = vec![in alloc; 0i128; nodes]?;
    for (index, pair) in pairs.iter().enumerate() {
        let (low, high) = *pair;
        let amount = amounts[index];
        if !raise(&mut balances, low as usize, amount)
            || !lower(&mut balances, high as usize, amount)
        {
            return Ok(None);
        }
    }
    Ok(Some(balances))
}

/// Whether the balance lies in the span.
fn is_in_span(span: &Span, balance: i128) -> bool
    ensures { IsTrue result → IsInSpan span.now balance }
{
    let above = match span.least {
        Some(least) => least <= balance,
        None => true,
    };
    let below = match span.greatest {
        Some(greatest) => balance <= greatest,
        None => true,
    };
    above && below
}

/// Whether each balance lies in its node's span.
fn are_in_spans(spans: &[Span], balances: &[i128]) -> bool
    requires { length balances.now ≡ length spans.now }
    ensures { IsTrue result → (node : ℕ) → node < length spans.now
        → IsInSpan (span_at spans.now node) (weight_at balances.now node) }
{
    for (node, span) in spans.iter().enumerate() {
        if !is_in_span(span, balances[node]) {
            return false;
        }
    }
    true
}

/// Whether these are flows along the pairs whose balance at each node lies in its span.
pub(crate) fn are_balanced(
    alloc: Global,
    pairs: &[(u32, u32)],
    spans: &[Span],
    amounts: &[i128],
) -> Result<bool, AllocError>
    requires pairs_in { AreWithin pairs.now (length spans.now) }
    ensures { IfOk result (λ yes. IsTrue yes → AreBalanced pairs.now spans.now amounts.now) }
{
    if !are_flows(pairs, amounts) {
        return Ok(false);
    }
    match balances_of(alloc, spans.len(), pairs, amounts)? {
        Some(balances) => Ok(are_in_spans(spans, &balances)),
        None => Ok(false),
    }
}
