//! A guess at flows along pairs, by peeling leaves: each is folded into the reach of the node at its
//! other end, and what is left without leaves is one flow.
//!
//! Nothing is promised of the amounts: [`peeled`](crate::peeled::peeled) checks them. Sums that would leave
//! 128 bits stop at the end of the range.

ghost use Rattle.std.specs.Prelude.{◌≡◌, ◌+ℤ◌};
ghost use Rattle.std.specs.Int.{saturate_signed, w128};

use crate::span::Span;
use crate::two_core::core_amounts;
use ofit_flow::MAX_CAPACITY;
use std::alloc::{AllocError, Global};

/// What an open end of a span counts as.
const OPEN: i128 = 10_000_000_000_000_000_000_000_000_000_000_000_000;

/// The pairs at a node that aren't peeled yet: how many, and the sum of their indexes, which is the index
/// of the last one.
#[derive(Clone, Copy)]
pub(crate) struct Stub {
    pub(crate) degree: u32,
    sum: usize,
}

impl Stub {
    /// Takes a pair in.
    fn join(&mut self, pair: usize) {
        self.degree = self.degree.saturating_add(1);
        self.sum = self.sum.wrapping_add(pair);
    }

    /// Takes a pair out.
    fn leave(&mut self, pair: usize) {
        self.degree = self.degree.saturating_sub(1);
        self.sum = self.sum.wrapping_sub(pair);
    }
}

/// A node with one pair left, that pair, the node at its other end, and whether the leaf is the low
/// end, from which a flow leaves.
#[derive(Clone, Copy)]
struct Leaf {
    node: usize,
    pair: usize,
    other: usize,
    is_low: bool,
}

/// The least and the greatest that a node can pass on, of its own balance and of what its leaves give
/// it, and how far it can go above the least before leaves have to give more than they need to.
#[derive(Clone, Copy)]
pub(crate) struct Reach {
    pub(crate) low: i128,
    pub(crate) high: i128,
    slack: i128,
}

impl Reach {
    /// That of the node's own balance.
    fn of(span: &Span) -> Reach {
        let low = span.least.unwrap_or(-OPEN);
        let high = span.greatest.unwrap_or(OPEN);
        Reach {
            low,
            high,
            slack: high.saturating_sub(low),
        }
    }

    /// What of it is nearest to 0.
    pub(crate) fn nearest(&self) -> i128 {
        self.low.max(0).min(self.high)
    }

    /// That of the flow from a leaf towards its pair's other end.
    fn cut(&self, is_low: bool) -> Stretch {
        let (least, most) = if is_low {
            (0, MAX_CAPACITY)
        } else {
            (-MAX_CAPACITY, 0)
        };
        Stretch {
            low: self.low.max(least),
            high: self.high.min(most),
        }
    }

    /// Takes in what a leaf gives.
    fn join(&mut self, given: Stretch, is_low: bool)
        ensures low { self.new.low ≡ saturate_signed w128 (self.old.low +ℤ given.low) }
        ensures high { self.new.high ≡ saturate_signed w128 (self.old.high +ℤ given.high) }
    {
        self.low = self.low.saturating_add(given.low);
        self.high = self.high.saturating_add(given.high);
        if !is_low {
            self.slack = self.slack.saturating_add(given.width());
        }
    }
}

/// The least and the greatest that a leaf gives, less than 0 where the other end gives to it.
#[derive(Clone, Copy)]
struct Stretch {
    low: i128,
    high: i128,
}

impl Stretch {
    fn width(&self) -> i128 {
        self.high.saturating_sub(self.low)
    }
}

/// How much more than the least a node's leaves give together: first those that the node gives to,
/// as far as they can, and last those that give to it, what neither the first ones nor the node's own
/// balance take up. So amounts are as near to 0 as they can be.
#[derive(Clone, Copy)]
struct Rest {
    first: i128,
    last: i128,
}

impl Rest {
    fn of(rest: i128, slack: i128) -> Rest {
        Rest {
            first: rest,
            last: rest.saturating_sub(slack),
        }
    }

    /// Takes as much of the rest as there is and as the width allows.
    fn take(&mut self, width: i128, is_low: bool) -> i128 {
        let left = if is_low { self.last } else { self.first };
        let taken = left.max(0).min(width);
        if is_low {
            self.last = left.saturating_sub(taken);
        } else {
            self.first = left.saturating_sub(taken);
        }
        taken
    }
}

/// The pairs at each node, of which those with equal ends are left out.
fn stubs_of(alloc: Global, pairs: &[(u32, u32)], nodes: usize) -> Result<Vec<Stub>, AllocError> {
    let empty = Stub { degree: 0, sum: 0 };
    let mut stubs = vec![in alloc; empty; nodes]?;
    for (index, pair) in pairs.iter().enumerate() {
        let (low, high) = *pair;
        if low != high {
            if let Some(stub) = stubs.get_mut(low as usize) {
                stub.join(index);
            }
            if let Some(stub) = stubs.get_mut(high as usize) {
                stub.join(index);
            }
        }
    }
    Ok(stubs)
}

/// The node as a leaf, where it has one pair left.
fn leaf_at(pairs: &[(u32, u32)], stubs: &[Stub], node: usize) -> Option<Leaf> {
    let stub = stubs.get(node)?;
    if stub.degree != 1 {
        return None;
    }
    let (low, high) = *pairs.get(stub.sum)?;
    let is_low = low as usize == node;
    Some(Leaf {
        node,
        pair: stub.sum,
        other: if is_low { high as usize } else { low as usize },
        is_low,
    })
}

/// Takes the leaf's pair away.
fn peel(stubs: &mut [Stub], leaf: &Leaf) {
    if let Some(stub) = stubs.get_mut(leaf.node) {
        stub.leave(leaf.pair);
    }
    if let Some(stub) = stubs.get_mut(leaf.other) {
        stub.leave(leaf.pair);
    }
}

/// The leaves in the order in which they are peeled, each before the node at its other end, and the
/// pairs that are left at each node.
struct Peeling {
    leaves: Vec<Leaf>,
    stubs: Vec<Stub>,
}

/// Written out, so that a proof meets one call where a value is let go.
impl Drop for Peeling {
    fn drop(self) {
        let Peeling { leaves, stubs } = self;
        drop(leaves);
        drop(stubs);
    }
}

/// Peels leaves as long as there are any.
fn peeling_of(alloc: Global, pairs: &[(u32, u32)], nodes: usize) -> Result<Peeling, AllocError> {
    let mut stubs = stubs_of(alloc, pairs, nodes)?;
    let mut leaves = Vec::new(alloc);
    for start in 0..nodes {
        let mut node = start;
        for _step in 0..nodes {
            match leaf_at(pairs, &stubs, node) {
                Some(leaf) => {
                    peel(&mut stubs, &leaf);
                    leaves.push(leaf)?;
                    node = leaf.other;
                }
                None => break,
            }
        }
    }
    Ok(Peeling { leaves, stubs })
}

/// What each node can pass on, leaves first.
fn reaches_of(alloc: Global, spans: &[Span], leaves: &[Leaf]) -> Result<Vec<Reach>, AllocError> {
    let mut reaches: Vec<Reach> = spans.iter().map(|span| Reach::of(span)).collect(alloc)?;
    for leaf in leaves {
        if let Some(reach) = reaches.get(leaf.node).copied() {
            if let Some(other) = reaches.get_mut(leaf.other) {
                other.join(reach.cut(leaf.is_low), leaf.is_low);
            }
        }
    }
    Ok(reaches)
}

/// What a leaf gives of what the other end still needs.
fn given(rests: &mut [Rest], leaf: &Leaf, reach: &Reach) -> i128 {
    let stretch = reach.cut(leaf.is_low);
    let taken = match rests.get_mut(leaf.other) {
        Some(rest) => rest.take(stretch.width(), leaf.is_low),
        None => 0,
    };
    let given = stretch.low.saturating_add(taken);
    if let Some(rest) = rests.get_mut(leaf.node) {
        *rest = Rest::of(given.saturating_sub(reach.low), reach.slack);
    }
    given
}

/// What flows out of each node less what flows into it, along the pairs that are left.
fn passed_of(
    alloc: Global,
    pairs: &[(u32, u32)],
    amounts: &[i128],
    nodes: usize,
) -> Result<Vec<i128>, AllocError> {
    let mut passed = vec![in alloc; 0i128; nodes]?;
    for (pair, amount) in pairs.iter().zip(amounts) {
        let (low, high) = *pair;
        if let Some(balance) = passed.get_mut(low as usize) {
            *balance = balance.saturating_add(*amount);
        }
        if let Some(balance) = passed.get_mut(high as usize) {
            *balance = balance.saturating_sub(*amount);
        }
    }
    Ok(passed)
}

/// What each node's leaves have to give more than the least, once it has passed on what it does.
fn rests_of(alloc: Global, reaches: &[Reach], passed: &[i128]) -> Result<Vec<Rest>, AllocError> {
    let mut rests = Vec::new(alloc);
    for (reach, balance) in reaches.iter().zip(passed) {
        rests.push(Rest::of(balance.saturating_sub(reach.low), reach.slack))?;
    }
    Ok(rests)
}

/// Writes the amounts of the peeled pairs, from the nodes that are left down to the leaves.
fn unfold(amounts: &mut Vec<i128>, rests: &mut [Rest], leaves: &[Leaf], reaches: &[Reach]) {
    for leaf in leaves.iter().rev() {
        if let Some(reach) = reaches.get(leaf.node) {
            let given = given(rests, leaf, reach);
            if let Some(amount) = amounts.get_mut(leaf.pair) {
                *amount = if leaf.is_low {
                    given
                } else {
                    0i128.saturating_sub(given)
                };
            }
        }
    }
}

/// An amount for each pair: flows within the spans where there are any.
pub(crate) fn guess(
    alloc: Global,
    pairs: &[(u32, u32)],
    spans: &[Span],
) -> Result<Vec<i128>, AllocError> {
    let peeling = peeling_of(alloc, pairs, spans.len())?;
    let reaches = reaches_of(alloc, spans, &peeling.leaves)?;
    let mut amounts = core_amounts(alloc, pairs, &peeling.stubs, &reaches)?;
    let passed = passed_of(alloc, pairs, &amounts, spans.len())?;
    let mut rests = rests_of(alloc, &reaches, &passed)?;
    unfold(&mut amounts, &mut rests, &peeling.leaves, &reaches);
    Ok(amounts)
}
