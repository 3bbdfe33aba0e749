//! A guess at flows along the pairs that peeling leaves.
//!
//! Each node that still has pairs gives what its reach allows: its own balance with what its leaves
//! give it. As for the whole net, a hub makes up the differences within the reaches. Nothing is
//! promised of the amounts: [`peeled`](crate::peeled::peeled) checks them.

ghost use Rattle.std.specs.Prelude.{◌≡◌, ◌+◌, ◌<◌, ◌^◌, length};

use crate::limits::MAX_NODES;
use crate::peel::{Reach, Stub};
use ofit_flow::{MAX_CAPACITY, MAX_EDGES, Net, Phases};
use std::alloc::{AllocError, Global};

/// A net over nodes with a hub, a source and a sink behind them, and how many edges it still takes.
#[derive(Drop)]
struct CoreNet {
    net: Net,
    nodes: u32,
    free: usize,
    ghost known: { net.nodes ≡ nodes + 3 },
    ghost small: { nodes < 2 ^ 31 },
    ghost room: { length net.edges + free ≡ 50000 },
}

impl CoreNet {
    fn new(alloc: Global, nodes: u32) -> Result<CoreNet, AllocError>
        requires { nodes < 2 ^ 31 }
    {
        Ok(CoreNet {
            net: Net::new(alloc, nodes + 3, nodes + 1, nodes + 2)?,
            nodes,
            free: MAX_EDGES,
        })
    }

    /// Adds an edge, unless it has no capacity.
    fn add(&mut self, from: u32, to: u32, cap: i128) -> Result<(), AllocError> {
        let inside = from < self.nodes + 3 && to < self.nodes + 3 && from != to;
        if cap > 0 && inside && self.free > 0 {
            self.net.add_edge(from, to, cap.min(MAX_CAPACITY))?;
            self.free -= 1;
        }
        Ok(())
    }

    /// Adds what a node gives or takes at first, and how far that can change. Answers the first.
    fn add_node(&mut self, node: u32, reach: &Reach) -> Result<i128, AllocError> {
        let hub = self.nodes;
        let base = reach.nearest();
        self.add(hub + 1, node, base)?;
        self.add(node, hub + 2, 0i128.saturating_sub(base))?;
        self.add(hub, node, reach.high.saturating_sub(base))?;
        self.add(node, hub, base.saturating_sub(reach.low))?;
        Ok(base)
    }

    /// Adds the edges of all nodes that still have pairs, and of the hub.
    fn add_nodes(&mut self, stubs: &[Stub], reaches: &[Reach]) -> Result<(), AllocError> {
        let hub = self.nodes;
        let mut supply = 0i128;
        let mut demand = 0i128;
        for node in 0..hub {
            if is_kept(stubs, node) {
                if let Some(reach) = reaches.get(node as usize) {
                    let base = self.add_node(node, reach)?;
                    supply = supply.saturating_add(base.max(0));
                    demand = demand.saturating_sub(base.min(0));
                }
            }
        }
        self.add(hub + 1, hub, demand)?;
        self.add(hub, hub + 2, supply)
    }

    /// Finds a maximum flow, and writes what its first edges carry to the amounts of these indexes.
    fn carry(&mut self, kept: &[usize], amounts: &mut Vec<i128>) -> Result<(), AllocError> {
        let count = MAX_EDGES - self.free;
        let flowed = self.net.max_flow(&mut Phases::new())?;
        for (number, index) in kept.iter().enumerate() {
            if number < count && *index < amounts.len() {
                amounts[*index] = flowed.amount(number as u32);
            }
        }
        Ok(())
    }
}

/// The pairs of which both ends still have pairs, by their indexes.
fn kept_pairs(
    alloc: Global,
    pairs: &[(u32, u32)],
    stubs: &[Stub],
) -> Result<Vec<usize>, AllocError> {
    let mut kept = Vec::new(alloc);
    for (index, pair) in pairs.iter().enumerate() {
        let (low, high) = *pair;
        if low != high && is_kept(stubs, low) && is_kept(stubs, high) {
            kept.push(index)?;
        }
    }
    Ok(kept)
}

/// Whether the node still has pairs.
fn is_kept(stubs: &[Stub], node: u32) -> bool {
    match stubs.get(node as usize) {
        Some(stub) => stub.degree > 0,
        None => false,
    }
}

/// An amount for each pair: along the pairs that are left a flow within the reaches where there is
/// one, and 0 along the peeled ones.
pub(crate) fn core_amounts(
    alloc: Global,
    pairs: &[(u32, u32)],
    stubs: &[Stub],
    reaches: &[Reach],
) -> Result<Vec<i128>, AllocError> {
    let mut amounts = vec![in alloc; 0i128; pairs.len()]?;
    let kept = kept_pairs(alloc, pairs, stubs)?;
    let nodes = stubs.len();
    if kept.is_empty() || nodes > MAX_NODES {
        return Ok(amounts);
    }
    let mut core = CoreNet::new(alloc, nodes as u32)?;
    for index in &kept {
        if let Some((low, high)) = pairs.get(*index).copied() {
            core.add(low, high, MAX_CAPACITY)?;
        }
    }
    core.add_nodes(stubs, reaches)?;
    core.carry(&kept, &mut amounts)?;
    Ok(amounts)
}
