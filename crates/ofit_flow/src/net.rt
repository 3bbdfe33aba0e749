//! A net.

ghost use Rattle.std.specs.Prelude.{◌≡◌, ◌≢◌, ◌<◌, ◌≤◌, ◌^◌, ◌++◌, ◌∷◌, [], ◌+◌, ℤ, List, All, IfOk, OnOk, OnErr, length, pos, ◌≤ℤ◌};
ghost use Rattle.ofit_flow.specs.Cut.{IsLargestMinimumCut, IsSmallestMinimumCut, capacity};
ghost use Rattle.ofit_flow.specs.Flow.{IsFlow, value_of};
ghost use Rattle.ofit_flow.specs.Network.{CanAdd, members, others};

use crate::edge::{Edge, MAX_CAPACITY, MAX_EDGES};
use crate::flowed::Flowed;
use crate::maximum::maximum_flow;
use crate::phases::Phases;
use std::alloc::{AllocError, Global};
use std::marker::Model;

/// A net: nodes, numbered from 0, a source and a sink among them, and directed edges with
/// capacities, numbered from 0 as they are added. Edges may be parallel or opposite, enter the
/// source or leave the sink, and have capacity 0.
#[derive(Drop)]
pub struct Net {
    alloc: Global,
    nodes: u32,
    source: u32,
    sink: u32,
    edges: Vec<Edge>,
}

impl Model for Net {
    ghost use Rattle.ofit_flow.specs.Network.{IsNet, Network};

    ghost Value = { Network };

    ghost view = { λ n. record { nodes = n.nodes; source = n.source; sink = n.sink; edges = n.edges.items } };

    ghost invariant = { λ n. IsNet (record { nodes = n.nodes; source = n.source; sink = n.sink; edges = n.edges.items }) };
}

impl Net {
    /// A net with no edge. It takes no memory.
    pub fn new(alloc: Global, nodes: u32, source: u32, sink: u32) -> Result<Net, AllocError>
        requires source_in { source < nodes }
        requires sink_in { sink < nodes }
        requires apart { source ≢ sink }
        ensures { IfOk result (λ net. net ≡ record { nodes = nodes; source = source; sink = sink; edges = [] }) }
    {
        Ok(Net {
            alloc,
            nodes,
            source,
            sink,
            edges: Vec::new(alloc),
        })
    }

    /// The net of these edges, which it takes over, numbered as they stand.
    pub fn of_edges(alloc: Global, nodes: u32, source: u32, sink: u32, edges: Vec<Edge>) -> Net
        requires source_in { source < nodes }
        requires sink_in { sink < nodes }
        requires apart { source ≢ sink }
        requires few { length edges.items ≤ MAX_EDGES }
        requires edges_in { All (CanAdd nodes) edges.items }
        ensures { result ≡ record { nodes = nodes; source = source; sink = sink; edges = edges.items } }
    {
        Net {
            alloc,
            nodes,
            source,
            sink,
            edges,
        }
    }

    /// Adds an edge, and answers its number.
    pub fn add_edge(&mut self, from: u32, to: u32, cap: i128) -> Result<u32, AllocError>
        requires from_in { from < self.old.nodes }
        requires to_in { to < self.old.nodes }
        requires apart { from ≢ to }
        requires cap_low { pos 0 ≤ℤ cap }
        requires cap_high { cap ≤ℤ MAX_CAPACITY }
        requires few { length self.old.edges < MAX_EDGES }
        ensures number { IfOk result (λ number. number ≡ length self.old.edges) }
        ensures added { OnOk result (self.new ≡ record self.old {
          edges = self.old.edges ++ record { from = from; to = to; cap = cap } ∷ [];
        }) }
        ensures err { OnErr result (self.new ≡ self.old) }
    {
        let number = self.edges.len() as u32;
        self.edges.push(Edge { from, to, cap })?;
        Ok(number)
    }

    /// A maximum flow, by level graphs (Dinic 1970): at most as many phases as nodes, each of which
    /// builds levels from the source, in time of nodes and edges together, and then blocks them, in
    /// time of nodes times edges.
    pub fn max_flow(&mut self, phases: &mut Phases) -> Result<Flowed, AllocError>
        requires { phases.old.count ≤ 2 ^ 62 }
        ensures flow { IfOk result (λ f. IsFlow self.old.edges self.old.source self.old.sink f.amounts) }
        ensures value { IfOk result (λ f. f.value ≡ value_of self.old.edges self.old.source f.amounts) }
        ensures greatest { IfOk result (λ f. (amounts : List ℤ)
            → IsFlow self.old.edges self.old.source self.old.sink amounts
            → value_of self.old.edges self.old.source amounts ≤ℤ f.value) }
        ensures source_capacity { IfOk result (λ f. f.value ≡ capacity (members f.source_side) self.old.edges) }
        ensures sink_capacity { IfOk result (λ f. f.value ≡ capacity (others f.sink_side) self.old.edges) }
        ensures smallest { IfOk result (λ f.
            IsSmallestMinimumCut self.old.edges self.old.source self.old.sink (members f.source_side)) }
        ensures largest { IfOk result (λ f.
            IsLargestMinimumCut self.old.edges self.old.source self.old.sink (others f.sink_side)) }
        ensures source_told { IfOk result (λ f. length f.source_side ≡ self.old.nodes) }
        ensures sink_told { IfOk result (λ f. length f.sink_side ≡ self.old.nodes) }
        ensures net { self.new ≡ self.old }

        // Also after want of memory.
        ensures few_phases { phases.new.count ≤ phases.old.count + self.old.nodes }
        ensures some_phase { OnOk result (phases.old.count < phases.new.count) }
    {
        let edges = self.edges.as_slice();
        let flowed = maximum_flow(
            self.alloc,
            self.nodes,
            edges,
            self.source,
            self.sink,
            phases,
        )?;
        Ok(flowed)
    }
}
