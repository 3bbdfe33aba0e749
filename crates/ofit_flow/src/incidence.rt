//! The rows of a net's edges, by counting.

ghost use Rattle.std.specs.Prelude.{◌≡◌, ◌<◌, ◌≤◌, ◌+◌, ◌^◌, ◌*◌, ℕ, IfOk, All, length, slice_index, slice_set};
ghost use Rattle.ofit_flow.specs.Incidence.{AreRows, AreStarts, IsIncidence, degree, row_at, row_of};
ghost use Rattle.ofit_flow.specs.Network.{CanAdd};

use crate::edge::{Edge, MAX_EDGES};
use crate::rows::Rows;
use std::alloc::{AllocError, Global};

/// How many edges touch each node.
fn degrees_of(alloc: Global, nodes: u32, edges: &[Edge]) -> Result<Vec<usize>, AllocError>
    requires few { length edges.now ≤ MAX_EDGES }
    requires edges_in { All (CanAdd nodes) edges.now }
    ensures counted { IfOk result (λ degrees. length degrees.items ≡ nodes) }
    ensures each { IfOk result (λ degrees. (node : ℕ) → node < nodes
        → slice_index degrees.items node ≡ degree edges.now node) }
{
    let mut degrees = vec![in alloc; 0usize; nodes as usize]?;
    for edge in edges {
        degrees[edge.from as usize] += 1;
        degrees[edge.to as usize] += 1;
    }
    Ok(degrees)
}

/// Where each row begins, and where the last one ends.
fn starts_of(alloc: Global, degrees: &[usize]) -> Result<Vec<usize>, AllocError>
    requires few { length degrees.now < 2 ^ 32 }
    requires small { All (λ degree. degree ≤ 2 * MAX_EDGES) degrees.now }
    ensures { IfOk result (λ starts. AreStarts degrees.now starts.items) }
{
    let mut starts = vec![in alloc; 0usize]?;
    let mut total = 0;
    for degree in degrees {
        total += *degree;
        starts.push(total)?;
    }
    Ok(starts)
}

/// Puts the edge's number at the node's next place.
fn list_edge(places: &mut Vec<usize>, numbers: &mut Vec<u32>, node: u32, number: u32)
    requires node { node < length places.old.items }
    requires place { slice_index places.old.items node < length numbers.old.items }
    ensures places { places.new.items
        ≡ slice_set places.old.items node (slice_index places.old.items node + 1) }
    ensures numbers { numbers.new.items
        ≡ slice_set numbers.old.items (slice_index places.old.items node) number }
{
    let place = places[node as usize];
    numbers[place] = number;
    places[node as usize] = place + 1;
}

/// Puts each edge's number into the rows of both its ends.
fn list_edges(
    edges: &[Edge],
    nodes: u32,
    starts: &[usize],
    places: &mut Vec<usize>,
    numbers: &mut Vec<u32>,
)
    requires few { length edges.now ≤ MAX_EDGES }
    requires edges_in { All (CanAdd nodes) edges.now }
    requires counted { length places.old.items ≡ nodes + 1 }
    requires places { (node : ℕ) → node ≤ nodes → slice_index places.old.items node ≡ slice_index starts.now node }
    requires starts { (node : ℕ) → node < nodes
        → slice_index starts.now (node + 1) ≡ slice_index starts.now node + degree edges.now node }
    requires room { slice_index starts.now nodes ≤ length numbers.old.items }
    ensures counted { length numbers.new.items ≡ length numbers.old.items }
    ensures listing { IsIncidence edges.now nodes (row_of starts.now numbers.new.items) }
{
    for (number, edge) in edges.iter().enumerate() {
        list_edge(places, numbers, edge.from, number as u32);
        list_edge(places, numbers, edge.to, number as u32);
    }
}

/// For each node, the numbers of the edges that touch it, in rising order: time and memory in the
/// nodes and edges together.
pub(crate) fn incident_edges(alloc: Global, nodes: u32, edges: &[Edge]) -> Result<Rows, AllocError>
    requires few { length edges.now ≤ MAX_EDGES }
    requires edges_in { All (CanAdd nodes) edges.now }
    ensures rows { IfOk result (λ rows. AreRows rows nodes) }
    ensures incidence { IfOk result (λ rows. IsIncidence edges.now nodes (row_at rows)) }
{
    let degrees = degrees_of(alloc, nodes, edges)?;
    let starts = starts_of(alloc, &degrees)?;
    let mut places = Vec::from_slice(alloc, starts.as_slice())?;
    let mut numbers = vec![in alloc; 0u32; starts[nodes as usize]]?;
    list_edges(edges, nodes, &starts, &mut places, &mut numbers);
    Ok(Rows { starts, numbers })
}
