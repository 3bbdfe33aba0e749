//! Maximum flow with its smallest and largest minimum cuts, in whole numbers (Ford and Fulkerson
//! 1956).
//!
//! A [`Net`] is made of nodes and edges, and its `max_flow` answers a [`Flowed`]: an amount for each
//! edge, in the order in which the edges were added, and for each node whether the source still
//! reaches it and whether it still reaches the sink. These two sides are the extreme minimum cuts.
//!
//! The flow is found by level graphs (Dinic 1970), in at most as many phases as there are nodes, which
//! [`Phases`] counts. It is slow on nets with many long paths. Amounts and their sums stay within 128
//! bits: 50,000 edges of at most 2·10^33 come to 10^38, and 2^127 is above 1.7·10^38.
#![tactic(auto)]

mod augment;
mod blocking;
mod edge;
mod flow;
mod flowed;
mod incidence;
mod laws;
mod levels;
mod maximum;
mod net;
mod phases;
mod rows;
mod side;
mod step;
mod walk;

pub use edge::{Edge, MAX_CAPACITY, MAX_EDGES};
pub use flowed::Flowed;
pub use laws::{equal_is_optimal, weak_duality};
pub use net::Net;
pub use phases::Phases;
