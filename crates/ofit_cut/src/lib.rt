//! Greatest upper and lower sets of nodes, and flows along pairs within spans, in whole numbers.
//!
//! A pair (low, high) of nodes says that the low one is below the high one. A set of nodes is
//! **upper** where it holds the high end of each pair whose low end it holds, and **lower** where it
//! holds the low end of each pair whose high end it holds. Pairs with equal ends limit no set; pairs
//! may stand more than once and close cycles.
//!
//! [`upper_cut`] and [`lower_cut`] find a set of the greatest sum of weights by one minimum cut.
//! [`balance_flow`] finds flows along the pairs whose balance at each node lies in the node's span, or
//! a set that shows that there are none: leaves are peeled in linear time, and one maximum flow runs
//! along the pairs that are left, so that a forest takes none; a set against flows takes up to four.
//! All sums stay within 128 bits. The cuts are as slow as [`ofit_flow`]'s maximum flow is on such nets.
#![tactic(auto)]

mod amounts;
mod balance;
mod balanced;
mod balances;
mod cut;
mod edges;
mod limits;
mod members;
mod peel;
mod peeled;
mod settle;
mod slack;
mod solve;
mod span;
mod tie;
mod two_core;

pub use amounts::Amounts;
pub use balance::balance_flow;
pub use balanced::Balanced;
pub use cut::{lower_cut, upper_cut};
pub use limits::{MAX_NODES, MAX_PAIRS};
pub use members::Members;
pub use span::Span;
pub use tie::Tie;
