//! What a balance of flows answers.

use crate::amounts::Amounts;
use crate::members::Members;

/// Flows within the spans, or a set of nodes that shows that there are none.
#[derive(Drop)]
pub enum Balanced {
    /// An amount for each pair.
    Flows(Amounts),
    /// An upper set without an open least end whose least balances sum to more than 0.
    Above(Members),
    /// A lower set without an open greatest end whose greatest balances sum to less than 0.
    Below(Members),
}
