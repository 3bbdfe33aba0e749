//! The spans of a study's groups: the balances at which a value is optimal for a group, by the loss
//! that the study names and the bounds of the group.
#![tactic(auto)]

mod span;

pub use span::{OpenSpan, span_of};
