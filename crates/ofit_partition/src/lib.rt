//! Fits of groups in any order, by recursion on cuts: the groups are pooled, and cut in two by an upper
//! set at the pooled value, until each part has one value. Cycles, pairs with equal ends and equal pairs
//! are allowed.
#![tactic(auto)]

mod cut;
mod fit;
mod piece;
mod pool;
mod upper;
mod work;

pub use fit::partition;
