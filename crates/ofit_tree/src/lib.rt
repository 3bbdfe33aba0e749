//! The tree fit: each group's value is at most its parent's, or at least its parent's.
#![tactic(auto)]

mod block;
mod direction;
mod entry;
mod fit;
mod forest;
mod labels;
mod slot;
mod tree;
mod waiting;

pub use direction::Direction;
pub use fit::fit_tree;
