//! The chain fit: each group's value is at most the next one's. The groups come together, or one after
//! another on a [`Stack`].
#![tactic(auto)]

mod block;
mod fit;
mod stack;

pub use fit::fit_chain;
pub use stack::Stack;
