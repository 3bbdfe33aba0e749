//! Orders of places by pairs: connected components and their forms.
//!
//! [`check_order`] takes pairs of places, low and high, and gives an [`Order`]: the distinct pairs in
//! order, the components that they join, the members of each, and its [`Form`], whether it is a chain,
//! a tree whose paths run together upwards or downwards, or none of these. For n places and m pairs it
//! takes O((n + m) log n) time and linear memory. What an [`Order`] tells takes no memory.
#![tactic(auto)]

mod build;
mod degrees;
mod form;
mod members;
mod neighbours;
mod order;
mod pairs;
mod search;
mod walk;

pub use build::check_order;
pub use form::Form;
pub use order::Order;
pub use walk::Walk;
