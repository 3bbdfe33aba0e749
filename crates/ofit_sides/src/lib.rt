//! The sides of an unknown peak under the median: for each number of first groups a chain fit that
//! rises, and for each place a chain fit of the groups from it on that falls. Each comes with amounts
//! that certify it.
//!
//! [`rises_of`] and [`falls_of`] make them. Their values are least fits without bounds, so they are
//! values of rows: whole, and within the limits of rows.
#![tactic(auto)]

mod chain;
mod groups;
mod laws;
mod sides;
mod steps;
mod turn;
mod values;

pub use groups::groups_in_order;
pub use laws::least_medians_are_row_values;
pub use sides::{falls_of, rises_of};
pub use values::whole_values;
