//! Reports of fits: the text that analysts read, with values as decimals, blocks and what each block costs.
//!
//! [`blocks`] numbers the blocks of a fit, the largest sets of groups of equal value that pairs join.
//! [`count_components`] and [`count_blocks`] count a study's components and the blocks of a fit.
//! [`write_report`] writes the report of a study with the values of an optimal fit.
#![tactic(auto)]

mod block;
mod cost;
mod count;
mod header;
mod laws;
mod records;
mod report;
mod rows;

pub use block::blocks;
pub use count::{count_blocks, count_components};
pub use laws::reports_are_told_in_one_way;
pub use report::write_report;
