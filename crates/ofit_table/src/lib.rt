//! Data tables, order files and patterns: what gives a study its rows and pairs. Texts are read as records
//! of comma-separated fields, by the names of a header, and answered with the first fault otherwise.
#![tactic(auto)]

mod column;
mod data;
mod fault;
mod header;
mod laws;
mod pair_set;
mod pairs;
mod row;
mod shape;

pub use column::Column;
pub use data::read_data;
pub use fault::{DataFault, OrderFault};
pub use laws::{
    orders_are_read_in_one_way, patterns_are_read_in_one_way, tables_are_read_in_one_way,
};
pub use pairs::read_pairs;
pub use shape::shape_pairs;
