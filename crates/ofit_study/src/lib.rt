//! A study: what is fitted. Rows of named groups, pairs of groups, and the settings of a fit.
//!
//! [`Study`] holds them and keeps their limits: 100,000 rows, 2,000 groups, 20,000 pairs and a total
//! weight of 10^10. Groups are numbered in the order of their first rows. An [`Edit`] gives another study.
#![tactic(auto)]

mod adding;
mod bound;
mod changing;
mod check;
mod edit;
mod edited;
mod ends;
mod entry;
mod fault;
mod field;
mod groups;
mod laws;
mod list;
mod loss;
mod name;
mod names;
mod pairs;
mod pattern;
mod settings;
mod splice;
mod study;
mod tight;

pub use bound::bound_name;
pub use edit::{Edit, End};
pub use fault::{AddFault, EditFault};
pub use field::{BadRow, BadWeight, number_in, read_row_number, read_value, read_weight};
pub use laws::{groups_are_within_limits, groups_hold_the_rows, pairs_join_groups};
pub use loss::LossKind;
pub use name::{Name, is_name};
pub use pattern::Pattern;
pub use settings::Settings;
pub use study::{RowChange, Study};
pub use tight::{is_tight, tight_pairs};
