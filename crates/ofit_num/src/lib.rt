//! Exact numbers and observations: fractions in lowest terms, rows, groups, number texts and the
//! tally of fits. The definitions that every contract of the suite cites stand in `specs/`.
#![tactic(auto)]

mod decimal;
mod divisor;
mod frac;
mod groups;
mod laws;
mod limits;
mod row;
mod tally;
mod terms;
mod text;
mod whole;

pub use decimal::{
    NumFault, append_decimal, decimal_texts_are_canonical, decimals_are_read_back, read_decimal,
};
pub use frac::{Frac, tell_lowest};
pub use groups::Groups;
pub use laws::{
    best_is_settled, least_best_values_are_unique, signed_texts_are_canonical,
    whole_texts_are_canonical,
};
pub use limits::{
    LONGEST_FILE, LONGEST_NAME, MOST_AMOUNT, MOST_DEN, MOST_GROUPS, MOST_NUM, MOST_PAIRS,
    MOST_ROWS, MOST_UNITS, MOST_WEIGHT,
};
pub use row::Row;
pub use tally::Tally;
pub use terms::lowest;
pub use text::{append_signed, append_whole};
pub use whole::{WholeFault, read_signed, read_whole};
