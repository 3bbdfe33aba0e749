//! The checker of sheets: whether a printed fit is optimal, by its flows alone.
//!
//! [`verdict_sheet`] tells the first thing that is wrong with a sheet, or that it passes; the values
//! of a sheet that passes are optimal, and would be under any other loss with the laws of `Loss`
//! ([`passing_is_best`]). [`verdict_unimodal`] does the same for a peaked sheet, against all values that rise
//! up to some peak and fall from it ([`passing_peaked_is_best`]). They know nothing of how fits are found, and take no memory.
#![tactic(auto)]

mod balance;
mod check;
mod flows;
mod laws;
mod peak;
mod values;
mod verdict;

pub use check::verdict_sheet;
pub use laws::{passing_is_best, passing_peaked_is_best};
pub use peak::{PeakVerdict, cost_of_side, verdict_unimodal};
pub use verdict::Verdict;
