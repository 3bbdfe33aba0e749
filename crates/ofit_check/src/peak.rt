//! The check of peaked sheets.

mod check;
mod cost;
mod shape;
mod sides;
mod slope;
mod steps;
mod verdict;

pub use check::verdict_unimodal;
pub use cost::cost_of_side;
pub use verdict::PeakVerdict;
